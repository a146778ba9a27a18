ghost use Rattle.std.specs.Prelude.{◌≡◌, ◌↔◌, ◌⊎◌, ◌+◌, ◌/◌, ◌%◌, ◌^◌, ◌<◌, ◌≤◌, ◌++◌, Some, length, OnOk, OnErr, IsErr, IsTrue, is_err};
ghost use Rattle.rand_chacha.specs.ChaCha.{key_of};
ghost use Rattle.outside_mem.specs.Plan.{no_faults, fails_next, after, failing_at};
ghost use Rattle.outside_mem.specs.Words.{words_from, drawn_bytes};

use crate::plan::FaultPlan;
use outside::{Entropy, Failed};
use rand_chacha::ChaCha20Rng;
use rand_core::SeedableRng;
use rand_core::utils::NextWord;
use std::alloc::Global;
use std::marker::Model;

const MAX_WORDS: u128 = 1 << 64;

/// The words of ChaCha20's stream 0 from a seed, each as four bytes, the least significant first: 2^64 of them. Clauses see
/// the key, how many words were drawn, and its counts.
#[derive(Drop)]
pub struct SeedEntropy {
    generator: ChaCha20Rng,
    plan: FaultPlan,
}

impl Model for SeedEntropy {
    ghost use Rattle.std.specs.Prelude.{◌≡◌, ◌≤◌, ◌^◌};
    ghost use Rattle.outside_mem.specs.Words.{Drawing};

    ghost Value = { Drawing };

    ghost view = { λ a. record {
      key = a.generator.key;
      words = a.generator.word_pos;
      plan = a.plan;
    } };

    ghost invariant = { λ a. (a.generator.stream ≡ 0) × (a.generator.word_pos ≤ 2 ^ 64) };
}

impl SeedEntropy {
    /// The bytes from this seed.
    pub fn from_seed(alloc: Global, seed: [u8; 32]) -> SeedEntropy
        ensures { result ≡ record { key = key_of seed; words = 0; plan = no_faults } }
    {
        SeedEntropy {
            generator: ChaCha20Rng::from_seed(seed),
            plan: FaultPlan::new(alloc),
        }
    }

    /// The calls of these numbers, from 0, shall fail.
    pub fn failing_at(mut self, calls: Vec<u64>) -> SeedEntropy
        ensures { result ≡ record self { plan = failing_at self.plan calls.items } }
    {
        self.plan.set_failing(calls);
        self
    }

    /// How many calls have failed.
    pub fn fault_count(&self) -> u64
        ensures { result ≡ self.now.plan.faults }
    {
        self.plan.faults()
    }
}

impl Entropy for SeedEntropy {
    ghost drawn = { λ s. Some (drawn_bytes s) };

    ghost faults = { λ s. s.plan.faults };

    // Fails at a listed call, and if there aren't as many words.
    fn fill(&mut self, out: &mut [u8]) -> Result<(), Failed>
        requires { length out.old % 4 ≡ 0 }
        ensures drawn { OnOk result (drawn_bytes self.new ≡ drawn_bytes self.old ++ out.new) }
        ensures failed { OnErr result (self.new.words ≡ self.old.words) }
        ensures listed { IsErr result ↔ (IsTrue (fails_next self.old.plan) ⊎ (2 ^ 64 < self.old.words + length out.old / 4)) }
        ensures plan { self.new.plan ≡ after self.old.plan (is_err result) }
        ensures key { self.new.key ≡ self.old.key }
    {
        if self.plan.next_fails() {
            return Err(Failed);
        }
        let words = (out.len() / 4) as u128;
        if self.generator.get_word_pos() + words > MAX_WORDS {
            self.plan.add_fault();
            return Err(Failed);
        }
        fill_words(&mut self.generator, out);
        Ok(())
    }
}

fn fill_words(generator: &mut ChaCha20Rng, out: &mut [u8])
    requires whole { length out.old % 4 ≡ 0 }
    requires stream { generator.old.stream ≡ 0 }
    requires enough { generator.old.word_pos + length out.old / 4 ≤ 2 ^ 64 }
    ensures words { out.new ≡ words_from generator.old.key generator.old.word_pos (length out.old / 4) }
    ensures place { generator.new ≡ record generator.old { word_pos = generator.old.word_pos + length out.old / 4 } }
{
    for index in 0..out.len() / 4 {
        let word = generator.next_word().to_le_bytes();
        out[4 * index..4 * index + 4].copy_from_slice(&word);
    }
}
