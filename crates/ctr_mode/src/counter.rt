ghost use Rattle.std.specs.Prelude.{◌≡◌, ◌<◌, ◌+◌, ◌*◌, ℕ, List, [], length, slice_index_or};
ghost use Rattle.aes_block.specs.Bytes.{MakesBlocks};
ghost use Rattle.ctr_mode.specs.Counter.{counted, counter_block};
ghost use Rattle.ctr_mode.specs.Counted.{IsCountedTo};

use aes_block::{BlockKey, xor_onto};

const BLOCK_LENGTH: usize = 16;

// How many counter blocks are encrypted at a time.
const GROUP: usize = 32;

// Encrypts counter blocks, `first` and the next, modulo 2^128.
fn encrypt_counters<K: BlockKey>(key: &K, first: u128, masks: &mut [[u8; BLOCK_LENGTH]])
    ensures { (j : ℕ) → j < length masks.new → slice_index_or masks.new j []
        ≡ K.cipher key.now (counter_block first j) }
{
    for j in 0..masks.len() {
        masks[j] = first.wrapping_add(j as u128).to_be_bytes();
    }
    key.encrypt_blocks(masks);
}

// Xors encrypted counter blocks onto a text, from block `start` on.
fn xor_masks(text: &mut [u8], start: usize, masks: &[[u8; BLOCK_LENGTH]])
    requires { 16 * (start + length masks.now) < length text.old + 16 }
    ensures { (cipher : List ℕ → List ℕ) (first : ℕ) (old : List ℕ) → MakesBlocks cipher
        → length old ≡ length text.old → IsCountedTo cipher first old text.old start
        → ((j : ℕ) → j < length masks.now → slice_index_or masks.now j []
        ≡ cipher (counter_block first (start + j)))
        → IsCountedTo cipher first old text.new (start + length masks.now) }
{
    for (j, mask) in masks.iter().enumerate() {
        let at = BLOCK_LENGTH * (start + j);
        let end = text.len().min(at + BLOCK_LENGTH);
        xor_onto(&mut text[at..end], mask);
    }
}

/// Encrypts or decrypts a text in place, with the counters from `first` on, modulo 2^128 (SP 800-38A, 6.5).
pub fn apply_keystream<K: BlockKey>(key: &K, first: u128, text: &mut [u8])
    ensures { text.new ≡ counted (K.cipher key.now) first text.old }
{
    key.makes_blocks();
    let blocks = text.len().div_ceil(BLOCK_LENGTH);
    for i in 0..blocks.div_ceil(GROUP) {
        let start = GROUP * i;
        let mut room = [[0; BLOCK_LENGTH]; GROUP];
        let masks = &mut room[..(blocks - start).min(GROUP)];
        encrypt_counters(key, first.wrapping_add(start as u128), masks);
        xor_masks(text, start, masks);
    }
}
