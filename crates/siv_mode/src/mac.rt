ghost use Rattle.std.specs.Prelude.{◌≡◌, ◌+◌, ◌≤◌, ℕ, List, [], ◌++◌, length, take};
ghost use Rattle.aes_block.specs.Bytes.{xor_bytes};
ghost use Rattle.siv_mode.specs.Cmac.{cmac as cmac_of};
ghost use Rattle.siv_mode.specs.Absorbed.{HasAbsorbed};

use crate::blocks::{double, pad};
use aes_block::{BlockKey, xor_onto};

/// The message authentication code of a text, 16 bytes, as in SP 800-38B, section 6.2.
pub fn cmac<K: BlockKey>(key: &K, text: &[u8]) -> [u8; 16]
    ensures { result ≡ cmac_of (K.cipher key.now) text.now }
{
    let mut mac = RunningMac::new();
    mac.absorb(key, text);
    mac.finish(key)
}

/// A message authentication code of a text that comes in pieces.
#[derive(Drop)]
pub(crate) struct RunningMac {
    // The cipher chained over the blocks that are known not to be the last.
    chain: [u8; 16],
    // The bytes since, as many as `filled` says.
    block: [u8; 16],
    filled: usize,
    ghost fits: { filled ≤ 16 },
    // Of an array behind a reference, a proof doesn't know it after a call.
    ghost whole: { length block ≡ 16 },
}

impl RunningMac {
    pub(crate) fn new() -> RunningMac
        ensures { (cipher : List ℕ → List ℕ)
            → HasAbsorbed cipher result.chain result.block result.filled [] }
    {
        RunningMac {
            chain: [0; 16],
            block: [0; 16],
            filled: 0,
        }
    }

    /// Takes the next piece of the text.
    pub(crate) fn absorb<K: BlockKey>(&mut self, key: &K, piece: &[u8])
        ensures { (text : List ℕ)
            → HasAbsorbed (K.cipher key.now) self.old.chain self.old.block self.old.filled text
            → HasAbsorbed (K.cipher key.now) self.new.chain self.new.block self.new.filled
            (text ++ piece.now) }
    {
        let mut rest = piece;
        while rest.len() > 16 - self.filled {
            let (front, back) = rest.split_at(16 - self.filled);
            self.fill(front);
            self.chain_block(key);
            rest = back;
        }
        self.fill(rest);
    }

    // Adds bytes to the block, which has room for them.
    fn fill(&mut self, bytes: &[u8])
        requires { self.old.filled + length bytes.now ≤ 16 }
        ensures chain { self.new.chain ≡ self.old.chain }
        ensures filled { self.new.filled ≡ self.old.filled + length bytes.now }
        ensures block { take self.new.filled self.new.block
            ≡ take self.old.filled self.old.block ++ bytes.now }
    {
        let start = self.filled;
        let end = start + bytes.len();
        self.block[start..end].copy_from_slice(bytes);
        self.filled = end;
    }

    // Chains the cipher over the block, and begins the next one.
    fn chain_block<K: BlockKey>(&mut self, key: &K)
        ensures chain { self.new.chain ≡ K.cipher key.now (xor_bytes self.old.chain self.old.block) }
        ensures filled { self.new.filled ≡ 0 }
    {
        xor_onto(&mut self.chain, &self.block);
        key.encrypt(&mut self.chain);
        self.filled = 0;
    }

    /// The code of the whole text.
    pub(crate) fn finish<K: BlockKey>(self, key: &K) -> [u8; 16]
        ensures { (text : List ℕ)
            → HasAbsorbed (K.cipher key.now) self.chain self.block self.filled text
            → result ≡ cmac_of (K.cipher key.now) text }
    {
        let mut subkey = [0; 16];
        key.encrypt(&mut subkey);
        let mut last = double(subkey);
        if self.filled == 16 {
            xor_onto(&mut last, &self.block);
        } else {
            last = double(last);
            xor_onto(&mut last, &pad(&self.block[..self.filled]));
        }
        let mut tag = self.chain;
        xor_onto(&mut tag, &last);
        key.encrypt(&mut tag);
        tag
    }
}
