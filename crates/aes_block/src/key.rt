ghost use Rattle.std.specs.Prelude.{◌≡◌, ◌≤◌, ℕ, List, length, map, take};
ghost use Rattle.aes_block.specs.Aes.{aes, inverse_aes, key_schedule, round_key};
ghost use Rattle.aes_block.specs.Bytes.{AreBytes, MakesBlocks};

use crate::cipher::encrypt_block;
use crate::inverse_cipher::decrypt_block;
use crate::schedule::{expand_key, round_key};
use std::marker::Model;

// The words of a key, and the rounds that a block goes through (FIPS 197, 5, table 4).
const KEY_WORDS_128: usize = 4;

const KEY_WORDS_256: usize = 8;

const ROUNDS_128: usize = 10;

const ROUNDS_256: usize = 14;

/// A key of a block cipher on blocks of 16 bytes.
pub trait BlockKey {
    /// What the cipher makes of a block.
    ghost cipher: { Self → List ℕ → List ℕ };

    /// What the inverse cipher makes of a block.
    ghost inverse_cipher: { Self → List ℕ → List ℕ };

    /// Encrypts a block of 16 bytes in place: for AES by the cipher of FIPS 197, 5.1.
    fn encrypt(&self, block: &mut [u8; 16])
        ensures { block.new ≡ cipher self.now block.old };

    /// Decrypts a block of 16 bytes in place: for AES by the inverse cipher of FIPS 197, 5.3.
    fn decrypt(&self, block: &mut [u8; 16])
        ensures { block.new ≡ inverse_cipher self.now block.old };

    /// Encrypts each of the blocks in place, by itself.
    fn encrypt_blocks(&self, blocks: &mut [[u8; 16]])
        ensures { blocks.new ≡ map (cipher self.now) blocks.old }
    {
        for block in blocks.iter_mut() {
            self.encrypt(block);
        }
    }

    /// Encrypts eight blocks in place, as [`encrypt_blocks`](BlockKey::encrypt_blocks) does.
    fn encrypt8(&self, blocks: &mut [[u8; 16]; 8])
        ensures { blocks.new ≡ map (cipher self.now) blocks.old }
    {
        self.encrypt_blocks(blocks);
    }

    /// States that what the ciphers make is always a block of 16 bytes. It does nothing.
    fn makes_blocks(&self)
        ensures cipher { MakesBlocks (cipher self.now) }
        ensures inverse { MakesBlocks (inverse_cipher self.now) };
}

// States that the elements of a slice of bytes are bytes. It does nothing.
fn each_is_a_byte(bytes: &[u8])
    ensures { AreBytes bytes.now }
{
    let _length = bytes.len();
}

/// An AES key of 32 bytes, expanded for 14 rounds (FIPS 197, section 5). Clauses see its bytes.
#[derive(Drop)]
pub struct Key256 {
    schedule: [u8; 240],
}

impl Model for Key256 {
    ghost Value = { List ℕ };

    ghost view = { λ k. take 32 k.schedule };

    ghost invariant = { λ k. k.schedule ≡ key_schedule (take 32 k.schedule) };
}

impl Key256 {
    /// The key of 32 bytes, expanded as in FIPS 197, section 5.2.
    pub fn new(key: &[u8; 32]) -> Key256
        ensures { result ≡ key.now }
    {
        let mut schedule = [0; 240];
        schedule[..32].copy_from_slice(key);
        expand_key(&mut schedule, KEY_WORDS_256);
        Key256 { schedule }
    }

    /// The same key once more.
    pub fn copied(&self) -> Key256
        ensures { result ≡ self.now }
    {
        Key256 {
            schedule: self.schedule,
        }
    }

    /// The key's 32 bytes.
    pub fn bytes(&self) -> [u8; 32]
        ensures { result ≡ self.now }
    {
        let mut bytes = [0; 32];
        bytes.copy_from_slice(&self.schedule[..32]);
        bytes
    }

    /// Round key `round` of the key schedule (FIPS 197, 5.2), of 15 that there are.
    pub fn round_key(&self, round: usize) -> [u8; 16]
        requires { round ≤ 14 }
        ensures { result ≡ round_key (key_schedule self.now) round }
    {
        round_key(&self.schedule, round)
    }

    /// States that the key has 32 bytes. It does nothing.
    pub fn has_32_bytes(&self)
        ensures long { length self.now ≡ 32 }
        ensures bytes { AreBytes self.now }
    {
        each_is_a_byte(&self.schedule);
    }
}

impl BlockKey for Key256 {
    ghost cipher = { λ k block. aes k block };

    ghost inverse_cipher = { λ k block. inverse_aes k block };

    fn encrypt(&self, block: &mut [u8; 16]) {
        encrypt_block(&self.schedule, ROUNDS_256, block);
    }

    fn decrypt(&self, block: &mut [u8; 16]) {
        decrypt_block(&self.schedule, ROUNDS_256, block);
    }

    fn makes_blocks(&self) {
        self.has_32_bytes();
    }
}

/// An AES key of 16 bytes, expanded for 10 rounds (FIPS 197, section 5). Clauses see its bytes.
#[derive(Drop)]
pub struct Key128 {
    schedule: [u8; 176],
}

impl Model for Key128 {
    ghost Value = { List ℕ };

    ghost view = { λ k. take 16 k.schedule };

    ghost invariant = { λ k. k.schedule ≡ key_schedule (take 16 k.schedule) };
}

impl Key128 {
    /// The key of 16 bytes, expanded as in FIPS 197, section 5.2.
    pub fn new(key: &[u8; 16]) -> Key128
        ensures { result ≡ key.now }
    {
        let mut schedule = [0; 176];
        schedule[..16].copy_from_slice(key);
        expand_key(&mut schedule, KEY_WORDS_128);
        Key128 { schedule }
    }

    /// The same key once more.
    pub fn copied(&self) -> Key128
        ensures { result ≡ self.now }
    {
        Key128 {
            schedule: self.schedule,
        }
    }

    /// The key's 16 bytes.
    pub fn bytes(&self) -> [u8; 16]
        ensures { result ≡ self.now }
    {
        let mut bytes = [0; 16];
        bytes.copy_from_slice(&self.schedule[..16]);
        bytes
    }

    /// Round key `round` of the key schedule (FIPS 197, 5.2), of 11 that there are.
    pub fn round_key(&self, round: usize) -> [u8; 16]
        requires { round ≤ 10 }
        ensures { result ≡ round_key (key_schedule self.now) round }
    {
        round_key(&self.schedule, round)
    }

    /// States that the key has 16 bytes. It does nothing.
    pub fn has_16_bytes(&self)
        ensures long { length self.now ≡ 16 }
        ensures bytes { AreBytes self.now }
    {
        each_is_a_byte(&self.schedule);
    }
}

impl BlockKey for Key128 {
    ghost cipher = { λ k block. aes k block };

    ghost inverse_cipher = { λ k block. inverse_aes k block };

    fn encrypt(&self, block: &mut [u8; 16]) {
        encrypt_block(&self.schedule, ROUNDS_128, block);
    }

    fn decrypt(&self, block: &mut [u8; 16]) {
        decrypt_block(&self.schedule, ROUNDS_128, block);
    }

    fn makes_blocks(&self) {
        self.has_16_bytes();
    }
}
