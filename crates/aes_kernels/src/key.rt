ghost use Rattle.std.specs.Prelude.{◌≡◌, ℕ, List, map};
ghost use Rattle.aes_block.specs.Aes.{aes, inverse_aes};
ghost use Rattle.aes_block.specs.Bytes.{AreBytes};
ghost use Rattle.aes_kernels.specs.Nibbles.{IsBlock, first_round_of, formed, last_round_of, round_of};

use crate::nibbles::{based, first_round, flipped, last_round, round};
use aes_block::{BlockKey, Key256};
use std::marker::Model;
use std::simd::u8x16;

// Round key `round` in the form that its round takes.
fn formed(round: usize, key: [u8; 16]) -> [u8; 16]
    ensures { result ≡ formed round key }
{
    let key = u8x16::from_array(key);
    if round == 0 {
        return based(key).to_array();
    }
    let flipped = flipped(key);
    if round == 14 {
        return flipped.to_array();
    }
    based(flipped).to_array()
}

// States that the elements of a slice of bytes are bytes. It does nothing.
#[inline(always)]
fn each_is_a_byte(bytes: &[u8])
    ensures { AreBytes bytes.now }
{
    let _length = bytes.len();
}

// States that an array of 16 bytes is a block. It does nothing.
#[inline(always)]
fn is_block(block: &[u8; 16])
    ensures { IsBlock block.now }
{
    each_is_a_byte(block);
}

#[inline(always)]
fn first_rounds(x: [u8x16; 4], key: u8x16) -> [u8x16; 4]
    ensures { result ≡ map (first_round_of key) x }
{
    [
        first_round(x[0], key),
        first_round(x[1], key),
        first_round(x[2], key),
        first_round(x[3], key),
    ]
}

#[inline(always)]
fn rounds(x: [u8x16; 4], key: u8x16) -> [u8x16; 4]
    ensures { result ≡ map (round_of key) x }
{
    [
        round(x[0], key),
        round(x[1], key),
        round(x[2], key),
        round(x[3], key),
    ]
}

#[inline(always)]
fn last_rounds(x: [u8x16; 4], key: u8x16) -> [u8x16; 4]
    ensures { result ≡ map (last_round_of key) x }
{
    [
        last_round(x[0], key),
        last_round(x[1], key),
        last_round(x[2], key),
        last_round(x[3], key),
    ]
}

/// An AES key of 32 bytes, made ready for four blocks at a time. Clauses see its bytes.
#[derive(Drop)]
pub struct LaneKey {
    key: Key256,
    round_keys: [[u8; 16]; 15],
}

impl Model for LaneKey {
    ghost use Rattle.std.specs.Prelude.{ℕ, List};
    ghost use Rattle.aes_kernels.specs.Nibbles.{AreRoundKeys, IsKey};

    ghost Value = { List ℕ };

    ghost view = { λ k. k.key };

    ghost invariant = { λ k. IsKey k.key × AreRoundKeys k.key k.round_keys };
}

impl LaneKey {
    /// The same key, made ready.
    pub fn new(key: Key256) -> LaneKey
        ensures { result ≡ key }
    {
        each_is_a_byte(&key.bytes());
        let mut round_keys = [[0; 16]; 15];
        for round in 0..15usize {
            round_keys[round] = formed(round, key.round_key(round));
        }
        LaneKey { key, round_keys }
    }

    /// The same key once more.
    pub fn copied(&self) -> LaneKey
        ensures { result ≡ self.now }
    {
        LaneKey {
            key: self.key.copied(),
            round_keys: self.round_keys,
        }
    }

    /// The key as it was made from.
    pub fn key(&self) -> &Key256
        ensures { result.now ≡ self.now }
    {
        &self.key
    }

    /// Encrypts four blocks.
    #[inline(always)]
    pub fn encrypted_four(&self, blocks: &[[u8; 16]; 4]) -> [[u8; 16]; 4]
        ensures { result ≡ map (aes self.now) blocks.now }
    {
        is_block(&blocks[0]);
        is_block(&blocks[1]);
        is_block(&blocks[2]);
        is_block(&blocks[3]);
        let x = [
            u8x16::from_array(blocks[0]),
            u8x16::from_array(blocks[1]),
            u8x16::from_array(blocks[2]),
            u8x16::from_array(blocks[3]),
        ];
        let mut x = first_rounds(x, u8x16::from_array(self.round_keys[0]));
        for r in 1..14usize {
            let next = rounds(x, u8x16::from_array(self.round_keys[r]));
            x = next;
        }
        let x = last_rounds(x, u8x16::from_array(self.round_keys[14]));
        [
            x[0].to_array(),
            x[1].to_array(),
            x[2].to_array(),
            x[3].to_array(),
        ]
    }
}

impl BlockKey for LaneKey {
    ghost cipher = { λ k block. aes k block };

    ghost inverse_cipher = { λ k block. inverse_aes k block };

    // In one vector, which is quicker than a table by bytes.
    fn encrypt(&self, block: &mut [u8; 16]) {
        is_block(block);
        let mut x = first_round(
            u8x16::from_array(*block),
            u8x16::from_array(self.round_keys[0]),
        );
        for r in 1..14usize {
            let next = round(x, u8x16::from_array(self.round_keys[r]));
            x = next;
        }
        *block = last_round(x, u8x16::from_array(self.round_keys[14])).to_array();
    }

    fn decrypt(&self, block: &mut [u8; 16]) {
        self.key.decrypt(block);
    }

    // Four at a time, and the last ones each by itself.
    fn encrypt_blocks(&self, blocks: &mut [[u8; 16]]) {
        let groups = blocks.len() / 4;
        for i in 0..groups {
            let at = 4 * i;
            let made = self.encrypted_four(&[
                blocks[at],
                blocks[at + 1],
                blocks[at + 2],
                blocks[at + 3],
            ]);
            blocks[at] = made[0];
            blocks[at + 1] = made[1];
            blocks[at + 2] = made[2];
            blocks[at + 3] = made[3];
        }
        for i in 4 * groups..blocks.len() {
            self.encrypt(&mut blocks[i]);
        }
    }

    fn makes_blocks(&self) {
        self.key.makes_blocks();
    }
}
