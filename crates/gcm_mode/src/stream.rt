// A text xored with the encrypted counter blocks (SP 800-38D, 6.5).

ghost use Rattle.std.specs.Prelude.{◌≡◌, ◌≤◌, ◌<◌, ◌+◌, ◌*◌, ◌/◌, ◌%◌, ◌^◌, slice_index_or, [], ℕ, List, length};
ghost use Rattle.aes_block.specs.Aes.{aes};
ghost use Rattle.aes_block.specs.Bytes.{MakesBlocks};
ghost use Rattle.gcm_mode.specs.Gcm.{counted, counter_block};
ghost use Rattle.aes_kernels.specs.Circuit.{AreRoundKeys};
ghost use Rattle.gcm_mode.specs.Counted.{Counted};

use aes_block::{BlockKey, xor_onto};
use aes_kernels::{LaneKey, RoundKeys, encrypted_eight, round_keys};

pub(crate) const BLOCK_LEN: usize = 16;

const NONCE_LEN: usize = 12;

// The counter block for the first block of a text; 1 is the tag's (7.1, steps 2 and 3).
const FIRST_COUNTER: u32 = 2;

// How many blocks are encrypted at a time by lanes, and how many bitsliced.
const LANES: usize = 4;

const BITSLICED: usize = 8;

// The fewest bytes of a text for which it pays to bring the round keys into planes.
const LONG: usize = 512;

// Counter block i of a nonce.
fn counter_block(nonce: &[u8; NONCE_LEN], i: u32) -> [u8; BLOCK_LEN]
    ensures { result ≡ counter_block nonce.now i }
{
    let mut block = [0u8; BLOCK_LEN];
    block[..NONCE_LEN].copy_from_slice(nonce);
    block[NONCE_LEN..].copy_from_slice(&i.to_be_bytes());
    block
}

// Four encrypted counter blocks, from `first` on, modulo 2^32.
fn four_masks(key: &LaneKey, nonce: &[u8; NONCE_LEN], first: u32) -> [[u8; BLOCK_LEN]; LANES]
    ensures { (j : ℕ) → j < LANES → slice_index_or result j []
        ≡ aes key.now (counter_block nonce.now ((first + j) % 2 ^ 32)) }
{
    key.encrypted_four(&[
        counter_block(nonce, first),
        counter_block(nonce, first.wrapping_add(1)),
        counter_block(nonce, first.wrapping_add(2)),
        counter_block(nonce, first.wrapping_add(3)),
    ])
}

// Eight encrypted counter blocks, from `first` on, modulo 2^32.
#[inline(always)]
fn eight_masks(
    keys: &RoundKeys,
    nonce: &[u8; NONCE_LEN],
    first: u32,
) -> [[u8; BLOCK_LEN]; BITSLICED]
    ensures { (key : List ℕ) → AreRoundKeys key keys.now → (j : ℕ) → j < BITSLICED
        → slice_index_or result j [] ≡ aes key (counter_block nonce.now ((first + j) % 2 ^ 32)) }
{
    encrypted_eight(
        keys,
        &[
            counter_block(nonce, first),
            counter_block(nonce, first.wrapping_add(1)),
            counter_block(nonce, first.wrapping_add(2)),
            counter_block(nonce, first.wrapping_add(3)),
            counter_block(nonce, first.wrapping_add(4)),
            counter_block(nonce, first.wrapping_add(5)),
            counter_block(nonce, first.wrapping_add(6)),
            counter_block(nonce, first.wrapping_add(7)),
        ],
    )
}

/// The encrypted counter block 1, which masks the tag (7.1, step 6).
pub(crate) fn tag_mask(key: &LaneKey, nonce: &[u8; NONCE_LEN]) -> [u8; BLOCK_LEN]
    ensures { result ≡ aes key.now (counter_block nonce.now 1) }
{
    four_masks(key, nonce, 1)[0]
}

// Xors masks onto a text, from block `start` on.
#[inline(always)]
fn xor_masks(text: &mut [u8], start: usize, masks: &[[u8; BLOCK_LEN]])
    requires { 16 * (start + length masks.now) ≤ length text.old }
    ensures { (cipher : List ℕ → List ℕ) (nonce old : List ℕ) → MakesBlocks cipher
        → length old ≡ length text.old → Counted cipher nonce old start text.old
        → ((j : ℕ) → j < length masks.now → slice_index_or masks.now j []
        ≡ cipher (counter_block nonce (start + j + 2)))
        → Counted cipher nonce old (start + length masks.now) text.new }
{
    for (j, mask) in masks.iter().enumerate() {
        let at = BLOCK_LEN * (start + j);
        xor_onto(&mut text[at..at + BLOCK_LEN], mask);
    }
}

// Xors encrypted counter blocks, `first` and the next, onto what is left of a text from block
// `start` on, which is less than four blocks.
fn xor_rest(key: &LaneKey, nonce: &[u8; NONCE_LEN], first: u32, text: &mut [u8], start: usize)
    requires within { 16 * start ≤ length text.old }
    requires short { length text.old < 16 * start + 64 }
    requires counter { first ≡ (start + 2) % 2 ^ 32 }
    ensures { (old : List ℕ) → length old ≡ length text.old
        → Counted (aes key.now) nonce.now old start text.old
        → text.new ≡ counted (aes key.now) nonce.now old }
{
    key.key().makes_blocks();
    let masks = four_masks(key, nonce, first);
    for i in start..text.len().div_ceil(BLOCK_LEN) {
        let at = BLOCK_LEN * i;
        let end = text.len().min(at + BLOCK_LEN);
        xor_onto(&mut text[at..end], &masks[i - start]);
    }
}

// Xors encrypted counter blocks, from 2 on, onto the first groups of eight blocks of a text, and
// returns the counter after them.
fn xor_groups(key: &LaneKey, nonce: &[u8; NONCE_LEN], text: &mut [u8], groups: usize) -> u32
    requires { 128 * groups ≤ length text.old }
    ensures counter { result ≡ (8 * groups + 2) % 2 ^ 32 }
    ensures text { Counted (aes key.now) nonce.now text.old (8 * groups) text.new }
{
    if groups == 0 {
        return FIRST_COUNTER;
    }
    key.key().makes_blocks();
    let keys = round_keys(key.key());
    let mut counter = FIRST_COUNTER;
    for i in 0..groups {
        let masks = eight_masks(&keys, nonce, counter);
        xor_masks(text, BITSLICED * i, &masks);
        counter = counter.wrapping_add(BITSLICED as u32);
    }
    counter
}

/// Encrypts or decrypts a text in place, from counter block 2 on.
pub(crate) fn count_over(key: &LaneKey, nonce: &[u8; NONCE_LEN], text: &mut [u8])
    ensures { text.new ≡ counted (aes key.now) nonce.now text.old }
{
    key.key().makes_blocks();
    let done = if text.len() < LONG {
        0
    } else {
        text.len() / (BLOCK_LEN * BITSLICED)
    };
    let mut counter = xor_groups(key, nonce, text, done);
    let groups = text.len() / (BLOCK_LEN * LANES);
    for i in BITSLICED / LANES * done..groups {
        let masks = four_masks(key, nonce, counter);
        xor_masks(text, LANES * i, &masks);
        counter = counter.wrapping_add(LANES as u32);
    }
    if text.len() > BLOCK_LEN * LANES * groups {
        xor_rest(key, nonce, counter, text, LANES * groups);
    }
}
