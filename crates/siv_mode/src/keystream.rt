ghost use Rattle.std.specs.Prelude.{◌≡◌, ◌<◌, ◌+◌, ◌*◌, ◌%◌, ◌^◌, ℕ, List, [], length, slice_index_or};
ghost use Rattle.aes_block.specs.Bytes.{MakesBlocks, bytes_of};
ghost use Rattle.siv_mode.specs.Siv.{counted};
ghost use Rattle.siv_mode.specs.Counted.{IsCountedTo, encrypted_counter};

use aes_block::{BlockKey, xor_onto};

// All bits of a counter but the top one of each of its last two 32-bit words (RFC 5297, 2.5).
const KEPT: u128 = !(1 << 63 | 1 << 31);

const BLOCK_LEN: usize = 16;

// How many counters are encrypted at a time.
const GROUP: usize = 4;

// Encrypts counters, `first` and the next, modulo 2^128.
fn encrypt_counters<K: BlockKey>(key: &K, first: u128, masks: &mut [[u8; BLOCK_LEN]])
    ensures { (j : ℕ) → j < length masks.new → slice_index_or masks.new j []
        ≡ K.cipher key.now (bytes_of 16 ((first + j) % 2 ^ 128)) }
{
    for j in 0..masks.len() {
        masks[j] = first.wrapping_add(j as u128).to_be_bytes();
    }
    key.encrypt_blocks(masks);
}

// Xors encrypted counters onto a text, from block `start` on.
fn xor_masks(text: &mut [u8], start: usize, masks: &[[u8; BLOCK_LEN]])
    requires { 16 * (start + length masks.now) < length text.old + 16 }
    ensures { (cipher : List ℕ → List ℕ) (first : ℕ) (old : List ℕ) → MakesBlocks cipher
        → length old ≡ length text.old → IsCountedTo cipher first old text.old start
        → ((j : ℕ) → j < length masks.now → slice_index_or masks.now j []
        ≡ encrypted_counter cipher first (start + j))
        → IsCountedTo cipher first old text.new (start + length masks.now) }
{
    for (j, mask) in masks.iter().enumerate() {
        let at = BLOCK_LEN * (start + j);
        let end = text.len().min(at + BLOCK_LEN);
        xor_onto(&mut text[at..end], mask);
    }
}

/// Encrypts or decrypts a text in place, with the counters that its tag begins (RFC 5297, 2.5).
pub(crate) fn apply_keystream<K: BlockKey>(key: &K, tag: [u8; 16], text: &mut [u8])
    ensures { text.new ≡ counted (K.cipher key.now) tag text.old }
{
    key.makes_blocks();
    let first = u128::from_be_bytes(tag) & KEPT;
    let blocks = text.len().div_ceil(BLOCK_LEN);
    for i in 0..blocks.div_ceil(GROUP) {
        let start = GROUP * i;
        let mut room = [[0; BLOCK_LEN]; GROUP];
        let masks = &mut room[..(blocks - start).min(GROUP)];
        encrypt_counters(key, first.wrapping_add(start as u128), masks);
        xor_masks(text, start, masks);
    }
}
