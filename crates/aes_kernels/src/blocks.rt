// Eight blocks at a time.

ghost use Rattle.std.specs.Prelude.{◌≡◌, ◌<◌, ℕ, List, ◌+◌, ◌*◌, [], bit_xor, length, map, slice_index, slice_index_or};
ghost use Rattle.aes_block.specs.Aes.{aes, key_schedule, round_key};
ghost use Rattle.aes_block.specs.Bytes.{AreBytes};
ghost use Rattle.aes_kernels.specs.Circuit.{AreKeyPlanes, ArePlanes, AreRoundKeys, HasBlocks, byte_at, flip, mixed, picked, row_places, source0, source1, source2, source3, substituted_at};

use crate::circuit::substituted;
use crate::columns::{add_key, mixed, shift_all};
use crate::planes::transposed;
use aes_block::{BlockKey, Key256};
use std::simd::u8x16;

/// The round keys of a key, each as eight planes: what `encrypted_eight` takes. No struct has them,
/// since its fields can't be arrays of vectors.
pub type RoundKeys = [[u8x16; 8]; 15];

// States that the elements of a slice of bytes are bytes. It does nothing.
#[inline(always)]
fn each_is_a_byte(bytes: &[u8])
    ensures { AreBytes bytes.now }
{
    let _length = bytes.len();
}

// The bytes of a block row by row, or back.
#[inline(always)]
fn by_rows(x: u8x16) -> u8x16
    ensures { result ≡ picked x row_places }
{
    x.swizzle([0, 4, 8, 12, 1, 5, 9, 13, 2, 6, 10, 14, 3, 7, 11, 15])
}

// A block's bytes, row by row.
#[inline(always)]
fn rows_of(block: [u8; 16]) -> u8x16
    ensures lanes { result ≡ picked block row_places }
    ensures size { length block ≡ 16 }
    ensures bytes { AreBytes result }
{
    let rows = by_rows(u8x16::from_array(block));
    each_is_a_byte(&rows.to_array());
    rows
}

// A round key, but for what the circuit leaves out.
fn flipped_key(key: &Key256, round: usize) -> [u8; 16]
    requires { round < 15 }
    ensures size { length (round_key (key_schedule key.now) round) ≡ 16 }
    ensures bytes { (i : ℕ) → i < 16 → slice_index result i ≡ bit_xor (slice_index (round_key (key_schedule key.now) round) i) (flip round) }
{
    let flip = if round == 0 { 0 } else { 0x63 };
    let bytes = key.round_key(round);
    let mut flipped = [0u8; 16];
    for i in 0..16usize {
        flipped[i] = bytes[i] ^ flip;
    }
    flipped
}

// The planes of a round key.
fn key_planes(key: &Key256, round: usize) -> [u8x16; 8]
    requires { round < 15 }
    ensures size { length (round_key (key_schedule key.now) round) ≡ 16 }
    ensures planes { AreKeyPlanes key.now round result }
{
    let rows = rows_of(flipped_key(key, round));
    transposed([rows, rows, rows, rows, rows, rows, rows, rows])
}

/// The round keys of a key (FIPS 197, 5.2), made ready for `encrypted_eight`.
pub fn round_keys(key: &Key256) -> RoundKeys
    ensures { AreRoundKeys key.now result }
{
    key.has_32_bytes();
    let zero = u8x16::splat(0);
    let mut keys = [[zero; 8]; 15];
    for r in 0..15usize {
        keys[r] = key_planes(key, r);
    }
    keys
}

// The block whose bytes are those row by row.
#[inline(always)]
fn block_of(rows: u8x16) -> [u8; 16]
    ensures lanes { result ≡ picked rows row_places }
    ensures bytes { AreBytes rows }
{
    each_is_a_byte(&rows.to_array());
    by_rows(rows).to_array()
}

// The planes of eight blocks.
#[inline(always)]
fn planes_of(blocks: &[[u8; 16]; 8]) -> [u8x16; 8]
    ensures planes { ArePlanes result }
    ensures blocks { HasBlocks result (λ bit. slice_index_or blocks.now bit []) }
{
    transposed([
        rows_of(blocks[0]),
        rows_of(blocks[1]),
        rows_of(blocks[2]),
        rows_of(blocks[3]),
        rows_of(blocks[4]),
        rows_of(blocks[5]),
        rows_of(blocks[6]),
        rows_of(blocks[7]),
    ])
}

// States that a vector has sixteen lanes. It does nothing.
#[inline(always)]
fn has_lanes(x: u8x16)
    ensures { length x ≡ 16 }
{
    let _lanes = x;
}

// States that eight vectors are planes. It does nothing.
#[inline(always)]
fn are_planes(x: &[u8x16; 8])
    ensures { ArePlanes x.now }
{
    has_lanes(x[0]);
    has_lanes(x[1]);
    has_lanes(x[2]);
    has_lanes(x[3]);
    has_lanes(x[4]);
    has_lanes(x[5]);
    has_lanes(x[6]);
    has_lanes(x[7]);
}

// A round that isn't the last.
#[inline(always)]
fn round(x: [u8x16; 8], key: [u8x16; 8]) -> [u8x16; 8]
    requires x { ArePlanes x }
    requires key { ArePlanes key }
    ensures planes { ArePlanes result }
    ensures bytes { (lane bit : ℕ) → lane < 16 → bit < 8 → byte_at result lane bit
        ≡ bit_xor (mixed (substituted_at (byte_at x (source0 lane) bit)) (substituted_at (byte_at x (source1 lane) bit))
        (substituted_at (byte_at x (source2 lane) bit)) (substituted_at (byte_at x (source3 lane) bit))) (byte_at key lane bit) }
{
    add_key(mixed(substituted(x)), key)
}

// The last round.
#[inline(always)]
fn last_round(x: [u8x16; 8], key: [u8x16; 8]) -> [u8x16; 8]
    requires x { ArePlanes x }
    requires key { ArePlanes key }
    ensures planes { ArePlanes result }
    ensures bytes { (lane bit : ℕ) → lane < 16 → bit < 8 → byte_at result lane bit
        ≡ bit_xor (substituted_at (byte_at x (source0 lane) bit)) (byte_at key lane bit) }
{
    add_key(shift_all(substituted(x)), key)
}

/// Encrypts eight blocks under the key whose round keys are given.
#[inline(always)]
pub fn encrypted_eight(keys: &RoundKeys, blocks: &[[u8; 16]; 8]) -> [[u8; 16]; 8]
    ensures { (key : List ℕ) → AreRoundKeys key keys.now → result ≡ map (aes key) blocks.now }
{
    are_planes(&keys[0]);
    let mut x = add_key(planes_of(blocks), keys[0]);
    for r in 1..14usize {
        are_planes(&keys[r]);
        let next = round(x, keys[r]);
        x = next;
    }
    are_planes(&keys[14]);
    let [v0, v1, v2, v3, v4, v5, v6, v7] = transposed(last_round(x, keys[14]));
    [
        block_of(v0),
        block_of(v1),
        block_of(v2),
        block_of(v3),
        block_of(v4),
        block_of(v5),
        block_of(v6),
        block_of(v7),
    ]
}

/// Encrypts blocks in place, eight at a time as far as they go.
pub fn encrypt_blocks(key: &Key256, blocks: &mut [[u8; 16]])
    ensures { blocks.new ≡ map (aes key.now) blocks.old }
{
    let keys = round_keys(key);
    let groups = blocks.len() / 8;
    for i in 0..groups {
        let at = 8 * i;
        let made = encrypted_eight(
            &keys,
            &[
                blocks[at],
                blocks[at + 1],
                blocks[at + 2],
                blocks[at + 3],
                blocks[at + 4],
                blocks[at + 5],
                blocks[at + 6],
                blocks[at + 7],
            ],
        );
        blocks[at] = made[0];
        blocks[at + 1] = made[1];
        blocks[at + 2] = made[2];
        blocks[at + 3] = made[3];
        blocks[at + 4] = made[4];
        blocks[at + 5] = made[5];
        blocks[at + 6] = made[6];
        blocks[at + 7] = made[7];
    }
    for i in 8 * groups..blocks.len() {
        key.encrypt(&mut blocks[i]);
    }
}
