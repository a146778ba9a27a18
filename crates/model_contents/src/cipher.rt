// AES (FIPS 197) on a state of 16 bytes, column by column.

ghost use Rattle.std.specs.Prelude.{◌≡◌, ◌⊎◌, ◌+◌, ◌*◌, ◌-◌, ◌/◌, ◌<◌, ◌≤◌, length, take};
ghost use Rattle.aes_block.specs.Aes.{aes, key_schedule, mix_columns, mixed_column, power_of_x, round_count, round_key, schedule_step, shift_rows, sub_bytes, word};
ghost use Rattle.aes_block.specs.Bytes.{xor_bytes};

use crate::field::{product, substituted};
use std::array;

// The bytes of the longest key schedule: 16 for each of 14 rounds and 16 before the first.
const LONGEST_SCHEDULE: usize = 240;

// SubBytes (5.1.1)
fn sub_bytes(state: [u8; 16]) -> [u8; 16]
    ensures { result ≡ sub_bytes state }
{
    state.map(substituted)
}

// ShiftRows (5.1.2): row r moves left by r columns.
fn shift_rows(state: [u8; 16]) -> [u8; 16]
    ensures { result ≡ shift_rows state }
{
    array::from_fn(|i| {
        let (row, column) = (i % 4, i / 4);
        state[row + 4 * ((column + row) % 4)]
    })
}

// A column under MixColumns (5.1.3).
fn mixed_column(column: [u8; 4]) -> [u8; 4]
    ensures { result ≡ mixed_column 2 3 1 1 column }
{
    array::from_fn(|row| {
        product(2, column[row])
            ^ product(3, column[(row + 1) % 4])
            ^ column[(row + 2) % 4]
            ^ column[(row + 3) % 4]
    })
}

// MixColumns (5.1.3)
fn mix_columns(state: [u8; 16]) -> [u8; 16]
    ensures { result ≡ mix_columns state }
{
    array::from_fn(|i| {
        let (row, column) = (i % 4, i / 4);
        mixed_column(word(&state, column))[row]
    })
}

// AddRoundKey (5.1.4): the state xored with the round key of this round.
fn add_round_key(state: [u8; 16], schedule: &[u8], round: usize) -> [u8; 16]
    requires { 16 * (round + 1) ≤ length schedule.now }
    ensures { result ≡ xor_bytes state (round_key schedule.now round) }
{
    array::from_fn(|i| state[i] ^ schedule[16 * round + i])
}

// Word `i` of a schedule, or column `i` of a state.
fn word(schedule: &[u8], i: usize) -> [u8; 4]
    requires { 4 * i + 4 ≤ length schedule.now }
    ensures { result ≡ word schedule.now i }
{
    array::from_fn(|row| schedule[4 * i + row])
}

// Two words xored.
fn xored(a: [u8; 4], b: [u8; 4]) -> [u8; 4]
    ensures { result ≡ xor_bytes a b }
{
    array::from_fn(|row| a[row] ^ b[row])
}

// SubWord (5.2)
fn sub_word(word: [u8; 4]) -> [u8; 4]
    ensures { result ≡ sub_bytes word }
{
    word.map(substituted)
}

// x^n, the first byte of the round constant n + 1 (5.2)
fn power_of_x(n: usize) -> u8
    ensures { result ≡ power_of_x n }
{
    let mut power = 1;
    for _ in 0..n {
        power = product(2, power);
    }
    power
}

// What word `i` of the schedule has of the word before it, for a key of `key_words` words (5.2).
fn schedule_step(key_words: usize, i: usize, word: [u8; 4]) -> [u8; 4]
    requires keyed { 0 < key_words }
    requires behind { key_words ≤ i }
    ensures { result ≡ schedule_step key_words i word }
{
    if i % key_words == 0 {
        let [a, b, c, d] = word;
        xored(
            sub_word([b, c, d, a]),
            [power_of_x(i / key_words - 1), 0, 0, 0],
        )
    } else if key_words > 6 && i % key_words == 4 {
        sub_word(word)
    } else {
        word
    }
}

// The key schedule (5.2) of a key of 16 or 32 bytes, from the front.
fn key_schedule(key: &[u8]) -> [u8; LONGEST_SCHEDULE]
    requires { (length key.now ≡ 16) ⊎ (length key.now ≡ 32) }
    ensures { take (16 * (round_count key.now + 1)) result ≡ key_schedule key.now }
{
    let key_words = key.len() / 4;
    let rounds = key_words + 6;
    let mut schedule = [0; LONGEST_SCHEDULE];
    schedule[..key.len()].copy_from_slice(key);
    for i in key_words..4 * (rounds + 1) {
        let step = schedule_step(key_words, i, word(&schedule, i - 1));
        let next = xored(word(&schedule, i - key_words), step);
        schedule[4 * i..4 * i + 4].copy_from_slice(&next);
    }
    schedule
}

/// The block that AES (FIPS 197, 5.1) makes of a block under a key of 16 or 32 bytes.
pub fn aes(key: &[u8], block: [u8; 16]) -> [u8; 16]
    requires { (length key.now ≡ 16) ⊎ (length key.now ≡ 32) }
    ensures { result ≡ aes key.now block }
{
    let rounds = key.len() / 4 + 6;
    let schedule = key_schedule(key);
    let schedule = &schedule[..16 * (rounds + 1)];
    let mut state = add_round_key(block, schedule, 0);
    for round in 1..rounds {
        state = add_round_key(mix_columns(shift_rows(sub_bytes(state))), schedule, round);
    }
    add_round_key(shift_rows(sub_bytes(state)), schedule, rounds)
}
