// BlockMix and ROMix (RFC 7914, sections 4 and 5) on words, in place.

ghost use Rattle.std.specs.Prelude.{◌≡◌, ◌+◌, ◌-◌, ◌*◌, ◌≤◌, ◌<◌, drop, length, take};
ghost use Rattle.aes_block.specs.Bytes.{xor_bytes};
ghost use Rattle.scrypt_kdf.specs.Rows.{AreSizes, HoldsRows, chosen_row, row_at};
ghost use Rattle.scrypt_kdf.specs.Salsa.{bytes_of_words, salsa};
ghost use Rattle.scrypt_kdf.specs.Scrypt.{block_mix, mixed_parts, ro_mix};

use crate::salsa::{WORDS, salsa};
use byteorder::{ByteOrder, LittleEndian};

// The words, and the bytes, of two blocks: r times as many are a row of the table, or a part.
pub(crate) const ROW: usize = 2 * WORDS;

pub(crate) const PART: usize = 4 * ROW;

// Xors words onto as many others.
#[inline(always)]
fn xor_words_onto(target: &mut [u32], words: &[u32])
    requires { length target.old ≡ length words.now }
    ensures { target.new ≡ xor_bytes target.old words.now }
{
    for (i, word) in target.iter_mut().enumerate() {
        *word ^= words[i];
    }
}

// Takes block `i` of a row into `x`.
#[inline(always)]
fn take_in(x: &mut [u32; WORDS], row: &[u32], i: usize)
    requires { 16 * (i + 1) ≤ length row.now }
    ensures { x.new ≡ salsa (xor_bytes x.old (take 16 (drop (16 * i) row.now))) }
{
    xor_words_onto(x, &row[WORDS * i..WORDS * i + WORDS]);
    salsa(x);
}

// BlockMix of a row.
fn block_mix(r: usize, source: &[u32], target: &mut [u32])
    requires some { 0 < r }
    requires long { length source.now ≡ 32 * r }
    requires same { length target.old ≡ 32 * r }
    ensures { bytes_of_words target.new ≡ block_mix r (bytes_of_words source.now) }
{
    let mut x = [0; WORDS];
    x.copy_from_slice(&source[WORDS * (2 * r - 1)..]);
    for i in 0..r {
        take_in(&mut x, source, 2 * i);
        target[WORDS * i..WORDS * i + WORDS].copy_from_slice(&x);
        take_in(&mut x, source, 2 * i + 1);
        target[WORDS * (r + i)..WORDS * (r + i) + WORDS].copy_from_slice(&x);
    }
}

// Makes row `i` of the table, from 1 on, of the row before it.
fn fill_row(r: usize, table: &mut [u32], i: usize)
    requires some { 0 < r }
    requires behind { 0 < i }
    requires within { 32 * r * (i + 1) ≤ length table.old }
    ensures kept { take (32 * r * i) table.new ≡ take (32 * r * i) table.old }
    ensures made { bytes_of_words (row_at r table.new i)
        ≡ block_mix r (bytes_of_words (row_at r table.old (i - 1))) }
{
    let row = ROW * r;
    let (front, back) = table.split_at_mut(row * i);
    block_mix(r, &front[row * (i - 1)..], &mut back[..row]);
}

// Makes each row of the table, the first as `x`.
fn fill_table(cost: usize, r: usize, x: &[u32], table: &mut [u32])
    requires sizes { AreSizes cost r }
    requires long { length x.now ≡ 32 * r }
    requires same { length table.old ≡ 32 * r * cost }
    ensures { HoldsRows r (bytes_of_words x.now) table.new cost }
{
    table[..ROW * r].copy_from_slice(x);
    for i in 1..cost {
        fill_row(r, table, i);
    }
}

// The row that `x` chooses: Integerify, of which the low word is enough, as the cost divides 2^32.
fn chosen_row(cost: usize, r: usize, x: &[u32]) -> usize
    requires sizes { AreSizes cost r }
    requires long { length x.now ≡ 32 * r }
    ensures row { result ≡ chosen_row cost r (bytes_of_words x.now) }
    ensures within { result < cost }
{
    (x[ROW * r - WORDS] % cost as u32) as usize
}

// A step of the second loop of ROMix: what it makes of `x` goes to `y`.
fn mix_with_row(cost: usize, r: usize, table: &[u32], x: &mut [u32], y: &mut [u32])
    requires sizes { AreSizes cost r }
    requires long { length x.old ≡ 32 * r }
    requires long_y { length y.old ≡ 32 * r }
    requires same { length table.now ≡ 32 * r * cost }
    ensures { bytes_of_words y.new ≡ block_mix r (xor_bytes (bytes_of_words x.old)
        (bytes_of_words (row_at r table.now (chosen_row cost r (bytes_of_words x.old))))) }
{
    let row = ROW * r;
    let j = chosen_row(cost, r, x);
    xor_words_onto(x, &table[row * j..row * j + row]);
    block_mix(r, x, y);
}

// ROMix of the row `x`; `table` and `y` are room for it.
fn mix_words(cost: usize, r: usize, table: &mut [u32], x: &mut [u32], y: &mut [u32])
    requires sizes { AreSizes cost r }
    requires long { length x.old ≡ 32 * r }
    requires long_y { length y.old ≡ 32 * r }
    requires same { length table.old ≡ 32 * r * cost }
    ensures { bytes_of_words x.new ≡ ro_mix cost r (bytes_of_words x.old) }
{
    fill_table(cost, r, x, table);
    block_mix(r, &table[ROW * r * (cost - 1)..], x);
    for _pair in 0..cost / 2 {
        mix_with_row(cost, r, table, x, y);
        mix_with_row(cost, r, table, y, x);
    }
}

// Reads the words of bytes, each least significant byte first.
fn read_words(bytes: &[u8], words: &mut [u32])
    requires { length bytes.now ≡ 4 * length words.old }
    ensures { bytes_of_words words.new ≡ bytes.now }
{
    LittleEndian::read_u32_into(bytes, words);
}

// ROMix of a part of 128·r bytes. Only here bytes become words, and words bytes.
fn ro_mix(cost: usize, r: usize, part: &mut [u8], table: &mut [u32], x: &mut [u32], y: &mut [u32])
    requires sizes { AreSizes cost r }
    requires bytes { length part.old ≡ 128 * r }
    requires long { length x.old ≡ 32 * r }
    requires long_y { length y.old ≡ 32 * r }
    requires same { length table.old ≡ 32 * r * cost }
    ensures { part.new ≡ ro_mix cost r part.old }
{
    read_words(part, x);
    mix_words(cost, r, table, x, y);
    LittleEndian::write_u32_into(x, part);
}

/// ROMix of each of `p` parts of 128·r bytes; `table`, `x` and `y` are room for it.
pub(crate) fn mix_each(
    cost: usize,
    r: usize,
    p: usize,
    parts: &mut [u8],
    table: &mut [u32],
    x: &mut [u32],
    y: &mut [u32],
)
    requires sizes { AreSizes cost r }
    requires bytes { length parts.old ≡ 128 * r * p }
    requires long { length x.old ≡ 32 * r }
    requires long_y { length y.old ≡ 32 * r }
    requires same { length table.old ≡ 32 * r * cost }
    ensures { parts.new ≡ mixed_parts cost r p parts.old }
{
    let len = PART * r;
    for i in 0..p {
        ro_mix(cost, r, &mut parts[len * i..len * i + len], table, x, y);
    }
}
