// CMAC (SP 800-38B) with AES.

ghost use Rattle.std.specs.Prelude.{◌≡◌, ◌⊎◌, ◌≤◌, ◌<◌, ◌+◌, ◌*◌, length};
ghost use Rattle.aes_block.specs.Aes.{aes};
ghost use Rattle.aes_block.specs.Bytes.{xor_bytes};
ghost use Rattle.siv_mode.specs.Cmac.{block_at, chained, cmac, doubled, last_block, padded};

use crate::cipher::aes;
use std::array;

// R, which is xored in if a one leaves a doubled block (5.3).
const REDUCTION: u128 = 0x87;

/// Two blocks xored.
pub(crate) fn xored(a: [u8; 16], b: [u8; 16]) -> [u8; 16]
    ensures { result ≡ xor_bytes a b }
{
    array::from_fn(|i| a[i] ^ b[i])
}

/// A block doubled (6.1).
pub(crate) fn doubled(block: [u8; 16]) -> [u8; 16]
    ensures { result ≡ doubled block }
{
    let number = u128::from_be_bytes(block);
    let shifted = number << 1;
    if number >> 127 == 0 {
        shifted.to_be_bytes()
    } else {
        (shifted ^ REDUCTION).to_be_bytes()
    }
}

/// Fewer than 16 bytes, a one bit and zeros (6.2, step 4).
pub(crate) fn padded(bytes: &[u8]) -> [u8; 16]
    requires { length bytes.now < 16 }
    ensures { result ≡ padded bytes.now }
{
    let len = bytes.len();
    let mut block = [0; 16];
    block[..len].copy_from_slice(bytes);
    block[len] = 0x80;
    block
}

/// Block `i` of a text, which is whole.
pub(crate) fn block_at(text: &[u8], i: usize) -> [u8; 16]
    requires { 16 * i + 16 ≤ length text.now }
    ensures { result ≡ block_at text.now i }
{
    let mut block = [0; 16];
    block.copy_from_slice(&text[16 * i..16 * i + 16]);
    block
}

// The cipher chained over the first `count` blocks of a text (6.2, steps 5 and 6).
fn chained(key: &[u8], text: &[u8], count: usize) -> [u8; 16]
    requires keyed { (length key.now ≡ 16) ⊎ (length key.now ≡ 32) }
    requires within { 16 * count ≤ length text.now }
    ensures { result ≡ chained (aes key.now) text.now count }
{
    let mut chain = [0; 16];
    for i in 0..count {
        chain = aes(key, xored(chain, block_at(text, i)));
    }
    chain
}

// The last block of a text, at most 16 bytes, xored with its subkey (6.1; 6.2, step 4).
fn last_block(key: &[u8], bytes: &[u8]) -> [u8; 16]
    requires keyed { (length key.now ≡ 16) ⊎ (length key.now ≡ 32) }
    requires within { length bytes.now ≤ 16 }
    ensures { result ≡ last_block (aes key.now) bytes.now }
{
    let subkey = doubled(aes(key, [0; 16]));
    if bytes.len() == 16 {
        xored(subkey, block_at(bytes, 0))
    } else {
        xored(doubled(subkey), padded(bytes))
    }
}

/// The message authentication code CMAC (SP 800-38B, 6.2) of a text, with AES under a key of 16 or 32 bytes.
pub fn cmac(key: &[u8], text: &[u8]) -> [u8; 16]
    requires { (length key.now ≡ 16) ⊎ (length key.now ≡ 32) }
    ensures { result ≡ cmac (aes key.now) text.now }
{
    let count = text.len().saturating_sub(1) / 16;
    let last = last_block(key, &text[16 * count..]);
    aes(key, xored(chained(key, text, count), last))
}
