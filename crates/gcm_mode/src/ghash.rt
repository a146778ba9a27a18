// GHASH (SP 800-38D, 6) over u128 words: the coefficient of x^i is bit 127 - i.

ghost use Rattle.std.specs.Prelude.{◌≡◌, ℕ, ◌+◌, ◌*◌, ◌/◌, ◌^◌, ◌<◌, ◌≤◌, List, ◌++◌, length};
ghost use Rattle.aes_block.specs.Bytes.{bytes_of, number_of};
ghost use Rattle.gcm_mode.specs.Gcm.{hashed_text};
ghost use Rattle.gcm_mode.specs.Ghash.{block_at, ghash, hashed, IsHashed, product, product_of, times_x, zero_padded};

use crate::stream::BLOCK_LEN;
use std::marker::Model;

// What x^128 stands for: 1 + x + x^2 + x^7.
const REDUCTION: u128 = 0xe1 << 120;

// The top 16 bits of the product of x^4 with each polynomial of which only the coefficients of
// x^124 up to x^127 count. The other bits are 0.
const REDUCTIONS: [u16; 16] = [
    0x0000, 0x1c20, 0x3840, 0x2460, 0x7080, 0x6ca0, 0x48c0, 0x54e0, 0xe100, 0xfd20, 0xd940, 0xc560,
    0x9180, 0x8da0, 0xa9c0, 0xb5e0,
];

// The fewest bytes of a text for which it pays to make a table for the subkey's square.
const LONG: usize = 0x2000;

// The product with x, without a branch on a bit of v, which is a secret.
fn times_x(v: u128) -> u128
    ensures { result ≡ times_x v }
{
    (v >> 1) ^ ((v & 1) * REDUCTION)
}

// The product with x^4.
fn times_x4(v: u128) -> u128
    ensures { result ≡ times_x (times_x (times_x (times_x v))) }
{
    (v >> 4) ^ (u128::from(REDUCTIONS[(v & 15) as usize]) << 112)
}

// The product with v of the polynomial of degree 3 that the low 4 bits of `nibble` are from the
// left.
fn nibble_product(nibble: usize, v: u128) -> u128
    ensures { result ≡ product_of 4 nibble v }
{
    let mut sum = 0;
    let mut power = v;
    for i in 0..4u32 {
        if (nibble >> (3 - i)) & 1 == 1 {
            sum ^= power;
        }
        power = times_x(power);
    }
    sum
}

// States that a number is a block's. It does nothing.
#[inline(always)]
fn is_block(x: u128)
    ensures { x < 2 ^ 128 }
{
    let _number = x;
}

/// A hash subkey, made ready for products.
pub(crate) trait Subkey {
    // The subkey as a number.
    ghost subkey: { Self → ℕ };

    /// The product of a block with the subkey (6.3).
    fn product(&self, x: u128) -> u128
        ensures { result ≡ product x (subkey self.now) };

    /// The hash of what was hashed before and of a text after it, padded with zeros (6.4).
    fn absorb(&self, before: u128, text: &[u8]) -> u128
        ensures { (front : List ℕ) → IsHashed (subkey self.now) front before
            → IsHashed (subkey self.now) (front ++ zero_padded text.now) result }
    {
        let mut hash = before;
        for i in 0..text.len().div_ceil(BLOCK_LEN) {
            hash = self.product(hash ^ block_number(text, i));
        }
        hash
    }
}

/// The products of a subkey with each 4 bits, for few blocks: 256 bytes, soon made.
#[derive(Drop)]
pub(crate) struct ProductTable {
    table: [u128; 16],
}

impl Model for ProductTable {
    ghost use Rattle.std.specs.Prelude.{ℕ, slice_index};
    ghost use Rattle.gcm_mode.specs.Ghash.{IsProductTable};

    ghost Value = { ℕ };

    ghost view = { λ k. slice_index k.table 8 };

    ghost invariant = { λ k. IsProductTable (slice_index k.table 8) k.table };
}

impl ProductTable {
    pub(crate) fn new(subkey: u128) -> ProductTable
        ensures { result ≡ subkey }
    {
        let mut table = [0; 16];
        for (nibble, entry) in table.iter_mut().enumerate() {
            *entry = nibble_product(nibble, subkey);
        }
        ProductTable { table }
    }
}

impl Subkey for ProductTable {
    ghost subkey = { λ k. k };

    // From the right: x^4 times the sum so far, and the product of the next 4 bits.
    fn product(&self, x: u128) -> u128 {
        let mut sum = 0;
        for i in 0..32u32 {
            let nibble = (x >> (4 * i)) & 15;
            sum = times_x4(sum) ^ self.table[nibble as usize];
        }
        sum
    }
}

/// The products of a subkey with the 4 bits at each of the 32 places of a block, the leftmost place
/// first, for many blocks: 8 KiB.
#[derive(Drop)]
pub(crate) struct PlaceTable {
    table: [u128; 512],
}

impl Model for PlaceTable {
    ghost use Rattle.std.specs.Prelude.{ℕ, slice_index};
    ghost use Rattle.gcm_mode.specs.Ghash.{IsPlaceTable};

    ghost Value = { ℕ };

    ghost view = { λ k. slice_index k.table 8 };

    ghost invariant = { λ k. IsPlaceTable (slice_index k.table 8) k.table };
}

impl PlaceTable {
    pub(crate) fn new(subkey: u128) -> PlaceTable
        ensures { result ≡ subkey }
    {
        let mut table = [0u128; 512];
        for nibble in 0..16usize {
            table[nibble] = nibble_product(nibble, subkey);
        }
        for i in 16..512usize {
            table[i] = times_x4(table[i - 16]);
        }
        PlaceTable { table }
    }

    // The hash of what was hashed before and of the first pairs of blocks of a text after it, in
    // two sums side by side: of the blocks at even and at odd places, each times the square of the
    // subkey, so that neither waits for the other. The second one is behind by one product.
    fn absorb_pairs(&self, before: u128, text: &[u8], pairs: usize) -> u128
        requires { 32 * pairs ≤ length text.now }
        ensures { (front : List ℕ) → IsHashed self.now front before
            → hashed self.now (front ++ zero_padded text.now) (length front / 16 + 2 * pairs) ≡ result }
    {
        if pairs == 0 {
            return before;
        }
        let subkey = self.table[8];
        is_block(subkey);
        let square = PlaceTable::new(self.product(subkey));
        let mut even = before;
        let mut odd = 0;
        for i in 0..pairs {
            even = square.product(even ^ block_number(text, 2 * i));
            odd = square.product(odd) ^ block_number(text, 2 * i + 1);
        }
        even ^ self.product(odd)
    }
}

impl Subkey for PlaceTable {
    ghost subkey = { λ k. k };

    // A sum of one entry for each 4 bits of the block.
    #[inline(always)]
    fn product(&self, x: u128) -> u128 {
        let high = (x >> 64) as u64;
        let low = (x & 0xffff_ffff_ffff_ffff) as u64;
        let mut sum = 0;
        for i in 0..16usize {
            let shift = 60 - 4 * i as u32;
            let upper = self.table[16 * i + ((high >> shift) & 15) as usize];
            let lower = self.table[16 * (16 + i) + ((low >> shift) & 15) as usize];
            sum ^= upper ^ lower;
        }
        sum
    }

    // Whole pairs first, if they are many.
    fn absorb(&self, before: u128, text: &[u8]) -> u128 {
        let pairs = if text.len() < LONG {
            0
        } else {
            text.len() / (2 * BLOCK_LEN)
        };
        let mut hash = self.absorb_pairs(before, text, pairs);
        for i in 2 * pairs..text.len().div_ceil(BLOCK_LEN) {
            hash = self.product(hash ^ block_number(text, i));
        }
        hash
    }
}

// Block i of a text that is padded with zeros. A whole block is copied as one, which is quicker
// than by its length.
#[inline(always)]
fn block_number(text: &[u8], i: usize) -> u128
    requires { 16 * i < length text.now }
    ensures { result ≡ number_of (block_at (zero_padded text.now) i) }
{
    let start = BLOCK_LEN * i;
    let mut block = [0u8; BLOCK_LEN];
    if text.len() - start >= BLOCK_LEN {
        block.copy_from_slice(&text[start..start + BLOCK_LEN]);
        return u128::from_be_bytes(block);
    }
    block[..text.len() - start].copy_from_slice(&text[start..]);
    u128::from_be_bytes(block)
}

// The lengths of both in bits, modulo 2^64.
fn length_block(ad: &[u8], ciphertext: &[u8]) -> [u8; BLOCK_LEN]
    ensures { result ≡ bytes_of 8 (8 * length ad.now) ++ bytes_of 8 (8 * length ciphertext.now) }
{
    let ad_bits = (ad.len() as u64).wrapping_mul(8);
    let text_bits = (ciphertext.len() as u64).wrapping_mul(8);
    let mut block = [0u8; BLOCK_LEN];
    block[..8].copy_from_slice(&ad_bits.to_be_bytes());
    block[8..].copy_from_slice(&text_bits.to_be_bytes());
    block
}

/// GHASH of associated data, a ciphertext and their lengths (7.1, step 5).
pub(crate) fn hash_of<K: Subkey>(key: &K, ad: &[u8], ciphertext: &[u8]) -> [u8; BLOCK_LEN]
    ensures { result ≡ ghash (K.subkey key.now) (hashed_text ad.now ciphertext.now) }
{
    let ad_hash = key.absorb(0, ad);
    let text_hash = key.absorb(ad_hash, ciphertext);
    key.absorb(text_hash, &length_block(ad, ciphertext))
        .to_be_bytes()
}
