// AES by look-ups of 4 bits.

ghost use Rattle.std.specs.Prelude.{◌≡◌, ◌/◌, [], ◌∷◌, map, bit_and, bit_xor};
ghost use Rattle.aes_kernels.specs.Nibbles.{based, first_round_of, inverse_lower, inverse_upper, looked_up, last_of, next_of, once, round_of, last_round_of, shifted, substituted_alone, twice};

use crate::tables::{INV, INVA, IPTH, IPTL, SB1T, SB1U, SB2T, SB2U, SBOT, SBOU};
use std::simd::u8x16;

// In each lane the entry of a table, or 0 from 128 on.
#[inline(always)]
fn look_up(table: u8x16, x: u8x16) -> u8x16
    ensures { result ≡ map (looked_up table) x }
{
    table.swizzle_dyn_within::<16>(x & u8x16::splat(143))
}

#[inline(always)]
fn low(x: u8x16) -> u8x16
    ensures { result ≡ map (λ b. bit_and b 15) x }
{
    x & u8x16::splat(15)
}

#[inline(always)]
fn high(x: u8x16) -> u8x16
    ensures { result ≡ map (λ b. b / 16) x }
{
    x >> u8x16::splat(4)
}

/// Each byte in the basis of the look-ups.
#[inline(always)]
pub(crate) fn based(x: u8x16) -> u8x16
    ensures { result ≡ map based x }
{
    look_up(u8x16::from_array(IPTL), low(x)) ^ look_up(u8x16::from_array(IPTH), high(x))
}

// The two parts of the inverse of each byte.
#[inline(always)]
fn inverse(x: u8x16) -> [u8x16; 2]
    ensures { result ≡ map inverse_upper x ∷ map inverse_lower x ∷ [] }
{
    let inv = u8x16::from_array(INV);
    let upper = high(x);
    let lower = low(x);
    let both = upper ^ lower;
    let over = look_up(u8x16::from_array(INVA), lower);
    let a = look_up(inv, upper) ^ over;
    let b = look_up(inv, both) ^ over;
    [look_up(inv, a) ^ both, look_up(inv, b) ^ upper]
}

// What SubBytes makes of each byte but for its constant, once and twice.
#[inline(always)]
fn substituted(x: u8x16) -> [u8x16; 2]
    ensures { result ≡ map once x ∷ map twice x ∷ [] }
{
    let [u, t] = inverse(x);
    [
        look_up(u8x16::from_array(SB1U), u) ^ look_up(u8x16::from_array(SB1T), t),
        look_up(u8x16::from_array(SB2U), u) ^ look_up(u8x16::from_array(SB2T), t),
    ]
}

// The same in the usual basis.
#[inline(always)]
fn substituted_alone(x: u8x16) -> u8x16
    ensures { result ≡ map substituted_alone x }
{
    let [u, t] = inverse(x);
    look_up(u8x16::from_array(SBOU), u) ^ look_up(u8x16::from_array(SBOT), t)
}

#[inline(always)]
fn shifted(x: u8x16) -> u8x16
    ensures { result ≡ shifted x }
{
    x.swizzle([0, 5, 10, 15, 4, 9, 14, 3, 8, 13, 2, 7, 12, 1, 6, 11])
}

#[inline(always)]
fn next(x: u8x16) -> u8x16
    ensures { result ≡ next_of x }
{
    x.swizzle([1, 2, 3, 0, 5, 6, 7, 4, 9, 10, 11, 8, 13, 14, 15, 12])
}

#[inline(always)]
fn last(x: u8x16) -> u8x16
    ensures { result ≡ last_of x }
{
    x.swizzle([3, 0, 1, 2, 7, 4, 5, 6, 11, 8, 9, 10, 15, 12, 13, 14])
}

/// With the constant of SubBytes.
#[inline(always)]
pub(crate) fn flipped(x: u8x16) -> u8x16
    ensures { result ≡ map (λ b. bit_xor b 0x63) x }
{
    x ^ u8x16::splat(0x63)
}

/// What comes before the first round.
#[inline(always)]
pub(crate) fn first_round(x: u8x16, key: u8x16) -> u8x16
    ensures { result ≡ first_round_of key x }
{
    based(x) ^ key
}

/// A round that isn't the last.
#[inline(always)]
pub(crate) fn round(x: u8x16, key: u8x16) -> u8x16
    ensures { result ≡ round_of key x }
{
    let [once, twice] = substituted(shifted(x));
    let two = next(once) ^ twice;
    next(two) ^ two ^ last(once) ^ key
}

/// The last round.
#[inline(always)]
pub(crate) fn last_round(x: u8x16, key: u8x16) -> u8x16
    ensures { result ≡ last_round_of key x }
{
    substituted_alone(shifted(x)) ^ key
}
