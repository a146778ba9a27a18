// ShiftRows, MixColumns and AddRoundKey on planes.

ghost use Rattle.std.specs.Prelude.{◌≡◌, ◌<◌, ℕ, bit_xor};
ghost use Rattle.aes_kernels.specs.Circuit.{ArePlanes, byte_at, mixed, next_places, opposite_places, picked, shifted_places, source0, source1, source2, source3};

use crate::circuit::sum;
use std::simd::u8x16;

#[inline(always)]
fn shifted(x: u8x16) -> u8x16
    ensures { result ≡ picked x shifted_places }
{
    x.swizzle([0, 1, 2, 3, 5, 6, 7, 4, 10, 11, 8, 9, 15, 12, 13, 14])
}

#[inline(always)]
fn next(x: u8x16) -> u8x16
    ensures { result ≡ picked x next_places }
{
    x.swizzle([4, 5, 6, 7, 8, 9, 10, 11, 12, 13, 14, 15, 0, 1, 2, 3])
}

#[inline(always)]
fn opposite(x: u8x16) -> u8x16
    ensures { result ≡ picked x opposite_places }
{
    x.swizzle([8, 9, 10, 11, 12, 13, 14, 15, 0, 1, 2, 3, 4, 5, 6, 7])
}

/// MixColumns after ShiftRows.
#[inline(always)]
pub(crate) fn mixed(x: [u8x16; 8]) -> [u8x16; 8]
    requires { ArePlanes x }
    ensures planes { ArePlanes result }
    ensures bytes { (lane bit : ℕ) → lane < 16 → bit < 8 → byte_at result lane bit
        ≡ mixed (byte_at x (source0 lane) bit) (byte_at x (source1 lane) bit) (byte_at x (source2 lane) bit) (byte_at x (source3 lane) bit) }
{
    let [x0, x1, x2, x3, x4, x5, x6, x7] = x;
    let row_0 = shifted(x0);
    let row_1 = shifted(x1);
    let row_2 = shifted(x2);
    let row_3 = shifted(x3);
    let row_4 = shifted(x4);
    let row_5 = shifted(x5);
    let row_6 = shifted(x6);
    let row_7 = shifted(x7);
    let next_0 = next(row_0);
    let next_1 = next(row_1);
    let next_2 = next(row_2);
    let next_3 = next(row_3);
    let next_4 = next(row_4);
    let next_5 = next(row_5);
    let next_6 = next(row_6);
    let next_7 = next(row_7);
    let pair_0 = sum(row_0, next_0);
    let pair_1 = sum(row_1, next_1);
    let pair_2 = sum(row_2, next_2);
    let pair_3 = sum(row_3, next_3);
    let pair_4 = sum(row_4, next_4);
    let pair_5 = sum(row_5, next_5);
    let pair_6 = sum(row_6, next_6);
    let pair_7 = sum(row_7, next_7);
    let opposite_0 = opposite(pair_0);
    let opposite_1 = opposite(pair_1);
    let opposite_2 = opposite(pair_2);
    let opposite_3 = opposite(pair_3);
    let opposite_4 = opposite(pair_4);
    let opposite_5 = opposite(pair_5);
    let opposite_6 = opposite(pair_6);
    let opposite_7 = opposite(pair_7);
    let rest_0 = sum(next_0, opposite_0);
    let rest_1 = sum(next_1, opposite_1);
    let rest_2 = sum(next_2, opposite_2);
    let rest_3 = sum(next_3, opposite_3);
    let rest_4 = sum(next_4, opposite_4);
    let rest_5 = sum(next_5, opposite_5);
    let rest_6 = sum(next_6, opposite_6);
    let rest_7 = sum(next_7, opposite_7);
    let doubled_1 = sum(pair_0, pair_7);
    let doubled_3 = sum(pair_2, pair_7);
    let doubled_4 = sum(pair_3, pair_7);
    let mixed_0 = sum(pair_7, rest_0);
    let mixed_1 = sum(doubled_1, rest_1);
    let mixed_2 = sum(pair_1, rest_2);
    let mixed_3 = sum(doubled_3, rest_3);
    let mixed_4 = sum(doubled_4, rest_4);
    let mixed_5 = sum(pair_4, rest_5);
    let mixed_6 = sum(pair_5, rest_6);
    let mixed_7 = sum(pair_6, rest_7);
    [
        mixed_0, mixed_1, mixed_2, mixed_3, mixed_4, mixed_5, mixed_6, mixed_7,
    ]
}

/// ShiftRows alone.
#[inline(always)]
pub(crate) fn shift_all(x: [u8x16; 8]) -> [u8x16; 8]
    requires { ArePlanes x }
    ensures planes { ArePlanes result }
    ensures bytes { (lane bit : ℕ) → lane < 16 → bit < 8 → byte_at result lane bit ≡ byte_at x (source0 lane) bit }
{
    [
        shifted(x[0]),
        shifted(x[1]),
        shifted(x[2]),
        shifted(x[3]),
        shifted(x[4]),
        shifted(x[5]),
        shifted(x[6]),
        shifted(x[7]),
    ]
}

/// AddRoundKey.
#[inline(always)]
pub(crate) fn add_key(x: [u8x16; 8], key: [u8x16; 8]) -> [u8x16; 8]
    requires x { ArePlanes x }
    requires key { ArePlanes key }
    ensures planes { ArePlanes result }
    ensures bytes { (lane bit : ℕ) → lane < 16 → bit < 8 → byte_at result lane bit ≡ bit_xor (byte_at x lane bit) (byte_at key lane bit) }
{
    [
        sum(x[0], key[0]),
        sum(x[1], key[1]),
        sum(x[2], key[2]),
        sum(x[3], key[3]),
        sum(x[4], key[4]),
        sum(x[5], key[5]),
        sum(x[6], key[6]),
        sum(x[7], key[7]),
    ]
}
