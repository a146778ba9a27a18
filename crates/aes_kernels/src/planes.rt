// Bytes to planes and back.

ghost use Rattle.std.specs.Prelude.{◌≡◌, ◌<◌, ℕ, [], map, slice_index_or};
ghost use Rattle.aes_kernels.specs.Circuit.{ArePlanes, lane_bits, lower1, lower2, lower4, transposed_at, upper1, upper2, upper4};

use std::simd::u8x16;

// Exchanges bits 1 apart.
#[inline(always)]
fn swap1(a: u8x16, b: u8x16) -> [u8x16; 2]
    ensures upper { (lane : ℕ) → lane < 16 → lane_bits lane (slice_index_or result 0 []) ≡ upper1 (lane_bits lane a) (lane_bits lane b) }
    ensures lower { (lane : ℕ) → lane < 16 → lane_bits lane (slice_index_or result 1 []) ≡ lower1 (lane_bits lane a) (lane_bits lane b) }
{
    let moved = ((a >> u8x16::splat(1)) ^ b) & u8x16::splat(0x55);
    [a ^ (moved << u8x16::splat(1)), b ^ moved]
}

// Exchanges bits 2 apart.
#[inline(always)]
fn swap2(a: u8x16, b: u8x16) -> [u8x16; 2]
    ensures upper { (lane : ℕ) → lane < 16 → lane_bits lane (slice_index_or result 0 []) ≡ upper2 (lane_bits lane a) (lane_bits lane b) }
    ensures lower { (lane : ℕ) → lane < 16 → lane_bits lane (slice_index_or result 1 []) ≡ lower2 (lane_bits lane a) (lane_bits lane b) }
{
    let moved = ((a >> u8x16::splat(2)) ^ b) & u8x16::splat(0x33);
    [a ^ (moved << u8x16::splat(2)), b ^ moved]
}

// Exchanges bits 4 apart.
#[inline(always)]
fn swap4(a: u8x16, b: u8x16) -> [u8x16; 2]
    ensures upper { (lane : ℕ) → lane < 16 → lane_bits lane (slice_index_or result 0 []) ≡ upper4 (lane_bits lane a) (lane_bits lane b) }
    ensures lower { (lane : ℕ) → lane < 16 → lane_bits lane (slice_index_or result 1 []) ≡ lower4 (lane_bits lane a) (lane_bits lane b) }
{
    let moved = ((a >> u8x16::splat(4)) ^ b) & u8x16::splat(0xf);
    [a ^ (moved << u8x16::splat(4)), b ^ moved]
}

/// The bits of the bytes of each lane, vector by vector, as those of each place.
#[inline(always)]
pub(crate) fn transposed(x: [u8x16; 8]) -> [u8x16; 8]
    requires { ArePlanes x }
    ensures planes { ArePlanes result }
    ensures bits { (lane : ℕ) → lane < 16 → map (lane_bits lane) result ≡ transposed_at lane x }
{
    let [x0, x1, x2, x3, x4, x5, x6, x7] = x;
    let [a0, a1] = swap1(x0, x1);
    let [a2, a3] = swap1(x2, x3);
    let [a4, a5] = swap1(x4, x5);
    let [a6, a7] = swap1(x6, x7);
    let [b0, b2] = swap2(a0, a2);
    let [b1, b3] = swap2(a1, a3);
    let [b4, b6] = swap2(a4, a6);
    let [b5, b7] = swap2(a5, a7);
    let [c0, c4] = swap4(b0, b4);
    let [c1, c5] = swap4(b1, b5);
    let [c2, c6] = swap4(b2, b6);
    let [c3, c7] = swap4(b3, b7);
    [c0, c1, c2, c3, c4, c5, c6, c7]
}
