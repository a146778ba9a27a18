// GF(2^8) and the S-box (FIPS 197, 4 and 5.1.1).

ghost use Rattle.std.specs.Prelude.{◌≡◌};
ghost use Rattle.aes_block.specs.Field.{affine, inverse, product, substituted, times_x};

// The product with x.
fn times_x(b: u8) -> u8
    ensures { result ≡ times_x b }
{
    let shifted = b << 1;
    if b < 0x80 { shifted } else { shifted ^ 0x1b }
}

/// The product of two bytes in GF(2^8) (FIPS 197, 4.2), a bit of `a` at a time.
pub fn product(a: u8, b: u8) -> u8
    ensures { result ≡ product a b }
{
    let mut sum = 0;
    let mut multiple = b;
    for i in 0..8u32 {
        if a >> i & 1 == 1 {
            sum ^= multiple;
        }
        multiple = times_x(multiple);
    }
    sum
}

// The byte whose product with `b` is 1, found by trying all; 0 of 0 (5.1.1).
fn inverse(b: u8) -> u8
    ensures { result ≡ inverse b }
{
    for x in 0..=u8::MAX {
        if product(b, x) == 1 {
            return x;
        }
    }
    0
}

// The affine map (5.1.1).
fn affine(b: u8) -> u8
    ensures { result ≡ affine b }
{
    b ^ b.rotate_left(1) ^ b.rotate_left(2) ^ b.rotate_left(3) ^ b.rotate_left(4) ^ 0x63
}

/// What the S-box makes of a byte (FIPS 197, 5.1.1): the inverse, then the affine map.
pub fn substituted(b: u8) -> u8
    ensures { result ≡ substituted b }
{
    affine(inverse(b))
}
