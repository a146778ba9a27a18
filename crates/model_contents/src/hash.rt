// GHASH (SP 800-38D, 6): the coefficient of x^i of a block is bit 127 - i of the number that its bytes spell.

ghost use Rattle.std.specs.Prelude.{◌≡◌, ◌≤◌, ◌+◌, ◌*◌, ◌%◌, length};
ghost use Rattle.aes_block.specs.Bytes.{number_of};
ghost use Rattle.gcm_mode.specs.Ghash.{block_at, ghash, product, times_x};

// The product with x (6.3): the bits move right, and x^128 is 1 + x + x^2 + x^7.
#[tactic(auto, unfolding(gcm_mode::specs::Ghash::times_x))]
fn times_x(v: u128) -> u128
    ensures { result ≡ times_x v }
{
    if v % 2 == 0 {
        v / 2
    } else {
        (v / 2) ^ (0xe1 << 120)
    }
}

/// The product of two blocks, as the numbers that they spell, in GF(2^128) (SP 800-38D, 6.3), a bit of `x` at a time.
pub fn block_product(x: u128, y: u128) -> u128
    ensures { result ≡ product x y }
{
    let mut sum = 0;
    let mut power = y;
    for i in 0..128u32 {
        if (x >> (127 - i)) & 1 == 1 {
            sum ^= power;
        }
        power = times_x(power);
    }
    sum
}

// The number that block `i` of a text spells.
fn block_number(text: &[u8], i: usize) -> u128
    requires { 16 * (i + 1) ≤ length text.now }
    ensures { result ≡ number_of (block_at text.now i) }
{
    let mut block = [0u8; 16];
    block.copy_from_slice(&text[16 * i..16 * (i + 1)]);
    u128::from_be_bytes(block)
}

/// GHASH (SP 800-38D, 6.4) under the hash subkey `h` of a text of whole blocks of 16 bytes.
pub fn ghash(h: u128, text: &[u8]) -> [u8; 16]
    requires { length text.now % 16 ≡ 0 }
    ensures { result ≡ ghash h text.now }
{
    let mut hash = 0;
    for i in 0..text.len() / 16 {
        hash = block_product(hash ^ block_number(text, i), h);
    }
    hash.to_be_bytes()
}
