ghost use Rattle.std.specs.Prelude.{◌≡◌, ◌<◌, length};
ghost use Rattle.scrypt_kdf.specs.Pbkdf2.{block, pbkdf2};

use aes_block::xor_onto;
use hmac_sha::{hmac256, hmac256_of_pieces};

// The bytes of a block.
const BLOCK: usize = 32;

// Block `number`, counted from 1, of what `password` and `salt` give.
fn block(password: &[u8], salt: &[u8], turns: u32, number: usize) -> [u8; BLOCK]
    requires { 0 < turns }
    ensures { result ≡ block password.now salt.now turns number }
{
    let counter = (number % (1 << 32)) as u32;
    let mut u = hmac256_of_pieces(password, salt, &counter.to_be_bytes());
    let mut xored = u;
    for _turn in 1..turns {
        u = hmac256(password, &u);
        xor_onto(&mut xored, &u);
    }
    xored
}

/// Fills `out` with what PBKDF2 (RFC 8018, 5.2) with HMAC-SHA-256 makes of a password and a salt of
/// any lengths in `turns` iterations. The standard allows at most (2^32 - 1)·32 bytes; after them
/// the number of a block goes on from 0.
pub fn pbkdf2(password: &[u8], salt: &[u8], turns: u32, out: &mut [u8])
    requires { 0 < turns }
    ensures { out.new ≡ pbkdf2 password.now salt.now turns (length out.old) }
{
    for i in 0..out.len().div_ceil(BLOCK) {
        let block = block(password, salt, turns, i + 1);
        let start = BLOCK * i;
        let len = (out.len() - start).min(BLOCK);
        out[start..start + len].copy_from_slice(&block[..len]);
    }
}
