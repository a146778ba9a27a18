//! HMAC (RFC 2104) with the hashes SHA-256, SHA-384 and SHA-512.
//!
//! ```
//! let tag = hmac256(b"key", b"The quick brown fox jumps over the lazy dog");
//! assert_eq!(hmac256_of_pieces(b"key", b"The quick brown ", rest), tag);
//! assert!(bytes_equal(&tag, &expected));
//! ```
//!
//! Compare tags by `aes_block::bytes_equal`, which doesn't end early. Not promised: that the time
//! taken is independent of key and text beyond their lengths, or that the key and its blocks are
//! wiped from memory.
#![tactic(auto)]

ghost use Rattle.std.specs.Prelude.{◌≡◌, ℕ, ◌-◌, ◌≤◌, List, ◌++◌, length, replicate};
ghost use Rattle.sha2.specs.Sha256.{sha256};
ghost use Rattle.sha2.specs.Sha512.{sha384, sha512};
ghost use Rattle.hmac_sha.specs.Hmac.{hmac, key_block, xored};

use sha2::{Digest, Sha256, Sha384, Sha512};
use std::convert::AsSlice;

// The bytes of a block of each hash.
const BLOCK_256: usize = 64;

const BLOCK_512: usize = 128;

// The bytes ipad and opad (RFC 2104, section 2).
const INNER_PAD: u8 = 0x36;

const OUTER_PAD: u8 = 0x5c;

// Bytes padded with zeros to a block. No hash has a digest that is longer than its block.
fn padded<const BLOCK: usize>(bytes: &[u8]) -> [u8; BLOCK]
    ensures { length bytes.now ≤ BLOCK
        → result ≡ bytes.now ++ replicate (BLOCK - length bytes.now) 0 }
{
    let mut block = [0; BLOCK];
    let len = bytes.len().min(BLOCK);
    block[..len].copy_from_slice(&bytes[..len]);
    block
}

// The key as a block: hashed if it is longer than one, and padded.
fn key_block<D: Digest, const BLOCK: usize>(key: &[u8]) -> [u8; BLOCK]
where
    D::Output: AsSlice<u8> + Drop,
    requires { BLOCK ≤ BLOCK_512 }
    ensures { (hash : List ℕ → List ℕ)
        → ((text : List ℕ) (digest : D.Output)
        → D.digest_of text digest → D.Output.items digest ≡ hash text)
        → ((text : List ℕ) → length (hash text) ≤ BLOCK)
        → result ≡ key_block hash BLOCK key.now }
{
    if key.len() > BLOCK {
        let digest = D::digest(key);
        padded(digest.as_slice())
    } else {
        padded(key)
    }
}

// Every byte of a block xored with `byte`.
fn xored<const BLOCK: usize>(block: &[u8; BLOCK], byte: u8) -> [u8; BLOCK]
    ensures { result ≡ xored byte block.now }
{
    let mut xored = *block;
    for b in xored.iter_mut() {
        *b ^= byte;
    }
    xored
}

// The tag of the text `first` and after it `second`, under the key that makes the block `key_block`.
fn tag<D: Digest, const BLOCK: usize>(
    key_block: [u8; BLOCK],
    first: &[u8],
    second: &[u8],
) -> D::Output
where
    D::Output: AsSlice<u8> + Drop,
    ensures { (inner : D.Output)
        × D.digest_of (xored 0x36 key_block.entry ++ (first.now ++ second.now)) inner
        × D.digest_of (xored 0x5c key_block.entry ++ D.Output.items inner) result }
{
    let mut inner = D::new();
    inner.update(xored(&key_block, INNER_PAD));
    inner.update(first);
    inner.update(second);
    let mut outer = D::new();
    outer.update(xored(&key_block, OUTER_PAD));
    outer.update(inner.finalize());
    outer.finalize()
}

// HMAC over the hash of `D`, whose blocks have `BLOCK` bytes, of `first` and after it `second`.
fn hmac<D: Digest, const BLOCK: usize>(key: &[u8], first: &[u8], second: &[u8]) -> D::Output
where
    D::Output: AsSlice<u8> + Drop,
    requires { BLOCK ≤ BLOCK_512 }
    ensures { (hash : List ℕ → List ℕ)
        → ((text : List ℕ) (digest : D.Output)
        → D.digest_of text digest → D.Output.items digest ≡ hash text)
        → ((text : List ℕ) → length (hash text) ≤ BLOCK)
        → D.Output.items result ≡ hmac hash BLOCK key.now (first.now ++ second.now) }
{
    tag::<D, BLOCK>(key_block::<D, BLOCK>(key), first, second)
}

/// The HMAC-SHA-256 tag of `text`, 32 bytes, under a key of any length.
pub fn hmac256(key: &[u8], text: &[u8]) -> [u8; 32]
    ensures { result ≡ hmac sha256 64 key.now text.now }
{
    hmac256_of_pieces(key, text, &[])
}

/// The HMAC-SHA-256 tag of the text `first` and after it `second`, under a key of any length.
pub fn hmac256_of_pieces(key: &[u8], first: &[u8], second: &[u8]) -> [u8; 32]
    ensures { result ≡ hmac sha256 64 key.now (first.now ++ second.now) }
{
    hmac::<Sha256, BLOCK_256>(key, first, second)
}

/// The HMAC-SHA-384 tag of `text`, 48 bytes, under a key of any length.
pub fn hmac384(key: &[u8], text: &[u8]) -> [u8; 48]
    ensures { result ≡ hmac sha384 128 key.now text.now }
{
    hmac::<Sha384, BLOCK_512>(key, text, &[])
}

/// The HMAC-SHA-512 tag of `text`, 64 bytes, under a key of any length.
pub fn hmac512(key: &[u8], text: &[u8]) -> [u8; 64]
    ensures { result ≡ hmac sha512 128 key.now text.now }
{
    hmac::<Sha512, BLOCK_512>(key, text, &[])
}
