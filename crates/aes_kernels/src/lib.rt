//! AES-256 (FIPS 197) on several blocks at a time, on vectors of bytes and on planes of bits.
//!
//! # One block or four, on vectors
//!
//! AES-256 (FIPS 197) on one block or four at a time: each byte of a vector is substituted by look-ups of 4
//! bits within vectors, in a basis in which its inverse is made from those (vector permutation).
//!
//! ```
//! let key = LaneKey::new(Key256::new(&[7; 32]));
//! let mut blocks = [*b"sixteen bytes ..", *b"sixteen more ..."];
//! key.encrypt_blocks(&mut blocks);
//! let four = key.encrypted_four(&[*b"sixteen bytes .."; 4]);
//! ```
//!
//! Not promised by any clause: that the time taken is independent of key and text, or that a key is
//! wiped from memory when it is dropped. By reading, encryption and making a key ready have no branch
//! on a secret and no index by one, as far as the compiler keeps it so. `decrypt` is `Key256`'s, which
//! has a table that is indexed by secrets.
//!
//! # Eight blocks, on planes of bits
//!
//! AES-256 (FIPS 197) on eight blocks at a time, bitsliced: plane j has bit j of each byte, and SubBytes
//! is a circuit of 115 gates on the planes.
//!
//! ```
//! let key = Key256::new(&[7; 32]);
//! let eight = encrypted_eight(&round_keys(&key), &[*b"sixteen bytes .."; 8]);
//! let mut blocks = [*b"sixteen bytes .."; 20];
//! encrypt_blocks(&key, &mut blocks);
//! ```
//!
//! Not promised by any clause: that the time taken is independent of key and text, or that a key is
//! wiped from memory. By reading, whole groups of eight blocks have no branch on a secret and no index
//! by one, as far as the compiler keeps it so; what is left after them goes to `Key256::encrypt`, which
//! has a table that is indexed by secrets.
#![tactic(auto)]

mod blocks;
mod circuit;
mod columns;
mod key;
mod nibbles;
mod planes;
mod tables;

pub use blocks::{RoundKeys, encrypt_blocks, encrypted_eight, round_keys};
pub use key::LaneKey;
