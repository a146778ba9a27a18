//! Counter mode (SP 800-38A, 6.5) with a counter of 128 bits, and a key of AES-256 that is made ready for long texts.
//!
//! ```
//! let key = BulkKey::new(Key256::new(&[7; 32]));
//! apply_keystream(&key, u128::from_be_bytes(nonce), &mut text); // encrypts
//! apply_keystream(&key, u128::from_be_bytes(nonce), &mut text); // decrypts
//! ```
//!
//! A counter must not come twice under one key. Not promised by any clause: that the time taken is independent of key and text, or that a
//! key is wiped from memory (`aes_kernels` says how far it is).
#![tactic(auto)]

mod bulk;
mod counter;

pub use bulk::BulkKey;
pub use counter::apply_keystream;
