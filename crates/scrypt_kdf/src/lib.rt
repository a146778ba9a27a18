//! PBKDF2 with HMAC-SHA-256 (RFC 8018) and scrypt (RFC 7914).
//!
//! ```
//! let mut key = [0; 64];
//! scrypt(alloc, b"password", b"NaCl", 1024, 8, 16, &mut key)?;
//! pbkdf2(b"password", b"salt", 4096, &mut key);
//! ```
//!
//! Not promised: that the time taken is independent of the password (the second loop of scrypt
//! reads rows that the password chooses, as the RFC has it), or that the table and the key are
//! wiped from memory.
#![tactic(auto)]

mod derivation;
mod mixing;
mod salsa;
mod scrypt_derivation;

pub use derivation::pbkdf2;
pub use scrypt_derivation::{ScryptErr, scrypt};
