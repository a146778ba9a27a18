//! Ciphers and content files as plain functions, each proved to be the definition that contracts cite.
//!
//! # Ciphers
//!
//! The ciphers as plain functions: a bit, a byte or a block at a time, without tables and without work
//! in place. Each is proved to be the definition that the contracts of the ciphers in use cite, and
//! the program `cipher_rows` compares them with the standards' vectors: so these test the
//! definitions.
//!
//! ```
//! let block = aes(&[7; 32], *b"sixteen bytes ..");
//! let tag = cmac(&[7; 32], b"a text");
//! let sealed = gcm_sealed(alloc, &[7; 32], [1; 12], b"associated data", b"a text")?;
//! let opened = siv_opened(alloc, &[7; 32], &[8; 32], None, &sealed)?;
//! ```
//!
//! They are slow, take memory for each text, and branch on secrets. Nothing but tests calls them.
//!
//! # Content files
//!
//! Content files as plain functions: each is proved to be the definition that the contracts of the code
//! in use cite, and the program `cipher_rows` compares them with files of another implementation:
//! so these test the definitions.
//!
//! ```
//! let head = header_opens(alloc, &keys, &header)?;
//! let plaintext = chunk_opens(alloc, &head, 0, &sealed)?;
//! let content = content_of(alloc, &keys, &bytes)?;
//! ```
//!
//! They are slow, take memory for each text, and branch on secrets. Nothing but tests calls them.
#![tactic(auto)]

mod cipher;
mod content;
mod field;
mod gcm;
mod hash;
mod header;
mod mac;
mod siv;

pub use cipher::aes;
pub use content::{Cell, Content, chunk_opens, content_of};
pub use field::{product, substituted};
pub use gcm::{gcm_opened, gcm_sealed};
pub use hash::{block_product, ghash};
pub use header::{Head, header_opens};
pub use mac::cmac;
pub use siv::{s2v, siv_opened, siv_sealed};
