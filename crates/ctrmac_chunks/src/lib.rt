//! Headers and chunks of content files, sealed and opened (Cryptomator's vault format 8,
//! combination SIV_CTRMAC).
//!
//! ```
//! let (header, bytes) = new_header(&keys, &mut entropy)?;
//! seal_chunk(&header, 0, plaintext, &mut entropy, &mut sealed)?;
//! let header = open_header(&keys, &bytes)?;
//! let count = open_chunk(&header, 0, &sealed, &mut out)?;
//! ```
//!
//! Not promised: that the time taken is independent of keys and plaintexts (`ctr_mode` and
//! `hmac_sha` say how far it is), or that they are wiped from memory.
#![tactic(auto)]

mod chunk;
mod envelope;
mod header;
mod size;

pub use chunk::{open_chunk, seal_chunk};
pub use envelope::Damaged;
pub use header::{Header, new_header, open_header};
pub use size::{
    CHUNK_LENGTH, HEADER_LENGTH, NONCE_LENGTH, SEALED_LENGTH, SEALING_LENGTH, TAG_LENGTH,
    sizes_are_the_formats,
};
