//! Headers and chunks of content files, sealed and opened (Cryptomator's vault format 8,
//! combination SIV_GCM).
//!
//! ```
//! let (header, bytes) = new_header(&keys, &mut entropy)?;
//! seal_chunk(&header, 0, plaintext, &mut entropy, &mut sealed)?;
//! let header = open_header(&keys, &bytes)?;
//! let count = open_chunk(&header, 0, &sealed, &mut out)?;
//! ```
//!
//! Not promised: that the time taken is independent of keys and plaintexts (`gcm_mode` says how far
//! it is), or that they are wiped from memory.
#![tactic(auto)]

mod chunk;
mod envelope;
mod header;
mod size;
mod slices;

pub use chunk::{open_chunk, seal_chunk};
pub use envelope::Damaged;
pub use header::{Header, new_header, open_header};
pub use size::{
    CHUNK_LENGTH, HEADER_LENGTH, NONCE_LENGTH, SEALED_LENGTH, SEALING_LENGTH, TAG_LENGTH,
    clear_len, sizes_are_the_formats, span,
};
pub use slices::reads_are_slices;
