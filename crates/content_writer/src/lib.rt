//! Seals the chunks of a change of a content file, a write or another length, in room that is taken once. Nothing of the folder
//! changes.
//!
//! ```
//! let mut writer = ContentWriter::new(alloc)?;
//! let file = SealedFile { path, size };
//! writer.seal_write(&mut folder, &keys, &file, 40_000, b"some bytes", &mut entropy)?;
//! // The chunks from `writer.first()` on are `writer.sealed()`, and the host file then has `writer.size()` bytes.
//! ```
#![tactic(auto)]

mod cutting;
mod error;
mod opening;
mod plaintext;
mod sealed;
mod writer;
mod writing;

pub use error::WriteErr;
pub use writer::ContentWriter;
