//! Reads slices of sealed content files of any size, in buffers that are taken once.
//!
//! ```
//! let mut reader = ContentReader::new(alloc)?;
//! let file = SealedFile { path, size };
//! let slice = Slice { at: 40_000, count: 512 };
//! let count = reader.read(&mut folder, &keys, &file, slice, &mut buffer)?;
//! ```
#![tactic(auto)]

mod error;
mod fetching;
mod gathering;
mod reader;

pub use error::ReadErr;
pub use reader::{ContentReader, SealedFile, Slice};
