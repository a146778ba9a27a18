//! What sealing chunks anew makes of a content file, by laws on the host file's bytes. Functions
//! are laws: they do nothing, and their clauses hold.
//!
//! ```
//! // For its clause: a write is made of a host file by sealing anew just the chunks that it meets.
//! written_content();
//! writer.seal_write(&mut folder, &keys, &file, at, bytes, &mut entropy)?;
//! ```
#![tactic(auto)]

mod changing;
mod chunks;

pub use changing::{resized_content, sealed_sizes, unopened_content, written_content};
pub use chunks::{cut_chunk, written_chunk};
