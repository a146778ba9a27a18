//! The deeds of each create, remove and rename of a vault's node, made of what is kept of it.
//!
//! ```
//! let old = Place { folder, entry: node.entry(), long: node.is_long() };
//! let new = Place { folder, entry: b"dGV4dA==.c9r", long: false };
//! let deeds = rename_deeds(alloc, &old, &new, b"dGV4dA==.c9r", node.what())?;
//! journal.commit(&deeds)?;
//! ```
//!
//! What they lead to, on which disks, is said by the laws of `tree_deed_laws`.
#![tactic(auto)]

mod creation;
mod place;
mod removal;
mod renaming;

pub use creation::{create_dir_deeds, create_file_deeds};
pub use place::Place;
pub use removal::remove_deeds;
pub use renaming::rename_deeds;
