//! Changes of a file's content in an open vault: a write and a truncation, which wait to be committed, and another length, which is
//! committed at once.
//!
//! ```
//! let mut changes = FileChanges::new(alloc)?;
//! changes.truncate(&mut tree, &mut back, &mut entropy, number, now)?;
//! changes.write(&mut tree, &mut back, &mut entropy, number, at, bytes, now)?;
//! back.flush()?;
//! changes.resize(&mut tree, back.journal(), &mut entropy, number, len, None, now)?;
//! ```
//!
//! Each change is refused if what it would keep of the file doesn't open, or the folder or the random source failed, and then
//! changes nothing; or it waits or is committed, and the tree in memory goes on to that of the disk once it is done. The chunks that
//! a change meets are sealed anew, each under a nonce that is drawn for it. A change takes no memory: the room is taken before.
#![tactic(auto)]

mod changes;
mod committing;
mod file;
mod room;
mod waiting;

pub use room::FileChanges;
