//! The calls of a host that a folder of it takes, by the text of a path, and what they do and leave.
//!
//! A host *tells* a story of the vault's folder if what was done to it is visible to proofs: a host in memory does, a real one
//! doesn't. What a call says of a story is what its manual says of a volume: the names in folders, the bytes of files, and which
//! of them a power cut may take back until an fsync. So what a folder over these calls is proved to keep holds of each host whose
//! calls do what their manuals say.
#![tactic(auto)]

mod calls;
mod found;
mod lock;

pub use calls::{HostCalls, HostChange};
pub use found::{Found, Inode, is_same};
pub use lock::{Locking, Sharing};
