//! The clear tree of a vault's folder, directory by directory, loaded into memory.
//!
//! # One directory
//!
//! What the folder of one directory shows: its nodes by name, and whether it has foreign entries (Cryptomator's vault
//! format 8).
//!
//! ```
//! let folder = folder_of(&keys, identifier);
//! let scanned = scan(alloc, &mut vault, &keys, identifier, &folder)?;
//! let tidy = !scanned.has_foreign();
//! let nodes = scanned.into_nodes();
//! ```
//!
//! # The whole tree
//!
//! The clear tree of a vault's folder, loaded into memory.
//!
//! ```
//! let tree = load(alloc, &mut folder, &keys, DEFAULT_THRESHOLD)?;
//! let path = tree.path(1)?;
//! ```
#![tactic(auto)]

mod entry;
mod folders;
mod found;
mod laws;
mod load_fault;
mod loading;
mod naming;
mod nodes;
mod place;
mod reading;
mod scan_fault;
mod scanned;
mod scanning;
mod turns;

pub use found::{FoundNode, Shown};
pub use laws::are_ciphers;
pub use load_fault::LoadErr;
pub use loading::{load, loading_is_clear, undamaged_is_read};
pub use naming::is_identifier;
pub use scan_fault::ScanErr;
pub use scanned::Scanned;
pub use scanning::scan;
