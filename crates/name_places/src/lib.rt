//! Where a new name of a vault is and a new directory has its folder, and whether such a place is taken already
//! (Cryptomator's vault format 8).
//!
//! ```
//! let place = place_name(alloc, &keys, b"", DEFAULT_THRESHOLD, &name)?;
//! let directory = new_directory(&keys, &drawn);
//! if let Some(path) = taken(&mut folder, &root, &place, Some(&directory), &live, &claims)? {
//!     return Err(PlaceTaken(path));
//! }
//! ```
//!
//! Laws: `are_texts`, `changes_keep_claims`, `claims_are_whole`, `kept_claims` and `entries_are_parts`, which do nothing.
#![tactic(auto)]

mod claims;
mod directory;
mod laws;
mod name;
mod taking;

pub use claims::Claims;
pub use directory::{NewDirectory, new_directory};
pub use laws::{are_texts, changes_keep_claims, claims_are_whole, entries_are_parts, kept_claims};
pub use name::{NewPlace, place_name};
pub use taking::taken;
