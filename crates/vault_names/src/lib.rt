//! The names of a vault (Cryptomator's vault format 8): how they are sealed, and where entries and folders stand.
//!
//! # Names
//!
//! Clear names, and how a vault seals and opens them (Cryptomator's vault format 8).
//!
//! ```
//! let name = clear_name(alloc, b"notes")?;
//! let text = seal_name(alloc, &keys, b"", &name)?;
//! let opened = open_name(alloc, &keys, b"", text.as_bytes())?;
//! ```
//!
//! Not promised: constant time, and the wiping of memory.
//!
//! # Folders
//!
//! Where the vault keeps a directory's entries: the folder of its identifier (Cryptomator's vault format 8).
//!
//! ```
//! let root = folder_of(&keys, b"");
//! assert_eq!(root.len(), 3);
//! let entry = root.join(sealed.as_bytes())?;
//! ```
//!
//! Not promised: constant time, and the wiping of memory.
//!
//! # Places
//!
//! The two places of a sealed name in its directory's folder (Cryptomator's vault format 8): the text itself, or, of a text
//! above the shortening threshold, a folder named by its hash, whose `name.c9s` holds the text.
//!
//! ```
//! match place_of(DEFAULT_THRESHOLD, sealed.as_bytes()) {
//!     Place::Short => folder.join(sealed.as_bytes()),
//!     Place::Long(name) => folder.join(&name),
//! }
//! ```
#![tactic(auto)]

mod digits;
mod folder;
mod name;
mod place;
mod sealed;

pub use digits::base32;
pub use folder::{directory_folder, folder_of};
pub use name::{BadName, Name, check_form, clear_name};
pub use place::{LONG_FOLDER_LENGTH, LONGEST_TEXT, Place, long_folder, place_of, reads_long};
pub use sealed::{open_name, opening_undoes_sealing, seal_name};
