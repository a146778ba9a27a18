//! What a secret unlocks of a vault: its keys and its threshold, or the first cause against it.
//!
//! # From a secret and two files
//!
//! What a secret and the two key files of a vault unlock: its keys and its threshold, or the first cause against it.
//!
//! ```
//! let unlocked = unlock_found(alloc, b"correct horse\n", FoundFile::File(&masterkey), FoundFile::File(&vault))?;
//! assert_eq!(unlocked.threshold, DEFAULT_THRESHOLD);
//! assert!(matches!(unlock_found(alloc, b"", FoundFile::Absent, FoundFile::Folder), Err(UnlockErr::BadSecret)));
//! ```
//!
//! Whoever reads the files one after the other calls `open_masterkey_file` and `open_vault_file`: the second file isn't looked at
//! before the first one opened. Not promised: constant time, and that secrets and keys are wiped from memory.
//!
//! Laws: `a_bad_secret_is_told_first`, `the_vault_file_waits` and `long_files_are_too_long`, which do nothing.
//!
//! # Where the files stand
//!
//! Where a vault's two key files are in its folder, and what is found there.
//!
//! ```
//! let found = find(alloc, &mut folder, &masterkey_path())?;
//! let keys = open_masterkey_file(alloc, password, found.as_found())?;
//! ```
//!
//! A file of more than `KEY_FILE_LIMIT` bytes isn't read: its length says all that the key files' definitions ask of it.
//!
//! # From a secret and a folder
//!
//! Unlocks the vault in a folder by a secret: its keys and its threshold, or the first cause against it.
//!
//! ```
//! let unlocked = unlock(alloc, SecretKind::Password, &mut folder, &mut secret)?;
//! let store = Store::open(alloc, folder, &unlocked.keys, unlocked.threshold, clock.now());
//! ```
//!
//! The secret is read byte by byte, so that what follows its line stays unread. The vault file isn't looked at before the masterkey file
//! opened, and if the secret is the two keys neither is.
#![tactic(auto)]

mod errors;
mod finding;
mod from_files;
mod from_folder;
mod laws;
mod paths;
mod refusal;
mod secret;

pub use errors::UnlockErr;
pub use finding::{FindErr, Found, find};
pub use from_files::{FoundFile, Unlocked, open_masterkey_file, open_vault_file, unlock_found};
pub use from_folder::{SecretKind, unlock};
pub use laws::{a_bad_secret_is_told_first, long_files_are_too_long, the_vault_file_waits};
pub use paths::{config_path, masterkey_path, new_config_path};
pub use refusal::Refusal;
pub use secret::{SecretErr, read_keys, read_password};
