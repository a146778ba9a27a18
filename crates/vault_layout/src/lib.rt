//! The names and numbers of a vault's format (Cryptomator's vault format 8), each in one place.
//!
//! ```
//! let journal = VaultPath::root().join(JOURNAL_FILE)?;
//! assert!(DEFAULT_THRESHOLD <= MAX_THRESHOLD);
//! ```
//!
//! Definitions cite the names of `specs`, in which texts and numbers stand as the format has them; code cites the constants, and a law
//! says that both are the same.
#![tactic(auto)]

mod limits;
mod names;

pub use limits::{
    DEFAULT_THRESHOLD, IDENTIFIER_LIMIT, KEY_FILE_LIMIT, MAX_THRESHOLD, PASSWORD_LIMIT,
    limits_are_the_formats,
};
pub use names::{
    CONTENTS_FILE, DIRECTORY_FILE, FOLDERS, IDENTIFIER_COPY, JOURNAL_FILE, LINK_FILE,
    MASTERKEY_FILE, NAME_FILE, NEW_JOURNAL_FILE, NEW_VAULT_FILE, VAULT_FILE, names_are_the_formats,
};
