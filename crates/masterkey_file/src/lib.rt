//! The masterkey file of a vault, `masterkey.cryptomator` (Cryptomator's vault format 8), and the password that opens it.
//!
//! ```
//! let password = password(alloc, b"correct horse\n")?;
//! let keys = read(alloc, &bytes, password.as_bytes())?;
//! assert!(keys.encryption_key().bytes().len() == 32);
//! ```
//!
//! Not promised: constant time, and that passwords and keys are wiped from memory.
#![tactic(auto)]

mod fields;
mod laws;
mod reading;
mod secret;
mod writing;

pub use laws::{a_long_file_is_too_long, a_password_is_in_the_first_line};
pub use reading::{FieldName, KeyFileErr, read};
pub use secret::{PasswordErr, password};
pub use writing::write;
