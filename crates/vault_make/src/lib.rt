//! Makes a new vault (Cryptomator's vault format 8) in an empty folder: its two key files and the empty folder of its root.
//!
//! ```
//! make(alloc, &mut folder, password.as_bytes(), &mut entropy)?;
//! let again = make(alloc, &mut folder, password.as_bytes(), &mut entropy);
//! assert!(matches!(again, Err(MakeErr::NotEmpty(_)))); // `d`
//! ```
//!
//! Not promised: constant time, the wiping of memory, and that what was drawn is random.
#![tactic(auto)]

mod draws;
mod entries;
mod error;
mod files;
mod layout;
mod making;
mod steps;

pub use error::MakeErr;
pub use making::make;
