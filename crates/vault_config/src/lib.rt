//! The signed configuration of a vault, `vault.cryptomator` (Cryptomator's vault format 8).
//!
//! ```
//! let token = write(alloc, &keys, DEFAULT_THRESHOLD, &jti)?;
//! let config = read(alloc, &token, &keys)?;
//! assert_eq!(config.threshold, DEFAULT_THRESHOLD);
//! ```
//!
//! Not promised: constant time, and that keys are wiped from memory.
#![tactic(auto)]

mod claims;
mod config;
mod laws;
mod token;
mod written;

pub use config::{ClaimName, Config, ConfigErr, read};
pub use laws::a_long_file_is_too_long;
pub use written::write;
