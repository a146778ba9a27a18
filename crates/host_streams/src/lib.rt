//! One read or write of any reader or writer of std, tried again where a signal cuts it short, the count of those that failed, telling why, and
//! what the call of a folder answers for it.
//!
//! ```
//! let answer = told(&log, "read of the secret", read_some(&mut reader, &mut buffer));
//! let count = counted(&mut faults, answer)?; // a failure, only after the count rose
//! ```
//!
//! As much is told to proofs of what comes and goes as the reader or the writer tells. No clause says what a logger is told.
#![tactic(auto)]

mod answering;
mod count;
mod errors;
mod telling;
mod transfer;

pub use answering::{changed, listed, looked};
pub use count::{counted, raised};
pub use errors::{is_misfit, is_missing};
pub use telling::{TARGET, told};
pub use transfer::{read_one, read_some, write_some};
