//! One session of 9P2000: its agreed size and its fids, and what each message is answered (intro(5) to wstat(5)). A message asks the
//! tree for one request at most.
//!
//! ```
//! let mut session = Session::new(rt.alloc())?;
//! let count = session.answer(&frame, &mut tree, now, &mut buffer);
//! link.write(&buffer[..count])?;
//! ```
#![tactic(auto)]

mod action;
mod change;
mod exchange;
mod fids;
mod last_name;
mod laws;
mod outcome;
mod session;
mod slot;
mod texts;

pub use laws::fids_are_found_by_looking_back;
pub use session::{MAX_MESSAGE, Session};
