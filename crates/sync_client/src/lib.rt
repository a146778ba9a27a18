//! A client of 9P2000 that asks a server for one sync: all that was written is on stable storage once it is answered.
//!
//! ```
//! sync_root(&mut link)?; // 0, or why the server didn't answer
//! ```
//!
//! It takes no memory, and sends each of its three messages once the one before is answered.
#![tactic(auto)]

mod asking;
mod full;
mod laws;
mod question;
mod reply;
mod sync_err;

pub use asking::sync_root;
pub use laws::{a_talk_that_is_done_is_answered, sync_messages_are_formed};
pub use sync_err::SyncErr;
