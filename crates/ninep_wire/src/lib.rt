//! The messages of 9P2000 (section 5 of the Plan 9 manual): what clients send is read if and only if it is in the grammar, and
//! what a server answers is written in its one spelling. Nothing here takes memory.
//!
//! ```
//! let message = read_message(&frame[..size])?;
//! if let TMessage::Clunk { fid } = message.body {
//!     forget(fid);
//!     let size = write_reply(&RMessage::Clunk, message.tag, &mut out);
//!     link.write(&out[..size])?;
//! }
//! ```
//!
//! Laws: `t_spellings_are_apart`, `r_spellings_are_apart` and `stats_are_apart`, which do nothing.
#![tactic(auto)]

mod change;
mod fault;
mod fields;
pub mod kinds;
mod laws;
mod messages;
mod put;
mod r_message;
mod read;
mod t_message;
mod write;

pub use fault::WireErr;
pub use laws::{r_spellings_are_apart, stats_are_apart, t_spellings_are_apart};
pub use r_message::RMessage;
pub use read::read_message;
pub use t_message::{Message, TMessage};
pub use write::{write_reply, write_stat};
