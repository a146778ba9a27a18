//! The plain file tree that clients see: what is asked of it, what it answers, and which histories of it are legal.
//!
//! # Requests and replies
//!
//! The plain file tree that clients see, and what is asked of it: requests, replies and refusals, and the trait of an
//! object that answers them.
//!
//! ```
//! let request = Request::Read { node: 2, at: 0, count: 4096 };
//! match tree.ask(&request, second, &mut buffer) {
//!     Reply::Count(count) => write_all(&buffer[..count as usize])?,
//!     _ => return Err(Fault::Refused), // `Reply::Refused` says why
//! }
//! ```
//!
//! # Histories
//!
//! Legal histories of the plain file tree: what a store makes of a request, which entries may come in which order, and what
//! their causes are. `a_faultless_history_is_the_steps` is a law: it does nothing, and its clause holds.
//!
//! ```
//! // Of a legal history without a fault: each answer is the step's.
//! tree_model::a_faultless_history_is_the_steps();
//! ```
#![tactic(auto)]

mod laws;
mod object;
mod refusal;
mod reply;
mod request;
mod stat;

pub use laws::a_faultless_history_is_the_steps;
pub use object::TreeObject;
pub use refusal::Refusal;
pub use reply::Reply;
pub use request::{Names, Request};
pub use stat::{Qid, Stat, StatChange};
