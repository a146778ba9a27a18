//! Serves links, one after another, in one thread or in several.
//!
//! # One link
//!
//! Serves a link: reads its messages one at a time and writes each answer whole before the next is read.
//!
//! ```
//! let end = serve_session(rt.alloc(), &mut link, &mut tree, &mut clock);
//! println!(rt; "the session ended: {end:?}")?;
//! ```
//!
//! # Workers
//!
//! Workers: each serves its share of the sessions, one link of its listener after another, in a thread of its own.
//!
//! ```text
//! let mut crews = vec![in alloc; Crew::new(listener, object, clock)]?;
//! let counts = run_workers(&rt, alloc, 100, 1, &mut crews)?; // 100 sessions, or as many as came
//! println!(rt; "{} sessions, {} of them done", counts.sessions, counts.done)?;
//! ```
//!
//! A worker's links are served over its own [`tree_model::TreeObject`], whatever that is; one that stands for a shared tree makes the sessions
//! of all workers one history.
#![tactic(auto)]

mod counts;
mod crew;
mod ending;
mod frame;
mod full;
mod laws;
mod server;
mod workers;

pub use counts::SessionCounts;
pub use crew::Crew;
pub use ending::SessionEnd;
pub use laws::{a_session_of_whole_messages_is_done, talks_look_back};
pub use server::serve_session;
pub use workers::run_workers;
