//! A demonstration: what its clients send, what it runs over, and the line that sums up what is left.
//!
//! # Scripts and the line
//!
//! What a demonstration's clients send, and the line that sums up what they leave.
//!
//! ```
//! let sent = script(alloc, seed, client, requests)?;
//! let line = summary(alloc, clients, requests, entries, &rows)?;
//! ```
//!
//! # What is left
//!
//! The nodes that are left of a vault's tree, as the lines that sum a demonstration up.
//!
//! ```
//! let tree = load(alloc, &mut folder, &keys, DEFAULT_THRESHOLD)?;
//! let rows = rows_left(alloc, &mut folder, &keys, &tree)?;
//! let line = summary(alloc, clients, requests, entries, &rows)?;
//! ```
//!
//! # What it runs over
//!
//! What a demonstration runs over: an empty vault in memory, the secret that unlocks it, and each client's link.
//!
//! ```
//! let line = key_line(alloc, seed)?;
//! let keys = read_keys(&mut MemSource::new(alloc, line.to_vec(alloc)?))?;
//! let folder = empty_vault(alloc, &keys)?;
//! let listener = client_listener(alloc, seed, client, requests)?;
//! let entropy = worker_entropy(alloc, seed, client);
//! ```
#![tactic(auto)]

mod client_links;
mod client_scripts;
mod contents;
mod error;
mod laws;
mod left;
mod messages;
mod nodes;
mod requests;
mod rows;
mod vault;
mod words;

pub use client_links::{client_listener, worker_entropy};
pub use client_scripts::script;
pub use error::LeftErr;
pub use laws::{a_client_without_requests_attaches, messages_of_scripts_are_small};
pub use left::rows_left;
pub use rows::{DemoRow, summary};
pub use vault::{empty_vault, key_line};
pub use words::stream_seed;
