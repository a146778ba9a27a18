//! One file tree for many clients: what all of them ask is one history.
//!
//! # Clients of a shared tree
//!
//! A file tree that many callers ask at once: what they ask is one history, of which every caller knows a beginning.
//!
//! ```text
//! let (shared, mut seats) = Shared::<Tree, Start>::new(alloc, tree, 2)?;
//! let mut client = Client::new(&shared, &rt, seat, entropy);
//! let reply = client.ask(&request, second, &mut buffer); // one turn of the lock, and one entry of the history
//! let (seat, entropy) = client.leave();
//! ```
//!
//! The tree is behind a [`turn_lock::TurnLock`]. A client is a [`tree_model::TreeObject`], and asks with its own random source. What it has
//! asked is, in order, what the history has of its number, but for requests for which no turn was left.
//!
//! # Sessions over a shared tree
//!
//! Many workers' sessions over one shared tree: all that is asked in them is one history.
//!
//! ```text
//! let mut workers = vec![in alloc; Worker { listener, entropy, clock }]?;
//! let Ok(served) = serve_all(&rt, alloc, tree, 100, 1, &mut workers) else { return out_of_memory() };
//! println!(rt; "{} sessions", served.counts?.sessions)?; // `served.tree` stands for all that was asked
//! ```
//!
//! Worker j is caller number j of the history: its entries are, in order, what was asked on the links of its listener, at the seconds that its
//! clock gave.
#![tactic(auto)]

ghost use Rattle.std.specs.Prelude.{◌≡◌};
ghost use Rattle.shared_tree.specs.Limits.{most_tickets};

mod client;
mod held;
mod made;
mod serving;
mod shared;
mod tree;
mod workers;

pub use client::Client;
pub use held::{Held, Start};
pub use made::Made;
pub use serving::{Served, serve_all};
pub use shared::Shared;
pub use tree::SharedTree;
pub use workers::Worker;

/// How many tickets a client draws for one request at most.
pub const MOST_TICKETS: u64 = 17;

/// The number of tickets in the code is that of the definitions. It does nothing.
pub fn most_tickets_is_the_definitions()
    ensures { MOST_TICKETS ≡ most_tickets }
{}
