//! A host in memory, for tests: it tells what was done to its folder, fails at listed calls, and can lose its power at any moment.
//!
//! ```
//! let mut host = MemHost::new(alloc, "vault")?.failing_at(vec![in alloc; fault]?);
//! host.mkdir("vault/d")?;
//! let left = host.power_cut(&[Leaves::Nothing])?; // the name isn't on the disk yet
//! assert!(matches!(left.stat("vault/d", false), Ok(Found::Nothing)));
//! ```
//!
//! A kill of the program keeps the host: drop the folder over it, and go on with `restarted`.
#![tactic(auto)]

mod calls;
mod choices;
mod diary;
mod file;
mod filing;
mod host;
mod names;
mod naming;
mod plan;
mod step;
mod text;

pub use choices::Leaves;
pub use host::MemHost;
pub use plan::{Extent, Fault};
