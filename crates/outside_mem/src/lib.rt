//! The outside of the program in memory, for tests: every object tells what it holds, counts its calls, and fails at listed
//! calls and if memory is refused, and nowhere else.
//!
//! ```
//! let mut folder = MemFolder::new(alloc)?.failing_at(vec![in alloc; 2]?);
//! folder.put(&path, b"abc")?;
//! folder.sync()?;
//! assert_eq!(rt; folder.kind(&path), Err(FolderErr::Failed)); // call 2, counted from 0
//! ```
#![tactic(auto)]

mod applying;
mod change;
mod clock;
mod disk;
mod entropy;
mod folder;
mod images;
mod link;
mod plan;
mod stream;

pub use clock::{OpenGate, SetClock, TickingClock};
pub use entropy::SeedEntropy;
pub use folder::MemFolder;
pub use link::{MemLink, MemListener};
pub use stream::{MemSink, MemSource};
