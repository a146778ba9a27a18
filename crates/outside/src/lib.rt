//! The outside of the program as traits: a host folder, streams, links, random bytes and the clock.
//!
//! Each object has a count of faults that never falls, and answers that it failed only if the count rose in that call. An
//! object *tells* its contents if they are visible to proofs: objects in memory tell theirs, real ones don't, and a clause about
//! contents that aren't told promises nothing of them. A folder tells a log of the calls that changed or flushed it, from which
//! follow what reads give and what a stop may leave at each moment.
//!
//! ```
//! folder.put(&path, b"some bytes")?; // a stop may leave any part of it
//! folder.sync()?; // a stop leaves it whole
//! let count = folder.read(&path, 5, &mut buffer)?; // 5, and "bytes" in the buffer
//! ```
#![tactic(auto)]

mod clock;
mod entropy;
mod folder;
mod link;
mod stream;

pub use clock::{Clock, Gate, Stage};
pub use entropy::Entropy;
pub use folder::{Folder, FolderErr, Kind, Reads, Refused};
pub use link::{Link, Listener};
pub use stream::{Failed, Sink, Source};
