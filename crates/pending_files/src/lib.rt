//! Sealed changes of content files that aren't committed yet, and reads that show them.
//!
//! ```text
//! let mut pending = Pending::new(alloc)?;
//! if pending.room(&path, 1) {
//!     pending.put_chunk(&path, 32_864, 68, &sealed); // the file's length after it, the chunk's place and bytes
//! }
//! let count = pending.read_through(&mut folder, &path, 68, &mut buffer)?; // what a read gives once all is committed
//! ```
//!
//! Laws: `doing_what_waits`, `cutting_what_waits`, `putting_in_what_waits` and `laying_what_waits`, which do nothing.
#![tactic(auto)]

mod laws;
mod pending;
mod places;
mod reading;
mod room;

pub use laws::{cutting_what_waits, doing_what_waits, laying_what_waits, putting_in_what_waits};
pub use pending::Pending;
