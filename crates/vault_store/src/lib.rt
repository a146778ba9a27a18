//! Answers requests over one open vault, from the tree in memory and the sealed files in its folder, and changes both by whole
//! batches.
//!
//! ```
//! let mut store = Store::open(alloc, folder, &keys, DEFAULT_THRESHOLD, now)?;
//! let root = store.serve(&Request::Look { node: 0 }, now, &mut entropy, &mut buffer);
//! let made = Request::Create { node: 0, name: "notes", is_dir: true, mode: 0 };
//! let reply = store.serve(&made, now, &mut entropy, &mut buffer);
//! ```
//!
//! A `ReadOnlyStore` answers the same requests and makes no call that changes the folder, by its type: what would change something it refuses.
#![tactic(auto)]

mod answering;
mod changing;
mod closed;
mod contents;
mod flushing;
mod opening;
mod read_only;
mod reading;
mod sizes;
mod store;

pub use closed::ClosedStore;
pub use opening::OpenErr;
pub use read_only::{ReadOnlyErr, ReadOnlyStore};
pub use store::Store;
