//! What a tree in memory answers to requests that need no byte of a host file, by the step of the plain file tree.
//!
//! ```
//! let root = tree_answers::look(&tree, 0);
//! let walked = tree_answers::walk(alloc, &tree, 0, &names)?;
//! let opened = tree_answers::open_node(&tree, 0, 0);
//! let stat = tree_answers::stat_of(&tree, 0, &mut buffer);
//! let listed = tree_answers::list(alloc, &tree, 0, None, 8192, &mut buffer)?;
//! ```
#![tactic(auto)]

mod listing;
mod nodes;
mod stats;
mod walking;

pub use listing::list;
pub use nodes::{is_truncating, look, open_node, sync};
pub use stats::{OWNER, mode, stat_of};
pub use walking::{name_refusal, walk};
