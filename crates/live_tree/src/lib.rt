//! The tree of an open vault in memory as it changes: nodes by number, of which none is used twice, and by name in each directory.
//!
//! ```
//! let mut tree = LiveTree::from_tree(alloc, loaded, unlocked)?;
//! let number = tree.add(0, name, What::File { size: 68 }, entry, false, now)?;
//! tree.remove(number, now);
//! ```
#![tactic(auto)]

mod changing;
mod directories;
mod node;
mod tree;

pub use node::LiveNode;
pub use tree::LiveTree;
