//! The clear tree that a vault's disk stands for, defined by path: which node is at each path, who has each directory's
//! folder, what is marked, and the rows that follow. And [`Tree`], what is kept of it in memory.
//!
//! ```
//! let mut tree = Tree::with_root(alloc, folder)?;
//! tree.push(Node::new(0, name, What::File { size: 68 }, entry, false, false))?;
//! let host = tree.path(1)?;
//! ```
//!
//! Its free functions are laws: they do nothing, and their clauses hold.
#![tactic(auto)]

mod host_paths;
mod node;
mod tree;

ghost use Rattle.clear_tree.specs.Kept.{KeepingTellsRows};
ghost use Rattle.clear_tree.specs.Loading.{LoadingEnds};
ghost use Rattle.clear_tree.specs.Laws.{BareVaultIsClear, EmptyVaultIsClear, OneDirectoryIsMade, OneDirectoryIsRemoved, OnePlaceChanges, OneTree, RowsAreDetermined, WalkEnds, WalkGoesOn};

pub use host_paths::{host_entry, host_folder, host_inner, host_two};
pub use node::{Node, What};
pub use tree::{Tree, TreeNodes};

/// The folders determine the nodes, whoever their owners are said to be. It does nothing.
pub fn tree_is_determined()
    ensures { OneTree }
{}

/// A disk stands for one list of rows at most. One of which only the root's folder is there stands for the root alone, and there are such
/// disks. It does nothing.
pub fn rows_are_determined()
    ensures one { RowsAreDetermined }
    ensures bare { BareVaultIsClear }
    ensures some { EmptyVaultIsClear }
{}

/// A change in one directory's folder changes one place of the tree: if the text of one name shows another file or link,
/// or none; if it becomes that of a new directory; and if a directory without children goes. It does nothing.
pub fn one_place_changes()
    ensures leaf { OnePlaceChanges }
    ensures made { OneDirectoryIsMade }
    ensures removed { OneDirectoryIsRemoved }
{}

/// A walk with a queue gives just the nodes, and as far as it went only nodes. It does nothing.
pub fn walk_is_exact()
    ensures ends { WalkEnds }
    ensures goes_on { WalkGoesOn }
{}

/// What is kept of a disk determines the rows that the disk stands for. It does nothing.
pub fn keeping_tells_rows()
    ensures { KeepingTellsRows }
{}

/// A load whose walk has ended keeps the disk. It does nothing.
pub fn loading_ends()
    ensures { LoadingEnds }
{}
