//! The changes of an open vault's shape: a node is made, removed or gets another name, on the disk by one batch and in memory.
//!
//! ```
//! let mut tree = VaultTree::new(alloc, &keys, DEFAULT_THRESHOLD, live)?;
//! let qid = tree.create(&mut journal, &mut entropy, 0, "notes", false, now)?;
//! tree.rename(&mut journal, qid.path, name, None, now)?;
//! tree.remove(&mut journal, qid.path, now)?;
//! ```
//!
//! Each change is refused as the plain file tree's step refuses it, or for the cause that its answer names, and then changes
//! nothing; or it is committed, and the tree in memory goes on to that of the disk after it. All memory is taken before, and the
//! folder is looked at: an entry that another program left in a folder which goes is `Foreign`, and what isn't there any more a
//! `DeviceFault`. `removal_refusal` says what refuses a removal before its work begins.
#![tactic(auto)]

mod creating;
mod error;
mod misfit;
mod places;
mod removing;
mod renaming;
mod site;
mod tree;

pub use error::ChangeErr;
pub use removing::removal_refusal;
pub use tree::VaultTree;
