//! What a change of a node's attributes (wstat, stat(5)) comes to in the tree of an open vault, or why it is refused, as far as
//! the node itself says. Nothing is changed: others make the plan true. Of a write and a truncation likewise what refuses them
//! before the file's content is looked at, and of a creation what refuses it before the name's form NFC is needed.
//!
//! ```
//! match request_checks::plan_change(alloc, &tree, number, &change)? {
//!     Ok(Plan::Rename(name)) => rename(number, name, change.modified, now),
//!     Ok(Plan::Resize(length)) => resize(number, length, change.modified, now),
//!     Ok(Plan::Date) => date(number, change.modified),
//!     Err(refusal) => Reply::Refused(refusal),
//! }
//!
//! if let Some(refusal) = request_checks::write_refusal(&tree, number, at, bytes.len()) {
//!     return Reply::Refused(refusal);
//! }
//! ```
#![tactic(auto)]

mod contents;
mod creating;
mod fixed;
mod lengths;
mod names;
mod planning;

pub use contents::{truncation_refusal, write_refusal};
pub use creating::creation_refusal;
pub use planning::{Plan, plan_change};
