//! A look at a folder before a batch of deeds is committed: another program may have put an entry there since the folder was
//! read, or taken one away, so that a deed no longer fits.
//!
//! ```text
//! look(alloc, &mut journal, &deeds)?; // refuses what doesn't fit, before anything changes
//! journal.commit(&deeds)?;
//! ```
//!
//! | deed | what it needs |
//! |---|---|
//! | `MakeDir` | above it a folder, and at its path a folder or nothing |
//! | `Put` | above it a folder, and at its path nothing or a file that isn't longer than the one that is put |
//! | `Rename` | a file, above the new path a folder, and there nothing |
//! | `Remove` | a file or nothing |
//! | `RemoveDir` | nothing, or a folder each of whose entries is named by a deed of the batch |
//! | `Reshape` | a file |
//!
//! A folder above may also be one that a `MakeDir` of the batch makes. Where something is to be removed, what is neither a file nor a folder,
//! as a link, doesn't fit.
#![tactic(auto)]

mod looking;
mod misfit;
mod named;

pub use looking::look;
pub use misfit::Misfit;
