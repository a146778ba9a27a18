//! A folder that tells nothing, as a real one does, over one that may.
//!
//! ```
//! let mut folder = Untelling::over(memory);
//! folder.put(&path, b"bytes")?;
//! let memory = folder.folder;
//! ```
#![tactic(auto)]

mod meddled;
mod untelling;

pub use meddled::{Meddled, Meddling};
pub use untelling::Untelling;
