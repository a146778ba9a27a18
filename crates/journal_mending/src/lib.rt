//! Mends a journal whose open batch no longer fits the folder, since another program changed it: what each of its deeds is to the folder, and the two ways out.
//!
//! ```text
//! let deeds = inspect(alloc, &mut folder)?; // what is done, what is to be done, what doesn't fit, and whose file was saved anew
//! let deeds = skip(alloc, &mut folder)?; // does what fits, leaves out the others, and closes the gate
//! let number = discard(alloc, &mut folder)?; // or puts the journal aside as served.journal.1
//! ```
//!
//! `inspect` says of each deed how it is on the folder as it is now. A deed that needs an earlier one of its batch, as a file in a folder that is made first or a
//! folder that is emptied first, is to be done unless that one doesn't fit. What `skip` does is proved for the deeds one after the other, each on what those
//! before it left. Whose file was saved anew, by the header that the journal kept of it, is told and left out; no clause says when that is.
#![tactic(auto)]

mod anew;
mod discarding;
mod inspecting;
mod looking;
mod order;
mod reshaping;
mod skipping;
mod state;
mod states;

pub use discarding::{DiscardErr, discard};
pub use inspecting::inspect;
pub use skipping::skip;
pub use state::{DeedState, State};
