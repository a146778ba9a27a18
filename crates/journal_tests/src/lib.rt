//! Tests of the journal's crates: the bytes of batches, what waits over a folder in memory, and what a flush of it leaves.
//!
//! ```
//! rt test
//! ```
#![tactic(auto)]

#[cfg(test)]
mod batches;
#[cfg(test)]
mod contents;
#[cfg(test)]
mod flushes;
#[cfg(test)]
mod loose;
#[cfg(test)]
mod meddled;
#[cfg(test)]
mod reads;
