//! Tests of demonstrations: scripts and summaries beside those of an independent implementation.
//!
//! ```
//! rt test
//! ```
#![tactic(auto)]

#[cfg(test)]
mod scripts;
#[cfg(test)]
mod summaries;
