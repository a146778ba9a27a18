//! Tests of the outside in memory: each public call of `outside_mem`, with what it answers.
//!
//! ```
//! rt test
//! ```
#![tactic(auto)]

#[cfg(test)]
mod folders;
#[cfg(test)]
mod streams;
