//! Tests of a host in memory: each of its calls, the calls that fail, and what a power cut leaves of it and of a folder over it.
//!
//! ```
//! rt test
//! ```
#![tactic(auto)]

#[cfg(test)]
mod calls;
#[cfg(test)]
mod lent;
#[cfg(test)]
mod stops;
