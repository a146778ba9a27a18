//! Tests of loading: what odd entries of a vault's folder leave of its tree.
//!
//! ```
//! rt test
//! ```
#![tactic(auto)]

#[cfg(test)]
mod odd;
#[cfg(test)]
mod rows;
#[cfg(test)]
mod vault;
