//! Tests of `turn_lock`: a counter behind a lock, that threads add to.
#![tactic(auto)]

mod counter;
mod crowd;
#[cfg(test)]
mod tests;

pub use counter::{Added, Counter, Meeting, add, add_and_meet, look, meet_both_ways};
pub use crowd::{Outcome, count_in_threads};
