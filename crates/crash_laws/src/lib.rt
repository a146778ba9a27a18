//! What a stop at a moment of a history recovers to: a prefix of the history that holds all that was synced.
//!
//! ```
//! // A request that is committed by itself: what is pending first, then the entry's own deeds.
//! crash_laws::settles(&shape);
//! crash_laws::commits(&shape);
//! crash_laws::stops_recover(&shape);
//! ```
//!
//! What a history stands for is said of its folder's log: `IsRunning`, from entry to entry, and `IsBroken` after a commit that
//! failed. When a disk's rows have the shape of given rows is for `ShowsRows` to say, of which nothing is asked but that the
//! journal's two files don't matter to it. Its functions are laws: they do nothing, and their clauses hold.
#![tactic(auto)]

mod laws;
mod shape;

pub use laws::{
    begins, breaks, closes, commits, continues, crash_more, idles, idles_kept, lives_on,
    recovers_to_trees, running_safe, settles, settles_broken, stables_follow, states_follow,
    stays_broken, stops_are_sound, stops_recover, tallies_hold,
};
pub use shape::ShowsRows;
