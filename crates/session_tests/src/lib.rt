//! Tests of the messages, sessions and links, and of a client that asks for a sync, by frames written out by hand from their layouts in section 5
//! of the Plan 9 manual; and of workers' sessions over one tree, in threads.
//!
//! ```
//! rt test
//! ```
#![tactic(auto)]

#[cfg(test)]
mod answers;
#[cfg(test)]
mod clocks;
#[cfg(test)]
mod counting;
#[cfg(test)]
mod forms;
#[cfg(test)]
mod frames;
#[cfg(test)]
mod links;
#[cfg(test)]
mod messages;
#[cfg(test)]
mod obliging;
#[cfg(test)]
mod one_file;
#[cfg(test)]
mod patient;
#[cfg(test)]
mod room;
#[cfg(test)]
mod rounds;
#[cfg(test)]
mod sessions;
#[cfg(test)]
mod sizes;
#[cfg(test)]
mod syncs;
#[cfg(test)]
mod talks;
#[cfg(test)]
mod turns;
