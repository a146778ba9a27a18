//! A lock that hands out turns in the order of their tickets, and whose turns are one history that every holder of a seat knows in part.
//!
//! A lock is made over a value, with a fixed number of seats, one for each caller. A turn takes the value out of the lock, and ends when
//! it is given back, with an entry or with none. What the value stands for after each turn is a relation of its own ([`History`]), between
//! the value and the list of all turns that ended; the lock never looks into it.
//!
//! ```text
//! let (lock, seats) = TurnLock::new(alloc, 2, tally)?;
//! let mut turn = lock.take(&rt, &mut seat)?;  // the seat has now seen all turns so far, and the value stands for them
//! turn.value_mut().add(7);
//! lock.end(&mut seat, turn, &Added(7));       // one more turn, whose entry is 7
//! ```
//!
//! The history exists for contracts alone. At run time a lock is two words and a slot, and a turn is three atomic steps beside the loads
//! of one word while it waits. Nothing is promised of waiting: not that a turn is ever given, nor fairness beyond the order of tickets.
#![tactic(auto)]

ghost use Rattle.std.specs.Prelude.{◌≡◌};
ghost use Rattle.turn_lock.specs.Limits.{turn_limit};

mod history;
mod lock;
mod making;
mod meeting;
mod rule;
mod seat;
mod steps;
mod turnstile;

pub use history::{Ended, History, NoEntry, Note};
pub use lock::TurnLock;
pub use seat::{Seat, Spent, Turn};

/// How many turns a lock has: tickets from this number on have none.
pub const TURN_LIMIT: u64 = 1 << 62;

/// The number of turns in the code is that of the definitions. It does nothing.
pub fn turn_limit_is_the_definitions()
    ensures { TURN_LIMIT ≡ turn_limit }
{}
