//! The rule of a lock's table, which ties its words and its slot to one list of turns.
use crate::history::{Ended, History};
use atomic_table::TableRule;
use std::collections::LinkedList;

/// What a token had seen when it was met, and its number if it was joined. No value of it is made.
pub struct Met<E> {
    pub by: Option<u64>,
    pub seen: LinkedList<Ended<E>>,
}

/// What a token knows. No value of it is made.
///
/// `given` counts the numbers that number 0 gave away, `parts` are the rights to a number that it still has, `drawn` counts tickets,
/// and `mine` are the turns of its own number.
pub struct View<E> {
    pub number: Option<u64>,
    pub given: u64,
    pub parts: u64,
    pub ticket: Option<u64>,
    pub drawn: u64,
    pub took: bool,
    pub seen: LinkedList<Ended<E>>,
    pub mine: LinkedList<Ended<E>>,
    pub met: LinkedList<Met<E>>,
}

/// The rule. The key is the number of seats.
pub struct Orderly;

impl<V: History> TableRule<Option<V>, View<V::Entry>, u64> for Orderly {
    ghost use Rattle.turn_lock.specs.Rule.{Kept};
    ghost use Rattle.turn_lock.specs.Views.{first_view};

    ghost holds = { Kept V.stands };

    ghost first = { first_view };
}
