//! The kinds of atomic step, and what each shows.
ghost use Rattle.std.specs.Prelude.{Option};
ghost use Rattle.turn_lock.specs.Views.{made_one, newcomer, witness, joined, spent_view};
ghost use Rattle.turn_lock.specs.Steps.{drew, looked, gave, learned};

use crate::history::History;
use crate::rule::View;
use atomic_table::{Join, Play, Split};
use std::marker::{Brand, PhantomData};

/// Which entry a turn makes, picked at the call.
pub(crate) trait Event<E> {
    ghost is: { Option E → Type 0 };
}

impl<E> Event<E> for Brand {
    ghost is = { λ _. Unit {0} };
}

/// A ticket is drawn: one is added to the count of tickets.
pub(crate) struct Draw;

impl<V, E> Play<Option<V>, View<E>> for Draw {
    ghost then = { drew };
}

/// The count of turns is loaded. If it is the ticket, the slot is taken in this step.
pub(crate) struct Look;

impl<V: History> Play<Option<V>, View<V::Entry>> for Look {
    ghost then = { looked V.stands };
}

/// A turn ends: one is added to the count of turns, and the slot is given back in this step.
pub(crate) struct Give<J> {
    event: PhantomData<J>,
}

impl<V: History, J: Event<V::Entry>> Play<Option<V>, View<V::Entry>> for Give<J> {
    ghost then = { gave V.stands J.is };
}

/// The count of turns is loaded after a join: each list that was met begins what is seen.
pub(crate) struct Learn;

impl<V, E> Play<Option<V>, View<E>> for Learn {
    ghost then = { learned };
}

/// Number 0 makes a token with the next number.
pub(crate) struct Make;

impl<E> Split<View<E>> for Make {
    ghost left = { made_one };

    ghost right = { newcomer };
}

/// A token is made that has seen as much, and can do nothing.
pub(crate) struct Double;

impl<E> Split<View<E>> for Double {
    ghost left = { λ v. v };

    ghost right = { witness };
}

/// A token takes in what another knows.
pub(crate) struct Both;

impl<E> Join<View<E>> for Both {
    ghost both = { joined };

    ghost spent = { spent_view };
}
