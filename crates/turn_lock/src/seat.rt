//! What a caller holds: its seat, and the value for one turn.
ghost use Rattle.std.specs.Prelude.{◌≡◌, ℕ, Option, []};

use crate::history::History;
use crate::rule::View;
use atomic_table::Seat as Token;
use std::marker::Model;

/// One caller's place at a lock. Contracts see the lock, its number, its ticket while it has one, whether it is in a turn, how many
/// tickets it drew, and the list of turns that it has seen, which begins the one history of the lock.
pub struct Seat<V: History> {
    pub(crate) token: Token<Option<V>, View<V::Entry>>,
    pub(crate) number: u64,
    // its ticket, if that has no turn
    pub(crate) late: Option<u64>,
}

impl<V: History> Model for Seat<V> {
    ghost use Rattle.turn_lock.specs.SeatView.{SeatView};

    ghost Value = { SeatView V.Entry };

    ghost use Rattle.turn_lock.specs.Views.{seat_view, IsSeat};

    ghost view = { λ s. seat_view s.token.table_id s.token.me.0 };

    ghost invariant = { λ s. IsSeat s.token.me s.number s.late };
}

impl<V: History> Seat<V> {
    ghost use Rattle.turn_lock.specs.Views.{fresh, seat_view, IsSeat};
    ghost use Rattle.turn_lock.specs.Seats.{new_seat};

    /// A seat that has done nothing. Number 0 counts the numbers that it gave away.
    pub(crate) fn new(token: Token<Option<V>, View<V::Entry>>, number: u64) -> Self
        requires { (given : ℕ) × (token.me ≡ (record (fresh number) { given = given }, [])) }
        ensures { result ≡ new_seat token.table_id number }
    {
        Seat {
            token,
            number,
            late: None,
        }
    }

    pub(crate) fn into_token(self) -> Token<Option<V>, View<V::Entry>>
        ensures view { self ≡ seat_view result.table_id result.me.0 }
        ensures seat { (late : Option ℕ) × IsSeat result.me self.number late }
    {
        let Self {
            token,
            number: _,
            late: _,
        } = self;
        token
    }

    /// Its number, from 0 in the order in which the seats were made.
    pub fn number(&self) -> u64
        ensures { result ≡ self.now.number }
    {
        self.number
    }
}

impl<V: History> Drop for Seat<V> {
    fn drop(self) {
        let Self {
            token: _,
            number: _,
            late: _,
        } = self;
    }
}

/// The value, for one turn. It borrows nothing, and has to be ended: there is no other turn before.
pub struct Turn<V> {
    pub(crate) value: V,
}

impl<V> Model for Turn<V> {
    ghost Value = { V };

    ghost view = { λ turn. turn.value };
}

impl<V> Turn<V> {
    ghost use Rattle.std.specs.Borrow.{Lends, sem};
    ghost use Rattle.turn_lock.specs.contracts.seat.Turn.{the_row};

    /// The value, to look at.
    pub fn value(&self) -> &V
        ensures { result.now ≡ self.now }
    {
        &self.value
    }

    /// The value, to change.
    pub fn value_mut(&mut self) -> &mut V
        ensures* writes_back { sem 𝓛 (Lends (the_row V.row) V.row self.entry result (λ w. w)) }
        ensures value { result.now ≡ self.old }
    {
        &mut self.value
    }
}

/// The ticket that was drawn has no turn.
#[derive(Debug, Drop)]
pub struct Spent(pub u64);
