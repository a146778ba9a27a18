//! The lock, and how a turn is taken and ended.
ghost use Rattle.std.specs.Prelude.{◌≡◌, IfOk, IfErr, true, false};
ghost use Rattle.turn_lock.specs.Seats.{TakesTurn, IsSpent, MayEnd, EndsTurn};

use crate::TURN_LIMIT;
use crate::history::{History, Note};
use crate::seat::{Seat, Spent, Turn};
use crate::steps::Event;
use crate::turnstile::Turnstile;
use std::marker::{Brand, Model};
use std::sync::Wait;

/// A lock over a value. Contracts see which lock it is, and how many seats were made for it.
#[derive(Drop)]
pub struct TurnLock<V: History> {
    pub(crate) turnstile: Turnstile<V>,
}

impl<V: History> Model for TurnLock<V> {
    ghost use Rattle.turn_lock.specs.SeatView.{LockView};

    ghost Value = { LockView };

    ghost view = { λ l. record { id = l.turnstile.table.shared.table_id; seats = l.turnstile.table.shared.key } };
}

impl<V: History> TurnLock<V> {
    /// Waits for the seat's turn, and takes the value out of the lock. The seat has then seen every turn that ended.
    ///
    /// It fails with `Spent`, which carries the seat's ticket, if and only if that is [`TURN_LIMIT`](crate::TURN_LIMIT) or more, and
    /// from then on without waiting. This is the only call that waits.
    pub fn take<R: Wait>(&self, rt: &R, seat: &mut Seat<V>) -> Result<Turn<V>, Spent>
        requires own { seat.old.lock ≡ self.now.id }
        requires idle { seat.old.in_turn ≡ false }
        ensures turn { IfOk result (λ turn. TakesTurn V.stands seat.old seat.new turn) }
        ensures spent { IfErr result (λ spent. IsSpent seat.old seat.new spent.0) }
    {
        if let Some(ticket) = seat.late {
            return Err(Spent(ticket));
        }
        let ticket = self.turnstile.draw(&mut seat.token);
        if ticket >= TURN_LIMIT {
            seat.late = Some(ticket);
            return Err(Spent(ticket));
        }
        let value = self.turnstile.enter(rt, &mut seat.token, ticket);
        Ok(Turn { value })
    }

    // The turn ends with such an entry as J says. The note is for the pick of J alone.
    fn end_as<J: Event<V::Entry>, N: Note<V::Entry>>(
        &self,
        seat: &mut Seat<V>,
        turn: Turn<V>,
        note: &N,
    )
        requires own { seat.old.lock ≡ self.now.id }
        requires turn { seat.old.in_turn ≡ true }
        requires right { MayEnd V.stands J.is seat.old turn }
        ensures { EndsTurn V.stands J.is seat.old seat.new turn }
    {
        let _ = note;
        let Turn { value } = turn;
        self.turnstile.leave::<J>(&mut seat.token, value);
    }

    /// Ends the seat's turn and puts the value back, which has to stand for all turns that the seat has seen and this one, with an entry
    /// which the note names, or with none.
    pub fn end<N: Note<V::Entry>>(&self, seat: &mut Seat<V>, turn: Turn<V>, note: &N)
        requires own { seat.old.lock ≡ self.now.id }
        requires turn { seat.old.in_turn ≡ true }
        requires right { MayEnd V.stands (N.tells note.now) seat.old turn }
        ensures { EndsTurn V.stands (N.tells note.entry.now) seat.old seat.new turn }
    {
        self.end_as::<Brand, N>(seat, turn, note);
    }
}
