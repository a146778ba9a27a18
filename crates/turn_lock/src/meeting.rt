//! How seats tell each other what they have seen.
ghost use Rattle.std.specs.Prelude.{◌≡◌, false};
ghost use Rattle.turn_lock.specs.Turns.{longer};
ghost use Rattle.turn_lock.specs.Seats.{Learns};

use crate::history::History;
use crate::lock::TurnLock;
use crate::seat::Seat;

impl<V: History> TurnLock<V> {
    /// Both have then seen one list: the longer of the two, which both begin.
    pub fn meet(&self, first: &mut Seat<V>, second: &mut Seat<V>)
        requires own { (first.old.lock ≡ self.now.id) × (second.old.lock ≡ self.now.id) }
        requires idle { (first.old.in_turn ≡ false) × (second.old.in_turn ≡ false) }
        ensures first { Learns first.old first.new (longer first.old.seen second.old.seen) }
        ensures second { Learns second.old second.new (longer first.old.seen second.old.seen) }
    {
        self.turnstile.tell(&mut first.token, &mut second.token);
        self.turnstile.tell(&mut second.token, &mut first.token);
    }
}
