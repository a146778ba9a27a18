//! How a lock and its seats are made, and how the value is returned.
ghost use Rattle.std.specs.Prelude.{◌≡◌, ◌<◌, ◌≤◌, List, [], All, IfOk, IfErr, IfSome, Some, vec_len, vec_capacity};
ghost use Rattle.turn_lock.specs.declared.rule.View.{View};
ghost use Rattle.turn_lock.specs.Views.{maker};
ghost use Rattle.turn_lock.specs.Steps.{AreViews, IsAll};
ghost use Rattle.turn_lock.specs.Seats.{new_seats, IsIdle, IsWhole};

use crate::TURN_LIMIT;
use crate::history::History;
use crate::lock::TurnLock;
use crate::rule::View;
use crate::seat::Seat;
use crate::turnstile::Turnstile;
use atomic_table::Seat as Token;
use std::alloc::Global;

impl<V: History> Turnstile<V> {
    // All seats, if there is room for them. Number 0 has the rights to the other numbers until each has its own.
    fn fill(
        &self,
        mut first: Token<Option<V>, View<V::Entry>>,
        seats: usize,
        mut all: Vec<Seat<V>>,
    ) -> Vec<Seat<V>>
        requires own { first.table_id ≡ self.now.table.shared.table_id }
        requires makes { (0 < seats) × (seats ≡ self.now.table.shared.key) × (first.me ≡ (maker seats 1, [])) }
        requires room { (all.items ≡ []) × (seats ≤ vec_capacity all) }
        ensures { result.items ≡ new_seats first.table_id 0 seats }
    {
        for made in 1..seats {
            let token = self.another(&mut first);
            let Ok(()) = all.push(Seat::new(token, made as u64)) else {
                unreachable!()
            };
        }
        let Ok(()) = all.insert(0, Seat::new(first, 0)) else {
            unreachable!()
        };
        all
    }

    // A token that knows all that these seats know.
    fn gather(&self, mut seats: Vec<Seat<V>>) -> Token<Option<V>, View<V::Entry>>
        requires all { (0 < vec_len seats) × (self.now.table.shared.key ≡ vec_len seats) }
        requires idle { All (IsIdle self.now.table.shared.table_id) seats.items }
        ensures own { result.table_id ≡ self.now.table.shared.table_id }
        ensures all { (ws : List (View V.Entry)) × AreViews self.now.table.shared.table_id seats.items ws × IsAll self.now.table.shared.key result.me.0 ws }
    {
        let Some(last) = seats.pop() else {
            unreachable!()
        };
        let mut token = last.into_token();
        let mut all = self.copy_of(&mut token);
        self.join(&mut all, token);
        while let Some(seat) = seats.pop() {
            self.join(&mut all, seat.into_token());
        }
        seats.destroy_empty();
        all
    }
}

impl<V: History> TurnLock<V> {
    /// A lock over a value that stands for no turns, and its seats, which have the numbers from 0 in order.
    ///
    /// # Errors
    ///
    /// Out of memory, with the value if it is left.
    pub fn new(
        alloc: Global,
        seats: usize,
        value: V,
    ) -> Result<(TurnLock<V>, Vec<Seat<V>>), Option<V>>
        requires some { 0 < seats }
        requires right { V.stands value [] }
        ensures ok { IfOk result (λ r. (r.0.seats ≡ seats) × (r.1.items ≡ new_seats r.0.id 0 seats)) }
        ensures err { IfErr result (λ left. IfSome left (λ v. v ≡ value)) }
    {
        if seats as u64 >= TURN_LIMIT {
            return Err(Some(value));
        }
        let Ok(all) = Vec::with_capacity(alloc, seats) else {
            return Err(Some(value));
        };
        match Turnstile::new(alloc, seats as u64, value) {
            Ok((turnstile, first)) => {
                let all = turnstile.fill(first, seats, all);
                Ok((TurnLock { turnstile }, all))
            }
            Err(value) => {
                drop(all);
                Err(Some(value))
            }
        }
    }

    /// The value, which stands for the whole history: what each seat has seen begins it, and its turns are those of these seats.
    pub fn close(self, seats: Vec<Seat<V>>) -> V
        requires all { (0 < vec_len seats) × (self.seats ≡ vec_len seats) }
        requires idle { All (IsIdle self.id) seats.items }
        ensures { IsWhole V.stands result seats.items }
    {
        let TurnLock { turnstile } = self;
        let all = turnstile.gather(seats);
        turnstile.into_value(all)
    }
}
