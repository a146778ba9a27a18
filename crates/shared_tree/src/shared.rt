//! How a tree is shared, and how it is returned.
ghost use Rattle.std.specs.Prelude.{◌≡◌, ◌<◌, [], All, IfErr, IfOk, IfSome, vec_len};
ghost use Rattle.turn_lock.specs.Seats.{IsIdle, IsWhole, new_seats};
ghost use Rattle.shared_tree.specs.Turns.{StandsFor};

use crate::held::{Held, Start};
use crate::tree::SharedTree;
use std::alloc::Global;
use std::marker::Model;
use turn_lock::{Seat, TurnLock};

/// A tree that several clients ask. Contracts see which lock it is behind, and how many seats were made for it.
pub struct Shared<T: SharedTree, B: Start> {
    pub(crate) lock: TurnLock<Held<T, B>>,
}

impl<T: SharedTree, B: Start> Model for Shared<T, B> {
    ghost use Rattle.turn_lock.specs.SeatView.{LockView};

    ghost Value = { LockView };

    ghost view = { λ s. s.lock };
}

impl<T: SharedTree, B: Start> Shared<T, B> {
    /// Shares a tree that nothing was asked yet, among callers that have the numbers from 0 in order.
    ///
    /// # Errors
    ///
    /// Out of memory, with the tree if it is left.
    pub fn new(
        alloc: Global,
        tree: T,
        seats: usize,
    ) -> Result<(Shared<T, B>, Vec<Seat<Held<T, B>>>), Option<T>>
        requires some { 0 < seats }
        requires right { StandsFor B.is T.stands tree [] }
        ensures ok { IfOk result (λ r. (r.0.seats ≡ seats) × (r.1.items ≡ new_seats r.0.id 0 seats)) }
        ensures err { IfErr result (λ left. IfSome left (λ t. t ≡ tree)) }
    {
        match TurnLock::new(alloc, seats, Held::new(tree)) {
            Ok((lock, seats)) => Ok((Shared { lock }, seats)),
            Err(Some(held)) => Err(Some(held.into_tree())),
            Err(None) => Err(None),
        }
    }

    /// The tree, which stands for one whole history: what each seat has seen begins it, each seat's own entries are those of its number in it,
    /// and there are no others.
    pub fn close(self, seats: Vec<Seat<Held<T, B>>>) -> T
        requires all { (0 < vec_len seats) × (self.seats ≡ vec_len seats) }
        requires idle { All (IsIdle self.id) seats.items }
        ensures { IsWhole (StandsFor B.is T.stands) result seats.items }
    {
        let Shared { lock } = self;
        lock.close(seats).into_tree()
    }
}
