//! How each worker gets a client of the tree, and gives its seat back.
ghost use Rattle.std.specs.Prelude.{◌≡◌, ◌≤◌, [], reverse, vec_capacity, vec_len};
ghost use Rattle.std.specs.List.{AllByRecursion};
ghost use Rattle.session_server.specs.declared.crew.Crew as kept;
ghost use Rattle.shared_tree.specs.Workers.{AreCrewsOf, AreReady};

use crate::client::Client;
use crate::held::{Held, Start};
use crate::shared::Shared;
use crate::tree::SharedTree;
use outside::{Entropy, Listener};
use session_server::Crew;
use std::sync::Wait;
use turn_lock::Seat;

/// One who serves links: where they come from, a source of random bytes, and a clock.
#[derive(Drop)]
pub struct Worker<N, E, K> {
    pub listener: N,
    pub entropy: E,
    pub clock: K,
}

// The elements in the other order.
fn turn_round<X>(all: &mut Vec<X>)
    ensures items { all.new.items ≡ reverse all.old.items }
    ensures count { vec_len all.new ≡ vec_len all.old }
{
    all.as_mut_slice().reverse();
}

/// Each worker gets a client with the seat of its place.
pub(crate) fn hire<'a, R: Wait, T: SharedTree, B: Start, N: Listener, E: Entropy, K>(
    rt: &'a R,
    shared: &'a Shared<T, B>,
    seats: &mut Vec<Seat<Held<T, B>>>,
    workers: &mut Vec<Worker<N, E, K>>,
    crews: &mut Vec<Crew<N, Client<'a, R, T, B, E>, K>>,
)
    requires here { AllByRecursion (λ seat. seat.lock ≡ shared.now.id) seats.old.items }
    requires ready { AreReady B.is E.faults seats.old.items workers.old.items }
    requires none { crews.old.items ≡ [] }
    requires room { vec_len workers.old ≤ vec_capacity crews.old }
    ensures hired { AreCrewsOf seats.old.items workers.old.items crews.new.items }
    ensures gone { (seats.new.items ≡ []) × (workers.new.items ≡ []) }
    ensures room { (vec_capacity seats.new ≡ vec_capacity seats.old) × (vec_capacity workers.new ≡ vec_capacity workers.old) }
{
    while let Some(seat) = seats.pop() {
        let Some(worker) = workers.pop() else {
            unreachable!()
        };
        let Worker {
            listener,
            entropy,
            clock,
        } = worker;
        let client = Client::new(shared, rt, seat, entropy);
        let crew = Crew::new(listener, client, clock);
        crews.push_reserved(crew);
    }
    turn_round(crews);
}

/// Each crew's client leaves, and gives its seat and its random source back.
pub(crate) fn dismiss<'a, R: Wait, T: SharedTree, B: Start, N: Listener, E: Entropy, K>(
    mut crews: Vec<Crew<N, Client<'a, R, T, B, E>, K>>,
    seats: &mut Vec<Seat<Held<T, B>>>,
    workers: &mut Vec<Worker<N, E, K>>,
)
    requires none { (seats.old.items ≡ []) × (workers.old.items ≡ []) }
    requires room { (vec_len crews ≤ vec_capacity seats.old) × (vec_len crews ≤ vec_capacity workers.old) }
    ensures dismissed { AreCrewsOf seats.new.items workers.new.items crews.entry.items }
    ensures ready { AreReady B.is E.faults seats.new.items workers.new.items }
{
    while let Some(crew) = crews.pop() {
        let Crew {
            listener,
            object,
            clock,
            counts: _,
            failed: _,
        } = crew;
        let (seat, entropy) = object.leave();
        seats.push_reserved(seat);
        workers.push_reserved(Worker {
            listener,
            entropy,
            clock,
        });
    }
    crews.destroy_empty();
    turn_round(seats);
    turn_round(workers);
}
