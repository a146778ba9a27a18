//! All workers over one tree.
ghost use Rattle.std.specs.Prelude.{◌≡◌, ◌<◌, [], IfErr, IfOk, IfSome, length, vec_len};
ghost use Rattle.std.specs.List.{AllByRecursion};
ghost use Rattle.outside.specs.Views.{entropy_in, link_in, listener_in};
ghost use Rattle.tree_model.specs.Rows.{Rows};
ghost use Rattle.tree_model.specs.History.{Origin};
ghost use Rattle.session_server.specs.Workers.{HaveServed};
ghost use Rattle.shared_tree.specs.Turns.{StandsFor};
ghost use Rattle.shared_tree.specs.Workers.{AreReady};
ghost use Rattle.shared_tree.specs.Joined.{AreSince, HaveWorked, IsJoined};

use crate::held::{Held, Start};
use crate::shared::Shared;
use crate::tree::SharedTree;
use crate::workers::{Worker, dismiss, hire};
use outside::{Clock, Entropy, Failed, Listener};
use session_server::{Crew, SessionCounts, run_workers};
use std::alloc::Global;
use std::sync::Wait;
use std::thread::Threads;
use tree_model::TreeObject;
use turn_lock::Seat;

/// What serving came to: the tree, and how the sessions ended, or that some listener failed.
#[derive(Drop)]
pub struct Served<T> {
    pub tree: T,
    pub counts: Result<SessionCounts, Failed>,
}

// The seats, and what serving came to.
struct Seated<S> {
    seats: Vec<S>,
    counts: Result<SessionCounts, Failed>,
}

// Runs the crews of a vector.
fn run_all<R: Threads + Sync, N: Listener + Send, B: TreeObject + Send, K: Clock + Send>(
    rt: &R,
    alloc: Global,
    sessions: u32,
    at_once: usize,
    crews: &mut Vec<Crew<N, B, K>>,
) -> Result<SessionCounts, Failed>
where
    N::Conn: Send,
    ensures same { length crews.new.items ≡ length crews.old.items }
    ensures served { HaveServed B.stands (listener_in N.Listener)
        (link_in N.Conn.Link) K.to_give
        sessions at_once crews.old.items crews.new.items result }
{
    run_workers(rt, alloc, sessions, at_once, crews.as_mut_slice())
}

// All workers over a shared tree. `Err`: memory ran out, and nothing was served.
fn serve_seats<
    R: Threads + Wait + Sync,
    T: SharedTree + Send,
    B: Start + Send + Sync,
    N: Listener + Send,
    E: Entropy + Send,
    K: Clock + Send,
>(
    rt: &R,
    alloc: Global,
    shared: &Shared<T, B>,
    mut seats: Vec<Seat<Held<T, B>>>,
    sessions: u32,
    at_once: usize,
    workers: &mut Vec<Worker<N, E, K>>,
) -> Result<Seated<Seat<Held<T, B>>>, Vec<Seat<Held<T, B>>>>
where
    N::Conn: Send,
    requires here { AllByRecursion (λ seat. seat.lock ≡ shared.now.id) seats.items }
    requires ready { AreReady B.is E.faults seats.items workers.old.items }
    ensures ok { IfOk result (λ seated. HaveWorked B.is T.draws (listener_in N.Listener) (entropy_in E.Entropy)
        (link_in N.Conn.Link) K.to_give
        sessions at_once seats.items workers.old.items seated.seats.items workers.new.items seated.counts) }
    ensures err { IfErr result (λ left. (left.items ≡ seats.items) × (workers.new.items ≡ workers.old.items)) }
{
    let Ok(mut crews) = Vec::with_capacity(alloc, workers.len()) else {
        return Err(seats);
    };
    hire(rt, shared, &mut seats, workers, &mut crews);
    let counts = run_all(rt, alloc, sessions, at_once, &mut crews);
    dismiss(crews, &mut seats, workers);
    Ok(Seated { seats, counts })
}

/// Serves all workers' sessions over a tree, each worker in a thread of its own if one can be made, and gives the tree back. Of the sessions
/// the first `at_once` workers serve a share each, as `run_workers` says; worker j is caller j of the tree's history, which begins as B says.
///
/// # Errors
///
/// Out of memory, with the tree if it is left; nothing was served.
pub fn serve_all<
    R: Threads + Wait + Sync,
    T: SharedTree + Send,
    B: Start + Send + Sync,
    N: Listener + Send,
    E: Entropy + Send,
    K: Clock + Send,
>(
    rt: &R,
    alloc: Global,
    tree: T,
    sessions: u32,
    at_once: usize,
    workers: &mut Vec<Worker<N, E, K>>,
) -> Result<Served<T>, Option<T>>
where
    N::Conn: Send,
    requires some { 0 < vec_len workers.old }
    requires right { StandsFor B.is T.stands tree [] }
    requires since { (rows : Rows) (origin : Origin) → B.is rows origin → AreSince E.faults origin 0 workers.old.items }
    ensures joined { IfOk result (λ served. (rows : Rows) × (origin : Origin) × B.is rows origin
        × IsJoined T.stands T.draws (listener_in N.Listener) (entropy_in E.Entropy)
        (link_in N.Conn.Link) K.to_give
        sessions at_once rows origin served.tree workers.old.items workers.new.items served.counts) }
    ensures err { IfErr result (λ left. (workers.new.items ≡ workers.old.items) × IfSome left (λ t. StandsFor B.is T.stands t [])) }
{
    let (shared, seats) = Shared::<T, B>::new(alloc, tree, workers.len())?;
    match serve_seats(rt, alloc, &shared, seats, sessions, at_once, workers) {
        Ok(Seated { seats, counts }) => Ok(Served {
            tree: shared.close(seats),
            counts,
        }),
        Err(seats) => Err(Some(shared.close(seats))),
    }
}
