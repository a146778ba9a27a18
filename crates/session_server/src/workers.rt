//! All workers, each in a thread.
ghost use Rattle.std.specs.Prelude.{◌<◌, ◌^◌, ◌≡◌, IfOk, List, OnErr, OnOk, length, slice_index_or, ℕ};
ghost use Rattle.outside.specs.Views.{link_in, listener_in};
ghost use Rattle.session_server.specs.Ends.{AreCounts};
ghost use Rattle.session_server.specs.Shares as sharing;
ghost use Rattle.session_server.specs.declared.crew.Crew as kept;
ghost use Rattle.session_server.specs.Workers.{AnyFailed, AreCountsOf, HasServedShare, HaveServed, NoneFailed};

use crate::counts::SessionCounts;
use crate::crew::{Crew, serve_share};
use outside::{Clock, Failed, Listener};
use std::alloc::Global;
use std::thread;
use std::thread::Threads;
use tree_model::TreeObject;

// How many of the sessions the worker of this number serves.
fn share_of(sessions: u32, at_once: usize, worker: usize) -> u32
    ensures { result ≡ sharing.share_of sessions at_once worker }
{
    if worker >= at_once {
        return 0;
    }
    let sessions = u64::from(sessions);
    let at_once = at_once as u64;
    let even = sessions / at_once;
    if (worker as u64) < sessions % at_once {
        even as u32 + 1
    } else {
        even as u32
    }
}

// The worker of this number serves its share.
fn serve_crew<N: Listener, B: TreeObject, K: Clock>(
    alloc: Global,
    crew: &mut Crew<N, B, K>,
    sessions: u32,
    at_once: usize,
    worker: usize,
)
    ensures { HasServedShare B.stands (listener_in N.Listener)
        (link_in N.Conn.Link) K.to_give
        (sharing.share_of sessions at_once worker) crew.old crew.new }
{
    serve_share(alloc, crew, share_of(sessions, at_once, worker));
}

// All workers serve their shares, each in a thread of its own if one can be made.
fn serve_crews<R: Threads + Sync, N: Listener + Send, B: TreeObject + Send, K: Clock + Send>(
    rt: &R,
    alloc: Global,
    sessions: u32,
    at_once: usize,
    crews: &mut [Crew<N, B, K>],
)
where
    N::Conn: Send,
    ensures same { length crews.new ≡ length crews.old }
    ensures served { (j : ℕ) (d : kept.Crew N B K) → j < length crews.old → HasServedShare B.stands (listener_in N.Listener)
        (link_in N.Conn.Link) K.to_give
        (sharing.share_of sessions at_once j) (slice_index_or crews.old j d) (slice_index_or crews.new j d) }
{
    let threads = crews.len().max(1);
    thread::for_each_mut(
        rt,
        crews,
        threads,
        &|worker, crew| { serve_crew(alloc, crew, sessions, at_once, worker) },
    );
}

// The ends of the sessions of all crews, counted; `Failed` if some listener failed. There are fewer than 2^32 of them.
fn all_counts<N: Listener, B, K>(crews: &[Crew<N, B, K>]) -> Result<SessionCounts, Failed>
    requires few { (shares : List (sharing.Share N.Conn)) × AreCountsOf crews.now shares × (length (sharing.all_ends shares) < 2 ^ 32) }
    ensures counted { (shares : List (sharing.Share N.Conn)) → AreCountsOf crews.now shares
        → IfOk result (λ counts. AreCounts counts (sharing.all_ends shares)) }
    ensures none { OnOk result (NoneFailed crews.now) }
    ensures some { OnErr result (AnyFailed crews.now) }
{
    let mut counts = SessionCounts::default();
    for crew in crews {
        if crew.failed {
            return Err(Failed);
        }
        counts.add_all(&crew.counts);
    }
    Ok(counts)
}

/// Runs all workers, each in a thread of its own if one can be made, until each has served its share of the sessions: if `at_once` workers share
/// n of them, n / `at_once`, and the first n % `at_once` one more; the others none. A worker whose listener has no more links, or fails, ends
/// before. Each link that a listener gave is given back to it. If no thread can be made the workers run one after another.
///
/// What it gives are the counts of how all sessions ended.
///
/// # Errors
///
/// `Failed` if some worker's listener failed: its count of faults rose.
pub fn run_workers<R: Threads + Sync, N: Listener + Send, B: TreeObject + Send, K: Clock + Send>(
    rt: &R,
    alloc: Global,
    sessions: u32,
    at_once: usize,
    crews: &mut [Crew<N, B, K>],
) -> Result<SessionCounts, Failed>
where
    N::Conn: Send,
    ensures served { HaveServed B.stands (listener_in N.Listener)
        (link_in N.Conn.Link) K.to_give
        sessions at_once crews.old crews.new result }
{
    serve_crews(rt, alloc, sessions, at_once, crews);
    all_counts(crews)
}
