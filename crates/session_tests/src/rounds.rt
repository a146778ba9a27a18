//! Rounds of workers that wait for one another: they end only if they are served at once.

use crate::counting::{Counting, FromNothing};
use crate::turns::{NoEntropy, OneLink, Sundial, TurnLink};
use session_server::SessionCounts;
use shared_tree::{Worker, serve_all};
use std::alloc::Global;
use std::process::Abort;
use std::sync::Wait;
use std::sync::atomic::AtomicU64;
use std::thread::Threads;

// What a round came to: how many requests the tree was asked, and how the sessions ended.
#[derive(Debug, Drop, PartialEq, Eq)]
struct Round {
    asked: u64,
    counts: SessionCounts,
}

// A worker for each link, which waits for the next one's, the last for the first's.
fn workers_at<'a>(
    alloc: Global,
    turns: &'a [AtomicU64],
) -> Option<Vec<Worker<OneLink<'a>, NoEntropy, Sundial>>> {
    let mut workers = Vec::new(alloc);
    for at in 0..turns.len() {
        let next = if at + 1 < turns.len() { at + 1 } else { 0 };
        let link = TurnLink::new(&turns[at], &turns[next]);
        workers
            .push(Worker {
                listener: OneLink::new(link),
                entropy: NoEntropy { faults: 0 },
                clock: Sundial,
            })
            .ok()?;
    }
    Some(workers)
}

// Serves a session for each of these counts of answers, of which each waits for the next. None without memory, or if a listener failed.
fn serve<R: Threads + Wait + Sync>(
    rt: &R,
    alloc: Global,
    turns: &[AtomicU64],
    at_once: usize,
) -> Option<Round> {
    let mut workers = workers_at(alloc, turns)?;
    if workers.is_empty() {
        return None;
    }
    let sessions = u32::try_from(turns.len()).ok()?;
    let tree = Counting { asked: 0 };
    let served = serve_all::<R, Counting, FromNothing, OneLink<'_>, NoEntropy, Sundial>(
        rt,
        alloc,
        tree,
        sessions,
        at_once,
        &mut workers,
    ).ok()?;
    Some(Round {
        asked: served.tree.asked,
        counts: served.counts.ok()?,
    })
}

#[test]
fn two_sessions_that_wait_for_each_other_are_done(rt: HostRuntime) {
    let turns = [AtomicU64::new(0), AtomicU64::new(0)];
    let round = serve(&rt, rt.alloc(), &turns, 2).expect(&rt, "memory");
    assert_eq!(rt; round.counts.sessions, 2);
    assert_eq!(rt; round.counts.done, 2);
    assert_eq!(rt; round.asked, 2);
}

#[test]
fn three_sessions_in_a_ring_are_done(rt: HostRuntime) {
    let turns = [AtomicU64::new(0), AtomicU64::new(0), AtomicU64::new(0)];
    let round = serve(&rt, rt.alloc(), &turns, 3).expect(&rt, "memory");
    assert_eq!(rt; round.counts.sessions, 3);
    assert_eq!(rt; round.counts.done, 3);
    assert_eq!(rt; round.asked, 3);
}
