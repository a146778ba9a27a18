//! Threads that add to one counter.
ghost use Rattle.std.specs.Prelude.{◌≡◌, ◌<◌, All, length};
ghost use Rattle.turn_lock.specs.Seats.{IsIdle};

use crate::counter::{Counter, add};
use std::alloc::Global;
use std::sync::Wait;
use std::sync::atomic::{AtomicU64, Ordering};
use std::thread;
use std::thread::Threads;
use turn_lock::{Seat, TurnLock};

// What threads were told together: the sum of all numbers, and how many numbers were no greater than the one that the same thread was
// told before.
#[derive(Drop)]
struct Told {
    sum: AtomicU64,
    falls: AtomicU64,
}

/// What was counted, and what threads were told.
#[derive(Drop)]
pub struct Outcome {
    pub count: u64,
    pub sum: u64,
    pub falls: u64,
}

// Adds one so often, in turns of one seat. A turn that isn't had counts as a fall.
fn add_often<R: Wait>(
    rt: &R,
    lock: &TurnLock<Counter>,
    seat: &mut Seat<Counter>,
    turns: u64,
    told: &Told,
)
    requires { IsIdle lock.now.id seat.old }
    ensures { IsIdle lock.now.id seat.new }
{
    let mut least = 0;
    for _ in 0..turns {
        let number = add(rt, lock, seat).unwrap_or(0);
        if number < least {
            told.falls.fetch_add(1, Ordering::SeqCst);
        }
        least = number.saturating_add(1);
        told.sum.fetch_add(number, Ordering::SeqCst);
    }
}

// Each seat in a thread of its own, if one can be made.
fn all_add<R: Threads + Wait + Sync>(
    rt: &R,
    lock: &TurnLock<Counter>,
    seats: &mut [Seat<Counter>],
    turns: u64,
    told: &Told,
)
    requires { All (IsIdle lock.now.id) seats.old }
    ensures count { length seats.new ≡ length seats.old }
    ensures idle { All (IsIdle lock.now.id) seats.new }
{
    let threads = seats.len().max(1);
    thread::for_each_mut(
        rt,
        seats,
        threads,
        &|_, seat| { add_often(rt, lock, seat, turns, told) },
    );
}

/// So many threads add one so often. None without memory.
pub fn count_in_threads<R: Threads + Wait + Sync>(
    rt: &R,
    alloc: Global,
    threads: usize,
    turns: u64,
) -> Option<Outcome>
    requires { 0 < threads }
{
    let Ok((lock, mut seats)) = TurnLock::new(alloc, threads, Counter { count: 0 }) else {
        return None;
    };
    let told = Told {
        sum: AtomicU64::new(0),
        falls: AtomicU64::new(0),
    };
    all_add(rt, &lock, seats.as_mut_slice(), turns, &told);
    let counter = lock.close(seats);
    Some(Outcome {
        count: counter.count,
        sum: told.sum.load(Ordering::SeqCst),
        falls: told.falls.load(Ordering::SeqCst),
    })
}
