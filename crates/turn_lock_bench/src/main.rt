// Adds one to a counter so often, in threads: behind a turn lock, or behind std's Mutex. The words are `turns` or `mutex`, how many threads,
// and how often each adds one; what was counted is printed.
#![tactic(auto)]

ghost use Rattle.std.specs.Prelude.{◌≡◌, ◌<◌, All, length};
ghost use Rattle.turn_lock.specs.Seats.{IsIdle};

use std::alloc::{AllocError, Global};
use std::sync::{Mutex, Wait};
use std::thread::Threads;
use std::{env, io, thread};
use thiserror::Error;
use turn_lock::{History, NoEntry, Seat, TurnLock};

// Why no count is printed.
#[derive(Debug, Drop, Error)]
enum BenchErr {
    #[error("the words are: turns or mutex, threads, repetitions")]
    Words,
    #[error("{0}")]
    Io(#[from] io::Error),
    #[error("out of memory")]
    Alloc(#[from] AllocError),
}

// A counter that stands for any turns.
#[derive(Drop)]
struct Counter {
    count: u64,
}

impl History for Counter {
    type Entry = ();

    ghost stands = { λ _ _. Unit {0} };
}

// Adds one so often, each time in a turn of the seat.
fn add_in_turns<R: Wait>(
    rt: &R,
    lock: &TurnLock<Counter>,
    seat: &mut Seat<Counter>,
    repetitions: u64,
)
    requires { IsIdle lock.now.id seat.old }
    ensures { IsIdle lock.now.id seat.new }
{
    for _ in 0..repetitions {
        let Ok(mut turn) = lock.take(rt, seat) else {
            return;
        };
        let counter = turn.value_mut();
        counter.count = counter.count.wrapping_add(1);
        lock.end(seat, turn, &NoEntry);
    }
}

// Each seat in a thread of its own.
fn all_in_turns<R: Threads + Wait + Sync>(
    rt: &R,
    lock: &TurnLock<Counter>,
    seats: &mut [Seat<Counter>],
    repetitions: u64,
)
    requires { All (IsIdle lock.now.id) seats.old }
    ensures count { length seats.new ≡ length seats.old }
    ensures idle { All (IsIdle lock.now.id) seats.new }
{
    let threads = seats.len().max(1);
    thread::for_each_mut(
        rt,
        seats,
        threads,
        &|_, seat| { add_in_turns(rt, lock, seat, repetitions) },
    );
}

// What was counted behind a turn lock.
fn counted_in_turns<R: Threads + Wait + Sync>(
    rt: &R,
    alloc: Global,
    threads: usize,
    repetitions: u64,
) -> Result<u64, AllocError>
    requires { 0 < threads }
{
    let Ok((lock, mut seats)) = TurnLock::new(alloc, threads, Counter { count: 0 }) else {
        return Err(AllocError);
    };
    all_in_turns(rt, &lock, seats.as_mut_slice(), repetitions);
    Ok(lock.close(seats).count)
}

// Adds one so often, each time under the lock.
fn add_under_lock<R: Wait>(rt: &R, counter: &Mutex<u64>, repetitions: u64) {
    for _ in 0..repetitions {
        let mut count = counter.lock(rt);
        *count = count.wrapping_add(1);
    }
}

// What was counted under std's lock.
fn counted_under_lock<R: Threads + Wait + Sync>(
    rt: &R,
    alloc: Global,
    threads: usize,
    repetitions: u64,
) -> Result<u64, AllocError> {
    let counter = Mutex::new(0);
    thread::map_indices(
        rt,
        alloc,
        threads,
        &|_| { add_under_lock(rt, &counter, repetitions) },
    )?;
    Ok(counter.into_inner())
}

// A word as a number.
fn number(word: Option<String>) -> Result<u64, BenchErr> {
    let text = word.ok_or(BenchErr::Words)?;
    text.as_str().parse::<u64>().map_err(|_| BenchErr::Words)
}

fn main(rt: HostRuntime) -> Result<(), BenchErr> {
    let mut words = env::args(&rt)?.skip(1);
    let kind = words.next().ok_or(BenchErr::Words)?;
    let threads = number(words.next())? as usize;
    let repetitions = number(words.next())?;
    if threads == 0 {
        return Err(BenchErr::Words);
    }
    let count = match kind.as_str() {
        "turns" => counted_in_turns(&rt, rt.alloc(), threads, repetitions)?,
        "mutex" => counted_under_lock(&rt, rt.alloc(), threads, repetitions)?,
        _ => return Err(BenchErr::Words),
    };
    println!(rt; "{count}")?;
    Ok(())
}
