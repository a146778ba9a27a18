//! A counter behind a turn lock, and what is done in a turn.
ghost use Rattle.std.specs.Prelude.{◌≡◌, IfOk, IfErr, IsSome};
ghost use Rattle.turn_lock.specs.Seats.{IsIdle, IsSpent};
ghost use Rattle.turn_lock_tests.specs.Counting.{entries, AddsOne, Looks, HasOneMore};

use std::alloc::Global;
use std::sync::Wait;
use turn_lock::{History, NoEntry, Note, Seat, Spent, TurnLock};

/// The entry of a turn that added one. As a note it tells of one.
#[derive(Drop)]
pub struct Added;

impl Note<Added> for Added {
    ghost tells = { λ _ entry. IsSome entry };
}

/// How many turns made an entry.
#[derive(Drop)]
pub struct Counter {
    pub count: u64,
}

impl History for Counter {
    type Entry = Added;

    ghost stands = { λ counter turns. counter.count ≡ entries turns };
}

/// Adds one in a turn of the seat, and answers how many were added before.
pub fn add<R: Wait>(
    rt: &R,
    lock: &TurnLock<Counter>,
    seat: &mut Seat<Counter>,
) -> Result<u64, Spent>
    requires { IsIdle lock.now.id seat.old }
    ensures idle { IsIdle lock.now.id seat.new }
    ensures added { IfOk result (λ number. AddsOne seat.old seat.new number) }
    ensures spent { IfErr result (λ spent. IsSpent seat.old seat.new spent.0) }
{
    let mut turn = lock.take(rt, seat)?;
    let number = turn.value().count;
    turn.value_mut().count += 1;
    lock.end(seat, turn, &Added);
    Ok(number)
}

/// Looks at the counter in a turn that makes no entry.
pub fn look<R: Wait>(
    rt: &R,
    lock: &TurnLock<Counter>,
    seat: &mut Seat<Counter>,
) -> Result<u64, Spent>
    requires { IsIdle lock.now.id seat.old }
    ensures idle { IsIdle lock.now.id seat.new }
    ensures looked { IfOk result (λ number. Looks seat.old seat.new number) }
    ensures spent { IfErr result (λ spent. IsSpent seat.old seat.new spent.0) }
{
    let turn = lock.take(rt, seat)?;
    let number = turn.value().count;
    lock.end(seat, turn, &NoEntry);
    Ok(number)
}

/// Each of two seats adds one, and they meet. Both have then seen one list with both turns.
pub fn add_and_meet<R: Wait>(
    rt: &R,
    lock: &TurnLock<Counter>,
    first: &mut Seat<Counter>,
    second: &mut Seat<Counter>,
) -> Result<(u64, u64), Spent>
    requires { IsIdle lock.now.id first.old × IsIdle lock.now.id second.old }
    ensures idle { IsIdle lock.now.id first.new × IsIdle lock.now.id second.new }
    ensures one { IfOk result (λ _. first.new.seen ≡ second.new.seen) }
    ensures both { IfOk result (λ _. HasOneMore first.old second.new.seen × HasOneMore second.old first.new.seen) }
{
    let told_first = add(rt, lock, first)?;
    let told_second = add(rt, lock, second)?;
    lock.meet(first, second);
    Ok((told_first, told_second))
}

/// What two seats were told.
#[derive(Drop)]
pub struct Meeting {
    pub numbers: [u64; 2],
    pub told: [u64; 4],
    pub count: u64,
}

/// Two seats add one each and meet, in one order and in the other, and the first looks. None without memory.
pub fn meet_both_ways<R: Wait>(rt: &R, alloc: Global) -> Option<Meeting> {
    let Ok((lock, mut seats)) = TurnLock::new(alloc, 2, Counter { count: 0 }) else {
        return None;
    };
    let mut second = seats.pop()?;
    let mut first = seats.pop()?;
    let (a, b) = add_and_meet(rt, &lock, &mut first, &mut second).ok()?;
    let (c, d) = add_and_meet(rt, &lock, &mut second, &mut first).ok()?;
    Some(Meeting {
        numbers: [first.number(), second.number()],
        told: [a, b, c, d],
        count: look(rt, &lock, &mut first).ok()?,
    })
}
