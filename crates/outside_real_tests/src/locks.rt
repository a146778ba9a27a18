//! A folder's lock, taken twice.

use host_calls::{HostCalls, Locking, Sharing};
use log::sink::Discard;
use outside_real::StdCalls;
use std::test::Fail;
use std::{fs, process};

// What came of taking it, without the lock.
#[derive(Clone, Copy, Debug, PartialEq, Eq)]
enum Came {
    Taken,
    InUse,
    Unknown,
}

fn outcome_of<L>(lock: &Locking<L>) -> Came {
    match lock {
        Locking::Taken(_) => Came::Taken,
        Locking::InUse => Came::InUse,
        Locking::Unknown => Came::Unknown,
    }
}

// By flock(2): one lock alone, or as many shared ones as there are takers.
#[test]
fn a_lock_is_taken_alone_or_shared(rt: HostRuntime) -> Result<(), Fail> {
    let id = process::id(rt.process());
    let place = format!(in rt.alloc(); "/tmp/outside_real-lock-{id}")?;
    fs::create_dir(&rt, place.as_str())?;
    let rows = [
        (Sharing::Alone, Sharing::Alone, Came::InUse),
        (Sharing::Alone, Sharing::Shared, Came::InUse),
        (Sharing::Shared, Sharing::Alone, Came::InUse),
        (Sharing::Shared, Sharing::Shared, Came::Taken),
    ];
    for (first, second, want) in rows {
        let held = StdCalls::new(&rt, Discard).lock(place.as_str(), first);
        assert_eq!(rt; outcome_of(&held), Came::Taken);
        let other = StdCalls::new(&rt, Discard).lock(place.as_str(), second);
        assert_eq!(rt; outcome_of(&other), want, "{first:?} {second:?}");
        drop(held);
        drop(other);
        let next = StdCalls::new(&rt, Discard).lock(place.as_str(), second);
        assert_eq!(rt; outcome_of(&next), Came::Taken);
    }
    fs::remove_dir(&rt, place.as_str())?;
    let gone = StdCalls::new(&rt, Discard).lock(place.as_str(), Sharing::Alone);
    assert_eq!(rt; outcome_of(&gone), Came::Unknown);
    Ok(())
}
