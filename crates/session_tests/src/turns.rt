//! What is at the other ends of sessions that wait for one another.
ghost use Rattle.std.specs.Prelude.{◌≤◌, None};

use outside::{Clock, Entropy, Failed, Link, Listener};
use std::sync::atomic::{AtomicU64, Ordering};
use std::thread;

// Tversion of 8,192 bytes with 9P2000, and Tattach of fid 0.
const FRAMES: [u8; 39] =
    *b"\x13\0\0\0\x64\xff\xff\0\x20\0\0\x06\09P2000\x14\0\0\0\x68\x01\0\0\0\0\0\xff\xff\xff\xff\x01\0u\0\0";

// Where the second of them begins.
const SECOND: usize = 19;

// How often a link looks for the other's answer at most.
const PATIENCE: u32 = 10_000_000;

/// A client that sends its second message only after another link has taken an answer.
#[derive(Drop)]
pub struct TurnLink<'a> {
    own: &'a AtomicU64,
    other: &'a AtomicU64,
    at: usize,
    read_faults: u64,
    ghost within: { at ≤ 39 },
}

impl<'a> TurnLink<'a> {
    pub fn new(own: &'a AtomicU64, other: &'a AtomicU64) -> TurnLink<'a> {
        TurnLink {
            own,
            other,
            at: 0,
            read_faults: 0,
        }
    }
}

// Whether an answer was taken, as far as patience goes.
fn was_answered(answers: &AtomicU64) -> bool {
    for _ in 0..PATIENCE {
        if answers.load(Ordering::SeqCst) > 0 {
            return true;
        }
        thread::yield_now();
    }
    false
}

impl<'a> Link for TurnLink<'a> {
    ghost left = { λ _. None };

    ghost taken = { λ _. None };

    ghost read_faults = { λ link. link.read_faults };

    ghost write_faults = { λ _. 0 };

    fn read(&mut self, out: &mut [u8]) -> Result<usize, Failed> {
        if self.at == SECOND && !was_answered(self.other) {
            self.read_faults = self.read_faults.saturating_add(1);
            return Err(Failed);
        }
        let end = if self.at < SECOND {
            SECOND
        } else {
            FRAMES.len()
        };
        let count = out.len().min(end - self.at);
        out[..count].copy_from_slice(&FRAMES[self.at..self.at + count]);
        self.at += count;
        Ok(count)
    }

    fn write(&mut self, piece: &[u8]) -> Result<usize, Failed> {
        self.own.fetch_add(1, Ordering::SeqCst);
        Ok(piece.len())
    }
}

/// Gives one link.
#[derive(Drop)]
pub struct OneLink<'a> {
    link: Option<TurnLink<'a>>,
}

impl<'a> OneLink<'a> {
    pub fn new(link: TurnLink<'a>) -> OneLink<'a> {
        OneLink { link: Some(link) }
    }
}

impl<'a> Listener for OneLink<'a> {
    type Conn = TurnLink<'a>;

    ghost to_come = { λ _. None };

    ghost given_back = { λ _. None };

    ghost faults = { λ _. 0 };

    fn next(&mut self) -> Result<Option<TurnLink<'a>>, Failed> {
        Ok(self.link.take())
    }

    fn back(&mut self, link: TurnLink<'a>) {
        drop(link);
    }
}

/// A random source that always fails.
#[derive(Drop)]
pub struct NoEntropy {
    pub faults: u64,
}

impl Entropy for NoEntropy {
    ghost drawn = { λ _. None };

    ghost faults = { λ entropy. entropy.faults };

    fn fill(&mut self, out: &mut [u8]) -> Result<(), Failed> {
        let _ = out;
        self.faults = self.faults.saturating_add(1);
        Err(Failed)
    }
}

/// A clock that stands still, and tells nothing.
#[derive(Drop)]
pub struct Sundial;

impl Clock for Sundial {
    ghost to_give = { λ _. None };

    fn now(&mut self) -> u32 {
        0
    }
}
