ghost use Rattle.std.specs.Prelude.{◌+◌, ◌-◌, ◌^◌, ◌≡◌, Some, min};

use outside::{Clock, Gate, Stage};
use std::marker::Model;

/// A clock that is at one second. Clauses see that second.
#[derive(Drop)]
pub struct SetClock {
    second: u32,
}

impl Model for SetClock {
    ghost use Rattle.std.specs.Prelude.{ℕ};

    ghost Value = { ℕ };

    ghost view = { λ a. a.second };
}

impl SetClock {
    /// A clock that is at this second since 1970-01-01.
    pub fn new(second: u32) -> SetClock
        ensures { result ≡ second }
    {
        SetClock { second }
    }
}

impl Clock for SetClock {
    ghost to_give = { λ s. Some (λ _. s) };

    fn now(&mut self) -> u32 {
        self.second
    }
}

/// A clock that gives a second more at each call, and stays at the last of a u32. Clauses see the second that it gives next.
#[derive(Drop)]
pub struct TickingClock {
    second: u32,
}

impl Model for TickingClock {
    ghost use Rattle.std.specs.Prelude.{ℕ};

    ghost Value = { ℕ };

    ghost view = { λ a. a.second };
}

impl TickingClock {
    /// A clock that gives this second since 1970-01-01 first.
    pub fn new(second: u32) -> TickingClock
        ensures { result ≡ second }
    {
        TickingClock { second }
    }
}

impl Clock for TickingClock {
    ghost to_give = { λ s. Some (λ k. min (s + k) (2 ^ 32 - 1)) };

    fn now(&mut self) -> u32 {
        let second = self.second;
        self.second = second.saturating_add(1);
        second
    }
}

/// A gate that is always open.
#[derive(Clone, Copy, Debug, PartialEq, Eq)]
pub struct OpenGate;

impl Gate for OpenGate {
    fn pass(&self, _stage: Stage) {}
}
