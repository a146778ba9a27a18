ghost use Rattle.std.specs.Prelude.{◌≡◌};
ghost use Rattle.outside.specs.Calls.{risen};
ghost use Rattle.outside_mem.specs.Plan.{no_faults, fails_next, breaks_next, after, failing_at, breaking_at};

use std::alloc::Global;
use std::marker::Model;

/// Counts an object's calls and faults, and knows which calls shall fail.
#[derive(Drop)]
pub struct FaultPlan {
    call_count: u64,
    fault_count: u64,
    failing_calls: Vec<u64>,
    breaking_calls: Vec<u64>,
}

impl Model for FaultPlan {
    ghost use Rattle.outside_mem.specs.Plan.{Plan};

    ghost Value = { Plan };

    ghost view = { λ a. record {
      calls = a.call_count;
      faults = a.fault_count;
      failing = a.failing_calls.items;
      breaking = a.breaking_calls.items;
    } };
}

impl FaultPlan {
    /// No call shall fail.
    pub fn new(alloc: Global) -> FaultPlan
        ensures { result ≡ no_faults }
    {
        FaultPlan {
            call_count: 0,
            fault_count: 0,
            failing_calls: Vec::new(alloc),
            breaking_calls: Vec::new(alloc),
        }
    }

    /// The calls of these numbers, from 0, shall fail before they do anything.
    pub fn set_failing(&mut self, calls: Vec<u64>)
        ensures { self.new ≡ failing_at self.old calls.items }
    {
        self.failing_calls = calls;
    }

    /// The calls of these numbers, from 0, shall fail, those that change a folder after a part of the change.
    pub fn set_breaking(&mut self, calls: Vec<u64>)
        ensures { self.new ≡ breaking_at self.old calls.items }
    {
        self.breaking_calls = calls;
    }

    /// Whether the next call shall fail after a part. It counts nothing.
    pub fn next_breaks(&self) -> bool
        ensures { result ≡ breaks_next self.now }
    {
        self.breaking_calls.contains(&self.call_count)
    }

    /// Counts a call, and says whether it shall fail, which is counted too.
    pub fn next_fails(&mut self) -> bool
        ensures fails { result ≡ fails_next self.old }
        ensures counted { self.new ≡ after self.old result }
    {
        let fails = self.failing_calls.contains(&self.call_count) || self.next_breaks();
        self.call_count = self.call_count.saturating_add(1);
        if fails {
            self.add_fault();
        }
        fails
    }

    /// Counts a fault.
    pub fn add_fault(&mut self)
        ensures { self.new ≡ record self.old { faults = risen self.old.faults } }
    {
        self.fault_count = self.fault_count.saturating_add(1);
    }

    /// How many calls there were.
    pub fn calls(&self) -> u64
        ensures { result ≡ self.now.calls }
    {
        self.call_count
    }

    /// How many of them failed.
    pub fn faults(&self) -> u64
        ensures { result ≡ self.now.faults }
    {
        self.fault_count
    }
}
