ghost use Rattle.std.specs.Prelude.{◌≡◌};
ghost use Rattle.mem_host.specs.Plan.{no_faults, next_fault, fault_at, after};

use std::alloc::Global;
use std::marker::Model;

/// How much of a call that fails is done before. A flush that fails does nothing.
#[derive(Clone, Copy, Debug, PartialEq, Eq)]
pub enum Extent {
    /// Nothing.
    Nothing,
    /// The first half of its bytes, and no cut; all of a call that has no bytes.
    Half,
    /// All of it.
    All,
}

/// A call that shall fail.
#[derive(Clone, Copy, Debug)]
pub struct Fault {
    /// Its number, from 0.
    pub call: u64,
    /// How much of it is done, if it changes the folder.
    pub done: Extent,
}

/// Counts a host's calls, and knows which shall fail.
#[derive(Drop)]
pub struct FaultPlan {
    call_count: u64,
    faults: Vec<Fault>,
}

impl Model for FaultPlan {
    ghost use Rattle.mem_host.specs.Plan.{Plan};

    ghost Value = { Plan };

    ghost view = { λ a. record { calls = a.call_count; faults = a.faults.items } };
}

impl FaultPlan {
    /// No call shall fail.
    pub fn new(alloc: Global) -> FaultPlan
        ensures { result ≡ no_faults }
    {
        FaultPlan {
            call_count: 0,
            faults: Vec::new(alloc),
        }
    }

    /// These calls shall fail.
    pub fn set(&mut self, faults: Vec<Fault>)
        ensures { self.new ≡ record self.old { faults = faults.items } }
    {
        self.faults = faults;
    }

    /// Counts a call, and says how much of it is to be done if it shall fail.
    pub fn next(&mut self) -> Option<Extent>
        ensures fault { result ≡ next_fault self.old }
        ensures counted { self.new ≡ after self.old }
    {
        let fault = fault_at(&self.faults, self.call_count);
        self.call_count = self.call_count.saturating_add(1);
        fault
    }

    /// How many calls there were.
    pub fn calls(&self) -> u64
        ensures { result ≡ self.now.calls }
    {
        self.call_count
    }
}

// How much is done of the call of this number, if it shall fail.
fn fault_at(faults: &[Fault], call: u64) -> Option<Extent>
    ensures { result ≡ fault_at faults.now call }
{
    for fault in faults {
        if fault.call == call {
            return Some(fault.done);
        }
    }
    None
}
