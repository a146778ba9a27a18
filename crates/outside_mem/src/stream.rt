ghost use Rattle.std.specs.Prelude.{◌≡◌, ◌≤◌, ◌↔◌, ◌-◌, ◌^◌, ◌++◌, [], Some, Ok, length, take, drop, min, max, IfOk, OnErr, IsErr, IsTrue, is_err};
ghost use Rattle.outside.specs.Calls.{KeepsFrom};
ghost use Rattle.outside_mem.specs.Plan.{no_faults, fails_next, after, failing_at};
ghost use Rattle.outside_mem.specs.Streams.{Left, Taken};

use crate::plan::FaultPlan;
use outside::{Failed, Sink, Source};
use std::alloc::Global;
use std::marker::Model;

/// Bytes to read. Clauses see the bytes that are left, the most that a read gives, and its counts.
#[derive(Drop)]
pub struct MemSource {
    bytes: Vec<u8>,
    at: usize,
    most: usize,
    plan: FaultPlan,
}

impl Model for MemSource {
    ghost use Rattle.std.specs.Prelude.{◌≤◌, drop, length};
    ghost use Rattle.outside_mem.specs.Streams.{Left};

    ghost Value = { Left };

    ghost view = { λ a. record {
      left = drop a.at a.bytes.items;
      piece = a.most;
      plan = a.plan;
    } };

    ghost invariant = { λ a. a.at ≤ length a.bytes.items };
}

impl MemSource {
    /// A source of these bytes. Each read gives as many as there is room for.
    pub fn new(alloc: Global, bytes: Vec<u8>) -> MemSource
        ensures { result ≡ record { left = bytes.items; piece = 2 ^ 64 - 1; plan = no_faults } }
    {
        MemSource {
            bytes,
            at: 0,
            most: usize::MAX,
            plan: FaultPlan::new(alloc),
        }
    }

    /// A read gives this many bytes at most, but never 0 of some.
    pub fn in_pieces(mut self, piece: usize) -> MemSource
        ensures { result ≡ record self { piece = piece } }
    {
        self.most = piece;
        self
    }

    /// The calls of these numbers, from 0, shall fail.
    pub fn failing_at(mut self, calls: Vec<u64>) -> MemSource
        ensures { result ≡ record self { plan = failing_at self.plan calls.items } }
    {
        self.plan.set_failing(calls);
        self
    }

    /// The bytes that are left.
    pub fn left(&self) -> &[u8]
        ensures { result.now ≡ self.now.left }
    {
        &self.bytes[self.at..]
    }

    /// How many reads have failed.
    pub fn fault_count(&self) -> u64
        ensures { result ≡ self.now.plan.faults }
    {
        self.plan.faults()
    }
}

impl Source for MemSource {
    ghost left = { λ s. Some s.left };

    ghost faults = { λ s. s.plan.faults };

    // Gives as many bytes as are left, `out` has room for and a piece has, but at least 1 of some.
    fn read(&mut self, out: &mut [u8]) -> Result<usize, Failed>
        ensures count { IfOk result (λ n. n ≡ min (length out.old) (min (length self.old.left) (max 1 self.old.piece))) }
        ensures rest { IfOk result (λ n. KeepsFrom n out.old out.new) }
        ensures bytes { IfOk result (λ n. self.old.left ≡ take n out.new ++ self.new.left) }
        ensures failed { OnErr result (self.new.left ≡ self.old.left) }
        ensures listed { IsErr result ↔ IsTrue (fails_next self.old.plan) }
        ensures plan { self.new.plan ≡ after self.old.plan (is_err result) }
        ensures piece { self.new.piece ≡ self.old.piece }
    {
        if self.plan.next_fails() {
            return Err(Failed);
        }
        let n = copy_front(&self.bytes[self.at..], self.most.max(1), out);
        self.at += n;
        Ok(n)
    }
}

/// Copies from the front as many bytes as there are, `out` has room for and are allowed, and says how many.
pub fn copy_front(from: &[u8], most: usize, out: &mut [u8]) -> usize
    ensures count { result ≡ min (length out.old) (min (length from.now) most) }
    ensures bytes { take result out.new ≡ take result from.now }
    ensures rest { KeepsFrom result out.old out.new }
{
    let n = out.len().min(from.len().min(most));
    out[..n].copy_from_slice(&from[..n]);
    n
}

/// A place to write bytes to. Clauses see the bytes that it has taken, the most that a write takes, and its counts.
#[derive(Drop)]
pub struct MemSink {
    bytes: Vec<u8>,
    most: usize,
    plan: FaultPlan,
}

impl Model for MemSink {
    ghost use Rattle.outside_mem.specs.Streams.{Taken};

    ghost Value = { Taken };

    ghost view = { λ a. record {
      taken = a.bytes.items;
      piece = a.most;
      plan = a.plan;
    } };
}

impl MemSink {
    /// A sink that has taken nothing. Each write takes the whole piece.
    pub fn new(alloc: Global) -> MemSink
        ensures { result ≡ record { taken = []; piece = 2 ^ 64 - 1; plan = no_faults } }
    {
        MemSink {
            bytes: Vec::new(alloc),
            most: usize::MAX,
            plan: FaultPlan::new(alloc),
        }
    }

    /// A write takes this many bytes at most, but never 0 of some.
    pub fn in_pieces(mut self, piece: usize) -> MemSink
        ensures { result ≡ record self { piece = piece } }
    {
        self.most = piece;
        self
    }

    /// The calls of these numbers, from 0, shall fail.
    pub fn failing_at(mut self, calls: Vec<u64>) -> MemSink
        ensures { result ≡ record self { plan = failing_at self.plan calls.items } }
    {
        self.plan.set_failing(calls);
        self
    }

    /// The bytes that it has taken.
    pub fn taken(&self) -> &[u8]
        ensures { result.now ≡ self.now.taken }
    {
        &self.bytes
    }

    /// How many writes have failed.
    pub fn fault_count(&self) -> u64
        ensures { result ≡ self.now.plan.faults }
    {
        self.plan.faults()
    }
}

impl Sink for MemSink {
    ghost taken = { λ s. Some s.taken };

    ghost faults = { λ s. s.plan.faults };

    // Takes as much as a piece has, but at least 1 byte of some. It fails at a listed call and if memory is refused.
    fn write(&mut self, piece: &[u8]) -> Result<usize, Failed>
        ensures count { IfOk result (λ n. n ≡ min (length piece.now) (max 1 self.old.piece)) }
        ensures bytes { IfOk result (λ n. self.new.taken ≡ self.old.taken ++ take n piece.now) }
        ensures failed { OnErr result (self.new.taken ≡ self.old.taken) }
        ensures listed { IsTrue (fails_next self.old.plan) → IsErr result }
        ensures plan { self.new.plan ≡ after self.old.plan (is_err result) }
        ensures piece { self.new.piece ≡ self.old.piece }
    {
        if self.plan.next_fails() {
            return Err(Failed);
        }
        let n = piece.len().min(self.most.max(1));
        if self.bytes.extend_from_slice(&piece[..n]).is_err() {
            self.plan.add_fault();
            return Err(Failed);
        }
        Ok(n)
    }
}
