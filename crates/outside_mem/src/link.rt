ghost use Rattle.std.specs.Prelude.{◌≡◌, ◌↔◌, ◌++◌, [], ◌∷◌, Some, length, take, min, max, IfOk, OnErr, IsErr, IsTrue, is_err, MatchOption};
ghost use Rattle.outside.specs.Calls.{KeepsFrom};
ghost use Rattle.outside_mem.specs.Plan.{no_faults, fails_next, after, failing_at};
ghost use Rattle.outside_mem.specs.Links.{Ends, Links};

use crate::plan::FaultPlan;
use crate::stream::{MemSink, MemSource};
use outside::{Failed, Link, Listener, Sink, Source};
use std::alloc::{AllocError, Global};
use std::marker::Model;
use std::mem;

// Links that were given back, the newest first. Each brought the box that the ones before it lie in.
#[derive(Drop)]
enum Chain {
    End,
    More(MemSource, MemSink, Box<Chain>),
}

/// A link to a client. Clauses see what the client sends and what it was sent.
#[derive(Drop)]
pub struct MemLink {
    reads: MemSource,
    writes: MemSink,
    // Room for the links that are given back before this one.
    room: Box<Chain>,
}

impl Model for MemLink {
    ghost use Rattle.outside_mem.specs.Links.{Ends};

    ghost Value = { Ends };

    ghost view = { λ a. record { source = a.reads; sink = a.writes } };
}

impl MemLink {
    /// A link whose client sends what `source` gives, and is sent what `sink` takes.
    pub fn new(alloc: Global, source: MemSource, sink: MemSink) -> Result<MemLink, AllocError>
        ensures { IfOk result (λ link. link ≡ record { source = source; sink = sink }) }
    {
        Ok(MemLink {
            reads: source,
            writes: sink,
            room: Box::new(alloc, Chain::End)?,
        })
    }

    /// What the client sends.
    pub fn source(&self) -> &MemSource
        ensures { result.now ≡ self.now.source }
    {
        &self.reads
    }

    /// What the client was sent.
    pub fn sink(&self) -> &MemSink
        ensures { result.now ≡ self.now.sink }
    {
        &self.writes
    }
}

impl Link for MemLink {
    ghost left = { λ l. Some l.source.left };

    ghost taken = { λ l. Some l.sink.taken };

    ghost read_faults = { λ l. l.source.plan.faults };

    ghost write_faults = { λ l. l.sink.plan.faults };

    // Reads as its source does.
    fn read(&mut self, out: &mut [u8]) -> Result<usize, Failed>
        ensures count { IfOk result (λ n. n ≡ min (length out.old) (min (length self.old.source.left) (max 1 self.old.source.piece))) }
        ensures rest { IfOk result (λ n. KeepsFrom n out.old out.new) }
        ensures bytes { IfOk result (λ n. self.old.source.left ≡ take n out.new ++ self.new.source.left) }
        ensures failed { OnErr result (self.new.source.left ≡ self.old.source.left) }
        ensures listed { IsErr result ↔ IsTrue (fails_next self.old.source.plan) }
        ensures plan { self.new.source.plan ≡ after self.old.source.plan (is_err result) }
        ensures piece { self.new.source.piece ≡ self.old.source.piece }
        ensures sink { self.new.sink ≡ self.old.sink }
    {
        self.reads.read(out)
    }

    // Writes as its sink does.
    fn write(&mut self, piece: &[u8]) -> Result<usize, Failed>
        ensures count { IfOk result (λ n. n ≡ min (length piece.now) (max 1 self.old.sink.piece)) }
        ensures bytes { IfOk result (λ n. self.new.sink.taken ≡ self.old.sink.taken ++ take n piece.now) }
        ensures failed { OnErr result (self.new.sink.taken ≡ self.old.sink.taken) }
        ensures listed { IsTrue (fails_next self.old.sink.plan) → IsErr result }
        ensures plan { self.new.sink.plan ≡ after self.old.sink.plan (is_err result) }
        ensures piece { self.new.sink.piece ≡ self.old.sink.piece }
        ensures source { self.new.source ≡ self.old.source }
    {
        self.writes.write(piece)
    }
}

/// Incoming links. Clauses see the links that are to come and those that were given back, and its counts.
#[derive(Drop)]
pub struct MemListener {
    // The last one comes first.
    coming: Vec<MemLink>,
    returned: Chain,
    plan: FaultPlan,
}

impl Model for MemListener {
    ghost use Rattle.std.specs.Prelude.{reverse};
    ghost use Rattle.outside_mem.specs.Links.{Links};

    ghost Value = { Links };

    ghost use Rattle.outside_mem.specs.Chain.{newest_first};

    ghost view = { λ a. record {
      to_come = reverse a.coming.items;
      given_back = reverse (newest_first a.returned);
      plan = a.plan;
    } };
}

impl MemListener {
    /// These links come in, in this order.
    pub fn new(alloc: Global, mut links: Vec<MemLink>) -> MemListener
        ensures { result ≡ record { to_come = links.items; given_back = []; plan = no_faults } }
    {
        links.reverse();
        MemListener {
            coming: links,
            returned: Chain::End,
            plan: FaultPlan::new(alloc),
        }
    }

    /// The calls of `next` of these numbers, from 0, shall fail.
    pub fn failing_at(mut self, calls: Vec<u64>) -> MemListener
        ensures { result ≡ record self { plan = failing_at self.plan calls.items } }
    {
        self.plan.set_failing(calls);
        self
    }

    /// Takes out the link that was given back last.
    pub fn take_back(&mut self) -> Option<MemLink>
        ensures link { MatchOption result ((self.old.given_back ≡ []) × (self.new.given_back ≡ [])) (λ link. self.old.given_back ≡ self.new.given_back ++ link ∷ []) }
        ensures to_come { self.new.to_come ≡ self.old.to_come }
        ensures plan { self.new.plan ≡ self.old.plan }
    {
        match mem::replace(&mut self.returned, Chain::End) {
            Chain::End => None,
            Chain::More(reads, writes, mut room) => {
                self.returned = mem::replace(&mut *room, Chain::End);
                Some(MemLink {
                    reads,
                    writes,
                    room,
                })
            }
        }
    }

    /// How many calls of `next` have failed.
    pub fn fault_count(&self) -> u64
        ensures { result ≡ self.now.plan.faults }
    {
        self.plan.faults()
    }
}

impl Listener for MemListener {
    type Conn = MemLink;

    ghost to_come = { λ l. Some l.to_come };

    ghost given_back = { λ l. Some l.given_back };

    ghost faults = { λ l. l.plan.faults };

    // Fails at a listed call.
    fn next(&mut self) -> Result<Option<MemLink>, Failed>
        ensures link { IfOk result (λ link. MatchOption link ((self.old.to_come ≡ []) × (self.new.to_come ≡ [])) (λ conn. self.old.to_come ≡ conn ∷ self.new.to_come)) }
        ensures failed { OnErr result (self.new.to_come ≡ self.old.to_come) }
        ensures given { self.new.given_back ≡ self.old.given_back }
        ensures listed { IsErr result ↔ IsTrue (fails_next self.old.plan) }
        ensures plan { self.new.plan ≡ after self.old.plan (is_err result) }
    {
        if self.plan.next_fails() {
            return Err(Failed);
        }
        Ok(self.coming.pop())
    }

    // Takes no memory: the link brings its own room.
    fn back(&mut self, link: MemLink)
        ensures given { self.new.given_back ≡ self.old.given_back ++ link ∷ [] }
        ensures to_come { self.new.to_come ≡ self.old.to_come }
        ensures plan { self.new.plan ≡ self.old.plan }
    {
        let MemLink {
            reads,
            writes,
            mut room,
        } = link;
        *room = mem::replace(&mut self.returned, Chain::End);
        self.returned = Chain::More(reads, writes, room);
    }
}
