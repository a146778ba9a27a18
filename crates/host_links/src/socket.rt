//! Clients that connect over sockets of this host.
ghost use Rattle.std.specs.Prelude.{◌≡◌, ◌≤◌, length, take, IfOk, IfSome, OnErr, IsErr, IsTrue, None, Ok};
ghost use Rattle.outside.specs.Calls.{HasCause, KeepsFrom, TakesFront};
ghost use Rattle.host_links.specs.Behind.{is_over, socket_of};

use crate::traffic::{Ending, Peer, Traffic, tell_back, tell_next};
use host_sockets::{Socket, WAIT, Wire};
use host_streams::{counted, raised, read_some, told, write_some};
use log::Log;
use outside::{Failed, Link, Listener};
use std::io::ErrorKind;
use std::net::{Net, SocketAddr};
use std::rt::Clock;
use std::sync::atomic::{AtomicBool, Ordering};
use std::time::Duration;
use std::{io, thread};

// How often a listener asks for the next client, when the host can't give one, as when it has no descriptor left: for a minute.
const ACCEPT_TRIES: u32 = 1200;

// Milliseconds between two of these.
const ACCEPT_PAUSE: u64 = 50;

// For how many seconds a read waits at a time, so that a client that sends nothing sees that the server ends.
const TURN: u64 = 1;

// How many of these a client has to send a request, once the server ends: it is answered why.
const LAST_TURNS: u64 = 3;

fn is_set(flag: Option<&AtomicBool>) -> bool {
    match flag {
        Some(flag) => flag.load(Ordering::SeqCst),
        None => false,
    }
}

// A read or a write waited for as long as it may.
fn is_late(cause: &io::Error) -> bool {
    matches!(cause.kind(), ErrorKind::WouldBlock | ErrorKind::TimedOut)
}

// What is read of a connection within so many turns, or sooner once the server ends. None: nothing came.
fn read_within(
    wire: &mut Wire,
    turns: u64,
    stopped: Option<&AtomicBool>,
    out: &mut [u8],
) -> io::Result<Option<usize>>
    ensures count { IfOk result (λ read. IfSome read (λ n. n ≤ length out.old)) }
    ensures rest { IfOk result (λ read. IfSome read (λ n. KeepsFrom n out.old out.new)) }
    ensures none { result ≡ Ok None → out.new ≡ out.old }
{
    let mut last = LAST_TURNS;
    for _ in 0..turns {
        match read_some(wire, out) {
            Err(cause) if is_late(&cause) => {}
            answer => return Ok(Some(answer?)),
        }
        if is_set(stopped) {
            last = last.saturating_sub(1);
            if last == 0 {
                break;
            }
        }
    }
    Ok(None)
}

/// A connection, of which nothing is told. One that was reset is a failed read or write. If no byte comes for too long, that is its end; and once its server
/// ends, what follows the next answer.
#[derive(Drop)]
pub struct SocketLink<'s> {
    wire: Wire,
    turns: u64,
    stopped: Option<&'s AtomicBool>,
    // What was read last came once the server ended.
    is_last: bool,
    is_over: bool,
    traffic: Traffic,
    read_faults: u64,
    write_faults: u64,
}

impl<'s> SocketLink<'s> {
    /// The connection of a client to its server.
    pub fn over(wire: Wire) -> SocketLink<'s>
        ensures reads { ⟦<SocketLink<'s> as Link>⟧.read_faults result ≡ 0 }
        ensures writes { ⟦<SocketLink<'s> as Link>⟧.write_faults result ≡ 0 }
    {
        SocketLink::of(wire, 1, None, Peer::Local)
    }

    // The connection to a client, for which so many turns are waited. `stopped` says that its server ends.
    fn of(wire: Wire, turns: u64, stopped: Option<&'s AtomicBool>, peer: Peer) -> SocketLink<'s>
        ensures reads { ⟦<SocketLink<'s> as Link>⟧.read_faults result ≡ 0 }
        ensures writes { ⟦<SocketLink<'s> as Link>⟧.write_faults result ≡ 0 }
    {
        SocketLink {
            wire,
            turns,
            stopped,
            is_last: false,
            is_over: false,
            traffic: Traffic::of(peer),
            read_faults: 0,
            write_faults: 0,
        }
    }

    // The end, from which on nothing is read.
    fn end(&mut self, ending: Ending)
        ensures over { IsTrue (is_over self.new) }
        ensures reads { self.new.read_faults ≡ self.old.read_faults }
        ensures writes { self.new.write_faults ≡ self.old.write_faults }
    {
        self.is_over = true;
        self.traffic.end(ending);
    }

    // What came, or the end: nothing did for too long, or the server ends and has answered a request since.
    fn read_in_time(&mut self, out: &mut [u8]) -> io::Result<usize>
        ensures count { IfOk result (λ n. n ≤ length out.old) }
        ensures rest { IfOk result (λ n. KeepsFrom n out.old out.new) }
        ensures over { IsTrue (is_over self.old) → (result ≡ Ok 0) × IsTrue (is_over self.new) }
        ensures reads { self.new.read_faults ≡ self.old.read_faults }
        ensures writes { self.new.write_faults ≡ self.old.write_faults }
    {
        if self.is_over {
            return Ok(0);
        }
        if self.is_last && self.traffic.is_answered() {
            self.end(Ending::Stopped);
            return Ok(0);
        }
        match read_within(&mut self.wire, self.turns, self.stopped, out)? {
            Some(count) => {
                self.is_last = is_set(self.stopped);
                Ok(count)
            }
            None if is_set(self.stopped) => {
                self.end(Ending::Stopped);
                Ok(0)
            }
            None => {
                self.end(Ending::Idle(self.turns));
                Ok(0)
            }
        }
    }
}

impl<'s> Link for SocketLink<'s> {
    ghost left = { λ _. None };

    ghost taken = { λ _. None };

    ghost read_faults = { λ link. link.read_faults };

    ghost write_faults = { λ link. link.write_faults };

    fn read(&mut self, out: &mut [u8]) -> Result<usize, Failed>
        ensures count { IfOk result (λ n. n ≤ length out.old) }
        ensures rest { IfOk result (λ n. KeepsFrom n out.old out.new) }
        ensures bytes { IfOk result (λ n. TakesFront (⟦<SocketLink<'s> as Link>⟧.left self.old) (⟦<SocketLink<'s> as Link>⟧.left self.new) (take n out.new)) }
        ensures failed { OnErr result (⟦<SocketLink<'s> as Link>⟧.left self.new ≡ ⟦<SocketLink<'s> as Link>⟧.left self.old) }
        ensures cause { HasCause (⟦<SocketLink<'s> as Link>⟧.read_faults self.old) (⟦<SocketLink<'s> as Link>⟧.read_faults self.new) (IsErr result) }
        ensures writes { ⟦<SocketLink<'s> as Link>⟧.write_faults self.new ≡ ⟦<SocketLink<'s> as Link>⟧.write_faults self.old }

        // Its end is for good.
        ensures over { IsTrue (is_over self.old) → (result ≡ Ok 0) × IsTrue (is_over self.new) }
    {
        let answer = self.read_in_time(out);
        self.traffic.saw_read(out.len(), &answer);
        counted(&mut self.read_faults, answer)
    }

    fn write(&mut self, piece: &[u8]) -> Result<usize, Failed> {
        let answer = write_some(&mut self.wire, piece);
        self.traffic.saw_write(&answer);
        counted(&mut self.write_faults, answer)
    }
}

/// Gives the clients that connect to a socket, one after another, and closes each that is given back. It fails if the socket couldn't be
/// bound, or if the host has refused a client for a minute. That clients come and go is told to a logger, and so is why the host refuses them, once.
#[derive(Drop)]
pub struct SocketListen<'a, R, L> {
    rt: R,
    log: L,
    socket: &'a Socket,
    turns: u64,
    stopped: Option<&'a AtomicBool>,
    faults: u64,
}

impl<'a, R: Clock + Net, L: Log> SocketListen<'a, R, L> {
    /// A listener at a socket, which pauses by the runtime's clock. A client from which no byte comes for `idle` seconds is at its end, unless that is 0. Once
    /// `stopped` is set no more clients are taken, a client is at its end when its next request is answered, or if it sends none for three seconds, and a
    /// listener that gives no more links has the next that waits for a client see it.
    pub fn new(
        rt: R,
        log: L,
        socket: &'a Socket,
        idle: u64,
        stopped: Option<&'a AtomicBool>,
    ) -> SocketListen<'a, R, L>
        ensures socket { socket_of result ≡ socket.now }
        ensures faults { ⟦<SocketListen<'a, R, L> as Listener>⟧.faults result ≡ 0 }
    {
        SocketListen {
            rt,
            log,
            socket,
            turns: if idle > 0 { idle } else { u64::MAX },
            stopped,
            faults: 0,
        }
    }

    // The next client, for which the host is asked several times, unless the server ends before.
    fn accepted(&self) -> io::Result<(Wire, Option<SocketAddr>)> {
        let first = told(&self.log, "accept", self.socket.accept(TURN));
        if first.is_ok() {
            return first;
        }
        for _ in 1..ACCEPT_TRIES {
            if is_set(self.stopped) {
                break;
            }
            thread::sleep(&self.rt, Duration::from_millis(ACCEPT_PAUSE));
            if let Ok(client) = self.socket.accept(TURN) {
                return Ok(client);
            }
        }
        first
    }

    // The next client, or none if the server ends. Who waits for one is then woken.
    fn next_client(&self) -> io::Result<Option<(Wire, Option<SocketAddr>)>> {
        if !is_set(self.stopped) {
            let client = self.accepted();
            if !is_set(self.stopped) {
                return client.map(Some);
            }
        }
        // (where that fails, the next client wakes it)
        let _ = self.socket.wake(&self.rt);
        Ok(None)
    }
}

impl<'a, R: Clock + Net, L: Log> Listener for SocketListen<'a, R, L> {
    type Conn = SocketLink<'a>;

    ghost to_come = { λ _. None };

    ghost given_back = { λ _. None };

    ghost faults = { λ listen. listen.faults };

    fn next(&mut self) -> Result<Option<SocketLink<'a>>, Failed> {
        if self.socket.is_bound() {
            match self.next_client() {
                Ok(Some((wire, address))) => {
                    let peer = address.map_or(Peer::Local, Peer::Host);
                    let link = SocketLink::of(wire, self.turns, self.stopped, peer);
                    tell_next(&self.log, &link.traffic);
                    return Ok(Some(link));
                }
                Ok(None) => return Ok(None),
                Err(_) => {}
            }
        }
        self.faults = raised(self.faults);
        Err(Failed)
    }

    fn back(&mut self, link: SocketLink<'a>) {
        tell_back(&self.log, &link.traffic);
    }
}
