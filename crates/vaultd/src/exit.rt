//! The exit status of a run of the program, and what is said where there is none.

ghost use Rattle.std.specs.Prelude.{◌≡◌, ℕ, List, IfOk};
ghost use Rattle.host_links.specs.declared.stream.LastLine.{LastLine};
ghost use Rattle.host_links.specs.Behind.{socket_of};
ghost use Rattle.vault_top.specs.Span.{sink_in, views_of};
ghost use Rattle.vaultd.specs.Starting.{IsFolderAt, HasLink, IsExit, IsListening, IsStarted, exit_of};

use crate::error::StartErr;
use crate::host::Host;
use crate::starting::{Started, start};
use host_folder::HostFolder;
use host_links::{HostLink, HostListen, LastLine, SocketLink, SocketListen, StdSink};
use host_sockets::Output;
use log::Log;
use outside::{Clock, Entropy, Link, Listener, Reads, Sink};
use outside_real::{HostClock, OsEntropy, StdCalls};
use std::env::{Env, FillError};
use std::fs::File;
use std::io::Input;
use std::net::{Net, TcpListener, TcpStream};
use std::rt::{Clock as SystemClock, Files};
use std::sync::Wait;
use std::thread::Threads;
use std::{env, io};

// The status of a fault of the outside.
const FAULT: u8 = 4;

// Whether a word says that standard output is a client's.
fn is_for_streams(word: &[u8]) -> bool {
    matches!(word, b"-" | b"--listen=-")
}

// Whether standard output may be a client's, if the words can't be read.
fn may_serve_streams<R: Env>(rt: &R) -> bool {
    let mut word = [0u8; 16];
    for index in 1..usize::MAX {
        match rt.arg(index, &mut word) {
            Ok(count) if is_for_streams(&word[..count]) => return true,
            Ok(_) | Err(FillError::TooLong) => {}
            Err(FillError::NotPresent) => return false,
        }
    }
    false
}

// Takes the three lowest descriptors that are free.
fn placeholders<R: Files>(rt: &R) -> io::Result<(R::File, R::File, R::File)> {
    let null = "/dev/null";
    let first = File::open(rt, null)?;
    let second = File::open(rt, null)?;
    let third = File::open(rt, null)?;
    Ok((first, second, third))
}

// Reads the words, and starts their job.
fn started<
    'a,
    R: SystemClock
        + Env
        + Files<File = File>
        + Input
        + Print
        + Eprint
        + Threads
        + Wait
        + Sync
        + AllocGlobal
        + Net<Listener = TcpListener, Stream = TcpStream>,
    L: Log + Sync,
>(host: Host<'a, R, L>) -> Result<Started, StartErr>
where
    R::Reader: Send,
    R::File: Send,
    R::Dir: Send,
    ensures { IfOk result (λ started. (words : List (List ℕ)) × IsStarted
        (views_of ⟦<HostFolder<StdCalls<&'a R, &'a L>> as Reads>⟧ ⟦<HostListen<&'a R, &'a L> as Listener>⟧ ⟦<HostLink<&'a R> as Link>⟧ ⟦<OsEntropy<&'a R, &'a L> as Entropy>⟧ ⟦<HostClock<&'a R> as Clock>⟧)
        (views_of ⟦<HostFolder<StdCalls<&'a R, &'a L>> as Reads>⟧ ⟦<SocketListen<'static, &'a R, &'a L> as Listener>⟧ ⟦<SocketLink<'static> as Link>⟧ ⟦<OsEntropy<&'a R, &'a L> as Entropy>⟧ ⟦<HostClock<&'a R> as Clock>⟧)
        IsFolderAt HasLink (IsListening ⟦<SocketListen<'static, &'a R, &'a L> as Listener>⟧.faults socket_of) (sink_in ⟦<LastLine as Sink>⟧)
        (sink_in ⟦<StdSink<Output<&'a R>, &'a L> as Sink>⟧) words started) }
{
    match env::args(host.rt) {
        Ok(args) => {
            let args = args.collect::<Vec<_>>(host.rt.alloc())?;
            let started = start(host, &args)?;
            Ok(started)
        }
        Err(error) => Err(StartErr::of_words(&error)),
    }
}

// The status after a start. If there was none, why is said, unless standard output may be a client's.
fn status_after<R: Env + Print>(rt: &R, started: &Result<Started, StartErr>) -> u8
    ensures { result ≡ exit_of started.now }
{
    match started {
        Ok(started) => started.status,
        Err(cause) => {
            if !may_serve_streams(rt) {
                // What can't be printed is lost: the status says it as well.
                let _ = print!(rt; "{}", cause.line());
            }
            cause.status()
        }
    }
}

/// The exit status of the program: that of the job that its words ask for, or that of why it wasn't started.
pub(crate) fn exit_status<
    'a,
    R: SystemClock
        + Env
        + Files<File = File>
        + Input
        + Print
        + Eprint
        + Threads
        + Wait
        + Sync
        + AllocGlobal
        + Net<Listener = TcpListener, Stream = TcpStream>,
    L: Log + Sync,
>(host: Host<'a, R, L>) -> u8
where
    R::Reader: Send,
    R::File: Send,
    R::Dir: Send,
    ensures { IsExit (λ started. (words : List (List ℕ)) × IsStarted
        (views_of ⟦<HostFolder<StdCalls<&'a R, &'a L>> as Reads>⟧ ⟦<HostListen<&'a R, &'a L> as Listener>⟧ ⟦<HostLink<&'a R> as Link>⟧ ⟦<OsEntropy<&'a R, &'a L> as Entropy>⟧ ⟦<HostClock<&'a R> as Clock>⟧)
        (views_of ⟦<HostFolder<StdCalls<&'a R, &'a L>> as Reads>⟧ ⟦<SocketListen<'static, &'a R, &'a L> as Listener>⟧ ⟦<SocketLink<'static> as Link>⟧ ⟦<OsEntropy<&'a R, &'a L> as Entropy>⟧ ⟦<HostClock<&'a R> as Clock>⟧)
        IsFolderAt HasLink (IsListening ⟦<SocketListen<'static, &'a R, &'a L> as Listener>⟧.faults socket_of) (sink_in ⟦<LastLine as Sink>⟧)
        (sink_in ⟦<StdSink<Output<&'a R>, &'a L> as Sink>⟧) words started) result }
{
    // If the program was started without one of the descriptors 0 to 2, no file of the vault is to be given it.
    let Ok(_placeholders) = placeholders(host.rt) else {
        return FAULT;
    };
    let started = started(host);
    status_after(host.rt, &started)
}
