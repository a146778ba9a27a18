//! The program over the host: the objects that it runs with, by where its clients come from.

ghost use Rattle.std.specs.Prelude.{◌≡◌, ◌⊎◌, ◌≤◌, true, drop, None, IfOk, vec_len};
ghost use Rattle.std.specs.List.{AllByRecursion};
ghost use Rattle.host_links.specs.declared.stream.LastLine.{LastLine};
ghost use Rattle.host_links.specs.Behind.{socket_of};
ghost use Rattle.vault_top.specs.Words.{words_of};
ghost use Rattle.vault_top.specs.Span.{course, sink_in, views_of};
ghost use Rattle.vault_words.specs.Read.{serving_data};
ghost use Rattle.vaultd.specs.Starting.{IsFolderAt, HasLink, IsListening, IsOverStreams, IsRunAtAddress, IsRunAtSocket, IsRunOf, IsServing, IsStarted, IsTurnedAway, SaysTurnedAway, workers_for};

use crate::closing::closed_status;
use crate::folder::{lock_folder, tell_missing, turn_at, untold_at, vault_at};
use crate::host::Host;
use crate::probing::{can_be_served, report_unfit};
use crate::recovering::recover;
use crate::secret::{NotedSource, secret_of};
use crate::syncing::sync_at;
use crate::telling::{tell_complaint, tell_damage, tell_port, tell_refusal};
use host_folder::HostFolder;
use host_links::{
    HostLink, HostListen, LastLine, SocketLink, SocketListen, StdSink, address_named,
};
use host_sockets::{Output, Socket};
use log::Log;
use outside::{Clock, Entropy, Gate, Link, Listener, Reads, Sink, Source, Stage};
use outside_real::{HostClock, OsEntropy, StdCalls};
use std::alloc::AllocError;
use std::fs::File;
use std::io::Input;
use std::net::{Net, TcpListener, TcpStream};
use std::rt::{Clock as SystemClock, Files};
use std::sync::Wait;
use std::sync::atomic::AtomicBool;
use std::thread::Threads;
use vault_top::{Worker, report_in_use, report_no_socket, run};
use vault_words::{Job, Serving, WordsErr, read_words};

// Nobody waits at this gate.
struct OpenGate;

impl Gate for OpenGate {
    fn pass(&self, _stage: Stage) {}
}

/// How the program ended that was started: its exit status, and the file of a Unix socket that it removed.
#[derive(Drop)]
pub struct Started {
    pub status: u8,
    pub removed: Option<String>,
}

// So many workers, each with a listener at a socket, who cuts clients off that send nothing for so many seconds, and lets no more in once this is set.
fn workers_at<'a, 's, R: SystemClock + Files<File = File> + Net + AllocGlobal, L: Log>(
    host: Host<'a, R, L>,
    socket: &'s Socket,
    idle: u64,
    stopped: Option<&'s AtomicBool>,
    count: u64,
) -> Result<
    Vec<Worker<SocketListen<'s, &'a R, &'a L>, OsEntropy<&'a R, &'a L>, HostClock<&'a R>>>,
    AllocError,
>
    requires { (1 ≤ count) × (count ≤ 64) }
    ensures count { IfOk result (λ workers. vec_len workers ≡ count) }
    ensures listening { IfOk result (λ workers. AllByRecursion (λ worker. IsListening ⟦<SocketListen<'s, &'a R, &'a L> as Listener>⟧.faults socket_of socket.now worker.listener) workers.items) }
{
    let mut workers = Vec::new(host.rt.alloc());
    for _ in 0..count {
        workers.push(Worker {
            listener: SocketListen::new(host.rt, host.log, socket, idle, stopped),
            entropy: OsEntropy::new(host.rt, host.log),
            clock: HostClock::new(host.rt),
        })?;
    }
    Ok(workers)
}

// Runs the job that these words are over the standard streams, and a folder at a path, whose journal is left as it is if that is only read.
fn run_over_streams<
    'a,
    R: SystemClock + Files<File = File> + Input + Print + Threads + Wait + Sync + AllocGlobal,
    L: Log + Sync,
    S: Source,
    O: Sink,
>(
    host: Host<'a, R, L>,
    words: &[String],
    folder: HostFolder<StdCalls<&'a R, &'a L>>,
    read_only: bool,
    secret: &mut S,
    out: &mut O,
) -> Result<Started, AllocError>
where
    R::Reader: Send,
    R::File: Send,
    R::Dir: Send,
    ensures { IfOk result (IsOverStreams
        (views_of ⟦<HostFolder<StdCalls<&'a R, &'a L>> as Reads>⟧ ⟦<HostListen<&'a R, &'a L> as Listener>⟧ ⟦<HostLink<&'a R> as Link>⟧ ⟦<OsEntropy<&'a R, &'a L> as Entropy>⟧ ⟦<HostClock<&'a R> as Clock>⟧)
        (λ opened. opened ≡ folder.entry) HasLink (sink_in O.Sink) (words_of words.now)) }
{
    let mut workers = Vec::new(host.rt.alloc());
    workers.push(Worker {
        listener: HostListen::new(host.rt, host.log),
        entropy: OsEntropy::new(host.rt, host.log),
        clock: HostClock::new(host.rt),
    })?;
    let ended = run(
        host.rt,
        host.rt.alloc(),
        words,
        folder,
        &mut workers,
        secret,
        out,
        &mut HostClock::new(host.rt),
        &OpenGate,
        &AtomicBool::new(false),
    );
    Ok(Started {
        status: closed_status(host.rt.alloc(), ended, read_only),
        removed: None,
    })
}

// Runs a job that has no clients, over the folder at a path as it is found. What of a secret may be there unseen is told: of these jobs making a vault alone reads one.
fn run_alone<
    'a,
    R: SystemClock + Files<File = File> + Input + Print + Threads + Wait + Sync + AllocGlobal,
    L: Log + Sync,
    O: Sink,
>(
    host: Host<'a, R, L>,
    words: &[String],
    path: &str,
    passfile: Option<&str>,
    out: &mut O,
) -> Result<Started, AllocError>
where
    R::Reader: Send,
    R::File: Send,
    R::Dir: Send,
    ensures { IfOk result (IsOverStreams
        (views_of ⟦<HostFolder<StdCalls<&'a R, &'a L>> as Reads>⟧ ⟦<HostListen<&'a R, &'a L> as Listener>⟧ ⟦<HostLink<&'a R> as Link>⟧ ⟦<OsEntropy<&'a R, &'a L> as Entropy>⟧ ⟦<HostClock<&'a R> as Clock>⟧)
        (IsFolderAt true path.now) HasLink (sink_in O.Sink) (words_of words.now)) }
{
    let folder = untold_at(host, path)?;
    let mut secret = NotedSource::new(secret_of(host, passfile));
    let started = run_over_streams(host, words, folder, true, &mut secret, out);
    secret.tell_unseen(host.log);
    started
}

// Serves a vault to one client at the standard streams, unless another server has it or its folder can't be served.
fn serve_streams<
    'a,
    R: SystemClock + Files<File = File> + Input + Print + Threads + Wait + Sync + AllocGlobal,
    L: Log + Sync,
    O: Sink,
>(
    host: Host<'a, R, L>,
    words: &[String],
    serving: &Serving<'_>,
    out: &mut O,
) -> Result<Started, AllocError>
where
    R::Reader: Send,
    R::File: Send,
    R::Dir: Send,
    ensures { IfOk result (λ started. IsOverStreams
        (views_of ⟦<HostFolder<StdCalls<&'a R, &'a L>> as Reads>⟧ ⟦<HostListen<&'a R, &'a L> as Listener>⟧ ⟦<HostLink<&'a R> as Link>⟧ ⟦<OsEntropy<&'a R, &'a L> as Entropy>⟧ ⟦<HostClock<&'a R> as Clock>⟧)
        (IsFolderAt serving.now.read_only serving.now.dir.now) HasLink (sink_in O.Sink) (words_of words.now) started ⊎ IsTurnedAway serving.now.read_only (sink_in O.Sink) None started) }
{
    let Some(lock) = lock_folder(host, serving.dir, serving.read_only) else {
        return Ok(Started {
            status: report_in_use(out),
            removed: None,
        });
    };
    tell_missing(host, serving.dir);
    let can = can_be_served(host, serving.dir, serving.read_only)?;
    if !can {
        return Ok(Started {
            status: report_unfit(out),
            removed: None,
        });
    }
    let folder = vault_at(host, &lock, serving.dir, serving.read_only)?;
    let mut secret = secret_of(host, serving.passfile);
    run_over_streams(host, words, folder, serving.read_only, &mut secret, out)
}

// Serves a vault to one client at the standard streams. If it ends with a status, why is told, since nobody has the report.
fn serve_unreported<
    'a,
    R: SystemClock + Files<File = File> + Input + Print + Threads + Wait + Sync + AllocGlobal,
    L: Log + Sync,
>(host: Host<'a, R, L>, words: &[String], serving: &Serving<'_>) -> Result<Started, AllocError>
where
    R::Reader: Send,
    R::File: Send,
    R::Dir: Send,
    ensures { IfOk result (λ started. IsOverStreams
        (views_of ⟦<HostFolder<StdCalls<&'a R, &'a L>> as Reads>⟧ ⟦<HostListen<&'a R, &'a L> as Listener>⟧ ⟦<HostLink<&'a R> as Link>⟧ ⟦<OsEntropy<&'a R, &'a L> as Entropy>⟧ ⟦<HostClock<&'a R> as Clock>⟧)
        (IsFolderAt serving.now.read_only serving.now.dir.now) HasLink (sink_in ⟦<LastLine as Sink>⟧) (words_of words.now) started ⊎ IsTurnedAway serving.now.read_only (sink_in ⟦<LastLine as Sink>⟧) None started) }
{
    let mut out = LastLine::new();
    let answer = serve_streams(host, words, serving, &mut out);
    if let Ok(started) = &answer {
        tell_refusal(host.log, started.status, &out);
    }
    answer
}

// Serves a vault to clients at a socket. Unless so many sessions are to be served, it ends once a commit has failed: from then on nothing is.
fn serve_socket<
    'a,
    's,
    R: SystemClock
        + Files<File = File>
        + Input
        + Print
        + Threads
        + Wait
        + Sync
        + AllocGlobal
        + Net<Listener = TcpListener, Stream = TcpStream>,
    L: Log + Sync,
    O: Sink,
>(
    host: Host<'a, R, L>,
    words: &[String],
    folder: HostFolder<StdCalls<&'a R, &'a L>>,
    serving: &Serving<'_>,
    socket: &'s Socket,
    out: &mut O,
) -> Result<u8, AllocError>
where
    R::Reader: Send,
    R::File: Send,
    R::Dir: Send,
    ensures { IfOk result (IsRunOf
        (views_of ⟦<HostFolder<StdCalls<&'a R, &'a L>> as Reads>⟧ ⟦<SocketListen<'s, &'a R, &'a L> as Listener>⟧ ⟦<SocketLink<'s> as Link>⟧ ⟦<OsEntropy<&'a R, &'a L> as Entropy>⟧ ⟦<HostClock<&'a R> as Clock>⟧)
        (λ opened. opened ≡ folder.entry) (IsListening ⟦<SocketListen<'s, &'a R, &'a L> as Listener>⟧.faults socket_of socket.now) (sink_in O.Sink) (words_of words.now) (workers_for serving.now.at_once)) }
{
    let at_once = serving.at_once.clamp(1, 64);
    let stopped = AtomicBool::new(false);
    let heeded = serving.sessions.is_none().then_some(&stopped);
    let mut workers = workers_at(host, socket, serving.idle, heeded, at_once)?;
    let ended = run(
        host.rt,
        host.rt.alloc(),
        words,
        folder,
        &mut workers,
        &mut secret_of(host, serving.passfile),
        out,
        &mut HostClock::new(host.rt),
        &OpenGate,
        &stopped,
    );
    Ok(closed_status(host.rt.alloc(), ended, serving.read_only))
}

// The status of serving at a socket that is bound: that of the run, or that another server has the vault, which is found out before the folder is looked at, or that
// the folder can't be served.
fn status_at<
    'a,
    's,
    R: SystemClock
        + Files<File = File>
        + Input
        + Print
        + Threads
        + Wait
        + Sync
        + AllocGlobal
        + Net<Listener = TcpListener, Stream = TcpStream>,
    L: Log + Sync,
    O: Sink,
>(
    host: Host<'a, R, L>,
    words: &[String],
    serving: &Serving<'_>,
    socket: &'s Socket,
    out: &mut O,
) -> Result<u8, AllocError>
where
    R::Reader: Send,
    R::File: Send,
    R::Dir: Send,
    ensures { IfOk result (λ status. IsRunOf
        (views_of ⟦<HostFolder<StdCalls<&'a R, &'a L>> as Reads>⟧ ⟦<SocketListen<'s, &'a R, &'a L> as Listener>⟧ ⟦<SocketLink<'s> as Link>⟧ ⟦<OsEntropy<&'a R, &'a L> as Entropy>⟧ ⟦<HostClock<&'a R> as Clock>⟧)
        (IsFolderAt serving.now.read_only serving.now.dir.now) (IsListening ⟦<SocketListen<'s, &'a R, &'a L> as Listener>⟧.faults socket_of socket.now) (sink_in O.Sink) (words_of words.now) (workers_for serving.now.at_once) status
        ⊎ SaysTurnedAway serving.now.read_only (course (sink_in O.Sink) out.old out.new) status) }
{
    let Some(lock) = lock_folder(host, serving.dir, serving.read_only) else {
        return Ok(report_in_use(out));
    };
    tell_missing(host, serving.dir);
    let can = can_be_served(host, serving.dir, serving.read_only)?;
    if !can {
        return Ok(report_unfit(out));
    }
    let folder = vault_at(host, &lock, serving.dir, serving.read_only)?;
    serve_socket(host, words, folder, serving, socket, out)
}

// The words after the first, which is the program's name.
fn behind_name(args: &[String]) -> &[String]
    ensures { result.now ≡ drop 1 args.now }
{
    &args[args.len().min(1)..]
}

// Serves at a socket, which is closed then; if it isn't bound, that alone is reported.
fn serve_if_bound<
    'a,
    R: SystemClock
        + Files<File = File>
        + Input
        + Print
        + Eprint
        + Threads
        + Wait
        + Sync
        + AllocGlobal
        + Net<Listener = TcpListener, Stream = TcpStream>,
    L: Log + Sync,
    O: Sink,
>(
    host: Host<'a, R, L>,
    words: &[String],
    serving: &Serving<'_>,
    socket: Socket,
    out: &mut O,
) -> Result<Started, AllocError>
where
    R::Reader: Send,
    R::File: Send,
    R::Dir: Send,
    ensures { IfOk result (IsRunAtSocket
        (views_of ⟦<HostFolder<StdCalls<&'a R, &'a L>> as Reads>⟧ ⟦<SocketListen<'static, &'a R, &'a L> as Listener>⟧ ⟦<SocketLink<'static> as Link>⟧ ⟦<OsEntropy<&'a R, &'a L> as Entropy>⟧ ⟦<HostClock<&'a R> as Clock>⟧)
        (IsFolderAt serving.now.read_only serving.now.dir.now) (IsListening ⟦<SocketListen<'static, &'a R, &'a L> as Listener>⟧.faults socket_of) (sink_in O.Sink) (words_of words.now) serving.now.read_only serving.now.at_once socket) }
{
    if !socket.is_bound() {
        return Ok(Started {
            status: report_no_socket(out),
            removed: None,
        });
    }
    tell_port(host.rt, serving.address, &socket);
    match status_at(host, words, serving, &socket, out) {
        Ok(status) => {
            let removed = socket.close(host.rt);
            Ok(Started { status, removed })
        }
        Err(error) => {
            let _ = socket.close(host.rt);
            Err(error)
        }
    }
}

// Serves at the address that the words name.
fn serve_at<
    'a,
    R: SystemClock
        + Files<File = File>
        + Input
        + Print
        + Eprint
        + Threads
        + Wait
        + Sync
        + AllocGlobal
        + Net<Listener = TcpListener, Stream = TcpStream>,
    L: Log + Sync,
    O: Sink,
>(
    host: Host<'a, R, L>,
    words: &[String],
    serving: &Serving<'_>,
    out: &mut O,
) -> Result<Started, AllocError>
where
    R::Reader: Send,
    R::File: Send,
    R::Dir: Send,
    ensures { IfOk result (IsRunAtAddress
        (views_of ⟦<HostFolder<StdCalls<&'a R, &'a L>> as Reads>⟧ ⟦<SocketListen<'static, &'a R, &'a L> as Listener>⟧ ⟦<SocketLink<'static> as Link>⟧ ⟦<OsEntropy<&'a R, &'a L> as Entropy>⟧ ⟦<HostClock<&'a R> as Clock>⟧)
        (IsFolderAt serving.now.read_only serving.now.dir.now) (IsListening ⟦<SocketListen<'static, &'a R, &'a L> as Listener>⟧.faults socket_of) (sink_in O.Sink) (words_of words.now) serving.now.address.now serving.now.read_only serving.now.at_once) }
{
    let address = address_named(host.rt.alloc(), serving.address)?;
    let turn = turn_at(host, &address);
    let socket = Socket::bind(host.rt, host.log, address);
    drop(turn);
    serve_if_bound(host, words, serving, socket, out)
}

// Serves a vault as the words say. If standard output is the client's, nothing is reported.
fn serve<
    'a,
    R: SystemClock
        + Files<File = File>
        + Input
        + Print
        + Eprint
        + Threads
        + Wait
        + Sync
        + AllocGlobal
        + Net<Listener = TcpListener, Stream = TcpStream>,
    L: Log + Sync,
>(host: Host<'a, R, L>, words: &[String], serving: &Serving<'_>) -> Result<Started, AllocError>
where
    R::Reader: Send,
    R::File: Send,
    R::Dir: Send,
    ensures { IfOk result (IsServing
        (views_of ⟦<HostFolder<StdCalls<&'a R, &'a L>> as Reads>⟧ ⟦<HostListen<&'a R, &'a L> as Listener>⟧ ⟦<HostLink<&'a R> as Link>⟧ ⟦<OsEntropy<&'a R, &'a L> as Entropy>⟧ ⟦<HostClock<&'a R> as Clock>⟧)
        (views_of ⟦<HostFolder<StdCalls<&'a R, &'a L>> as Reads>⟧ ⟦<SocketListen<'static, &'a R, &'a L> as Listener>⟧ ⟦<SocketLink<'static> as Link>⟧ ⟦<OsEntropy<&'a R, &'a L> as Entropy>⟧ ⟦<HostClock<&'a R> as Clock>⟧)
        IsFolderAt HasLink (IsListening ⟦<SocketListen<'static, &'a R, &'a L> as Listener>⟧.faults socket_of) (sink_in ⟦<LastLine as Sink>⟧)
        (sink_in ⟦<StdSink<Output<&'a R>, &'a L> as Sink>⟧)
        (words_of words.now) (serving_data serving.now)) }
{
    if serving.address == "-" {
        serve_unreported(host, words, serving)
    } else if serving.address == "" {
        run_alone(
            host,
            words,
            serving.dir,
            serving.passfile,
            &mut StdSink::new(host.rt, host.log),
        )
    } else {
        serve_at(host, words, serving, &mut StdSink::new(host.rt, host.log))
    }
}

// The same, and says what shows a damaged journal.
fn serve_told<
    'a,
    R: SystemClock
        + Files<File = File>
        + Input
        + Print
        + Eprint
        + Threads
        + Wait
        + Sync
        + AllocGlobal
        + Net<Listener = TcpListener, Stream = TcpStream>,
    L: Log + Sync,
>(host: Host<'a, R, L>, words: &[String], serving: &Serving<'_>) -> Result<Started, AllocError>
where
    R::Reader: Send,
    R::File: Send,
    R::Dir: Send,
    ensures { IfOk result (IsServing
        (views_of ⟦<HostFolder<StdCalls<&'a R, &'a L>> as Reads>⟧ ⟦<HostListen<&'a R, &'a L> as Listener>⟧ ⟦<HostLink<&'a R> as Link>⟧ ⟦<OsEntropy<&'a R, &'a L> as Entropy>⟧ ⟦<HostClock<&'a R> as Clock>⟧)
        (views_of ⟦<HostFolder<StdCalls<&'a R, &'a L>> as Reads>⟧ ⟦<SocketListen<'static, &'a R, &'a L> as Listener>⟧ ⟦<SocketLink<'static> as Link>⟧ ⟦<OsEntropy<&'a R, &'a L> as Entropy>⟧ ⟦<HostClock<&'a R> as Clock>⟧)
        IsFolderAt HasLink (IsListening ⟦<SocketListen<'static, &'a R, &'a L> as Listener>⟧.faults socket_of) (sink_in ⟦<LastLine as Sink>⟧)
        (sink_in ⟦<StdSink<Output<&'a R>, &'a L> as Sink>⟧)
        (words_of words.now) (serving_data serving.now)) }
{
    let started = serve(host, words, serving)?;
    tell_damage(host.rt, started.status, serving.dir);
    Ok(started)
}

/// Runs the job that the words after the program's name are. If standard output is the client's, nothing is reported. What is wrong with words that are refused
/// is said on standard error.
pub fn start<
    'a,
    R: SystemClock
        + Files<File = File>
        + Input
        + Print
        + Eprint
        + Threads
        + Wait
        + Sync
        + AllocGlobal
        + Net<Listener = TcpListener, Stream = TcpStream>,
    L: Log + Sync,
>(host: Host<'a, R, L>, args: &[String]) -> Result<Started, AllocError>
where
    R::Reader: Send,
    R::File: Send,
    R::Dir: Send,
    ensures { IfOk result (IsStarted
        (views_of ⟦<HostFolder<StdCalls<&'a R, &'a L>> as Reads>⟧ ⟦<HostListen<&'a R, &'a L> as Listener>⟧ ⟦<HostLink<&'a R> as Link>⟧ ⟦<OsEntropy<&'a R, &'a L> as Entropy>⟧ ⟦<HostClock<&'a R> as Clock>⟧)
        (views_of ⟦<HostFolder<StdCalls<&'a R, &'a L>> as Reads>⟧ ⟦<SocketListen<'static, &'a R, &'a L> as Listener>⟧ ⟦<SocketLink<'static> as Link>⟧ ⟦<OsEntropy<&'a R, &'a L> as Entropy>⟧ ⟦<HostClock<&'a R> as Clock>⟧)
        IsFolderAt HasLink (IsListening ⟦<SocketListen<'static, &'a R, &'a L> as Listener>⟧.faults socket_of) (sink_in ⟦<LastLine as Sink>⟧)
        (sink_in ⟦<StdSink<Output<&'a R>, &'a L> as Sink>⟧)
        (words_of (drop 1 args.now))) }
{
    let words = behind_name(args);
    let out = &mut StdSink::new(host.rt, host.log);
    match read_words(host.rt.alloc(), words) {
        Ok(Job::Serve(serving)) => serve_told(host, words, &serving),
        Ok(Job::Sync { address }) => sync_at(host, address, out),
        Ok(Job::Recover(recovering)) => recover(host, &recovering, out),
        Ok(Job::Make(making)) => {
            tell_missing(host, making.dir);
            run_alone(host, words, making.dir, making.passfile, out)
        }
        Ok(Job::Demo { .. }) => run_alone(host, words, "", None, out),
        Ok(Job::Help(_)) => run_alone(host, words, "", None, out),
        Ok(Job::Version) => run_alone(host, words, "", None, out),
        Err(WordsErr::Refused) => {
            tell_complaint(host.rt, words);
            run_alone(host, words, "", None, out)
        }
        Err(WordsErr::Memory) => Err(AllocError),
    }
}
