//! What is told on standard error.

use host_links::{LastLine, host_at_port_0};
use host_sockets::Socket;
use log::{LevelFilter, Log, error};
use std::env;
use std::env::Env;
use vault_words::{Job, Verbosity, complaint, read_words};

// The status if the journal is damaged.
const DAMAGED: u8 = 6;

/// How much is told, by the words: faults alone, sessions too, or names too. Of words that can't be read it is what is usual: they are refused.
pub(crate) fn level_of<R: Env + AllocGlobal>(rt: &R) -> LevelFilter {
    match verbosity_of(rt) {
        Some(Verbosity::Quiet) => LevelFilter::Error,
        Some(Verbosity::Verbose) => LevelFilter::Info,
        Some(Verbosity::VeryVerbose) => LevelFilter::Debug,
        Some(Verbosity::Usual) | None => LevelFilter::Warn,
    }
}

fn verbosity_of<R: Env + AllocGlobal>(rt: &R) -> Option<Verbosity> {
    let args = env::args(rt).ok()?.collect::<Vec<_>>(rt.alloc()).ok()?;
    match read_words(rt.alloc(), args.get(1..)?) {
        Ok(Job::Serve(serving)) => Some(serving.verbosity),
        _ => None,
    }
}

/// Says what is wrong with words that are refused. If memory runs out it is lost: the report says that they are bad.
pub(crate) fn tell_complaint<R: Eprint + AllocGlobal>(rt: &R, words: &[String]) {
    if let Ok(Some(text)) = complaint(rt.alloc(), words) {
        // if standard error is closed it is lost
        let _ = eprint!(rt; "{text}");
    }
}

/// Says why a run ended with a status, by the last line of a report that nobody has.
pub(crate) fn tell_refusal<L: Log>(log: &L, status: u8, report: &LastLine) {
    if status > 0 {
        error!(log; target: "vaultd", "{}", report.text());
    }
}

/// Says at which port a socket listens that was asked for at port 0: the report has no place for it, and a client has to know.
pub(crate) fn tell_port<R: Eprint>(rt: &R, address: &str, socket: &Socket) {
    if let (Some(host), Some(port)) = (host_at_port_0(address), socket.port()) {
        // if standard error is closed it is lost
        let _ = eprintln!(rt; "listening at {host}:{port}");
    }
}

/// Says what shows a journal that is damaged, if a run ended so.
pub(crate) fn tell_damage<R: Eprint>(rt: &R, status: u8, dir: &str) {
    if status == DAMAGED {
        // if standard error is closed it is lost
        let _ = eprintln!(rt; "vaultd recover {dir} shows what its journal holds");
    }
}
