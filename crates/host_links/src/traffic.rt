//! What went over a link, which is told once it is given back.

use host_streams::TARGET;
use log::{Log, info};
use std::fmt::{Display, Formatter};
use std::net::SocketAddr;
use std::{fmt, io};

/// Who a client is, as far as the host says.
#[derive(Clone, Copy)]
pub(crate) enum Peer {
    /// It connected from there.
    Host(SocketAddr),
    /// It connected to a Unix socket.
    Local,
    /// It has the standard streams.
    Streams,
}

impl Display for Peer {
    fn fmt<W: fmt::Write>(&self, f: &mut Formatter<W>) -> fmt::Result {
        match self {
            Peer::Host(address) => write!(f, "client {address}"),
            Peer::Local => write!(f, "client of this host"),
            Peer::Streams => write!(f, "client at the standard streams"),
        }
    }
}

/// How a link ended.
#[derive(Clone, Copy)]
pub(crate) enum Ending {
    /// The server gave it back while it could still be read and written.
    Closed,
    /// The client sends no more.
    Ended,
    /// No byte came for so many seconds.
    Idle(u64),
    /// The server ends.
    Stopped,
    ReadFailed(io::Error),
    WriteFailed(io::Error),
}

impl Display for Ending {
    fn fmt<W: fmt::Write>(&self, f: &mut Formatter<W>) -> fmt::Result {
        match self {
            Ending::Closed => write!(f, "closed by the server"),
            Ending::Ended => write!(f, "it closed the connection"),
            Ending::Idle(seconds) => write!(f, "idle for {seconds} seconds"),
            Ending::Stopped => write!(f, "the server ends"),
            Ending::ReadFailed(cause) => write!(f, "read failed: {cause}"),
            Ending::WriteFailed(cause) => write!(f, "write failed: {cause}"),
        }
    }
}

/// What went over a link so far. Its counts saturate.
#[derive(Drop)]
pub(crate) struct Traffic {
    peer: Peer,
    // Writes that follow a read: a session reads each request whole before it answers it.
    answers: u64,
    bytes_read: u64,
    bytes_written: u64,
    is_asked: bool,
    ending: Ending,
}

impl Traffic {
    /// Nothing went over it yet.
    pub(crate) fn of(peer: Peer) -> Traffic {
        Traffic {
            peer,
            answers: 0,
            bytes_read: 0,
            bytes_written: 0,
            is_asked: false,
            ending: Ending::Closed,
        }
    }

    /// All that was read so far was followed by a write.
    pub(crate) fn is_answered(&self) -> bool {
        !self.is_asked
    }

    /// A read into so much room gave this.
    pub(crate) fn saw_read(&mut self, room: usize, answer: &io::Result<usize>) {
        match answer {
            Ok(0) if room > 0 => self.end(Ending::Ended),
            Ok(count) => {
                self.is_asked = true;
                self.bytes_read = self.bytes_read.saturating_add(*count as u64);
            }
            Err(cause) => self.end(Ending::ReadFailed(*cause)),
        }
    }

    /// A write gave this.
    pub(crate) fn saw_write(&mut self, answer: &io::Result<usize>) {
        match answer {
            Ok(count) => {
                self.answers = self.answers.saturating_add(u64::from(self.is_asked));
                self.is_asked = false;
                self.bytes_written = self.bytes_written.saturating_add(*count as u64);
            }
            Err(cause) => self.end(Ending::WriteFailed(*cause)),
        }
    }

    /// It ended so, unless it had ended before.
    pub(crate) fn end(&mut self, ending: Ending) {
        if matches!(self.ending, Ending::Closed) {
            self.ending = ending;
        }
    }
}

impl Display for Traffic {
    fn fmt<W: fmt::Write>(&self, f: &mut Formatter<W>) -> fmt::Result {
        let Traffic {
            answers,
            bytes_read,
            bytes_written,
            ending,
            ..
        } = self;
        write!(
            f,
            "{answers} requests, {bytes_read} bytes read, {bytes_written} bytes written; {ending}"
        )
    }
}

/// Tells that a client has come.
pub(crate) fn tell_next<L: Log>(log: &L, traffic: &Traffic) {
    info!(log; target: TARGET, "{} connected", traffic.peer);
}

/// Tells that a client is gone, and what went over its link.
pub(crate) fn tell_back<L: Log>(log: &L, traffic: &Traffic) {
    info!(log; target: TARGET, "{} left: {traffic}", traffic.peer);
}
