//! Serves the clear tree of a Cryptomator vault over 9P2000, and makes such vaults. README.md has its words.
//!
//! # What is told
//!
//! Faults of the host, and with `-v` clients that come and go, are told on standard error, a line each, by the program's own logger, which is a value: no clause
//! sees it.
//!
//! # The program over the host
//!
//! The program over the host's folder, streams, sockets, random source and clock.
//!
//! ```
//! let args = env::args(&rt)?.collect::<Vec<_>>(rt.alloc())?;
//! ExitCode::from(start(host, &args)?.status)
//! ```
#![tactic(auto)]

mod closing;
mod error;
mod exit;
mod folder;
mod host;
mod laws;
mod probing;
mod recovering;
mod secret;
mod stack;
mod starting;
mod syncing;
mod telling;

use crate::exit::exit_status;
use crate::host::Host;
use crate::stack::take_room;
use crate::telling::level_of;
use log::Logged;
use log::sink::Console;
use std::process::ExitCode;

fn main(rt: HostRuntime) -> ExitCode {
    take_room(&rt);
    let log = Logged::new(&rt, level_of(&rt), Console(&rt));
    let host = Host { rt: &rt, log: &log };
    ExitCode::from(exit_status(host))
}
