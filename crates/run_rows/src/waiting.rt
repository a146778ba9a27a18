// Clients that wait for one another, over the whole program.

use crate::link::Asking;
use crate::orders::bare_vault;
use crate::row::RowErr;
use crate::serving::{CLIENTS, Ending, serve};
use crate::table::Message;
use std::alloc::{AllocError, Global};
use std::io;
use std::rt::Files;
use std::sync::Wait;
use std::thread::Threads;

// Tversion of 8,192 bytes with 9P2000.
const VERSION: &[u8] = b"\x13\0\0\0\x64\xff\xff\0\x20\0\0\x06\09P2000";

// Tattach of fid 0.
const ATTACH: &[u8] = b"\x14\0\0\0\x68\x01\0\0\0\0\0\xff\xff\xff\xff\x01\0u\0\0";

// Each client sends its second message once the first ones of all were answered.
fn messages_of(alloc: Global) -> Result<Vec<Message>, AllocError> {
    let mut messages = Vec::new(alloc);
    for (sends, after) in [(VERSION, 0), (ATTACH, CLIENTS)] {
        for client in 0..CLIENTS {
            let sends = Vec::from_slice(alloc, sends)?;
            messages.push(Message::new(alloc, client, sends, after))?;
        }
    }
    Ok(messages)
}

// Two sessions, of which each waits for the other's first reply before it goes on, are both done: they are served at once.
fn check_waiting<R: Alloc + Files + Threads + Wait + Sync>(
    rt: &R,
    alloc: Global,
    parts: &str,
) -> Result<(), RowErr> {
    let messages = messages_of(alloc)?;
    let folder = bare_vault(rt, alloc, parts)?;
    let served = serve(rt, alloc, &messages, folder, Asking::Once)?;
    if served.ending == Ending::Done {
        Ok(())
    } else {
        Err(RowErr::Differs("report"))
    }
}

/// Serves clients that wait for one another, and prints how many they are, or what differs. Gives whether nothing does.
pub(crate) fn print_waiting<R: Alloc + Files + Print + Threads + Wait + Sync>(
    rt: &R,
    alloc: Global,
    parts: &str,
) -> io::Result<bool> {
    match check_waiting(rt, alloc, parts) {
        Ok(()) => {
            println!(rt; "clients that wait for one another {CLIENTS}")?;
            Ok(true)
        }
        Err(error) => {
            println!(rt; "clients that wait for one another: {error}")?;
            Ok(false)
        }
    }
}
