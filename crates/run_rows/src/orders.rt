// Two clients whose messages come in one order: if nothing fails, and if a commit does.

use crate::folders::folder_of;
use crate::link::Asking;
use crate::look::Looks;
use crate::row::RowErr;
use crate::serving::{Ending, Served, serve};
use crate::table::Message;
use outside_mem::MemFolder;
use std::alloc::Global;
use std::rt::Files;
use std::sync::Wait;
use std::thread::Threads;

// More calls of the folder than there are in a run.
const MOST_CALLS: u64 = 4096;

/// The folder of a vault with nothing but its root.
pub(crate) fn bare_vault<R: Files + Alloc>(
    rt: &R,
    alloc: Global,
    parts: &str,
) -> Result<MemFolder, RowErr> {
    folder_of(rt, alloc, parts, "zero-root")
}

/// The state that messages leave.
pub(crate) fn last_state(messages: &[Message]) -> usize {
    match messages.last() {
        Some(message) => message.leaves,
        None => 0,
    }
}

/// Serves messages, in which nothing fails, over a vault with nothing but its root.
pub(crate) fn serve_soundly<R: Alloc + Files + Threads + Wait + Sync>(
    rt: &R,
    alloc: Global,
    parts: &str,
    messages: &[Message],
) -> Result<MemFolder, RowErr> {
    let folder = bare_vault(rt, alloc, parts)?;
    let served = serve(rt, alloc, messages, folder, Asking::Once)?;
    told_folder(alloc, messages, served, Ending::Done)
}

// The folder that is left, if the run ended so and the replies are the wanted ones.
fn told_folder(
    alloc: Global,
    messages: &[Message],
    served: Served,
    ending: Ending,
) -> Result<MemFolder, RowErr> {
    if served.ending != ending {
        return Err(RowErr::Differs("report"));
    }
    if !served.is_as_told(alloc, messages)? {
        return Err(RowErr::Differs("replies"));
    }
    Ok(served.folder)
}

/// Runs messages, in which nothing fails, and looks at the vault.
pub(crate) fn check_order<R: Alloc + Files + Threads + Wait + Sync>(
    rt: &R,
    alloc: Global,
    parts: &str,
    messages: &[Message],
    looks: &Looks,
) -> Result<(), RowErr> {
    let folder = serve_soundly(rt, alloc, parts, messages)?;
    let state = last_state(messages);
    looks.check(rt, alloc, folder, state, state)
}

/// How many calls and changing calls a folder has had.
#[derive(Clone, Copy, Debug, PartialEq, Eq)]
pub(crate) struct Calls {
    pub all: u64,
    pub changes: u64,
}

/// The calls of a folder until messages are answered after which nothing waits: closing the vault then calls nothing.
pub(crate) fn calls_before<R: Alloc + Files + Threads + Wait + Sync>(
    rt: &R,
    alloc: Global,
    parts: &str,
    messages: &[Message],
) -> Result<Calls, RowErr> {
    let folder = serve_soundly(rt, alloc, parts, messages)?;
    Ok(Calls {
        all: folder.call_count(),
        changes: folder.change_count(),
    })
}

// What messages leave if a call of the folder fails.
fn serve_failing<R: Alloc + Files + Threads + Wait + Sync>(
    rt: &R,
    alloc: Global,
    parts: &str,
    messages: &[Message],
    call: u64,
) -> Result<Served, RowErr> {
    let failing = vec![in alloc; call]?;
    let folder = bare_vault(rt, alloc, parts)?.failing_at(failing);
    serve(rt, alloc, messages, folder, Asking::Once)
}

// What messages leave if the first call of the folder fails that breaks a commit with so many changes.
fn serve_breaking<R: Alloc + Files + Threads + Wait + Sync>(
    rt: &R,
    alloc: Global,
    parts: &str,
    messages: &[Message],
    breaks: Calls,
) -> Result<Served, RowErr> {
    for call in breaks.all..MOST_CALLS {
        let served = serve_failing(rt, alloc, parts, messages, call)?;
        if served.ending == Ending::Broken && served.folder.change_count() >= breaks.changes {
            return Ok(served);
        }
    }
    Err(RowErr::Line)
}

/// Runs messages with a changing call failing, the so many-th from a message on, and looks at the vault: it has the state before that message
/// or one that the messages from there on leave.
pub(crate) fn check_commit<R: Alloc + Files + Threads + Wait + Sync>(
    rt: &R,
    alloc: Global,
    parts: &str,
    messages: &[Message],
    looks: &Looks,
    from: usize,
    count: u64,
) -> Result<(), RowErr> {
    let before = messages.get(..from).ok_or(RowErr::Line)?;
    let mut breaks = calls_before(rt, alloc, parts, before)?;
    breaks.changes = breaks.changes.saturating_add(count);
    let served = serve_breaking(rt, alloc, parts, messages, breaks)?;
    let folder = told_folder(alloc, messages, served, Ending::Broken)?;
    let folder = folder.failing_at(Vec::new(alloc));
    looks.check(rt, alloc, folder, last_state(before), last_state(messages))
}
