// What each stop of a run may leave.

use crate::failing::failing_from;
use crate::link::Asking;
use crate::look::Looks;
use crate::orders::{Calls, bare_vault, calls_before, last_state};
use crate::row::RowErr;
use crate::serving::serve;
use crate::table::Message;
use crate::tally::Tally;
use outside_mem::MemFolder;
use std::alloc::Global;
use std::rt::Files;
use std::sync::Wait;
use std::thread::Threads;

// Most images of a stop that are looked at.
const MOST_IMAGES: usize = 64;

// More calls than a run makes after the one at which it is stopped.
const MOST_CALLS: u64 = 256;

// From which number of the folder's calls on no stop undoes a state, and at which one the message is answered that leaves it.
#[derive(Clone, Copy, Debug, PartialEq, Eq)]
struct Moment {
    lasts: u64,
    answered: u64,
    state: usize,
}

// The states of which a stop at a call leaves one.
#[derive(Clone, Copy, Debug, PartialEq, Eq)]
struct Kept {
    call: u64,
    least: usize,
    most: usize,
}

// From which number of the folder's calls on the journal's gate is open and flushed, if the changing call opens it that is the so many-th
// since some calls.
fn opened_at<R: Alloc + Files + Threads + Wait + Sync>(
    rt: &R,
    alloc: Global,
    parts: &str,
    messages: &[Message],
    since: Calls,
    change: u64,
) -> Result<u64, RowErr> {
    for call in since.all..since.all.saturating_add(MOST_CALLS) {
        // (the call at which it is stopped is counted)
        let folder = serve_stopped(rt, alloc, parts, messages, call, false)?;
        if folder.change_count() >= since.changes.saturating_add(change) {
            return Ok(call.saturating_add(2));
        }
    }
    Err(RowErr::Line)
}

// The moments of the messages that no stop undoes.
fn moments_of<R: Alloc + Files + Threads + Wait + Sync>(
    rt: &R,
    alloc: Global,
    parts: &str,
    messages: &[Message],
) -> Result<Vec<Moment>, RowErr> {
    let mut moments = Vec::new(alloc);
    let mut since = Calls { all: 0, changes: 0 };
    for (index, message) in messages.iter().enumerate() {
        if message.stable {
            let begun = messages.get(..=index).ok_or(RowErr::Line)?;
            let answered = calls_before(rt, alloc, parts, begun)?;
            let lasts = match message.opens {
                Some(change) => opened_at(rt, alloc, parts, begun, since, change)?,
                None => answered.all,
            };
            moments.push(Moment {
                lasts,
                answered: answered.all,
                state: message.leaves,
            })?;
            since = answered;
        }
    }
    Ok(moments)
}

// The last state that no stop undoes after so many calls.
fn kept_after(moments: &[Moment], calls: u64) -> usize {
    let mut state = 0;
    for moment in moments {
        if moment.lasts <= calls {
            state = moment.state;
        }
    }
    state
}

// The last state that the messages leave which were begun after so many calls: that of the next one that no stop undoes, or of all.
fn begun_after(moments: &[Moment], calls: u64, messages: &[Message]) -> usize {
    for moment in moments {
        if calls < moment.answered {
            return moment.state;
        }
    }
    last_state(messages)
}

// The folder that messages leave if it is stopped at a call.
fn serve_stopped<R: Alloc + Files + Threads + Wait + Sync>(
    rt: &R,
    alloc: Global,
    parts: &str,
    messages: &[Message],
    call: u64,
    breaks: bool,
) -> Result<MemFolder, RowErr> {
    let folder = failing_from(
        alloc,
        bare_vault(rt, alloc, parts)?,
        call,
        MOST_CALLS,
        breaks,
    )?;
    Ok(serve(rt, alloc, messages, folder, Asking::Once)?.folder)
}

// Looks at each image of a folder that was stopped at a call.
fn look_at_images<R: Threads + Wait + Sync>(
    rt: &R,
    alloc: Global,
    folder: &MemFolder,
    looks: &Looks,
    kept: Kept,
    tally: &mut Tally,
) -> Result<(), RowErr> {
    for image in folder.images(MOST_IMAGES)? {
        let outcome = looks.check(rt, alloc, image, kept.least, kept.most);
        tally.add("a stop", "call", kept.call, outcome)?;
    }
    Ok(())
}

/// The first call of the folder of a run, and how many it has had in the end.
pub(crate) fn calls_of<R: Alloc + Files + Threads + Wait + Sync>(
    rt: &R,
    alloc: Global,
    parts: &str,
    messages: &[Message],
) -> Result<(u64, u64), RowErr> {
    let first = bare_vault(rt, alloc, parts)?.call_count();
    let end = calls_before(rt, alloc, parts, messages)?.all;
    Ok((first, end))
}

// Stops a run at a call.
fn look_at_stop<R: Alloc + Files + Threads + Wait + Sync>(
    rt: &R,
    alloc: Global,
    parts: &str,
    messages: &[Message],
    looks: &Looks,
    kept: Kept,
    tally: &mut Tally,
) -> Result<(), RowErr> {
    for breaks in [false, true] {
        let folder = serve_stopped(rt, alloc, parts, messages, kept.call, breaks)?;
        look_at_images(rt, alloc, &folder, looks, kept, tally)?;
    }
    Ok(())
}

/// Stops a run at each call of the folder, and after the last: each image has the state that no stop undoes at that moment, or a later one, up
/// to that of the next message that no stop undoes.
pub(crate) fn look_at_stops<R: Alloc + Files + Threads + Wait + Sync>(
    rt: &R,
    alloc: Global,
    parts: &str,
    messages: &[Message],
    looks: &Looks,
    tally: &mut Tally,
) -> Result<(), RowErr> {
    let (first, end) = calls_of(rt, alloc, parts, messages)?;
    let moments = moments_of(rt, alloc, parts, messages)?;
    for call in first..=end {
        let kept = Kept {
            call,
            least: kept_after(&moments, call),
            most: begun_after(&moments, call, messages),
        };
        look_at_stop(rt, alloc, parts, messages, looks, kept, tally)?;
    }
    Ok(())
}
