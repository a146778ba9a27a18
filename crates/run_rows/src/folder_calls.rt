// Each call of the folder failing once.

use crate::failing::failing_from;
use crate::link::Asking;
use crate::look::Looks;
use crate::orders::{bare_vault, last_state};
use crate::row::RowErr;
use crate::serving::{Ending, Served, serve};
use crate::stops::calls_of;
use crate::table::{Message, is_error, is_refused};
use crate::tally::Tally;
use std::alloc::Global;
use std::rt::Files;
use std::sync::Wait;
use std::thread::Threads;

// How far a client got, by its replies.
#[derive(Clone, Copy, Debug, PartialEq, Eq)]
struct Course {
    // How often it was told that something failed.
    faults: u64,
    // How many messages no stop undoes, how many were done, and how many the disk may have the outcome of.
    kept: usize,
    done: usize,
    begun: usize,
    // Whether the message after those that were done has failed for good: the ones after that change nothing.
    failed: bool,
    // Whether the vault goes on no more.
    stopped: bool,
}

// The first of the replies that were sent, and what follows it.
fn first_reply(sent: &[u8]) -> Option<(&[u8], &[u8])> {
    let size = u32::from_le_bytes(*sent.first_chunk::<4>()?) as usize;
    Some((sent.get(..size)?, sent.get(size..)?))
}

fn rest_if(is_told: bool, rest: &[u8]) -> Option<&[u8]> {
    if is_told { Some(rest) } else { None }
}

impl Course {
    const BEGINNING: Course = Course {
        faults: 0,
        kept: 0,
        done: 0,
        begun: 0,
        failed: false,
        stopped: false,
    };

    // A message was done.
    fn add(&mut self, message: &Message) {
        if self.failed {
            return;
        }
        self.done = self.done.saturating_add(1);
        self.begun = self.done;
        if message.stable {
            self.kept = self.done;
        }
    }

    // The vault stopped at the message after those that were done.
    fn stop(&mut self) {
        self.stopped = true;
        self.begun = self.done.saturating_add(1);
    }

    // A message's reply after a stop: nothing is done any more.
    fn is_told_behind_stop(message: &Message, reply: &[u8]) -> bool {
        if message.is_clunk() {
            reply == message.is_sent.as_slice()
        } else {
            is_error(reply)
        }
    }

    // A message's reply after a call that failed, in it or in one that isn't sent again.
    fn take_behind_fault(&mut self, message: &Message, reply: &[u8]) -> bool {
        if is_refused(reply, "stopped") {
            self.stop();
            return true;
        }
        self.take(message, reply)
    }

    fn take(&mut self, message: &Message, reply: &[u8]) -> bool {
        self.add(message);
        reply == message.is_sent.as_slice()
    }

    // Goes on with a message, whose replies are the first that were sent; returns what was sent after them.
    fn follow<'a>(&mut self, message: &Message, sent: &'a [u8]) -> Option<&'a [u8]> {
        let (reply, rest) = first_reply(sent)?;
        if self.stopped {
            return rest_if(Course::is_told_behind_stop(message, reply), rest);
        }
        if !is_refused(reply, "device fault") {
            let is_told = if self.failed {
                self.take_behind_fault(message, reply)
            } else {
                self.take(message, reply)
            };
            return rest_if(is_told, rest);
        }
        self.faults = self.faults.saturating_add(1);
        if message.frees_fid() {
            self.failed = true;
            return Some(rest);
        }
        let (again, rest) = first_reply(rest)?;
        rest_if(self.take_behind_fault(message, again), rest)
    }

    // How far the client of messages got that was sent this.
    fn of(messages: &[Message], sent: &[u8]) -> Option<Course> {
        let mut course = Course::BEGINNING;
        let mut rest = sent;
        for message in messages {
            rest = course.follow(message, rest)?;
        }
        if rest.is_empty() { Some(course) } else { None }
    }

    // How many messages the vault has at least the outcome of, if one call of the folder failed and the program ended so.
    fn least(self, ending: Ending) -> Option<usize> {
        match ending {
            Ending::Done if self.faults == 1 && !self.stopped => Some(self.done),
            // the call failed in a message's commit, or in that of what waited as the vault was closed
            Ending::Broken if self.faults == u64::from(self.stopped) => Some(self.kept),
            _ => None,
        }
    }

    // Whether a vault has the outcome of so many of the messages at least, and of those at most that it may have.
    fn leaves(self, messages: &[Message], least: usize, state: usize) -> bool {
        for count in least..=self.begun {
            if last_state(messages.get(..count).unwrap_or(messages)) == state {
                return true;
            }
        }
        false
    }
}

// Compares what messages came to with one call of the folder failing: how the program ended, what their client was sent, and the state of the
// vault.
fn compare(
    messages: &[Message],
    ending: Ending,
    sent: &[u8],
    state: Option<usize>,
) -> Result<(), RowErr> {
    let state = state.ok_or(RowErr::Differs("vault that is left"))?;
    let (course, least) = if ending == Ending::Unopened && sent.is_empty() {
        (Course::BEGINNING, 0)
    } else {
        let course = Course::of(messages, sent).ok_or(RowErr::Differs("replies"))?;
        let least = course.least(ending).ok_or(RowErr::Differs("report"))?;
        (course, least)
    };
    if course.leaves(messages, least, state) {
        Ok(())
    } else {
        Err(RowErr::Differs("vault that is left"))
    }
}

// Serves messages with a call of the folder failing, and looks at the vault.
fn check_call<R: Alloc + Files + Threads + Wait + Sync>(
    rt: &R,
    alloc: Global,
    parts: &str,
    messages: &[Message],
    looks: &Looks,
    call: u64,
    breaks: bool,
) -> Result<(), RowErr> {
    let folder = failing_from(alloc, bare_vault(rt, alloc, parts)?, call, 1, breaks)?;
    let Served {
        ending,
        folder,
        sent,
    } = serve(rt, alloc, messages, folder, Asking::Again)?;
    if folder.fault_count() != 1 {
        return Err(RowErr::Differs("number of calls"));
    }
    let state = looks.state_in(rt, alloc, folder.failing_at(Vec::new(alloc)))?;
    let sent = sent.first().ok_or(RowErr::Differs("workers"))?;
    compare(messages, ending, sent, state)
}

/// Serves messages with each call of the folder failing, once before it does anything and once after a part of it. The client sends a message once more if it
/// is told so.
pub(crate) fn look_at_folder_calls<R: Alloc + Files + Threads + Wait + Sync>(
    rt: &R,
    alloc: Global,
    parts: &str,
    messages: &[Message],
    looks: &Looks,
    tally: &mut Tally,
) -> Result<(), RowErr> {
    let (first, end) = calls_of(rt, alloc, parts, messages)?;
    for call in first..end {
        for breaks in [false, true] {
            let outcome = check_call(rt, alloc, parts, messages, looks, call, breaks);
            tally.add("a folder", "call", call, outcome)?;
        }
    }
    Ok(())
}
