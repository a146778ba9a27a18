// Each read and each write of a link failing once.

use crate::look::{Looks, row_of};
use crate::orders::{bare_vault, last_state};
use crate::plan::{Client, Row};
use crate::replies::given_back;
use crate::row::RowErr;
use crate::running::{Pieces, Ran, run_row};
use crate::table::Message;
use crate::tally::Tally;
use outside_mem::{MemFolder, MemLink};
use std::alloc::{AllocError, Global};
use std::rt::Files;
use std::sync::Wait;
use std::thread::Threads;

// Pieces by which a long message is read in some, and each reply written so.
const PIECES: Pieces = Pieces {
    read: 8192,
    write: 4,
};

// More reads or writes than a link has in a run.
const MOST_CALLS: u64 = 4096;

/// What fails of a link.
#[derive(Clone, Copy, Debug, PartialEq, Eq)]
pub(crate) enum Side {
    Read,
    Write,
}

// How a session ended.
#[derive(Clone, Copy, Debug, PartialEq, Eq)]
enum End {
    Done,
    Failed(Side),
}

impl End {
    // How the session over a link ended, by the link's counts.
    fn of(link: &MemLink) -> End {
        if link.source().fault_count() > 0 {
            End::Failed(Side::Read)
        } else if link.sink().fault_count() > 0 {
            End::Failed(Side::Write)
        } else {
            End::Done
        }
    }

    // The report if one session ended so.
    fn report(self) -> &'static str {
        match self {
            End::Done => {
                "serving\nsessions 1 done 1 cut 0 bad 0 read 0 write 0 memory 0 limit 0\n"
            }
            End::Failed(Side::Read) => {
                "serving\nsessions 1 done 0 cut 0 bad 0 read 1 write 0 memory 0 limit 0\n"
            }
            End::Failed(Side::Write) => {
                "serving\nsessions 1 done 0 cut 0 bad 0 read 0 write 1 memory 0 limit 0\n"
            }
        }
    }
}

impl Side {
    fn word(self) -> &'static str {
        match self {
            Side::Read => "read",
            Side::Write => "write",
        }
    }

    // Lets this call of a client's link fail.
    fn fail(self, alloc: Global, client: &mut Client, call: u64) -> Result<(), AllocError> {
        let failing = vec![in alloc; call]?;
        match self {
            Side::Read => client.failing_reads = failing,
            Side::Write => client.failing_writes = failing,
        }
        Ok(())
    }
}

// A row whose client sends messages, and of whose link a call fails.
fn failing_row(
    alloc: Global,
    messages: &[Message],
    side: Side,
    call: u64,
) -> Result<Row<'static>, RowErr> {
    let mut sends = Vec::new(alloc);
    for message in messages {
        sends.extend_from_slice(&message.sends)?;
    }
    let mut row = row_of(alloc, &sends)?;
    let crew = row.crews.last_mut().ok_or(RowErr::Line)?;
    let client = crew.clients.last_mut().ok_or(RowErr::Line)?;
    side.fail(alloc, client, call)?;
    Ok(row)
}

// The link of a run.
fn link_of(alloc: Global, ran: &mut Ran) -> Result<MemLink, RowErr> {
    let worker = ran.workers.last_mut().ok_or(RowErr::Differs("workers"))?;
    let mut links = given_back(alloc, &mut worker.listener)?;
    links.pop().ok_or(RowErr::Differs("link"))
}

// How many of the messages were read whole.
fn count_read(messages: &[Message], link: &MemLink) -> usize {
    // What is left of the messages, from the last on.
    let mut left = link.source().left().len();
    let mut count = messages.len();
    for message in messages.iter().rev() {
        if left == 0 {
            break;
        }
        left = left.saturating_sub(message.sends.len());
        count = count.saturating_sub(1);
    }
    count
}

// Whether the replies to messages were sent, and nothing else; if a write failed, not all of the last one.
fn are_sent(
    alloc: Global,
    messages: &[Message],
    sent: &[u8],
    end: End,
) -> Result<bool, AllocError> {
    let mut replies = Vec::new(alloc);
    let mut last = 0usize;
    for message in messages {
        last = replies.len();
        replies.extend_from_slice(&message.is_sent)?;
    }
    Ok(if end == End::Failed(Side::Write) {
        replies.starts_with(sent) && last <= sent.len() && sent.len() < replies.len()
    } else {
        replies.as_slice() == sent
    })
}

// What the messages that were read whole leave, and whether a call failed.
#[derive(Clone, Copy, Debug, PartialEq, Eq)]
struct Judged {
    state: usize,
    end: End,
}

// The messages that were read whole, if what was sent are the replies to them.
fn read_of<'a>(
    alloc: Global,
    messages: &'a [Message],
    link: &MemLink,
) -> Result<&'a [Message], RowErr> {
    let read = messages
        .get(..count_read(messages, link))
        .ok_or(RowErr::Line)?;
    if !are_sent(alloc, read, link.sink().taken(), End::of(link))? {
        return Err(RowErr::Differs("replies"));
    }
    Ok(read)
}

// Compares a run's report and replies with the messages that were read whole.
fn judge(alloc: Global, messages: &[Message], ran: &mut Ran) -> Result<Judged, RowErr> {
    let link = link_of(alloc, ran)?;
    let judged = Judged {
        state: last_state(read_of(alloc, messages, &link)?),
        end: End::of(&link),
    };
    if ran.status != 0 || ran.report.taken() != judged.end.report().as_bytes() {
        return Err(RowErr::Differs("report"));
    }
    Ok(judged)
}

// What a run of messages leaves.
#[derive(Drop)]
struct Left {
    folder: MemFolder,
    judged: Judged,
}

// Compares a run with the messages that were read whole, and takes out its folder.
fn left_of(alloc: Global, messages: &[Message], ran: &mut Ran) -> Result<Left, RowErr> {
    let judged = judge(alloc, messages, ran)?;
    let folder = ran.take_folder()?;
    Ok(Left { folder, judged })
}

// Runs messages with a call of the link failing.
fn run_failing<R: Alloc + Files + Threads + Wait + Sync>(
    rt: &R,
    alloc: Global,
    parts: &str,
    messages: &[Message],
    side: Side,
    call: u64,
) -> Result<Left, RowErr> {
    let row = failing_row(alloc, messages, side, call)?;
    let folder = bare_vault(rt, alloc, parts)?;
    let mut ran = run_row(rt, alloc, &row, folder, PIECES)?;
    left_of(alloc, messages, &mut ran)
}

// Runs messages with a call of the link failing, and looks at the vault: it has the state that the messages leave which were read whole. Gives
// whether there was such a call.
fn check_call<R: Alloc + Files + Threads + Wait + Sync>(
    rt: &R,
    alloc: Global,
    parts: &str,
    messages: &[Message],
    looks: &Looks,
    side: Side,
    call: u64,
) -> Result<bool, RowErr> {
    let Left { folder, judged } = run_failing(rt, alloc, parts, messages, side, call)?;
    looks.check(rt, alloc, folder, judged.state, judged.state)?;
    Ok(judged.end == End::Failed(side))
}

/// Runs messages with each read or each write of the link failing.
pub(crate) fn look_at_calls<R: Alloc + Files + Threads + Wait + Sync>(
    rt: &R,
    alloc: Global,
    parts: &str,
    messages: &[Message],
    looks: &Looks,
    side: Side,
    tally: &mut Tally,
) -> Result<(), RowErr> {
    for call in 0..MOST_CALLS {
        let outcome = check_call(rt, alloc, parts, messages, looks, side, call);
        if let Ok(false) = outcome {
            break;
        }
        tally.add("a link", side.word(), call, outcome.map(|_| ()))?;
    }
    Ok(())
}
