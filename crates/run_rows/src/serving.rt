// Serving two clients whose messages come in one order.

use crate::link::{Asking, OrderedLink};
use crate::listening::RunListener;
use crate::look::zero_keys;
use crate::row::RowErr;
use crate::running::{SECOND, run_words};
use crate::table::{Message, replies_to};
use outside_mem::{MemFolder, MemSink, MemSource, SeedEntropy, SetClock};
use std::alloc::{AllocError, Global};
use std::sync::Wait;
use std::sync::atomic::AtomicU64;
use std::thread::Threads;
use vault_top::Worker;

/// How many clients there are.
pub(crate) const CLIENTS: usize = 2;

const WORDS: &str = "serve v --listen 127.0.0.1:564 --sessions 2 --at-once 2 --raw-key";

/// How the program ended.
#[derive(Clone, Copy, Debug, PartialEq, Eq)]
pub(crate) enum Ending {
    /// Both sessions are done.
    Done,
    /// The folder failed before a session was served.
    Unopened,
    /// The folder failed in a commit.
    Broken,
    Other,
}

/// What is left after messages were served.
#[derive(Drop)]
pub(crate) struct Served {
    pub ending: Ending,
    pub folder: MemFolder,
    /// What each client was sent; nothing if its link wasn't given back.
    pub sent: Vec<Vec<u8>>,
}

// A worker for each client.
fn workers_of<'a>(
    alloc: Global,
    messages: &'a [Message],
    answered: &'a AtomicU64,
    asking: Asking,
) -> Result<Vec<Worker<RunListener<'a>, SeedEntropy, SetClock>>, AllocError> {
    let mut workers = Vec::new(alloc);
    for client in 0..CLIENTS {
        let link = OrderedLink::new(alloc, messages, answered, client, asking);
        workers.push(Worker {
            listener: RunListener::ordered(link),
            entropy: SeedEntropy::from_seed(alloc, [client as u8; 32]),
            clock: SetClock::new(SECOND),
        })?;
    }
    Ok(workers)
}

// What each client was sent.
fn sent_by(
    alloc: Global,
    workers: &[Worker<RunListener<'_>, SeedEntropy, SetClock>],
) -> Result<Vec<Vec<u8>>, AllocError> {
    let mut sent = Vec::new(alloc);
    for worker in workers {
        sent.push(Vec::from_slice(alloc, worker.listener.taken().unwrap_or(&[]))?)?;
    }
    Ok(sent)
}

impl Served {
    /// Whether each client was sent the replies to its messages, and nothing else.
    pub(crate) fn is_as_told(
        &self,
        alloc: Global,
        messages: &[Message],
    ) -> Result<bool, AllocError> {
        for (client, sent) in self.sent.iter().enumerate() {
            let replies = replies_to(alloc, messages, client)?;
            if sent.as_slice() != replies.as_slice() {
                return Ok(false);
            }
        }
        Ok(true)
    }
}

// How the program ended, by its status and its report.
fn ending_of(status: u8, report: &[u8]) -> Ending {
    if status == 0
        && report
            == b"serving\nsessions 2 done 2 cut 0 bad 0 read 0 write 0 memory 0 limit 0\n".as_slice()
    {
        Ending::Done
    } else if status == 4 && report == b"serving\ndevice fault: folder\n".as_slice() {
        Ending::Broken
    } else if status == 4 && report == b"device fault: folder\n".as_slice() {
        Ending::Unopened
    } else {
        Ending::Other
    }
}

// Runs the program over workers, and returns the folder and how it ended.
fn run_workers<R: Threads + Wait + Sync>(
    rt: &R,
    alloc: Global,
    folder: MemFolder,
    workers: &mut Vec<Worker<RunListener<'_>, SeedEntropy, SetClock>>,
) -> Result<(MemFolder, Ending), RowErr> {
    let mut secret = MemSource::new(alloc, zero_keys(alloc)?);
    let mut report = MemSink::new(alloc);
    let ended = run_words(rt, alloc, WORDS, folder, workers, &mut secret, &mut report)?;
    let folder = ended.folder.ok_or(RowErr::Differs("folder"))?;
    Ok((folder, ending_of(ended.status, report.taken())))
}

// Serves workers' links to their end.
fn served_by<R: Threads + Wait + Sync>(
    rt: &R,
    alloc: Global,
    folder: MemFolder,
    workers: &mut Vec<Worker<RunListener<'_>, SeedEntropy, SetClock>>,
) -> Result<Served, RowErr> {
    let (folder, ending) = run_workers(rt, alloc, folder, workers)?;
    Ok(Served {
        ending,
        folder,
        sent: sent_by(alloc, workers)?,
    })
}

/// Serves the clients' messages over the vault in a folder.
pub(crate) fn serve<R: Threads + Wait + Sync>(
    rt: &R,
    alloc: Global,
    messages: &[Message],
    folder: MemFolder,
    asking: Asking,
) -> Result<Served, RowErr> {
    let answered = AtomicU64::new(0);
    let mut workers = workers_of(alloc, messages, &answered, asking)?;
    served_by(rt, alloc, folder, &mut workers)
}
