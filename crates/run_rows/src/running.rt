// A run of the whole program over memory.

use crate::listening::RunListener;
use crate::plan::{Client, Crew, Row};
use crate::row::RowErr;
use outside_mem::{
    MemFolder, MemLink, MemListener, MemSink, MemSource, OpenGate, SeedEntropy, SetClock,
};
use std::alloc::{AllocError, Global};
use std::sync::Wait;
use std::sync::atomic::AtomicBool;
use std::thread::Threads;
use vault_top::{Ended, Worker, run};

/// The second that the clocks are at.
pub(crate) const SECOND: u32 = 100;

// The seed of each worker's random source: RFC 8439's first example of ChaCha20's stream has this key.
const SEED: [u8; 32] = [0; 32];

/// The most bytes that a stream or a link gives at a read, and takes at a write.
#[derive(Clone, Copy, Debug, PartialEq, Eq)]
pub(crate) struct Pieces {
    pub read: usize,
    pub write: usize,
}

impl Pieces {
    /// As many as there is room for.
    pub(crate) const WHOLE: Pieces = Pieces {
        read: usize::MAX,
        write: usize::MAX,
    };

    /// One byte at a time.
    pub(crate) const BYTES: Pieces = Pieces { read: 1, write: 1 };
}

/// What is left after a run.
#[derive(Drop)]
pub(crate) struct Ran {
    pub status: u8,
    pub folder: Option<MemFolder>,
    pub secret: MemSource,
    pub report: MemSink,
    pub workers: Vec<Worker<RunListener<'static>, SeedEntropy, SetClock>>,
}

impl Ran {
    /// Takes out the folder that is left.
    pub(crate) fn take_folder(&mut self) -> Result<MemFolder, RowErr> {
        self.folder.take().ok_or(RowErr::Differs("folder"))
    }
}

fn source(
    alloc: Global,
    bytes: &[u8],
    failing: &[u64],
    piece: usize,
) -> Result<MemSource, AllocError> {
    let bytes = Vec::from_slice(alloc, bytes)?;
    Ok(
        MemSource::new(alloc, bytes)
            .in_pieces(piece)
            .failing_at(Vec::from_slice(alloc, failing)?),
    )
}

fn sink(alloc: Global, failing: &[u64], piece: usize) -> Result<MemSink, AllocError> {
    Ok(
        MemSink::new(alloc)
            .in_pieces(piece)
            .failing_at(Vec::from_slice(alloc, failing)?),
    )
}

fn link(alloc: Global, client: &Client, pieces: Pieces) -> Result<MemLink, AllocError> {
    let source = source(alloc, &client.sends, &client.failing_reads, pieces.read)?;
    let sink = sink(alloc, &client.failing_writes, pieces.write)?;
    MemLink::new(alloc, source, sink)
}

// A worker for a crew of clients, whose random source has these calls failing.
fn worker(
    alloc: Global,
    crew: &Crew,
    failing: &[u64],
    pieces: Pieces,
) -> Result<Worker<RunListener<'static>, SeedEntropy, SetClock>, AllocError> {
    let mut links = Vec::new(alloc);
    for client in &crew.clients {
        links.push(link(alloc, client, pieces)?)?;
    }
    let listener = MemListener::new(alloc, links).failing_at(Vec::from_slice(
        alloc,
        &crew.failing,
    )?);
    let entropy = SeedEntropy::from_seed(alloc, SEED).failing_at(Vec::from_slice(alloc, failing)?);
    Ok(Worker {
        listener: RunListener::listed(listener),
        entropy,
        clock: SetClock::new(SECOND),
    })
}

// The workers of a row; if it names none there is one, whose listener has no link.
fn workers(
    alloc: Global,
    row: &Row<'_>,
    pieces: Pieces,
) -> Result<Vec<Worker<RunListener<'static>, SeedEntropy, SetClock>>, AllocError> {
    let mut workers = Vec::new(alloc);
    if row.crews.is_empty() {
        workers.push(worker(alloc, &Crew::new(alloc), &row.failing.random, pieces)?)?;
    }
    for crew in &row.crews {
        workers.push(worker(alloc, crew, &row.failing.random, pieces)?)?;
    }
    Ok(workers)
}

// Words with a space between each two.
fn words_of(alloc: Global, line: &str) -> Result<Vec<String>, AllocError> {
    let mut words = Vec::new(alloc);
    if !line.is_empty() {
        for word in line.split(' ') {
            words.push(String::from_str(alloc, word)?)?;
        }
    }
    Ok(words)
}

/// Does the job that words ask for over a folder.
pub(crate) fn run_words<R: Threads + Wait + Sync>(
    rt: &R,
    alloc: Global,
    words: &str,
    folder: MemFolder,
    workers: &mut Vec<Worker<RunListener<'_>, SeedEntropy, SetClock>>,
    secret: &mut MemSource,
    report: &mut MemSink,
) -> Result<Ended<MemFolder>, RowErr> {
    if workers.is_empty() || workers.len() > 64 {
        return Err(RowErr::Line);
    }
    let words = words_of(alloc, words)?;
    Ok(run(
        rt,
        alloc,
        &words,
        folder,
        workers,
        secret,
        report,
        &mut SetClock::new(SECOND),
        &OpenGate,
        &AtomicBool::new(false),
    ))
}

/// Runs a row's job over a folder; streams and links give and take at most pieces of so many bytes at once.
pub(crate) fn run_row<R: Threads + Wait + Sync>(
    rt: &R,
    alloc: Global,
    row: &Row<'_>,
    folder: MemFolder,
    pieces: Pieces,
) -> Result<Ran, RowErr> {
    let mut secret = source(alloc, &row.secret, &row.failing.secret, pieces.read)?;
    let mut report = sink(alloc, &row.failing.report, pieces.write)?;
    let mut workers = workers(alloc, row, pieces)?;
    let ended = run_words(
        rt,
        alloc,
        row.words,
        folder,
        &mut workers,
        &mut secret,
        &mut report,
    )?;
    Ok(Ran {
        status: ended.status,
        folder: ended.folder,
        secret,
        report,
        workers,
    })
}
