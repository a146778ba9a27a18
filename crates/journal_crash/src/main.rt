//! Commits numbered batches to the journal of a folder on disk, until it has done so often or is killed, and shows the newest
//! number that the folder has. `bench/crash` kills it at random moments and looks that nothing is lost; `bench/commit` counts its
//! system calls.
//!
//! ```text
//! journal_crash run FOLDER COUNT   # a line with each number once its commit was acknowledged
//! journal_crash show FOLDER        # a line with the newest number, after recovery
//! journal_crash put FOLDER COUNT   # so many commits, each of which puts one file of 100 bytes and nothing else
//! ```
#![tactic(auto)]

ghost use Rattle.std.specs.Prelude.{IfOk};
ghost use Rattle.deeds.specs.Grammar.{IsBatch};
ghost use Rattle.deeds.specs.Plain.{plains};

use chunk_journal::{Device, Journal, JournalErr};
use deeds::{BatchErr, Deed, is_repeatable, read_batch};
use host_folder::HostFolder;
use outside::{FolderErr, Kind, Reads};
use outside_real::StdCalls;
use std::alloc::{AllocError, Global};
use std::rt::Files;
use std::{env, io};
use thiserror::Error;
use vault_path::VaultPath;

// How many bytes each batch puts.
const PUT_LEN: usize = 100;

// A batch up to the number: three deeds, the first of which puts the file `a`.
const HEAD: [u8; 12] = [0, 0, 0, 3, 2, 1, 1, b'a', 0, 0, 0, 100];

// Puts the file `b` after it.
const SECOND: [u8; 8] = [2, 1, 1, b'b', 0, 0, 0, 100];

// Moves `c` to `d`, or back: every other batch each.
const MOVES: [[u8; 7]; 2] = [[3, 1, 1, b'c', 1, 1, b'd'], [3, 1, 1, b'd', 1, 1, b'c']];

// Makes the first file `c`: the number 0.
const FIRST: [u8; 12] = [0, 0, 0, 1, 2, 1, 1, b'c', 0, 0, 0, 0];

// A batch up to the bytes that it puts into the file `e`, which is all that it does.
const ALONE: [u8; 12] = [0, 0, 0, 1, 2, 1, 1, b'e', 0, 0, 0, 100];

// Why it ends with status 1.
#[derive(Debug, Drop, Error)]
enum CrashErr {
    #[error("the words are: run FOLDER COUNT, put FOLDER COUNT, or show FOLDER")]
    Words,
    #[error("{0}")]
    Io(#[from] io::Error),
    #[error("out of memory")]
    Alloc(#[from] AllocError),
    #[error("{0}")]
    Folder(#[from] FolderErr),
    #[error("{0}")]
    Device(#[from] Device),
    #[error("{0}")]
    Journal(#[from] JournalErr),
    #[error("{0}")]
    Batch(#[from] BatchErr),
    #[error("a path is bad")]
    Path,
    #[error("the folder has parts of two batches")]
    Mixed,
}

// The bytes that a batch puts: its number, and zeros.
fn bytes_of(number: u64) -> [u8; PUT_LEN] {
    let mut bytes = [0; PUT_LEN];
    bytes[..8].copy_from_slice(&number.to_be_bytes());
    bytes
}

// The batch of a number.
fn batch_of(alloc: Global, number: u64) -> Result<Vec<Deed>, CrashErr>
    ensures { IfOk result (λ deeds. IsBatch (plains deeds.items)) }
{
    let bytes = bytes_of(number);
    let mut text = Vec::new(alloc);
    text.extend_from_slice(&HEAD)?;
    text.extend_from_slice(&bytes)?;
    text.extend_from_slice(&SECOND)?;
    text.extend_from_slice(&bytes)?;
    let moves = if number % 2 == 1 {
        &MOVES[0]
    } else {
        &MOVES[1]
    };
    text.extend_from_slice(moves)?;
    let deeds = read_batch(alloc, &text)?;
    Ok(deeds)
}

// The batch of a number that puts one file alone.
fn put_of(alloc: Global, number: u64) -> Result<Vec<Deed>, CrashErr>
    ensures { IfOk result (λ deeds. IsBatch (plains deeds.items)) }
{
    let mut text = Vec::new(alloc);
    text.extend_from_slice(&ALONE)?;
    text.extend_from_slice(&bytes_of(number))?;
    let deeds = read_batch(alloc, &text)?;
    Ok(deeds)
}

// The number that a file has, or 0 if it isn't there.
fn number_in<D: Reads>(folder: &mut D, path: &VaultPath) -> Result<u64, CrashErr> {
    let mut bytes = [0; 8];
    match folder.kind(path)? {
        Some(Kind::File(_)) => {
            let _count = folder.read(path, 0, &mut bytes)?;
        }
        _ => {}
    }
    Ok(u64::from_be_bytes(bytes))
}

fn name(text: &[u8]) -> Result<VaultPath, CrashErr> {
    VaultPath::root().join(text).map_err(|_| CrashErr::Path)
}

// The number that the folder has, all parts of which have to be of one batch.
fn newest<D: Reads>(folder: &mut D) -> Result<u64, CrashErr> {
    let number = number_in(folder, &name(b"a")?)?;
    let other = number_in(folder, &name(b"b")?)?;
    let at_first = folder.kind(&name(b"c")?)?.is_some();
    let moved = folder.kind(&name(b"d")?)?.is_some();
    let is_odd = number % 2 == 1;
    if number != other || moved != is_odd || (at_first == moved && number > 0) {
        return Err(CrashErr::Mixed);
    }
    Ok(number)
}

// The journal of the folder on disk.
fn opened<'a>(
    rt: &'a HostRuntime,
    place: &str,
) -> Result<Journal<HostFolder<StdCalls<&'a HostRuntime, &'a HostRuntime>>>, CrashErr> {
    let folder = HostFolder::untold(StdCalls::new(rt, rt), rt.alloc(), place)?;
    match Journal::open(rt.alloc(), folder) {
        Ok(journal) => Ok(journal),
        Err(refused) => Err(CrashErr::Journal(refused.cause)),
    }
}

// Commits a batch that names no path twice.
fn commit<'a>(
    journal: &mut Journal<HostFolder<StdCalls<&'a HostRuntime, &'a HostRuntime>>>,
    deeds: &[Deed],
) -> Result<(), CrashErr>
    requires { IsBatch (plains deeds.now) }
{
    if !is_repeatable(deeds) {
        return Err(CrashErr::Path);
    }
    journal.commit(deeds)?;
    Ok(())
}

// Commits so many batches more, and says so of each.
fn run(rt: &HostRuntime, place: &str, count: u64) -> Result<(), CrashErr> {
    let mut journal = opened(rt, place)?;
    let mut number = newest(&mut journal)?;
    if number == 0 {
        commit(&mut journal, &read_batch(rt.alloc(), &FIRST)?)?;
    }
    for _ in 0..count {
        number = number.saturating_add(1);
        commit(&mut journal, &batch_of(rt.alloc(), number)?)?;
        println!(rt; "{number}")?;
    }
    Ok(())
}

// Commits so many batches, each of which puts one file, with numbers that go on from the one that it has.
fn put(rt: &HostRuntime, place: &str, count: u64) -> Result<(), CrashErr> {
    let mut journal = opened(rt, place)?;
    let first = number_in(&mut journal, &name(b"e")?)?;
    for step in 1..=count {
        let number = first.wrapping_add(step);
        commit(&mut journal, &put_of(rt.alloc(), number)?)?;
    }
    Ok(())
}

fn main(rt: HostRuntime) -> Result<(), CrashErr> {
    let mut words = env::args(&rt)?.skip(1);
    let word = words.next().ok_or(CrashErr::Words)?;
    let place = words.next().ok_or(CrashErr::Words)?;
    if word.as_str() == "show" {
        let mut journal = opened(&rt, place.as_str())?;
        let number = newest(&mut journal)?;
        println!(&rt; "{number}")?;
        return Ok(());
    }
    let count = words.next().ok_or(CrashErr::Words)?;
    let count = count.as_str().parse::<u64>().map_err(|_| CrashErr::Words)?;
    if word.as_str() == "put" {
        return put(&rt, place.as_str(), count);
    }
    run(&rt, place.as_str(), count)
}
