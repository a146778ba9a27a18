// A run that commits batches, and what its folder then holds.

ghost use Rattle.deeds.specs.Grammar.{IsBatch};
ghost use Rattle.deeds.specs.Plain.{plains};

use crate::row::{RowErr, at};
use chunk_journal::Journal;
use deeds::{Deed, is_repeatable, read_batch};
use outside::{Kind, Reads};
use outside_mem::MemFolder;
use std::alloc::Global;
use untold_folder::Untelling;
use vault_path::VaultPath;

/// A folder after a run, and how many commits were acknowledged.
#[derive(Drop)]
pub(crate) struct Run {
    pub(crate) folder: MemFolder,
    pub(crate) done: usize,
}

// Commits a batch: whether it was acknowledged.
fn commits(journal: &mut Journal<Untelling<MemFolder>>, deeds: &[Deed]) -> Result<bool, RowErr>
    requires { IsBatch (plains deeds.now) }
{
    if !is_repeatable(deeds) {
        return Err(RowErr::Unrepeatable);
    }
    Ok(journal.commit(deeds).is_ok())
}

/// Opens the journal of a folder and commits the batches, up to the first that isn't acknowledged.
pub(crate) fn commit_all(
    alloc: Global,
    folder: MemFolder,
    batches: &[Vec<u8>],
) -> Result<Run, RowErr> {
    let mut journal = match Journal::open(alloc, Untelling::over(folder)) {
        Ok(journal) => journal,
        Err(refused) => {
            return Ok(Run {
                folder: refused.folder.folder,
                done: 0,
            });
        }
    };
    let mut done = 0usize;
    for bytes in batches {
        if !commits(&mut journal, &read_batch(alloc, bytes)?)? {
            break;
        }
        done = done.saturating_add(1);
    }
    Ok(Run {
        folder: journal.into_folder().folder,
        done,
    })
}

/// Puts what is at a path after what is held: `-` for nothing, `dir` for a folder, or the first 16 bytes of a file.
pub(crate) fn put_thing<D: Reads>(
    alloc: Global,
    folder: &mut D,
    path: &VaultPath,
    held: &mut String,
) -> Result<(), RowErr> {
    match folder.kind(path)? {
        None => held.push_str("-")?,
        Some(Kind::Dir) => held.push_str("dir")?,
        Some(Kind::File(_)) => {
            let mut bytes = [0; 16];
            let count = folder.read(path, 0, &mut bytes)?.min(16);
            held.push_str(hex::encode(alloc, &bytes[..count])?.as_str())?;
        }
    }
    held.push_str(" ")?;
    Ok(())
}

/// What a folder holds at `a`, `b`, `c`, `d`, `d/x` and `e`, each with a space after it.
pub(crate) fn held<D: Reads>(alloc: Global, folder: &mut D) -> Result<String, RowErr> {
    let mut held = String::new(alloc);
    put_thing(alloc, folder, &at(b"a")?, &mut held)?;
    put_thing(alloc, folder, &at(b"b")?, &mut held)?;
    put_thing(alloc, folder, &at(b"c")?, &mut held)?;
    let inner = at(b"d")?;
    put_thing(alloc, folder, &inner, &mut held)?;
    put_thing(
        alloc,
        folder,
        &inner.join(b"x").map_err(|_| RowErr::Path)?,
        &mut held,
    )?;
    put_thing(alloc, folder, &at(b"e")?, &mut held)?;
    Ok(held)
}

/// What a folder holds once its journal was opened.
pub(crate) fn recovered(alloc: Global, folder: MemFolder) -> Result<String, RowErr> {
    match Journal::open(alloc, Untelling::over(folder)) {
        Ok(mut journal) => held(alloc, &mut journal),
        Err(refused) => Err(RowErr::Journal(refused.cause)),
    }
}
