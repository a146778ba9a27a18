// The headers that the journal keeps of the files that a batch reshapes, and files that another program saved anew, under another
// header, while such a batch was left.

use crate::row::{RowErr, at, bytes, word};
use crate::runs::commit_all;
use chunk_journal::{Journal, JournalErr, changed_since, left_batch};
use deeds::Deed;
use outside::{Folder, Reads};
use outside_mem::MemFolder;
use std::alloc::Global;
use untold_folder::Untelling;
use vault_path::VaultPath;

// Most bytes of a file that are compared.
const MOST_BYTES: usize = 512;

// Puts a file of these bytes, unless they are `-`.
fn put_file(
    alloc: Global,
    folder: &mut MemFolder,
    name: &[u8],
    digits: &str,
) -> Result<(), RowErr> {
    if digits != "-" {
        folder.put(&at(name)?, &bytes(alloc, digits)?)?;
    }
    Ok(())
}

// A folder with the files `f` and `g`.
fn folder_with(alloc: Global, f: &str, g: &str) -> Result<MemFolder, RowErr> {
    let mut folder = MemFolder::new(alloc)?;
    put_file(alloc, &mut folder, b"f", f)?;
    put_file(alloc, &mut folder, b"g", g)?;
    Ok(folder)
}

// Whether a file has these bytes, or there is none if they are `-`.
fn has_file(
    alloc: Global,
    folder: &mut MemFolder,
    name: &[u8],
    digits: &str,
) -> Result<bool, RowErr> {
    let path = at(name)?;
    if folder.kind(&path)?.is_none() {
        return Ok(digits == "-");
    }
    let wanted = bytes(alloc, digits)?;
    let mut held = [0; MOST_BYTES];
    let count = folder.read(&path, 0, &mut held)?.min(MOST_BYTES);
    Ok(&held[..count] == wanted.as_slice())
}

// Whether a row's answer names the file at a path.
fn is_named(answer: &str, path: &VaultPath) -> Result<bool, RowErr> {
    let f = at(b"f")?;
    let g = at(b"g")?;
    Ok((answer.contains("f") && *path == f) || (answer.contains("g") && *path == g))
}

// How many files a row's answer names.
fn count_named(answer: &str) -> u64 {
    u64::from(answer.contains("f")) + u64::from(answer.contains("g"))
}

// Whether the batch that was left shows exactly the files that a row's answer names as saved anew.
fn shows_as_said(
    alloc: Global,
    folder: &mut Untelling<MemFolder>,
    answer: &str,
) -> Result<bool, RowErr> {
    let Some(deeds) = left_batch(alloc, folder)? else {
        return Ok(false);
    };
    for index in 0..deeds.len() {
        let wanted = match deeds.get(index) {
            Some(Deed::Reshape(path, _, _)) => is_named(answer, path)?,
            _ => false,
        };
        if changed_since(folder, &deeds, index) != Ok(wanted) {
            return Ok(false);
        }
    }
    Ok(true)
}

// Whether an opening was refused for what a row's answer says.
fn is_refused_as_said(cause: JournalErr, answer: &str) -> bool {
    match cause {
        JournalErr::Device => count_named(answer) > 0,
        JournalErr::JournalDamaged(place) => answer.parse::<u64>() == Ok(place),
        JournalErr::Memory => false,
    }
}

// Opens the journal of a folder: the folder as it then is, if the opening came to what a row's answer says.
fn open_as_said(
    alloc: Global,
    folder: Untelling<MemFolder>,
    answer: &str,
) -> Option<Untelling<MemFolder>> {
    match Journal::open(alloc, folder) {
        Ok(journal) => {
            if answer == "-" {
                Some(journal.into_folder())
            } else {
                None
            }
        }
        Err(refused) => {
            if is_refused_as_said(refused.cause, answer) {
                Some(refused.folder)
            } else {
                None
            }
        }
    }
}

// Whether the journal of a row opens as the row says, the files are then as it says, and each that was saved anew counts as a fault. A refused opening leaves
// the journal as it was.
fn opens_as_said(alloc: Global, row: &str) -> Result<bool, RowErr> {
    let mut fields = row.split(' ');
    let journal = word(fields.next())?;
    let f = word(fields.next())?;
    let g = word(fields.next())?;
    let answer = word(fields.next())?;
    let mut folder = folder_with(alloc, f, g)?;
    put_file(alloc, &mut folder, b"served.journal", journal)?;
    let mut folder = Untelling::over(folder);
    if !shows_as_said(alloc, &mut folder, answer)? {
        return Ok(false);
    }
    let Some(opened) = open_as_said(alloc, folder, answer) else {
        return Ok(false);
    };
    let mut folder = opened.folder;
    let is_kept = has_file(alloc, &mut folder, b"served.journal", journal)?;
    Ok(
        is_kept == (answer != "-")
            && folder.fault_count() == count_named(answer)
            && has_file(alloc, &mut folder, b"f", word(fields.next())?)?
            && has_file(alloc, &mut folder, b"g", word(fields.next())?)?,
    )
}

// Whether a commit of a row's batch leaves the journal that the row says.
fn keeps_as_said(alloc: Global, row: &str) -> Result<bool, RowErr> {
    let mut fields = row.split(' ');
    let mut batches = Vec::new(alloc);
    batches.push(bytes(alloc, word(fields.next())?)?)?;
    let f = word(fields.next())?;
    let g = word(fields.next())?;
    let mut run = commit_all(alloc, folder_with(alloc, f, g)?, &batches)?;
    let journal = word(fields.next())?;
    Ok(run.done == 1 && has_file(alloc, &mut run.folder, b"served.journal", journal)?)
}

/// Opens the journal of each row, and returns how many there are.
pub(crate) fn check_openings(alloc: Global, text: &str) -> Result<u64, RowErr> {
    let mut rows = 0u64;
    for line in text.lines() {
        if line.starts_with('#') {
            continue;
        }
        rows = rows.saturating_add(1);
        if !opens_as_said(alloc, line)? {
            return Err(RowErr::Differs(rows));
        }
    }
    Ok(rows)
}

/// Commits the batch of each row, and returns how many there are.
pub(crate) fn check_commits(alloc: Global, text: &str) -> Result<u64, RowErr> {
    let mut rows = 0u64;
    for line in text.lines() {
        if line.starts_with('#') {
            continue;
        }
        rows = rows.saturating_add(1);
        if !keeps_as_said(alloc, line)? {
            return Err(RowErr::Differs(rows));
        }
    }
    Ok(rows)
}
