//! The headers of the files that a batch rewrites, as they were before it, by which a file that another program saved anew is known.
//!
//! Behind the sum of a batch that rewrites files stand the letters `HEADERS1`, and then for each `Reshape` of the batch, in its order,
//! the first 68 bytes of the file. They are zeros if the file had fewer, and if the deed itself writes there or cuts the file
//! shorter, since a stop may leave any part of that.

ghost use Rattle.std.specs.Prelude.{◌≡◌, ◌≤◌, ◌+◌, ⊤, length, MatchOption, IfOk, OnOk, IsErr, IsTrue};
ghost use Rattle.outside.specs.Calls.{HasCause, Told, Changes};
ghost use Rattle.deeds.specs.Grammar.{IsBatch};
ghost use Rattle.deeds.specs.Plain.{plains};
ghost use Rattle.chunk_journal.specs.Journal.{journal_file};
ghost use Rattle.chunk_journal.specs.Stages.{HasPlace, KeepsFront, KeepsItShut, headers_at};

use crate::fault::Device;
use crate::reading::BATCH;
use crate::sum::SUM_LEN;
use deeds::{Deed, Range, journal_path, spelled_len};
use outside::{Folder, FolderErr, Reads};
use vault_path::VaultPath;

// The letters before the headers.
const MARK: [u8; MARK_LEN] = *b"HEADERS1";

const MARK_LEN: usize = 8;

// How many bytes a header of a file has.
const HEADER_LEN: usize = 68;

// As many bytes are written at once.
const PIECE_LEN: usize = 4096;

// The offset of the headers' letters, if a file can be as long.
fn headers_place(deeds: &[Deed]) -> Option<u64>
    requires { IsBatch (plains deeds.now) }
    ensures { MatchOption result ⊤ (λ at. at ≡ headers_at (plains deeds.now)) }
{
    let sum = BATCH + spelled_len(deeds) as u64;
    sum.checked_add(SUM_LEN as u64)
}

// How many bytes were read, if there is a file.
fn read_file<D: Reads>(
    folder: &mut D,
    path: &VaultPath,
    at: u64,
    out: &mut [u8],
) -> Result<Option<usize>, Device>
    ensures count { IfOk result (λ found. MatchOption found ⊤ (λ count. count ≤ length out.old)) }
    ensures log { D.log folder.new ≡ D.log folder.old }
    ensures changes { D.changes folder.new ≡ D.changes folder.old }
    ensures cause { HasCause (D.faults folder.old) (D.faults folder.new) (IsErr result) }
{
    match folder.read(path, at, out) {
        Ok(count) => Ok(Some(count)),
        Err(FolderErr::Unfit) => Ok(None),
        Err(_) => Err(Device),
    }
}

// Whether a reshaping leaves the header as it was at each moment.
fn keeps_header(len: u64, ranges: &[Range]) -> bool {
    len >= HEADER_LEN as u64 && ranges.iter().all(|range| range.at >= HEADER_LEN as u64)
}

// The header of a file that is to be reshaped, as the journal keeps it. A file that is gone was removed by another program.
fn header_to_keep<D: Reads>(
    folder: &mut D,
    path: &VaultPath,
    len: u64,
    ranges: &[Range],
) -> Result<[u8; HEADER_LEN], Device>
    ensures log { D.log folder.new ≡ D.log folder.old }
    ensures changes { D.changes folder.new ≡ D.changes folder.old }
    ensures cause { HasCause (D.faults folder.old) (D.faults folder.new) (IsErr result) }
{
    if !keeps_header(len, ranges) {
        return Ok([0; HEADER_LEN]);
    }
    let mut header = [0; HEADER_LEN];
    let Some(count) = read_file(folder, path, 0, &mut header)? else {
        folder.report_changed(path);
        return Err(Device);
    };
    if count < HEADER_LEN {
        return Ok([0; HEADER_LEN]);
    }
    Ok(header)
}

// Writes bytes behind what follows the closed gate: the offset behind them.
fn write_behind<D: Folder>(
    folder: &mut D,
    journal: &VaultPath,
    at: u64,
    bytes: &[u8],
) -> Result<u64, Device>
    requires journal { journal.now ≡ journal_file }
    requires behind { 1 ≤ at }
    requires place { Told (D.log folder.old) (HasPlace at) }
    ensures front { OnOk result (Changes (D.log folder.old) (D.log folder.new) (KeepsFront at)) }
    ensures place { IfOk result (λ next. Told (D.log folder.new) (HasPlace next)) }
    ensures behind { IfOk result (λ next. at ≤ next) }
    ensures any_moment { Changes (D.log folder.old) (D.log folder.new) KeepsItShut }
    ensures cause { HasCause (D.faults folder.old) (D.faults folder.new) (IsErr result) }
{
    folder.write(journal, at, bytes)?;
    Ok(at.saturating_add(bytes.len() as u64))
}

/// Keeps the headers of the files that a batch reshapes, behind the batch and its sum. If it reshapes none, nothing is written.
pub fn write_headers<D: Folder>(
    folder: &mut D,
    journal: &VaultPath,
    deeds: &[Deed],
) -> Result<(), Device>
    requires journal { journal.now ≡ journal_file }
    requires batch { IsBatch (plains deeds.now) }
    requires place { Told (D.log folder.old) (HasPlace (headers_at (plains deeds.now))) }
    ensures front { OnOk result (Changes (D.log folder.old) (D.log folder.new) (KeepsFront (headers_at (plains deeds.now)))) }
    ensures any_moment { Changes (D.log folder.old) (D.log folder.new) KeepsItShut }
    ensures cause { HasCause (D.faults folder.old) (D.faults folder.new) (IsErr result) }
{
    if !deeds
        .iter()
        .any(|deed| matches!(deed, Deed::Reshape(_, _, _)))
    {
        return Ok(());
    }
    let Some(mut at) = headers_place(deeds) else {
        return Ok(());
    };
    let mut piece = [0; PIECE_LEN];
    piece[..MARK_LEN].copy_from_slice(&MARK);
    let mut used = MARK_LEN;
    for deed in deeds {
        let Deed::Reshape(path, len, ranges) = deed else {
            continue;
        };
        let header = header_to_keep(folder, path, *len, ranges)?;
        if PIECE_LEN - used < HEADER_LEN {
            at = write_behind(folder, journal, at, &piece[..used])?;
            used = 0;
        }
        piece[used..used + HEADER_LEN].copy_from_slice(&header);
        used += HEADER_LEN;
    }
    write_behind(folder, journal, at, &piece[..used])?;
    Ok(())
}

// The offset of the first header, if headers are behind the batch of the journal.
fn first_header<D: Reads>(
    folder: &mut D,
    journal: &VaultPath,
    deeds: &[Deed],
) -> Result<Option<u64>, Device>
    requires batch { IsBatch (plains deeds.now) }
    ensures log { D.log folder.new ≡ D.log folder.old }
    ensures changes { D.changes folder.new ≡ D.changes folder.old }
    ensures cause { HasCause (D.faults folder.old) (D.faults folder.new) (IsErr result) }
{
    let Some(at) = headers_place(deeds) else {
        return Ok(None);
    };
    let mut mark = [0; MARK_LEN];
    if read_file(folder, journal, at, &mut mark)? != Some(MARK_LEN) || mark != MARK {
        return Ok(None);
    }
    Ok(Some(at.saturating_add(MARK_LEN as u64)))
}

// The offset of the header that follows those of some deeds.
fn header_behind(first: u64, deeds: &[Deed]) -> u64 {
    let mut at = first;
    for deed in deeds {
        if let Deed::Reshape(_, _, _) = deed {
            at = at.saturating_add(HEADER_LEN as u64);
        }
    }
    at
}

// Whether a file has another header than the journal kept at an offset. One that is gone has none.
fn is_other<D: Reads>(
    folder: &mut D,
    journal: &VaultPath,
    at: u64,
    path: &VaultPath,
) -> Result<bool, Device>
    ensures log { D.log folder.new ≡ D.log folder.old }
    ensures changes { D.changes folder.new ≡ D.changes folder.old }
    ensures cause { HasCause (D.faults folder.old) (D.faults folder.new) (IsErr result) }
{
    let mut kept = [0; HEADER_LEN];
    if read_file(folder, journal, at, &mut kept)? != Some(HEADER_LEN) || kept == [0; HEADER_LEN] {
        return Ok(false);
    }
    let mut header = [0; HEADER_LEN];
    match read_file(folder, path, 0, &mut header)? {
        Some(count) => Ok(count < HEADER_LEN || header != kept),
        None => Ok(false),
    }
}

/// Whether a file that the batch of the journal reshapes has another header by now. Each such file is reported.
pub fn has_other_header<D: Reads>(
    folder: &mut D,
    journal: &VaultPath,
    deeds: &[Deed],
) -> Result<bool, Device>
    requires batch { IsBatch (plains deeds.now) }
    ensures log { D.log folder.new ≡ D.log folder.old }
    ensures changes { D.changes folder.new ≡ D.changes folder.old }
    ensures failed { HasCause (D.faults folder.old) (D.faults folder.new) (IsErr result) }
    ensures cause { IfOk result (λ other. HasCause (D.faults folder.old) (D.faults folder.new) (IsTrue other)) }
{
    let Some(mut at) = first_header(folder, journal, deeds)? else {
        return Ok(false);
    };
    let mut has_other = false;
    for deed in deeds {
        let Deed::Reshape(path, _, _) = deed else {
            continue;
        };
        if is_other(folder, journal, at, path)? {
            folder.report_changed(path);
            has_other = true;
        }
        at = at.saturating_add(HEADER_LEN as u64);
    }
    Ok(has_other)
}

/// Whether another program saved the file anew that the deed at an index of the batch reshapes: whether it has another header
/// than the journal kept. The deeds are those of `left_batch`. Nothing is reported.
pub fn changed_since<D: Reads>(folder: &mut D, deeds: &[Deed], index: usize) -> Result<bool, Device>
    requires batch { IsBatch (plains deeds.now) }
    ensures log { D.log folder.new ≡ D.log folder.old }
    ensures changes { D.changes folder.new ≡ D.changes folder.old }
    ensures cause { HasCause (D.faults folder.old) (D.faults folder.new) (IsErr result) }
{
    let Some(Deed::Reshape(path, _, _)) = deeds.get(index) else {
        return Ok(false);
    };
    let journal = journal_path();
    let Some(first) = first_header(folder, &journal, deeds)? else {
        return Ok(false);
    };
    is_other(
        folder,
        &journal,
        header_behind(first, &deeds[..index]),
        path,
    )
}
