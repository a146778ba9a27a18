//! Looks at what deeds need of the folder.

ghost use Rattle.std.specs.Prelude.{◌≡◌, [], length, IfOk, IsErr, IsErrOf, IsTrue, IsFalse};
ghost use Rattle.outside.specs.Calls.{HasCause, Told};
ghost use Rattle.outside.specs.Disk.{parent, IsFolder};
ghost use Rattle.outside.specs.Changes.{IsBare};
ghost use Rattle.outside.specs.Images.{now};
ghost use Rattle.deeds.specs.Plain.{plain_ranges};
ghost use Rattle.journal_mending.specs.Mending.{HasBytes, HasAllBytes};

use crate::state::{DeedState, State};
use chunk_journal::{Device, JournalErr};
use deeds::{Deed, Range};
use outside::{FolderErr, Kind, Reads};
use std::alloc::Global;
use vault_path::{Text, VaultPath};

// Whether a deed that isn't left out makes the folder at a path.
fn is_made_by(earlier: &DeedState, path: &VaultPath) -> bool {
    match &earlier.deed {
        Deed::MakeDir(made) => earlier.state != State::Unfit && made == path,
        _ => false,
    }
}

// Whether one of the deeds does.
fn is_made(earlier: &[DeedState], path: &VaultPath) -> bool {
    for made in earlier {
        if is_made_by(made, path) {
            return true;
        }
    }
    false
}

// Whether a deed that isn't left out takes away what is at a path.
fn is_taken_by(earlier: &DeedState, path: &VaultPath) -> bool {
    match &earlier.deed {
        Deed::Remove(removed) => earlier.state != State::Unfit && removed == path,
        Deed::RemoveDir(removed) => earlier.state != State::Unfit && removed == path,
        Deed::Rename(from, _) => earlier.state != State::Unfit && from == path,
        _ => false,
    }
}

// Whether one of the deeds does.
fn is_taken(earlier: &[DeedState], path: &VaultPath) -> bool {
    for taken in earlier {
        if is_taken_by(taken, path) {
            return true;
        }
    }
    false
}

// Whether each of these names in a folder is taken away by one of the deeds. What is no part of a path is named by none.
fn are_taken(earlier: &[DeedState], folder: &VaultPath, names: &[Text]) -> bool
    ensures { names.now ≡ [] → IsTrue result }
{
    for name in names {
        match folder.join(name.as_bytes()) {
            Ok(path) => {
                if !is_taken(earlier, &path) {
                    return false;
                }
            }
            Err(_) => return false,
        }
    }
    true
}

/// Whether the folder above a path is there, or is made by one of the deeds before.
pub(crate) fn has_folder_above<R: Reads>(
    folder: &mut R,
    path: &VaultPath,
    earlier: &[DeedState],
) -> Result<bool, Device>
    ensures inside { IfOk result (λ inside. Told (R.log folder.old) (λ log. IsFalse inside → IsFolder (now log) (parent path.now) → ⊥)) }
    ensures log { R.log folder.new ≡ R.log folder.old }
    ensures changes { R.changes folder.new ≡ R.changes folder.old }
    ensures cause { HasCause (R.faults folder.old) (R.faults folder.new) (IsErr result) }
{
    let above = path.parent();
    match folder.kind(&above)? {
        Some(Kind::Dir) => Ok(true),
        Some(Kind::File(_)) => Ok(false),
        None => Ok(is_made(earlier, &above)),
    }
}

/// Whether a folder has no entry that isn't taken away by one of the deeds before.
pub(crate) fn comes_to_be_bare<R: Reads>(
    alloc: Global,
    folder: &mut R,
    path: &VaultPath,
    earlier: &[DeedState],
) -> Result<bool, JournalErr>
    ensures bare { IfOk result (λ bare. Told (R.log folder.old) (λ log. IsFalse bare → IsBare (now log) path.now → ⊥)) }
    ensures log { R.log folder.new ≡ R.log folder.old }
    ensures changes { R.changes folder.new ≡ R.changes folder.old }
    ensures cause { HasCause (R.faults folder.old) (R.faults folder.new) (IsErrOf result JournalErr.Device) }
{
    match folder.list(alloc, path) {
        Ok(names) => Ok(are_taken(earlier, path, &names)),
        Err(FolderErr::Unfit) => Ok(false),
        Err(FolderErr::Failed) => Err(JournalErr::Device),
        Err(FolderErr::Memory) => Err(JournalErr::Memory),
    }
}

// Whether so many bytes were found as are wanted, and the same.
fn is_all(found: &[u8], count: usize, bytes: &[u8]) -> bool
    ensures { IsTrue result → (count ≡ length bytes.now) × (found.now ≡ bytes.now) }
{
    count == bytes.len() && found == bytes
}

/// Whether a file has these bytes from a place on.
pub(crate) fn has_bytes<R: Reads>(
    alloc: Global,
    folder: &mut R,
    path: &VaultPath,
    at: u64,
    bytes: &[u8],
) -> Result<bool, JournalErr>
    ensures has { IfOk result (λ has. Told (R.log folder.old) (λ log. IsTrue has → HasBytes (now log) path.now (at, bytes.now))) }
    ensures log { R.log folder.new ≡ R.log folder.old }
    ensures changes { R.changes folder.new ≡ R.changes folder.old }
    ensures cause { HasCause (R.faults folder.old) (R.faults folder.new) (IsErrOf result JournalErr.Device) }
{
    let mut found = vec![in alloc; 0; bytes.len()]?;
    match folder.read(path, at, &mut found) {
        Ok(count) => Ok(is_all(&found, count, bytes)),
        Err(FolderErr::Unfit) => Ok(false),
        Err(FolderErr::Failed) => Err(JournalErr::Device),
        Err(FolderErr::Memory) => Err(JournalErr::Memory),
    }
}

/// Whether a file has the bytes of all ranges.
pub(crate) fn has_all_bytes<R: Reads>(
    alloc: Global,
    folder: &mut R,
    path: &VaultPath,
    ranges: &[Range],
) -> Result<bool, JournalErr>
    ensures has { IfOk result (λ has. Told (R.log folder.old) (λ log. IsTrue has → HasAllBytes (now log) path.now (plain_ranges ranges.now))) }
    ensures log { R.log folder.new ≡ R.log folder.old }
    ensures changes { R.changes folder.new ≡ R.changes folder.old }
    ensures cause { HasCause (R.faults folder.old) (R.faults folder.new) (IsErrOf result JournalErr.Device) }
{
    for range in ranges {
        let has = has_bytes(alloc, folder, path, range.at, &range.bytes)?;
        if !has {
            return Ok(false);
        }
    }
    Ok(true)
}
