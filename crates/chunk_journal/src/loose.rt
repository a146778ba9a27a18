ghost use Rattle.std.specs.Prelude.{◌≡◌, ◌↔◌, ◌∷◌, [], ◌++◌, Contains, IfOk, IfErr, OnOk, IsErrOf};
ghost use Rattle.outside.specs.Calls.{HasCause, Told};
ghost use Rattle.outside.specs.Disk.{Path};
ghost use Rattle.outside.specs.Images.{now};
ghost use Rattle.deeds.specs.Deeds.{named, names};
ghost use Rattle.deeds.specs.Plain.{plain, plains};
ghost use Rattle.chunk_journal.specs.Journal.{journal_file, new_file, IsLoose};
ghost use Rattle.chunk_journal.specs.Opening.{IfDamaged, IsDamagedAt};

use crate::fault::JournalErr;
use crate::reading::open_batch;
use deeds::{Deed, journal_path, new_path};
use outside::Reads;
use std::alloc::{AllocError, Global};
use vault_path::VaultPath;

// The paths of the journal's two files.
fn journal_paths(alloc: Global) -> Result<Vec<VaultPath>, AllocError>
    ensures { IfOk result (λ paths. paths.items ≡ journal_file ∷ new_file ∷ []) }
{
    let mut paths = Vec::new(alloc);
    paths.push(journal_path())?;
    paths.push(new_path())?;
    Ok(paths)
}

// Adds the paths that a deed names.
fn add_names(paths: &mut Vec<VaultPath>, deed: &Deed) -> Result<(), AllocError>
    ensures { OnOk result (paths.new.items ≡ paths.old.items ++ names (plain deed.now)) }
{
    match deed {
        Deed::MakeDir(path) => paths.push(path.copied())?,
        Deed::Put(path, _) => paths.push(path.copied())?,
        Deed::Rename(from, to) => {
            paths.push(from.copied())?;
            paths.push(to.copied())?;
        }
        Deed::Remove(path) => paths.push(path.copied())?,
        Deed::RemoveDir(path) => paths.push(path.copied())?,
        Deed::Reshape(path, _, _) => paths.push(path.copied())?,
    }
    Ok(())
}

// Adds those of all deeds.
fn add_named(paths: &mut Vec<VaultPath>, deeds: &[Deed]) -> Result<(), AllocError>
    ensures { OnOk result (paths.new.items ≡ paths.old.items ++ named (plains deeds.now)) }
{
    for deed in deeds {
        add_names(paths, deed)?;
    }
    Ok(())
}

/// The paths of the journal's two files, and those that the batch after an open gate names: the changes since its last sync
/// of a run that was killed name no others. It reads the journal as it is found, without a sync. An error is one of
/// `Journal::open`, but that no deed is tried.
pub fn loose_paths<D: Reads>(alloc: Global, folder: &mut D) -> Result<Vec<VaultPath>, JournalErr>
    ensures exact { IfOk result (λ paths. Told (D.log folder.old)
        (λ log. (path : Path) → Contains paths.items path ↔ IsLoose (now log) path)) }
    ensures damaged { IfErr result (λ error. IfDamaged error (λ at. Told (D.log folder.old) (λ log. IsDamagedAt (now log) at))) }
    ensures log { D.log folder.new ≡ D.log folder.old }
    ensures cause { HasCause (D.faults folder.old) (D.faults folder.new) (IsErrOf result JournalErr.Device) }
{
    let found = open_batch(alloc, folder, &journal_path(), &new_path())?;
    let mut paths = journal_paths(alloc)?;
    if let Some(deeds) = found {
        add_named(&mut paths, &deeds)?;
    }
    Ok(paths)
}
