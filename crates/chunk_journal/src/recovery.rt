ghost use Rattle.std.specs.Prelude.{◌≡◌, ◌≢◌, ◌⊎◌, ◌+◌, ◌∷◌, [], ℕ, OnOk, OnErr, IfOk, IfErr, IsErr, IsErrOf, MatchOption, ⊤, length, take};
ghost use Rattle.outside.specs.Calls.{HasCause, Told, Changes};
ghost use Rattle.outside.specs.Disk.{Disk, Path, node_at};
ghost use Rattle.outside.specs.Changes.{Write};
ghost use Rattle.outside.specs.Images.{now, adds, Synced, IsImage, IsSteady, LeavesOnly};
ghost use Rattle.deeds.specs.Deeds.{DoesAll, StaysAmid, GoesOnAt, LogGoesOn, IsRefusedAt, in_order, named};
ghost use Rattle.outside.specs.Unsynced.{IsSynced};
ghost use Rattle.deeds.specs.Applying.{Applies, StaysApplied};
ghost use Rattle.deeds.specs.Grammar.{IsBatch, spelled_deeds};
ghost use Rattle.deeds.specs.Plain.{plains};
ghost use Rattle.chunk_journal.specs.Journal.{journal_file, new_file, HoldsBatch, IsAlike, IsClosed, IsQuiet, IsRepeatable, IsFound, IsUnheld, StaysRecovered};
ghost use Rattle.chunk_journal.specs.Stages.{LeavesParts};
ghost use Rattle.chunk_journal.specs.Opening.{HasFolder, IsUnfitAt, IsDamagedAt, IsFoundOpen, LeavesFolder, IfDamaged, IsLeftApplied, IsOpening, StaysOpening, HasOpened};

use crate::fault::{Device, JournalErr};
use crate::headers::has_other_header;
use crate::reading::{BATCH, journal_len, open_batch};
use crate::steps::{CLOSED, GATE, write_synced};
use deeds::{Deed, DeedErr, do_batch, journal_path, len_before, new_path};
use outside::{Folder, Reads};
use std::alloc::Global;
use vault_path::VaultPath;

// Begins an opening: after the sync all is on the disk, and no stop leaves what it couldn't have left before.
fn settle<D: Folder>(folder: &mut D) -> Result<(), Device>
    ensures synced { OnOk result (Changes (D.log folder.old) (D.log folder.new) (λ old new. new ≡ adds old Synced)) }
    ensures steady { OnOk result (Changes (D.log folder.old) (D.log folder.new) (λ old new. IsSynced new)) }
    ensures any_moment { OnOk result (Changes (D.log folder.old) (D.log folder.new) (λ old new. LeavesOnly old new (IsImage old))) }
    ensures broken { OnErr result (D.log folder.new ≡ D.log folder.old) }
    ensures cause { HasCause (D.faults folder.old) (D.faults folder.new) (IsErr result) }
{
    folder.sync()?;
    Ok(())
}

// Does the deeds of a batch, up to the first that the folder doesn't fit.
fn redo_deeds<D: Folder>(folder: &mut D, deeds: &[Deed]) -> Result<(), JournalErr>
    requires batch { IsBatch (plains deeds.now) }
    requires steady { Told (D.log folder.old) IsSteady }
    ensures done { OnOk result (Changes (D.log folder.old) (D.log folder.new)
        (λ old new. IsSynced new × DoesAll (in_order (plains deeds.now)) (now old) (now new))) }
    ensures amid { Changes (D.log folder.old) (D.log folder.new) (StaysAmid (in_order (plains deeds.now))) }
    ensures grown { Changes (D.log folder.old) (D.log folder.new) (GoesOnAt (named (plains deeds.now))) }
    ensures applied { Changes (D.log folder.old) (D.log folder.new) (StaysApplied (in_order (plains deeds.now))) }
    ensures damaged { IfErr result (λ error. IfDamaged error (λ at. Told (D.log folder.old) (λ log. (index : ℕ)
        × IsRefusedAt (plains deeds.now) index (now log) × (at ≡ 13 + length (spelled_deeds (take index (plains deeds.now))))))) }
    ensures left { IfErr result (λ error. IfDamaged error (λ at. Changes (D.log folder.old) (D.log folder.new)
        (λ old new. Applies (in_order (plains deeds.now)) (now old) (now new)))) }
    ensures cause { HasCause (D.faults folder.old) (D.faults folder.new) (IsErrOf result JournalErr.Device) }
{
    match do_batch(folder, deeds) {
        Ok(()) => Ok(()),
        Err(DeedErr::Failed) => Err(JournalErr::Device),
        Err(DeedErr::Unfit(index)) => {
            let before = len_before(deeds, index);
            Err(JournalErr::JournalDamaged(BATCH + before as u64))
        }
    }
}

// Closes the gate, if a journal is there.
fn close<D: Folder>(
    folder: &mut D,
    journal: &VaultPath,
    beside: &VaultPath,
) -> Result<(), JournalErr>
    requires journal { journal.now ≡ journal_file }
    requires beside { beside.now ≡ new_file }
    requires steady { Told (D.log folder.old) IsSynced }
    ensures closed { OnOk result (Changes (D.log folder.old) (D.log folder.new)
        (λ old new. IsQuiet new × ((q : Path) → q ≢ journal_file → node_at (now new) q ≡ node_at (now old) q))) }
    ensures any_moment { Changes (D.log folder.old) (D.log folder.new) (LeavesParts (Write journal_file 0 (0 ∷ []))) }
    ensures damaged { IfErr result (λ error. IfDamaged error (λ at. Told (D.log folder.old) (λ log. HasFolder (now log) × (at ≡ 0)))) }
    ensures still { IfErr result (λ error. IfDamaged error (λ at. D.log folder.new ≡ D.log folder.old)) }
    ensures cause { HasCause (D.faults folder.old) (D.faults folder.new) (IsErrOf result JournalErr.Device) }
{
    if journal_len(folder, journal, beside)?.is_some() {
        write_synced(folder, journal, GATE, &[CLOSED])?;
    }
    Ok(())
}

// Does the batch of a journal that was found open, and closes its gate.
fn redo<D: Folder>(
    folder: &mut D,
    journal: &VaultPath,
    beside: &VaultPath,
    deeds: &[Deed],
) -> Result<(), JournalErr>
    requires journal { journal.now ≡ journal_file }
    requires beside { beside.now ≡ new_file }
    requires batch { IsBatch (plains deeds.now) }
    requires found { Told (D.log folder.old) (IsFound (plains deeds.now)) }
    ensures redone { OnOk result (Changes (D.log folder.old) (D.log folder.new) (λ old new.
        IsQuiet new × ((after : Disk) × DoesAll (in_order (plains deeds.now)) (now old) after × IsAlike after (now new)))) }
    ensures any_moment { Changes (D.log folder.old) (D.log folder.new) (λ old new. IsRepeatable (plains deeds.now) → StaysRecovered (plains deeds.now) old new) }
    ensures grown { Changes (D.log folder.old) (D.log folder.new) LogGoesOn }
    ensures damaged { IfErr result (λ error. IfDamaged error (λ at. Told (D.log folder.old) (λ log. IsUnfitAt (now log) at ⊎ LeavesFolder (now log) at))) }
    ensures left { IfErr result (λ error. IfDamaged error (λ at. Changes (D.log folder.old) (D.log folder.new)
        (λ old new. Applies (in_order (plains deeds.now)) (now old) (now new)))) }
    ensures cause { HasCause (D.faults folder.old) (D.faults folder.new) (IsErrOf result JournalErr.Device) }
{
    redo_deeds(folder, deeds)?;
    close(folder, journal, beside)?;
    Ok(())
}

// The batch after the gate, if that is open and no other program saved a file anew that the batch reshapes.
fn batch_to_redo<D: Reads>(
    alloc: Global,
    folder: &mut D,
    journal: &VaultPath,
    beside: &VaultPath,
) -> Result<Option<Vec<Deed>>, JournalErr>
    requires journal { journal.now ≡ journal_file }
    requires beside { beside.now ≡ new_file }
    ensures found { IfOk result (λ found. Told (D.log folder.old)
        (λ log. (HasFolder (now log) → ⊥) × MatchOption found (IsClosed (now log)) (λ deeds. HoldsBatch (now log) (plains deeds.items)))) }
    ensures batch { IfOk result (λ found. MatchOption found ⊤ (λ deeds. IsBatch (plains deeds.items))) }
    ensures damaged { IfErr result (λ error. IfDamaged error (λ at. Told (D.log folder.old) (λ log. IsDamagedAt (now log) at))) }
    ensures unheld { IfErr result (λ error. IfDamaged error (λ at. Told (D.log folder.old) (λ log. HasFolder (now log) ⊎ IsUnheld (now log)))) }
    ensures log { D.log folder.new ≡ D.log folder.old }
    ensures cause { HasCause (D.faults folder.old) (D.faults folder.new) (IsErrOf result JournalErr.Device) }
{
    let found = open_batch(alloc, folder, journal, beside)?;
    if let Some(deeds) = &found {
        if has_other_header(folder, journal, deeds)? {
            return Err(JournalErr::Device);
        }
    }
    Ok(found)
}

/// Recovers a folder: what follows an open gate is done, and the gate is closed.
pub fn recover<D: Folder>(alloc: Global, folder: &mut D) -> Result<(), JournalErr>
    ensures opened { OnOk result (Changes (D.log folder.old) (D.log folder.new) HasOpened) }
    ensures opening { OnOk result (Changes (D.log folder.old) (D.log folder.new) IsOpening) }
    ensures any_moment { Changes (D.log folder.old) (D.log folder.new) StaysOpening }
    ensures damaged { IfErr result (λ error. IfDamaged error (λ at. Told (D.log folder.old) (λ log. IsDamagedAt (now log) at ⊎ LeavesFolder (now log) at))) }
    ensures left { IfErr result (λ error. IfDamaged error (λ at. Changes (D.log folder.old) (D.log folder.new) IsLeftApplied)) }
    ensures cause { HasCause (D.faults folder.old) (D.faults folder.new) (IsErrOf result JournalErr.Device) }
{
    settle(folder)?;
    let journal = journal_path();
    let beside = new_path();
    let Some(deeds) = batch_to_redo(alloc, folder, &journal, &beside)? else {
        return Ok(());
    };
    redo(folder, &journal, &beside, &deeds)?;
    Ok(())
}

/// The batch that a stop left behind an open gate, if there is one: an opening would do its deeds. The journal is read as it is found, and nothing is
/// changed. An error is one of `Journal::open`, but that no deed is tried.
pub fn left_batch<D: Reads>(alloc: Global, folder: &mut D) -> Result<Option<Vec<Deed>>, JournalErr>
    ensures found { IfOk result (λ left. Told (D.log folder.old)
        (λ log. (HasFolder (now log) → ⊥) × MatchOption left (IsClosed (now log)) (λ deeds. HoldsBatch (now log) (plains deeds.items)))) }
    ensures batch { IfOk result (λ left. MatchOption left ⊤ (λ deeds. IsBatch (plains deeds.items))) }
    ensures damaged { IfErr result (λ error. IfDamaged error (λ at. Told (D.log folder.old) (λ log. IsDamagedAt (now log) at))) }
    ensures log { D.log folder.new ≡ D.log folder.old }
    ensures changes { D.changes folder.new ≡ D.changes folder.old }
    ensures cause { HasCause (D.faults folder.old) (D.faults folder.new) (IsErrOf result JournalErr.Device) }
{
    open_batch(alloc, folder, &journal_path(), &new_path())
}

/// Whether a stop left a batch behind an open gate, which an opening would do. The journal is read as it is found, and nothing is changed. An error is one of
/// `Journal::open`, but that no deed is tried.
pub fn needs_recovery<D: Reads>(alloc: Global, folder: &mut D) -> Result<bool, JournalErr>
    ensures found { IfOk result (λ held. Told (D.log folder.old) (λ log. IsFoundOpen held (now log))) }
    ensures damaged { IfErr result (λ error. IfDamaged error (λ at. Told (D.log folder.old) (λ log. IsDamagedAt (now log) at))) }
    ensures log { D.log folder.new ≡ D.log folder.old }
    ensures changes { D.changes folder.new ≡ D.changes folder.old }
    ensures cause { HasCause (D.faults folder.old) (D.faults folder.new) (IsErrOf result JournalErr.Device) }
{
    Ok(left_batch(alloc, folder)?.is_some())
}
