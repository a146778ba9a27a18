ghost use Rattle.std.specs.Prelude.{◌≡◌, Some, OnOk, IfOk, IsErr, IsTrue};
ghost use Rattle.outside.specs.Calls.{HasCause, Told, Changes};
ghost use Rattle.outside.specs.Disk.{Disk};
ghost use Rattle.outside.specs.Images.{now, IsSteady};
ghost use Rattle.deeds.specs.Deeds.{DoesAll, StaysAmid, GoesOnAt, in_order, named};
ghost use Rattle.outside.specs.Unsynced.{IsSynced};
ghost use Rattle.deeds.specs.Grammar.{IsBatch};
ghost use Rattle.deeds.specs.Plain.{plains};
ghost use Rattle.chunk_journal.specs.Stages.{HasGate};
ghost use Rattle.chunk_journal.specs.Journal.{journal_file, IsAlike, IsQuiet, IsReady, IsRepeatable, StaysShut, AnyMoment, HasCommitted};

use crate::fault::Device;
use crate::first::make_first;
use crate::stage::stage;
use crate::steps::{CLOSED, GATE, OPEN, write_synced};
use deeds::{Deed, do_batch, journal_path, new_path};
use outside::{Folder, Kind};
use vault_path::VaultPath;

/// Does the deeds of a batch, each of which can be done.
pub fn do_deeds<D: Folder>(folder: &mut D, deeds: &[Deed]) -> Result<(), Device>
    requires batch { IsBatch (plains deeds.now) }
    requires steady { Told (D.log folder.old) IsSteady }
    requires can { Told (D.log folder.old) (λ log. (after : Disk) × DoesAll (in_order (plains deeds.now)) (now log) after) }
    ensures done { OnOk result (Changes (D.log folder.old) (D.log folder.new)
        (λ old new. IsSynced new × DoesAll (in_order (plains deeds.now)) (now old) (now new))) }
    ensures amid { Changes (D.log folder.old) (D.log folder.new) (StaysAmid (in_order (plains deeds.now))) }
    ensures grown { Changes (D.log folder.old) (D.log folder.new) (GoesOnAt (named (plains deeds.now))) }
    ensures cause { HasCause (D.faults folder.old) (D.faults folder.new) (IsErr result) }
{
    do_batch(folder, deeds).map_err(|_| Device)
}

// Commits a batch to a journal that is there: the batch is put after the closed gate, the gate is opened, the deeds are
// done, and the gate is closed.
fn commit_ready<D: Folder>(
    folder: &mut D,
    journal: &VaultPath,
    deeds: &[Deed],
) -> Result<(), Device>
    requires journal { journal.now ≡ journal_file }
    requires ready { Told (D.log folder.old) IsReady }
    requires batch { IsBatch (plains deeds.now) }
    requires repeatable { IsRepeatable (plains deeds.now) }
    requires can { Told (D.log folder.old) (λ log. (after : Disk) × DoesAll (in_order (plains deeds.now)) (now log) after) }
    ensures committed { OnOk result (Changes (D.log folder.old) (D.log folder.new) (HasCommitted (plains deeds.now))) }
    ensures any_moment { Changes (D.log folder.old) (D.log folder.new) (AnyMoment (plains deeds.now)) }
    ensures cause { HasCause (D.faults folder.old) (D.faults folder.new) (IsErr result) }
{
    stage(folder, journal, deeds)?;
    write_synced(folder, journal, GATE, &[OPEN])?;
    do_deeds(folder, deeds)?;
    write_synced(folder, journal, GATE, &[CLOSED])?;
    Ok(())
}

// Whether the journal is there, with a gate.
fn has_gate<D: Folder>(folder: &mut D, journal: &VaultPath) -> Result<bool, Device>
    requires { journal.now ≡ journal_file }
    ensures gate { IfOk result (λ found. Told (D.log folder.old) (λ log. IsTrue found → HasGate (now log))) }
    ensures log { D.log folder.new ≡ D.log folder.old }
    ensures cause { HasCause (D.faults folder.old) (D.faults folder.new) (IsErr result) }
{
    match folder.kind(journal)? {
        Some(Kind::File(len)) => Ok(len > 0),
        _ => Ok(false),
    }
}

// Sees to it that the journal is there.
fn make_ready<D: Folder>(folder: &mut D, journal: &VaultPath) -> Result<(), Device>
    requires journal { journal.now ≡ journal_file }
    requires quiet { Told (D.log folder.old) IsQuiet }
    ensures ready { OnOk result (Changes (D.log folder.old) (D.log folder.new) (λ old new. IsReady new × IsAlike (now old) (now new))) }
    ensures any_moment { Changes (D.log folder.old) (D.log folder.new) StaysShut }
    ensures cause { HasCause (D.faults folder.old) (D.faults folder.new) (IsErr result) }
{
    if has_gate(folder, journal)? {
        return Ok(());
    }
    make_first(folder, journal, &new_path())?;
    Ok(())
}

/// Commits a batch: it is done wholly or not at all, whenever a stop happens. It takes no memory. After `Device` the folder
/// is to be opened again.
pub fn commit<D: Folder>(folder: &mut D, deeds: &[Deed]) -> Result<(), Device>
    requires quiet { Told (D.log folder.old) IsQuiet }
    requires batch { IsBatch (plains deeds.now) }
    requires repeatable { IsRepeatable (plains deeds.now) }
    requires can { Told (D.log folder.old) (λ log. (after : Disk) × DoesAll (in_order (plains deeds.now)) (now log) after) }
    ensures committed { OnOk result (Changes (D.log folder.old) (D.log folder.new) (HasCommitted (plains deeds.now))) }
    ensures any_moment { Changes (D.log folder.old) (D.log folder.new) (AnyMoment (plains deeds.now)) }
    ensures cause { HasCause (D.faults folder.old) (D.faults folder.new) (IsErr result) }
{
    let journal = journal_path();
    make_ready(folder, &journal)?;
    commit_ready(folder, &journal, deeds)?;
    Ok(())
}
