ghost use Rattle.std.specs.Prelude.{◌≡◌, ◌⊎◌, ◌++◌, ◌∷◌, [], IfOk, IfErr, OnOk, IsErr, IsErrOf, MatchOption};
ghost use Rattle.outside.specs.Calls.{HasCause, Told, Changes};
ghost use Rattle.outside.specs.Disk.{IsFolder};
ghost use Rattle.outside.specs.Images.{now, adds, Synced};
ghost use Rattle.outside.specs.Unsynced.{IsSynced};
ghost use Rattle.deeds.specs.Deeds.{Reshapes, CanDeed};
ghost use Rattle.deeds.specs.Reshape.{EndWithin};
ghost use Rattle.deeds.specs.Plain.{plain, plains, plain_ranges};
ghost use Rattle.chunk_journal.specs.Journal.{journal_file, IsClosed, HoldsBatch};
ghost use Rattle.chunk_journal.specs.Opening.{IfDamaged, IsDamagedAt};
ghost use Rattle.journal_mending.specs.declared.state.DeedState.{DeedState};
ghost use Rattle.journal_mending.specs.Mending.{deeds_in, IsWhole, Skips, SkipsAll, HasClosed, HasSkipped, HasNone, SkipsToFolder};

use crate::anew::{is_among, saved_anew};
use crate::order::in_order;
use crate::reshaping::can_reshape;
use crate::state::{DeedState, State};
use chunk_journal::{Device, JournalErr, left_batch};
use deeds::{Deed, Range, do_deed, do_reshape, journal_path};
use outside::{Folder, FolderErr, Kind};
use std::alloc::{AllocError, Global};
use vault_path::VaultPath;

// The gate's byte where no batch is to be done.
const CLOSED: u8 = 0;

/// Syncs: after it all is on the disk.
pub(crate) fn settle<F: Folder>(folder: &mut F) -> Result<(), Device>
    ensures synced { OnOk result (Changes (F.log folder.old) (F.log folder.new) (λ old new. new ≡ adds old Synced)) }
    ensures steady { OnOk result (Changes (F.log folder.old) (F.log folder.new) (λ old new. IsSynced new)) }
    ensures cause { HasCause (F.faults folder.old) (F.faults folder.new) (IsErr result) }
{
    folder.sync()?;
    Ok(())
}

// Reshapes a file that can be reshaped, and syncs.
fn reshape<F: Folder>(
    folder: &mut F,
    path: &VaultPath,
    len: u64,
    ranges: &[Range],
) -> Result<State, Device>
    requires within { EndWithin len (plain_ranges ranges.now) }
    requires can { Told (F.log folder.old) (λ log. CanDeed (Reshapes path.now len (plain_ranges ranges.now)) (now log)) }
    ensures skips { IfOk result (λ state. Changes (F.log folder.old) (F.log folder.new) (λ old new. Skips state (Reshapes path.now len (plain_ranges ranges.now)) (now old) (now new))) }
    ensures cause { HasCause (F.faults folder.old) (F.faults folder.new) (IsErr result) }
{
    match do_reshape(folder, path, len, ranges) {
        Ok(()) => {
            settle(folder)?;
            Ok(State::Done)
        }
        Err(FolderErr::Unfit) => Ok(State::Unfit),
        Err(FolderErr::Failed) => Err(Device),
        Err(FolderErr::Memory) => Err(Device),
    }
}

// The same of any file: one that can't be reshaped is left as it is, since what is refused halfway would be done in part.
fn skip_reshape<F: Folder>(
    folder: &mut F,
    path: &VaultPath,
    len: u64,
    ranges: &[Range],
) -> Result<State, Device>
    ensures skips { IfOk result (λ state. Changes (F.log folder.old) (F.log folder.new) (λ old new. Skips state (Reshapes path.now len (plain_ranges ranges.now)) (now old) (now new))) }
    ensures cause { HasCause (F.faults folder.old) (F.faults folder.new) (IsErr result) }
{
    let can = can_reshape(folder, path, len, ranges)?;
    if can {
        reshape(folder, path, len, ranges)
    } else {
        Ok(State::Unfit)
    }
}

// Does another deed and syncs, or leaves it out if the folder doesn't fit it.
fn skip_whole<F: Folder>(folder: &mut F, deed: &Deed) -> Result<State, Device>
    requires { IsWhole (plain deed.now) }
    ensures skips { IfOk result (λ state. Changes (F.log folder.old) (F.log folder.new) (λ old new. Skips state (plain deed.now) (now old) (now new))) }
    ensures cause { HasCause (F.faults folder.old) (F.faults folder.new) (IsErr result) }
{
    match do_deed(folder, deed) {
        Ok(()) => {
            settle(folder)?;
            Ok(State::Done)
        }
        Err(FolderErr::Unfit) => Ok(State::Unfit),
        Err(FolderErr::Failed) => Err(Device),
        Err(FolderErr::Memory) => Err(Device),
    }
}

// Does a deed and syncs, or leaves it out if the folder doesn't fit it, or it reshapes one of these files, which were saved anew.
fn skip_deed<F: Folder>(folder: &mut F, deed: &Deed, anew: &[VaultPath]) -> Result<State, Device>
    ensures skips { IfOk result (λ state. Changes (F.log folder.old) (F.log folder.new) (λ old new. Skips state (plain deed.now) (now old) (now new))) }
    ensures cause { HasCause (F.faults folder.old) (F.faults folder.new) (IsErr result) }
{
    match deed {
        Deed::Reshape(path, _, _) if is_among(path, anew) => Ok(State::Changed),
        Deed::Reshape(path, len, ranges) => skip_reshape(folder, path, *len, ranges),
        Deed::MakeDir(_) => skip_whole(folder, deed),
        Deed::Put(_, _) => skip_whole(folder, deed),
        Deed::Rename(_, _) => skip_whole(folder, deed),
        Deed::Remove(_) => skip_whole(folder, deed),
        Deed::RemoveDir(_) => skip_whole(folder, deed),
    }
}

/// Adds a deed and its state.
pub(crate) fn add_state(
    states: &mut Vec<DeedState>,
    deed: Deed,
    state: State,
) -> Result<(), AllocError>
    ensures { OnOk result (states.new.items ≡ states.old.items ++ record { deed = deed; state = state } ∷ []) }
{
    states.push(DeedState { deed, state })?;
    Ok(())
}

// Does deeds in order, and leaves out those that the folder doesn't fit, or that reshape these files.
fn skip_all<F: Folder>(
    alloc: Global,
    folder: &mut F,
    deeds: Vec<Deed>,
    anew: &[VaultPath],
) -> Result<Vec<DeedState>, JournalErr>
    ensures deeds { IfOk result (λ states. deeds_in states.items ≡ plains deeds.items) }
    ensures skips { IfOk result (λ states. Changes (F.log folder.old) (F.log folder.new) (λ old new. SkipsAll states.items (now old) (now new))) }
    ensures undamaged { IfErr result (λ error. IfDamaged error (λ at. ⊥)) }
    ensures cause { HasCause (F.faults folder.old) (F.faults folder.new) (IsErrOf result JournalErr.Device) }
{
    let mut states = Vec::with_capacity(alloc, deeds.len())?;
    for deed in deeds {
        let state = skip_deed(folder, &deed, anew)?;
        add_state(&mut states, deed, state)?;
    }
    Ok(states)
}

// Closes the gate, if a journal is there, and syncs.
fn close<F: Folder>(folder: &mut F) -> Result<(), JournalErr>
    ensures closed { OnOk result (Changes (F.log folder.old) (F.log folder.new) (λ old new. HasClosed (now old) new)) }
    ensures damaged { IfErr result (λ error. IfDamaged error (λ at. Told (F.log folder.old) (λ log. IsFolder (now log) journal_file × (at ≡ 0)))) }
    ensures cause { HasCause (F.faults folder.old) (F.faults folder.new) (IsErrOf result JournalErr.Device) }
{
    let journal = journal_path();
    match folder.kind(&journal)? {
        Some(Kind::Dir) => Err(JournalErr::JournalDamaged(0)),
        Some(Kind::File(_)) => {
            folder.write(&journal, 0, &[CLOSED])?;
            settle(folder)?;
            Ok(())
        }
        None => {
            settle(folder)?;
            Ok(())
        }
    }
}

// Does the deeds of a batch that the folder fits, but those that reshape these files, and closes its gate.
fn skip_batch<F: Folder>(
    alloc: Global,
    folder: &mut F,
    deeds: Vec<Deed>,
    anew: &[VaultPath],
) -> Result<Vec<DeedState>, JournalErr>
    requires { Told (F.log folder.old) (λ log. HoldsBatch (now log) (plains deeds.items)) }
    ensures skipped { IfOk result (λ states. Changes (F.log folder.old) (F.log folder.new) (λ old new. HasSkipped states.items (now old) new)) }
    ensures damaged { IfErr result (λ error. IfDamaged error (λ at. Told (F.log folder.old) (λ log. SkipsToFolder (now log) at))) }
    ensures cause { HasCause (F.faults folder.old) (F.faults folder.new) (IsErrOf result JournalErr.Device) }
{
    let ordered = in_order(alloc, deeds)?;
    let states = skip_all(alloc, folder, ordered, anew)?;
    close(folder)?;
    Ok(states)
}

/// Does the deeds of the batch behind an open gate in the order of doing, but leaves out those that the folder doesn't fit, and closes the gate. Each deed is on
/// the disk before the next one is begun. `Done` says of a deed that it is done, `Unfit` that it was left out, and so does `Changed`: its file was saved anew. `None`: no gate is open. An error is one of
/// `Journal::open`; `JournalDamaged` is answered before anything is done, or at 0 if the deeds leave a folder in the journal's place. After an error the gate
/// is still open.
pub fn skip<F: Folder>(alloc: Global, folder: &mut F) -> Result<Option<Vec<DeedState>>, JournalErr>
    ensures skipped { IfOk result (λ left. Changes (F.log folder.old) (F.log folder.new)
        (λ old new. MatchOption left (HasNone (now old) new) (λ states. HasSkipped states.items (now old) new))) }
    ensures damaged { IfErr result (λ error. IfDamaged error (λ at. Told (F.log folder.old) (λ log. IsDamagedAt (now log) at ⊎ SkipsToFolder (now log) at))) }
    ensures cause { HasCause (F.faults folder.old) (F.faults folder.new) (IsErrOf result JournalErr.Device) }
{
    settle(folder)?;
    match left_batch(alloc, folder)? {
        Some(deeds) => {
            let anew = saved_anew(alloc, folder, &deeds)?;
            Ok(Some(skip_batch(alloc, folder, deeds, &anew)?))
        }
        None => Ok(None),
    }
}
