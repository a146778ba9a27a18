ghost use Rattle.std.specs.Prelude.{◌≡◌, Some, IfOk, IfErr, IsErrOf, IsTrue, MatchOption};
ghost use Rattle.outside.specs.Calls.{HasCause, Told};
ghost use Rattle.outside.specs.Disk.{file, node_at, kind_at};
ghost use Rattle.outside.specs.Images.{now};
ghost use Rattle.deeds.specs.Deeds.{MakesDir, Puts, Renames, Removes, RemovesDir, Reshapes};
ghost use Rattle.deeds.specs.Plain.{plain, plains, plain_ranges};
ghost use Rattle.chunk_journal.specs.Journal.{IsClosed, HoldsBatch};
ghost use Rattle.chunk_journal.specs.Opening.{IfDamaged, IsDamagedAt};
ghost use Rattle.journal_mending.specs.Mending.{deeds_in, IsReshaped, IsStateOn, AreStatesOn, IsInspected};

use crate::anew::{is_among, saved_anew};
use crate::looking::{comes_to_be_bare, has_all_bytes, has_bytes, has_folder_above};
use crate::order::in_order;
use crate::reshaping::can_reshape;
use crate::skipping::add_state;
use crate::state::{DeedState, State};
use crate::states::{
    make_dir_state, put_state, remove_dir_state, remove_state, rename_state, reshape_state,
};
use chunk_journal::{JournalErr, left_batch};
use deeds::{Deed, Range};
use outside::{Kind, Reads};
use std::alloc::Global;
use vault_path::VaultPath;

fn make_dir_on<R: Reads>(
    folder: &mut R,
    path: &VaultPath,
    earlier: &[DeedState],
) -> Result<State, JournalErr>
    ensures state { IfOk result (λ state. Told (R.log folder.old) (λ log. IsStateOn state (MakesDir path.now) (now log))) }
    ensures log { R.log folder.new ≡ R.log folder.old }
    ensures changes { R.changes folder.new ≡ R.changes folder.old }
    ensures cause { HasCause (R.faults folder.old) (R.faults folder.new) (IsErrOf result JournalErr.Device) }
{
    let here = folder.kind(path)?;
    let inside = has_folder_above(folder, path, earlier)?;
    Ok(make_dir_state(here, inside))
}

// Whether what is at a path is a file of these bytes.
fn is_file_of<R: Reads>(
    alloc: Global,
    folder: &mut R,
    path: &VaultPath,
    here: Option<Kind>,
    bytes: &[u8],
) -> Result<bool, JournalErr>
    requires { Told (R.log folder.old) (λ log. here ≡ kind_at (now log) path.now) }
    ensures same { IfOk result (λ same. Told (R.log folder.old) (λ log. IsTrue same → node_at (now log) path.now ≡ Some (file bytes.now))) }
    ensures log { R.log folder.new ≡ R.log folder.old }
    ensures changes { R.changes folder.new ≡ R.changes folder.old }
    ensures cause { HasCause (R.faults folder.old) (R.faults folder.new) (IsErrOf result JournalErr.Device) }
{
    if here == Some(Kind::File(bytes.len() as u64)) {
        has_bytes(alloc, folder, path, 0, bytes)
    } else {
        Ok(false)
    }
}

fn put_on<R: Reads>(
    alloc: Global,
    folder: &mut R,
    path: &VaultPath,
    bytes: &[u8],
    earlier: &[DeedState],
) -> Result<State, JournalErr>
    ensures state { IfOk result (λ state. Told (R.log folder.old) (λ log. IsStateOn state (Puts path.now bytes.now) (now log))) }
    ensures log { R.log folder.new ≡ R.log folder.old }
    ensures changes { R.changes folder.new ≡ R.changes folder.old }
    ensures cause { HasCause (R.faults folder.old) (R.faults folder.new) (IsErrOf result JournalErr.Device) }
{
    let here = folder.kind(path)?;
    let same = is_file_of(alloc, folder, path, here, bytes)?;
    let inside = has_folder_above(folder, path, earlier)?;
    Ok(put_state(bytes.len() as u64, here, same, inside))
}

fn rename_on<R: Reads>(
    folder: &mut R,
    from: &VaultPath,
    to: &VaultPath,
    earlier: &[DeedState],
) -> Result<State, JournalErr>
    ensures state { IfOk result (λ state. Told (R.log folder.old) (λ log. IsStateOn state (Renames from.now to.now) (now log))) }
    ensures log { R.log folder.new ≡ R.log folder.old }
    ensures changes { R.changes folder.new ≡ R.changes folder.old }
    ensures cause { HasCause (R.faults folder.old) (R.faults folder.new) (IsErrOf result JournalErr.Device) }
{
    let there = folder.kind(from)?;
    let here = folder.kind(to)?;
    let inside = has_folder_above(folder, to, earlier)?;
    Ok(rename_state(there, here, inside))
}

fn remove_on<R: Reads>(folder: &mut R, path: &VaultPath) -> Result<State, JournalErr>
    ensures state { IfOk result (λ state. Told (R.log folder.old) (λ log. IsStateOn state (Removes path.now) (now log))) }
    ensures log { R.log folder.new ≡ R.log folder.old }
    ensures changes { R.changes folder.new ≡ R.changes folder.old }
    ensures cause { HasCause (R.faults folder.old) (R.faults folder.new) (IsErrOf result JournalErr.Device) }
{
    let here = folder.kind(path)?;
    Ok(remove_state(here))
}

fn remove_dir_on<R: Reads>(
    alloc: Global,
    folder: &mut R,
    path: &VaultPath,
    earlier: &[DeedState],
) -> Result<State, JournalErr>
    ensures state { IfOk result (λ state. Told (R.log folder.old) (λ log. IsStateOn state (RemovesDir path.now) (now log))) }
    ensures log { R.log folder.new ≡ R.log folder.old }
    ensures changes { R.changes folder.new ≡ R.changes folder.old }
    ensures cause { HasCause (R.faults folder.old) (R.faults folder.new) (IsErrOf result JournalErr.Device) }
{
    let here = folder.kind(path)?;
    let bare = comes_to_be_bare(alloc, folder, path, earlier)?;
    Ok(remove_dir_state(here, bare))
}

// Whether a file has a length, and the bytes of all ranges.
fn is_reshaped<R: Reads>(
    alloc: Global,
    folder: &mut R,
    path: &VaultPath,
    len: u64,
    ranges: &[Range],
) -> Result<bool, JournalErr>
    ensures same { IfOk result (λ same. Told (R.log folder.old) (λ log. IsTrue same → IsReshaped (now log) path.now len (plain_ranges ranges.now))) }
    ensures log { R.log folder.new ≡ R.log folder.old }
    ensures changes { R.changes folder.new ≡ R.changes folder.old }
    ensures cause { HasCause (R.faults folder.old) (R.faults folder.new) (IsErrOf result JournalErr.Device) }
{
    let here = folder.kind(path)?;
    if here == Some(Kind::File(len)) {
        has_all_bytes(alloc, folder, path, ranges)
    } else {
        Ok(false)
    }
}

fn reshape_on<R: Reads>(
    alloc: Global,
    folder: &mut R,
    path: &VaultPath,
    len: u64,
    ranges: &[Range],
) -> Result<State, JournalErr>
    ensures state { IfOk result (λ state. Told (R.log folder.old) (λ log. IsStateOn state (Reshapes path.now len (plain_ranges ranges.now)) (now log))) }
    ensures log { R.log folder.new ≡ R.log folder.old }
    ensures changes { R.changes folder.new ≡ R.changes folder.old }
    ensures cause { HasCause (R.faults folder.old) (R.faults folder.new) (IsErrOf result JournalErr.Device) }
{
    let can = can_reshape(folder, path, len, ranges)?;
    let same = is_reshaped(alloc, folder, path, len, ranges)?;
    Ok(reshape_state(can, same))
}

// What a deed is to the folder, where the deeds before it in the order of doing are these, and these files were saved anew.
fn state_of<R: Reads>(
    alloc: Global,
    folder: &mut R,
    deed: &Deed,
    earlier: &[DeedState],
    anew: &[VaultPath],
) -> Result<State, JournalErr>
    ensures state { IfOk result (λ state. Told (R.log folder.old) (λ log. IsStateOn state (plain deed.now) (now log))) }
    ensures log { R.log folder.new ≡ R.log folder.old }
    ensures changes { R.changes folder.new ≡ R.changes folder.old }
    ensures cause { HasCause (R.faults folder.old) (R.faults folder.new) (IsErrOf result JournalErr.Device) }
{
    match deed {
        Deed::Reshape(path, _, _) if is_among(path, anew) => Ok(State::Changed),
        Deed::MakeDir(path) => make_dir_on(folder, path, earlier),
        Deed::Put(path, bytes) => put_on(alloc, folder, path, bytes, earlier),
        Deed::Rename(from, to) => rename_on(folder, from, to, earlier),
        Deed::Remove(path) => remove_on(folder, path),
        Deed::RemoveDir(path) => remove_dir_on(alloc, folder, path, earlier),
        Deed::Reshape(path, len, ranges) => reshape_on(alloc, folder, path, *len, ranges),
    }
}

// The states of deeds in order, where these files were saved anew.
fn states_of<R: Reads>(
    alloc: Global,
    folder: &mut R,
    deeds: Vec<Deed>,
    anew: &[VaultPath],
) -> Result<Vec<DeedState>, JournalErr>
    ensures deeds { IfOk result (λ states. deeds_in states.items ≡ plains deeds.items) }
    ensures states { IfOk result (λ states. Told (R.log folder.old) (λ log. AreStatesOn states.items (now log))) }
    ensures log { R.log folder.new ≡ R.log folder.old }
    ensures changes { R.changes folder.new ≡ R.changes folder.old }
    ensures cause { HasCause (R.faults folder.old) (R.faults folder.new) (IsErrOf result JournalErr.Device) }
{
    let mut states = Vec::with_capacity(alloc, deeds.len())?;
    for deed in deeds {
        let state = state_of(alloc, folder, &deed, &states, anew)?;
        add_state(&mut states, deed, state)?;
    }
    Ok(states)
}

/// The deeds of the batch behind an open gate in the order of doing, and what each is to the folder. `None`: no gate is open. Nothing is changed. `Done` and
/// `Unfit` are as the folder is now; a deed that needs one before it, as a file in a folder that is made first, or a folder that is emptied first, is `Due`
/// unless that one is `Unfit`. `Changed` is a file that another program saved anew since. An error is one of `chunk_journal::left_batch`.
pub fn inspect<R: Reads>(
    alloc: Global,
    folder: &mut R,
) -> Result<Option<Vec<DeedState>>, JournalErr>
    ensures found { IfOk result (λ left. Told (R.log folder.old)
        (λ log. MatchOption left (IsClosed (now log)) (λ states. IsInspected states.items (now log)))) }
    ensures log { R.log folder.new ≡ R.log folder.old }
    ensures changes { R.changes folder.new ≡ R.changes folder.old }
    ensures cause { HasCause (R.faults folder.old) (R.faults folder.new) (IsErrOf result JournalErr.Device) }
{
    match left_batch(alloc, folder)? {
        Some(deeds) => {
            let anew = saved_anew(alloc, folder, &deeds)?;
            let ordered = in_order(alloc, deeds)?;
            let states = states_of(alloc, folder, ordered, &anew)?;
            Ok(Some(states))
        }
        None => Ok(None),
    }
}
