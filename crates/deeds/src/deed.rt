ghost use Rattle.std.specs.Prelude.{◌≡◌, ◌↔◌, [], ◌∷◌, IfOk, IfErr, OnOk, IsErrOf, IsTrue};
ghost use Rattle.outside.specs.Calls.{HasCause, Told, Changes, IsUnfit};
ghost use Rattle.outside.specs.Disk.{Disk};
ghost use Rattle.outside.specs.Images.{now, IsSteady};
ghost use Rattle.deeds.specs.Deeds.{MakesDir, Puts, Renames, Removes, RemovesDir, HoldsNoMore, HoldsSame, IsDoneAlready, Does, DoesAll, StaysAmid, GoesOnAt, names, named, is_of, of_phase, IsRefusal, IsRefusedIn, IfUnfit, IsWithin, AreWithin};
ghost use Rattle.outside.specs.Unsynced.{IsSynced};
ghost use Rattle.deeds.specs.Applying.{KeepsStill, StaysApplied, StaysRefused, HasBrokenOff, HasStopped};
ghost use Rattle.deeds.specs.Plain.{plain, plains};

use crate::compare::same_bytes;
use crate::phase::{DeedErr, Phase};
use crate::writes::{Range, do_reshape};
use outside::{Folder, FolderErr, Kind, Reads};
use vault_path::VaultPath;

/// A change of a folder that a batch names.
#[derive(Debug, Drop)]
pub enum Deed {
    /// Makes a folder if there is none yet.
    MakeDir(VaultPath),
    /// Puts a file with these bytes. It doesn't fit where a longer file is.
    Put(VaultPath, Vec<u8>),
    /// Moves a file. It doesn't fit where another file is at the name that it goes to.
    Rename(VaultPath, VaultPath),
    /// Removes a file, if one is there.
    Remove(VaultPath),
    /// Removes an empty folder, if one is there.
    RemoveDir(VaultPath),
    /// Writes ranges of a file in order, and cuts it to a length in bytes.
    Reshape(VaultPath, u64, Vec<Range>),
}

impl Deed {
    /// Whether the deed is done in this phase.
    pub fn is_of(&self, phase: Phase) -> bool
        ensures { result ≡ is_of phase (plain self.now) }
    {
        match self {
            Deed::MakeDir(_) | Deed::Put(_, _) | Deed::Reshape(_, _, _) => {
                matches!(phase, Phase::Make)
            }
            Deed::Rename(_, _) => matches!(phase, Phase::Move),
            Deed::Remove(_) | Deed::RemoveDir(_) => matches!(phase, Phase::Remove),
        }
    }
}

// Whether nothing is at `from` and something is at `to`.
fn is_moved<F: Reads>(folder: &mut F, from: &VaultPath, to: &VaultPath) -> Result<bool, FolderErr>
    ensures moved { IfOk result (λ moved. Told (F.log folder.old) (λ log. IsTrue moved ↔ IsDoneAlready (Renames from.now to.now) (now log))) }
    ensures log { F.log folder.new ≡ F.log folder.old }
    ensures fits { IsErrOf result FolderErr.Unfit → ⊥ }
    ensures no_memory { IsErrOf result FolderErr.Memory → ⊥ }
    ensures cause { HasCause (F.faults folder.old) (F.faults folder.new) (IsErrOf result FolderErr.Failed) }
{
    let gone = folder.kind(from)?.is_none();
    let there = folder.kind(to)?.is_some();
    Ok(gone && there)
}

// Makes a folder.
fn do_make_dir<F: Folder>(folder: &mut F, path: &VaultPath) -> Result<(), FolderErr>
    ensures done { OnOk result (Changes (F.log folder.old) (F.log folder.new) (λ old new. Does (MakesDir path.now) (now old) (now new))) }
    ensures amid { Changes (F.log folder.old) (F.log folder.new) (StaysAmid (MakesDir path.now ∷ [])) }
    ensures grown { Changes (F.log folder.old) (F.log folder.new) (GoesOnAt (path.now ∷ [])) }
    ensures still { Changes (F.log folder.old) (F.log folder.new) (KeepsStill (MakesDir path.now)) }
    ensures unfit { IsErrOf result FolderErr.Unfit
        → IsUnfit (F.log folder.old) (F.faults folder.old) (F.faults folder.new) (λ log. (after : Disk) × Does (MakesDir path.now) (now log) after) }
    ensures no_memory { IsErrOf result FolderErr.Memory → ⊥ }
    ensures cause { HasCause (F.faults folder.old) (F.faults folder.new) (IsErrOf result FolderErr.Failed) }
{
    folder.make_dir(path)?;
    Ok(())
}

// Whether a file at the path, if one is there, has no more bytes than these.
fn holds_no_more<F: Reads>(
    folder: &mut F,
    path: &VaultPath,
    bytes: &[u8],
) -> Result<bool, FolderErr>
    ensures held { IfOk result (λ held. Told (F.log folder.old) (λ log. IsTrue held ↔ HoldsNoMore path.now bytes.now (now log))) }
    ensures log { F.log folder.new ≡ F.log folder.old }
    ensures fits { IsErrOf result FolderErr.Unfit → ⊥ }
    ensures no_memory { IsErrOf result FolderErr.Memory → ⊥ }
    ensures cause { HasCause (F.faults folder.old) (F.faults folder.new) (IsErrOf result FolderErr.Failed) }
{
    match folder.kind(path)? {
        Some(Kind::File(len)) => Ok(len <= bytes.len() as u64),
        Some(Kind::Dir) => Ok(true),
        None => Ok(true),
    }
}

// Puts a file. A longer one that is there was saved by another program, and stays.
fn do_put<F: Folder>(folder: &mut F, path: &VaultPath, bytes: &[u8]) -> Result<(), FolderErr>
    ensures done { OnOk result (Changes (F.log folder.old) (F.log folder.new) (λ old new. Does (Puts path.now bytes.now) (now old) (now new))) }
    ensures amid { Changes (F.log folder.old) (F.log folder.new) (StaysAmid (Puts path.now bytes.now ∷ [])) }
    ensures grown { Changes (F.log folder.old) (F.log folder.new) (GoesOnAt (path.now ∷ [])) }
    ensures still { Changes (F.log folder.old) (F.log folder.new) (KeepsStill (Puts path.now bytes.now)) }
    ensures unfit { IsErrOf result FolderErr.Unfit
        → IsUnfit (F.log folder.old) (F.faults folder.old) (F.faults folder.new) (λ log. (after : Disk) × Does (Puts path.now bytes.now) (now log) after) }
    ensures no_memory { IsErrOf result FolderErr.Memory → ⊥ }
    ensures cause { HasCause (F.faults folder.old) (F.faults folder.new) (IsErrOf result FolderErr.Failed) }
{
    if !holds_no_more(folder, path, bytes)? {
        folder.report_changed(path);
        return Err(FolderErr::Unfit);
    }
    folder.put(path, bytes)?;
    Ok(())
}

// Removes a file.
fn do_remove<F: Folder>(folder: &mut F, path: &VaultPath) -> Result<(), FolderErr>
    ensures done { OnOk result (Changes (F.log folder.old) (F.log folder.new) (λ old new. Does (Removes path.now) (now old) (now new))) }
    ensures amid { Changes (F.log folder.old) (F.log folder.new) (StaysAmid (Removes path.now ∷ [])) }
    ensures grown { Changes (F.log folder.old) (F.log folder.new) (GoesOnAt (path.now ∷ [])) }
    ensures still { Changes (F.log folder.old) (F.log folder.new) (KeepsStill (Removes path.now)) }
    ensures unfit { IsErrOf result FolderErr.Unfit
        → IsUnfit (F.log folder.old) (F.faults folder.old) (F.faults folder.new) (λ log. (after : Disk) × Does (Removes path.now) (now log) after) }
    ensures no_memory { IsErrOf result FolderErr.Memory → ⊥ }
    ensures cause { HasCause (F.faults folder.old) (F.faults folder.new) (IsErrOf result FolderErr.Failed) }
{
    folder.remove_file(path)?;
    Ok(())
}

// Removes a folder.
fn do_remove_dir<F: Folder>(folder: &mut F, path: &VaultPath) -> Result<(), FolderErr>
    ensures done { OnOk result (Changes (F.log folder.old) (F.log folder.new) (λ old new. Does (RemovesDir path.now) (now old) (now new))) }
    ensures amid { Changes (F.log folder.old) (F.log folder.new) (StaysAmid (RemovesDir path.now ∷ [])) }
    ensures grown { Changes (F.log folder.old) (F.log folder.new) (GoesOnAt (path.now ∷ [])) }
    ensures still { Changes (F.log folder.old) (F.log folder.new) (KeepsStill (RemovesDir path.now)) }
    ensures unfit { IsErrOf result FolderErr.Unfit
        → IsUnfit (F.log folder.old) (F.faults folder.old) (F.faults folder.new) (λ log. (after : Disk) × Does (RemovesDir path.now) (now log) after) }
    ensures no_memory { IsErrOf result FolderErr.Memory → ⊥ }
    ensures cause { HasCause (F.faults folder.old) (F.faults folder.new) (IsErrOf result FolderErr.Failed) }
{
    folder.remove_dir(path)?;
    Ok(())
}

// Whether a file at `to`, if one is there, is at `from`, too: a power cut may leave a file that is moved under both its names.
fn holds_same<F: Reads>(folder: &mut F, from: &VaultPath, to: &VaultPath) -> Result<bool, FolderErr>
    ensures held { IfOk result (λ held. Told (F.log folder.old) (λ log. IsTrue held ↔ HoldsSame from.now to.now (now log))) }
    ensures log { F.log folder.new ≡ F.log folder.old }
    ensures fits { IsErrOf result FolderErr.Unfit → ⊥ }
    ensures no_memory { IsErrOf result FolderErr.Memory → ⊥ }
    ensures cause { HasCause (F.faults folder.old) (F.faults folder.new) (IsErrOf result FolderErr.Failed) }
{
    let Some(Kind::File(len)) = folder.kind(to)? else {
        return Ok(true);
    };
    if folder.kind(from)? != Some(Kind::File(len)) {
        return Ok(false);
    }
    match same_bytes(folder, from, to, len) {
        // another program changed one of them meanwhile
        Err(FolderErr::Unfit) => Ok(false),
        answer => answer,
    }
}

// Moves a file that wasn't moved already. Another one that is at `to` was saved by another program, or is ours, moved before
// that program saved one at `from`: both stay.
fn do_rename<F: Folder>(folder: &mut F, from: &VaultPath, to: &VaultPath) -> Result<(), FolderErr>
    ensures done { OnOk result (Changes (F.log folder.old) (F.log folder.new) (λ old new. Does (Renames from.now to.now) (now old) (now new))) }
    ensures amid { Changes (F.log folder.old) (F.log folder.new) (StaysAmid (Renames from.now to.now ∷ [])) }
    ensures grown { Changes (F.log folder.old) (F.log folder.new) (GoesOnAt (from.now ∷ to.now ∷ [])) }
    ensures still { Changes (F.log folder.old) (F.log folder.new) (KeepsStill (Renames from.now to.now)) }
    ensures unfit { IsErrOf result FolderErr.Unfit
        → IsUnfit (F.log folder.old) (F.faults folder.old) (F.faults folder.new) (λ log. (after : Disk) × Does (Renames from.now to.now) (now log) after) }
    ensures no_memory { IsErrOf result FolderErr.Memory → ⊥ }
    ensures cause { HasCause (F.faults folder.old) (F.faults folder.new) (IsErrOf result FolderErr.Failed) }
{
    if is_moved(folder, from, to)? {
        return Ok(());
    }
    if holds_same(folder, from, to)? {
        folder.rename(from, to)?;
        Ok(())
    } else {
        folder.report_changed(to);
        Err(FolderErr::Unfit)
    }
}

/// Does a deed. If a file was moved already, nothing is done. A longer file at the place of a `Put`, and another file at the
/// name that a `Rename` goes to, are reported as changed, and stay.
pub fn do_deed<F: Folder>(folder: &mut F, deed: &Deed) -> Result<(), FolderErr>
    requires { IsWithin (plain deed.now) }
    ensures done { OnOk result (Changes (F.log folder.old) (F.log folder.new) (λ old new. Does (plain deed.now) (now old) (now new))) }
    ensures amid { Changes (F.log folder.old) (F.log folder.new) (StaysAmid (plain deed.now ∷ [])) }
    ensures grown { Changes (F.log folder.old) (F.log folder.new) (GoesOnAt (names (plain deed.now))) }
    ensures refused { Changes (F.log folder.old) (F.log folder.new) (StaysRefused (plain deed.now)) }
    ensures unfit { IsErrOf result FolderErr.Unfit
        → IsUnfit (F.log folder.old) (F.faults folder.old) (F.faults folder.new) (λ log. (after : Disk) × Does (plain deed.now) (now log) after) }
    ensures left { IsErrOf result FolderErr.Unfit → Changes (F.log folder.old) (F.log folder.new) (HasBrokenOff (plain deed.now)) }
    ensures no_memory { IsErrOf result FolderErr.Memory → ⊥ }
    ensures cause { HasCause (F.faults folder.old) (F.faults folder.new) (IsErrOf result FolderErr.Failed) }
{
    match deed {
        Deed::MakeDir(path) => do_make_dir(folder, path),
        Deed::Put(path, bytes) => do_put(folder, path, bytes),
        Deed::Rename(from, to) => do_rename(folder, from, to),
        Deed::Remove(path) => do_remove(folder, path),
        Deed::RemoveDir(path) => do_remove_dir(folder, path),
        Deed::Reshape(path, len, ranges) => do_reshape(folder, path, *len, ranges),
    }
}

// Does the deeds of a phase in order, up to the first that isn't done.
fn do_deeds<F: Folder>(folder: &mut F, deeds: &[Deed], phase: Phase) -> Result<(), DeedErr>
    requires within { AreWithin (plains deeds.now) }
    ensures done { OnOk result (Changes (F.log folder.old) (F.log folder.new) (λ old new. DoesAll (of_phase phase (plains deeds.now)) (now old) (now new))) }
    ensures amid { Changes (F.log folder.old) (F.log folder.new) (StaysAmid (of_phase phase (plains deeds.now))) }
    ensures grown { Changes (F.log folder.old) (F.log folder.new) (GoesOnAt (named (of_phase phase (plains deeds.now)))) }
    ensures applied { Changes (F.log folder.old) (F.log folder.new) (StaysApplied (of_phase phase (plains deeds.now))) }
    ensures unfit { IfErr result (λ error. IfUnfit error (λ index. IsRefusal (F.log folder.old) (F.faults folder.old) (F.faults folder.new) (IsRefusedIn phase (plains deeds.now) index))) }
    ensures left { IfErr result (λ error. IfUnfit error (λ at. Changes (F.log folder.old) (F.log folder.new) (HasStopped (of_phase phase (plains deeds.now))))) }
    ensures cause { HasCause (F.faults folder.old) (F.faults folder.new) (IsErrOf result DeedErr.Failed) }
{
    for (index, deed) in deeds.iter().enumerate() {
        do_at(folder, deed, index, phase)?;
    }
    Ok(())
}

// Does a deed if it is of the phase, and names its index if it is refused.
fn do_at<F: Folder>(folder: &mut F, deed: &Deed, index: usize, phase: Phase) -> Result<(), DeedErr>
    requires { IsWithin (plain deed.now) }
    ensures done { OnOk result (Changes (F.log folder.old) (F.log folder.new) (λ old new. DoesAll (of_phase phase (plain deed.now ∷ [])) (now old) (now new))) }
    ensures amid { Changes (F.log folder.old) (F.log folder.new) (StaysAmid (of_phase phase (plain deed.now ∷ []))) }
    ensures grown { Changes (F.log folder.old) (F.log folder.new) (GoesOnAt (named (of_phase phase (plain deed.now ∷ [])))) }
    ensures applied { Changes (F.log folder.old) (F.log folder.new) (StaysApplied (of_phase phase (plain deed.now ∷ []))) }
    ensures unfit { IfErr result (λ error. IfUnfit error (λ at. (at ≡ index) × IsTrue (is_of phase (plain deed.now))
        × IsUnfit (F.log folder.old) (F.faults folder.old) (F.faults folder.new) (λ log. (after : Disk) × Does (plain deed.now) (now log) after))) }
    ensures left { IfErr result (λ error. IfUnfit error (λ at. Changes (F.log folder.old) (F.log folder.new) (HasStopped (of_phase phase (plain deed.now ∷ []))))) }
    ensures cause { HasCause (F.faults folder.old) (F.faults folder.new) (IsErrOf result DeedErr.Failed) }
{
    if !deed.is_of(phase) {
        return Ok(());
    }
    match do_deed(folder, deed) {
        Ok(()) => Ok(()),
        Err(FolderErr::Unfit) => Err(DeedErr::Unfit(index)),
        Err(FolderErr::Failed) => Err(DeedErr::Failed),
        Err(FolderErr::Memory) => Err(DeedErr::Failed),
    }
}

/// Does the deeds of a phase, and syncs.
pub fn do_phase<F: Folder>(folder: &mut F, deeds: &[Deed], phase: Phase) -> Result<(), DeedErr>
    requires within { AreWithin (plains deeds.now) }
    requires steady { Told (F.log folder.old) IsSteady }
    ensures done { OnOk result (Changes (F.log folder.old) (F.log folder.new) (λ old new. IsSynced new × DoesAll (of_phase phase (plains deeds.now)) (now old) (now new))) }
    ensures amid { Changes (F.log folder.old) (F.log folder.new) (StaysAmid (of_phase phase (plains deeds.now))) }
    ensures grown { Changes (F.log folder.old) (F.log folder.new) (GoesOnAt (named (of_phase phase (plains deeds.now)))) }
    ensures applied { Changes (F.log folder.old) (F.log folder.new) (StaysApplied (of_phase phase (plains deeds.now))) }
    ensures unfit { IfErr result (λ error. IfUnfit error (λ index. IsRefusal (F.log folder.old) (F.faults folder.old) (F.faults folder.new) (IsRefusedIn phase (plains deeds.now) index))) }
    ensures left { IfErr result (λ error. IfUnfit error (λ at. Changes (F.log folder.old) (F.log folder.new) (HasStopped (of_phase phase (plains deeds.now))))) }
    ensures cause { HasCause (F.faults folder.old) (F.faults folder.new) (IsErrOf result DeedErr.Failed) }
{
    do_deeds(folder, deeds, phase)?;
    folder.sync().map_err(|_| DeedErr::Failed)
}
