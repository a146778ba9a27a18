ghost use Rattle.std.specs.Prelude.{◌≡◌, IfOk, IsErrOf};
ghost use Rattle.outside.specs.Calls.{HasCause, Told};
ghost use Rattle.outside.specs.Disk.{Disk, Path, IsFolder, IsListing};
ghost use Rattle.outside.specs.Images.{now, disk_in};
ghost use Rattle.deeds.specs.Deeds.{RemovesDir, DoesAll, IsOneOf, in_order};
ghost use Rattle.deeds.specs.Plain.{plain, plains};
ghost use Rattle.deeds.specs.Repeatable.{IsRepeatable};
ghost use Rattle.batch_looks.specs.Foreign.{HasForeign};

use crate::misfit::Misfit;
use crate::named::{has_unnamed, is_listed, is_made};
use deeds::Deed;
use outside::{FolderErr, Kind, Reads};
use std::alloc::Global;
use vault_path::{Text, VaultPath};

/// Looks whether a folder has what the deeds of a batch need. Where it hasn't, because another program changed it, that is
/// reported to the folder (`Device`), but for an entry of a folder that is to be removed (`Foreign`). Nothing is changed.
pub fn look<R: Reads>(alloc: Global, folder: &mut R, deeds: &[Deed]) -> Result<(), Misfit>
    requires { IsRepeatable (plains deeds.now) }
    ensures foreign { IsErrOf result Misfit.Foreign
        → Told (R.log folder.old) (λ log. (after : Disk) → DoesAll (in_order (plains deeds.now)) (now log) after → ⊥) }
    ensures removing { IsErrOf result Misfit.Foreign → (path : Path) × IsOneOf (RemovesDir path) (plains deeds.now) }
    ensures log { R.log folder.new ≡ R.log folder.old }
    ensures changes { R.changes folder.new ≡ R.changes folder.old }
    ensures cause { HasCause (R.faults folder.old) (R.faults folder.new) (IsErrOf result Misfit.Device) }
{
    for deed in deeds {
        need_of(alloc, folder, deed, deeds)?;
    }
    Ok(())
}

// Looks whether a folder has what one of the deeds needs.
fn need_of<R: Reads>(
    alloc: Global,
    folder: &mut R,
    deed: &Deed,
    deeds: &[Deed],
) -> Result<(), Misfit>
    ensures foreign { IsErrOf result Misfit.Foreign → (path : Path) × (plain deed.now ≡ RemovesDir path)
        × Told (disk_in (R.log folder.old)) (HasForeign path (plains deeds.now)) }
    ensures log { R.log folder.new ≡ R.log folder.old }
    ensures changes { R.changes folder.new ≡ R.changes folder.old }
    ensures cause { HasCause (R.faults folder.old) (R.faults folder.new) (IsErrOf result Misfit.Device) }
{
    match deed {
        Deed::MakeDir(path) => {
            need_above(folder, path, deeds)?;
            need_dir_or_nothing(folder, path)
        }
        Deed::Put(path, bytes) => {
            need_above(folder, path, deeds)?;
            need_free(folder, path, bytes.len() as u64)
        }
        Deed::Rename(from, to) => {
            need_file(folder, from)?;
            need_above(folder, to, deeds)?;
            need_room(folder, to)
        }
        Deed::Remove(path) => need_removable(alloc, folder, path),
        Deed::RemoveDir(path) => need_emptied(alloc, folder, path, deeds),
        Deed::Reshape(path, _, _) => need_file(folder, path),
    }
}

// A folder above a path, or a deed that makes it.
fn need_above<R: Reads>(folder: &mut R, path: &VaultPath, deeds: &[Deed]) -> Result<(), Misfit>
    ensures own { IsErrOf result Misfit.Foreign → ⊥ }
    ensures log { R.log folder.new ≡ R.log folder.old }
    ensures changes { R.changes folder.new ≡ R.changes folder.old }
    ensures cause { HasCause (R.faults folder.old) (R.faults folder.new) (IsErrOf result Misfit.Device) }
{
    let above = path.parent();
    if is_made(&above, deeds) {
        return Ok(());
    }
    let found = found(folder, &above)?;
    expect(folder, &above, matches!(found, Some(Kind::Dir)))
}

// A folder or nothing.
fn need_dir_or_nothing<R: Reads>(folder: &mut R, path: &VaultPath) -> Result<(), Misfit>
    ensures own { IsErrOf result Misfit.Foreign → ⊥ }
    ensures log { R.log folder.new ≡ R.log folder.old }
    ensures changes { R.changes folder.new ≡ R.changes folder.old }
    ensures cause { HasCause (R.faults folder.old) (R.faults folder.new) (IsErrOf result Misfit.Device) }
{
    let found = found(folder, path)?;
    expect(folder, path, matches!(found, Some(Kind::Dir) | None))
}

// A file.
fn need_file<R: Reads>(folder: &mut R, path: &VaultPath) -> Result<(), Misfit>
    ensures own { IsErrOf result Misfit.Foreign → ⊥ }
    ensures log { R.log folder.new ≡ R.log folder.old }
    ensures changes { R.changes folder.new ≡ R.changes folder.old }
    ensures cause { HasCause (R.faults folder.old) (R.faults folder.new) (IsErrOf result Misfit.Device) }
{
    let found = found(folder, path)?;
    expect(folder, path, matches!(found, Some(Kind::File(_))))
}

// A file of at most so many bytes, or nothing.
fn need_free<R: Reads>(folder: &mut R, path: &VaultPath, most: u64) -> Result<(), Misfit>
    ensures own { IsErrOf result Misfit.Foreign → ⊥ }
    ensures log { R.log folder.new ≡ R.log folder.old }
    ensures changes { R.changes folder.new ≡ R.changes folder.old }
    ensures cause { HasCause (R.faults folder.old) (R.faults folder.new) (IsErrOf result Misfit.Device) }
{
    let is_free = match found(folder, path)? {
        Some(Kind::File(len)) => len <= most,
        Some(Kind::Dir) => false,
        None => true,
    };
    expect(folder, path, is_free)
}

// Nothing: no file is moved over another.
fn need_room<R: Reads>(folder: &mut R, path: &VaultPath) -> Result<(), Misfit>
    ensures own { IsErrOf result Misfit.Foreign → ⊥ }
    ensures log { R.log folder.new ≡ R.log folder.old }
    ensures changes { R.changes folder.new ≡ R.changes folder.old }
    ensures cause { HasCause (R.faults folder.old) (R.faults folder.new) (IsErrOf result Misfit.Device) }
{
    let found = found(folder, path)?;
    expect(folder, path, found.is_none())
}

// A file or nothing.
fn need_removable<R: Reads>(alloc: Global, folder: &mut R, path: &VaultPath) -> Result<(), Misfit>
    ensures own { IsErrOf result Misfit.Foreign → ⊥ }
    ensures log { R.log folder.new ≡ R.log folder.old }
    ensures changes { R.changes folder.new ≡ R.changes folder.old }
    ensures cause { HasCause (R.faults folder.old) (R.faults folder.new) (IsErrOf result Misfit.Device) }
{
    match found(folder, path)? {
        Some(kind) => expect(folder, path, matches!(kind, Kind::File(_))),
        None => need_nothing(alloc, folder, path),
    }
}

// Nothing where no kind was found: a link, say, has none, but a name in the folder above.
fn need_nothing<R: Reads>(alloc: Global, folder: &mut R, path: &VaultPath) -> Result<(), Misfit>
    ensures own { IsErrOf result Misfit.Foreign → ⊥ }
    ensures log { R.log folder.new ≡ R.log folder.old }
    ensures changes { R.changes folder.new ≡ R.changes folder.old }
    ensures cause { HasCause (R.faults folder.old) (R.faults folder.new) (IsErrOf result Misfit.Device) }
{
    let above = path.parent();
    if found(folder, &above)?.is_none() {
        return Ok(());
    }
    let entries = entries(alloc, folder, &above)?;
    expect(folder, path, !is_listed(path, &above, &entries))
}

// A folder each of whose entries is named by a deed, or nothing.
fn need_emptied<R: Reads>(
    alloc: Global,
    folder: &mut R,
    path: &VaultPath,
    deeds: &[Deed],
) -> Result<(), Misfit>
    ensures foreign { IsErrOf result Misfit.Foreign → Told (disk_in (R.log folder.old)) (HasForeign path.now (plains deeds.now)) }
    ensures log { R.log folder.new ≡ R.log folder.old }
    ensures changes { R.changes folder.new ≡ R.changes folder.old }
    ensures cause { HasCause (R.faults folder.old) (R.faults folder.new) (IsErrOf result Misfit.Device) }
{
    if found(folder, path)?.is_none() {
        return need_nothing(alloc, folder, path);
    }
    let entries = entries(alloc, folder, path)?;
    if has_unnamed(path, &entries, deeds) {
        return Err(Misfit::Foreign);
    }
    Ok(())
}

// The names in a folder.
fn entries<R: Reads>(alloc: Global, folder: &mut R, path: &VaultPath) -> Result<Vec<Text>, Misfit>
    ensures names { IfOk result (λ names. Told (disk_in (R.log folder.old)) (λ d. IsFolder d path.now × IsListing d path.now names.items)) }
    ensures own { IsErrOf result Misfit.Foreign → ⊥ }
    ensures log { R.log folder.new ≡ R.log folder.old }
    ensures changes { R.changes folder.new ≡ R.changes folder.old }
    ensures cause { HasCause (R.faults folder.old) (R.faults folder.new) (IsErrOf result Misfit.Device) }
{
    match folder.list(alloc, path) {
        Ok(names) => Ok(names),
        Err(FolderErr::Unfit) => {
            folder.report_changed(path);
            Err(Misfit::Device)
        }
        Err(FolderErr::Failed) => Err(Misfit::Device),
        Err(FolderErr::Memory) => Err(Misfit::Memory),
    }
}

// What is at a path.
fn found<R: Reads>(folder: &mut R, path: &VaultPath) -> Result<Option<Kind>, Misfit>
    ensures own { IsErrOf result Misfit.Foreign → ⊥ }
    ensures log { R.log folder.new ≡ R.log folder.old }
    ensures changes { R.changes folder.new ≡ R.changes folder.old }
    ensures cause { HasCause (R.faults folder.old) (R.faults folder.new) (IsErrOf result Misfit.Device) }
{
    match folder.kind(path) {
        Ok(kind) => Ok(kind),
        Err(FolderErr::Failed | FolderErr::Unfit | FolderErr::Memory) => Err(Misfit::Device),
    }
}

// Reports a path at which isn't what a deed needs.
fn expect<R: Reads>(folder: &mut R, path: &VaultPath, fits: bool) -> Result<(), Misfit>
    ensures own { IsErrOf result Misfit.Foreign → ⊥ }
    ensures log { R.log folder.new ≡ R.log folder.old }
    ensures changes { R.changes folder.new ≡ R.changes folder.old }
    ensures cause { HasCause (R.faults folder.old) (R.faults folder.new) (IsErrOf result Misfit.Device) }
{
    if fits {
        return Ok(());
    }
    folder.report_changed(path);
    Err(Misfit::Device)
}
