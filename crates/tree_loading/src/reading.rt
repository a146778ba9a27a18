ghost use Rattle.std.specs.Prelude.{◌≡◌, ◌≢◌, ◌↔◌, [], ◌∷◌, ◌++◌, take, length, None, Some, IsTrue, IfOk, IsErrOf, MatchOption};
ghost use Rattle.std.specs.Option.{option_map};
ghost use Rattle.vault_path.specs.Parts.{is_path};
ghost use Rattle.outside.specs.Disk.{IsFolder, IsListing, IsTree};
ghost use Rattle.outside.specs.Calls.{HasCause, Told};
ghost use Rattle.outside.specs.Images.{disk_in};
ghost use Rattle.vault_names.specs.Places.{long_folder};
ghost use Rattle.tree_loading.specs.Reading.{CanHoldNodes, CanHoldParts, entry_in, file_at, name_in};

use crate::scan_fault::ScanErr;
use outside::{FolderErr, Kind, Reads};
use std::alloc::Global;
use vault_layout::NAME_FILE;
use vault_names::{LONGEST_TEXT, long_folder};
use vault_path::{Text, VaultPath};

// No more of a `name.c9s` is read than shows whether it holds the text of a name.
const NAME_LIMIT: usize = LONGEST_TEXT + 1;

/// The path of an entry of a folder, if that is a path.
pub(crate) fn inner(folder: &VaultPath, entry: &[u8]) -> VaultPath
    requires { IsTrue (is_path (folder.now ++ entry.now ∷ [])) }
    ensures { result ≡ folder.now ++ entry.now ∷ [] }
{
    let Ok(path) = folder.join(entry) else {
        unreachable!();
    };
    path
}

/// The names in the host folder at a path, if there is one. A folder that may not be listed is as none.
pub(crate) fn names_in<R: Reads>(
    alloc: Global,
    from: &mut R,
    path: &VaultPath,
) -> Result<Option<Vec<Text>>, ScanErr>
    ensures names { IfOk result (λ names. Told (disk_in (R.log from.old)) (λ d. MatchOption names (¬ IsFolder d path.now) (λ listed. IsFolder d path.now × IsListing d path.now listed.items))) }
    ensures tree { IfOk result (λ _. Told (disk_in (R.log from.old)) IsTree) }
    ensures log { R.log from.new ≡ R.log from.old }
    ensures changes { R.changes from.new ≡ R.changes from.old }
    ensures cause { HasCause (R.faults from.old) (R.faults from.new) (IsErrOf result ScanErr.Device) }
{
    match from.kind(path)? {
        Some(Kind::Dir) => listing(alloc, from, path),
        Some(Kind::File(_)) | None => Ok(None),
    }
}

/// The names in what is a folder, if it may be listed.
pub(crate) fn listing<R: Reads>(
    alloc: Global,
    from: &mut R,
    folder: &VaultPath,
) -> Result<Option<Vec<Text>>, ScanErr>
    ensures names { IfOk result (λ names. Told (disk_in (R.log from.old)) (λ d. MatchOption names (¬ IsFolder d folder.now) (λ listed. IsFolder d folder.now × IsListing d folder.now listed.items))) }
    ensures log { R.log from.new ≡ R.log from.old }
    ensures changes { R.changes from.new ≡ R.changes from.old }
    ensures cause { HasCause (R.faults from.old) (R.faults from.new) (IsErrOf result ScanErr.Device) }
{
    match from.list(alloc, folder) {
        Ok(names) => Ok(Some(names)),
        Err(FolderErr::Unfit) => Ok(None),
        Err(FolderErr::Failed) => Err(ScanErr::Device),
        Err(FolderErr::Memory) => Err(ScanErr::Memory),
    }
}

/// Whether anything is at an entry of a folder. Nothing is if no path can name it.
pub(crate) fn is_there<R: Reads>(
    from: &mut R,
    folder: &VaultPath,
    entry: &[u8],
) -> Result<bool, ScanErr>
    requires { CanHoldParts folder.now }
    ensures there { IfOk result (λ there. Told (disk_in (R.log from.old)) (λ d. IsTrue there ↔ (entry_in d folder.now entry.now ≢ None))) }
    ensures log { R.log from.new ≡ R.log from.old }
    ensures changes { R.changes from.new ≡ R.changes from.old }
    ensures cause { HasCause (R.faults from.old) (R.faults from.new) (IsErrOf result ScanErr.Device) }
{
    let Ok(path) = folder.join(entry) else {
        return Ok(false);
    };
    let kind = from.kind(&path)?;
    Ok(kind.is_some())
}

/// The size in bytes of the host file at a path, if there is one.
pub(crate) fn size_at<R: Reads>(from: &mut R, path: &VaultPath) -> Result<Option<u64>, ScanErr>
    ensures size { IfOk result (λ size. Told (disk_in (R.log from.old)) (λ d. size ≡ option_map length (file_at d path.now))) }
    ensures tree { IfOk result (λ _. Told (disk_in (R.log from.old)) IsTree) }
    ensures log { R.log from.new ≡ R.log from.old }
    ensures changes { R.changes from.new ≡ R.changes from.old }
    ensures cause { HasCause (R.faults from.old) (R.faults from.new) (IsErrOf result ScanErr.Device) }
{
    match from.kind(path)? {
        Some(Kind::File(size)) => Ok(Some(size)),
        Some(Kind::Dir) | None => Ok(None),
    }
}

/// The first `limit` bytes of the host file at a path, if there is one.
pub(crate) fn text_at<R: Reads>(
    alloc: Global,
    from: &mut R,
    path: &VaultPath,
    limit: usize,
) -> Result<Option<Text>, ScanErr>
    ensures text { IfOk result (λ text. Told (disk_in (R.log from.old)) (λ d. text ≡ option_map (take limit) (file_at d path.now))) }
    ensures tree { IfOk result (λ _. Told (disk_in (R.log from.old)) IsTree) }
    ensures log { R.log from.new ≡ R.log from.old }
    ensures changes { R.changes from.new ≡ R.changes from.old }
    ensures cause { HasCause (R.faults from.old) (R.faults from.new) (IsErrOf result ScanErr.Device) }
{
    let Some(size) = size_at(from, path)? else {
        return Ok(None);
    };
    let room = size.min(limit as u64) as usize;
    let mut bytes = vec![in alloc; 0u8; room]?;
    let count = from.read(path, 0, &mut bytes)?;
    bytes.truncate(count);
    Ok(Some(Text::from_vec(bytes)))
}

/// What the `name.c9s` of a node folder begins with: all of it, if that can be the text of a name.
pub(crate) fn name_in<R: Reads>(
    alloc: Global,
    from: &mut R,
    node: &VaultPath,
) -> Result<Option<Text>, ScanErr>
    requires { CanHoldParts node.now }
    ensures text { IfOk result (λ text. Told (disk_in (R.log from.old)) (λ d. text ≡ name_in d node.now)) }
    ensures tree { IfOk result (λ _. Told (disk_in (R.log from.old)) IsTree) }
    ensures log { R.log from.new ≡ R.log from.old }
    ensures changes { R.changes from.new ≡ R.changes from.old }
    ensures cause { HasCause (R.faults from.old) (R.faults from.new) (IsErrOf result ScanErr.Device) }
{
    text_at(alloc, from, &inner(node, NAME_FILE), NAME_LIMIT)
}

/// Whether the folder of a text at its long place holds that text.
pub(crate) fn has_twin<R: Reads>(
    alloc: Global,
    from: &mut R,
    folder: &VaultPath,
    text: &[u8],
) -> Result<bool, ScanErr>
    requires { CanHoldNodes folder.now }
    ensures twin { IfOk result (λ twin. Told (disk_in (R.log from.old))
        (λ d. IsTrue twin ↔ (name_in d (folder.now ++ long_folder text.now ∷ []) ≡ Some text.now))) }
    ensures log { R.log from.new ≡ R.log from.old }
    ensures changes { R.changes from.new ≡ R.changes from.old }
    ensures cause { HasCause (R.faults from.old) (R.faults from.new) (IsErrOf result ScanErr.Device) }
{
    let node = inner(folder, &long_folder(text));
    let Some(_) = names_in(alloc, from, &node)? else {
        return Ok(false);
    };
    match name_in(alloc, from, &node)? {
        Some(held) => Ok(held.as_bytes() == text),
        None => Ok(false),
    }
}
