ghost use Rattle.std.specs.Prelude.{◌≡◌, IsTrue, IsErr, IfOk, IfSome};
ghost use Rattle.std.specs.Option.{option_copied};
ghost use Rattle.std.specs.FinMap.{get};
ghost use Rattle.vault_path.specs.Parts.{is_path};
ghost use Rattle.outside.specs.Calls.{HasCause, Told};
ghost use Rattle.outside.specs.Images.{disk_in};
ghost use Rattle.clear_tree.specs.Places.{host_folder};
ghost use Rattle.tree_deed_laws.specs.Taken.{if_file, if_there};
ghost use Rattle.name_places.specs.Asked.{IsTaken, claim_path, taken_folder, taken_place, taken_short};

use crate::claims::Claims;
use crate::directory::NewDirectory;
use crate::name::NewPlace;
use clear_tree::{host_folder, host_two};
use live_tree::LiveTree;
use outside::{Failed, Kind, Reads};
use vault_layout::DIRECTORY_FILE;
use vault_names::long_folder;
use vault_path::VaultPath;

/// The first path that is taken of those that a new name needs in the directory whose folder has these 32 characters: its short
/// place, if that is a part of a path, and its long one; and for a new directory its folder, a file at that folder's part of two
/// characters, and the `dir.c9r` of the first node that names the folder. `Failed` is returned only if the folder's count of
/// faults rose. It takes no memory.
pub fn taken<R: Reads>(
    folder: &mut R,
    parent: &[u8; 32],
    place: &NewPlace,
    drawn: Option<&NewDirectory>,
    live: &LiveTree,
    claims: &Claims,
) -> Result<Option<VaultPath>, Failed>
    requires parent { IsTrue (is_path (host_folder parent.now)) }
    requires drawn { IfSome drawn (λ directory. IsTrue (is_path (host_folder directory.now.folder))) }
    ensures taken { IfOk result (λ path. Told (disk_in (R.log folder.old))
        (IsTaken parent.now place.now (option_copied drawn.entry) live.now claims.now path)) }
    ensures log { R.log folder.new ≡ R.log folder.old }
    ensures changes { R.changes folder.new ≡ R.changes folder.old }
    ensures cause { HasCause (R.faults folder.old) (R.faults folder.new) (IsErr result) }
{
    if let Some(path) = taken_place(folder, parent, place.text.as_bytes())? {
        return Ok(Some(path));
    }
    match drawn {
        None => Ok(None),
        Some(directory) => taken_folder(folder, &directory.folder, live, claims),
    }
}

// The first of the two places of a text that is there.
fn taken_place<R: Reads>(
    folder: &mut R,
    parent: &[u8; 32],
    text: &[u8],
) -> Result<Option<VaultPath>, Failed>
    requires { IsTrue (is_path (host_folder parent.now)) }
    ensures taken { IfOk result (λ path. Told (disk_in (R.log folder.old)) (λ d. path ≡ taken_place d parent.now text.now)) }
    ensures log { R.log folder.new ≡ R.log folder.old }
    ensures changes { R.changes folder.new ≡ R.changes folder.old }
    ensures cause { HasCause (R.faults folder.old) (R.faults folder.new) (IsErr result) }
{
    if let Some(path) = taken_short(folder, parent, text)? {
        return Ok(Some(path));
    }
    let long = host_folder(parent).joined(&long_folder(text));
    if_there(folder, long)
}

// The short place of a text, if it is a part of a path and there.
fn taken_short<R: Reads>(
    folder: &mut R,
    parent: &[u8; 32],
    text: &[u8],
) -> Result<Option<VaultPath>, Failed>
    requires { IsTrue (is_path (host_folder parent.now)) }
    ensures taken { IfOk result (λ path. Told (disk_in (R.log folder.old)) (λ d. path ≡ taken_short d parent.now text.now)) }
    ensures log { R.log folder.new ≡ R.log folder.old }
    ensures changes { R.changes folder.new ≡ R.changes folder.old }
    ensures cause { HasCause (R.faults folder.old) (R.faults folder.new) (IsErr result) }
{
    match host_folder(parent).join(text) {
        Ok(short) => if_there(folder, short),
        Err(_) => Ok(None),
    }
}

// The first that is there of a new directory's folder, a file at its part of two characters, and a node that names it.
fn taken_folder<R: Reads>(
    folder: &mut R,
    own: &[u8; 32],
    live: &LiveTree,
    claims: &Claims,
) -> Result<Option<VaultPath>, Failed>
    requires { IsTrue (is_path (host_folder own.now)) }
    ensures taken { IfOk result (λ path. Told (disk_in (R.log folder.old))
        (λ d. path ≡ taken_folder d own.now (claim_path live.now claims.now own.now))) }
    ensures log { R.log folder.new ≡ R.log folder.old }
    ensures changes { R.changes folder.new ≡ R.changes folder.old }
    ensures cause { HasCause (R.faults folder.old) (R.faults folder.new) (IsErr result) }
{
    if let Some(path) = if_there(folder, host_folder(own))? {
        return Ok(Some(path));
    }
    if let Some(path) = if_file(folder, host_two(own))? {
        return Ok(Some(path));
    }
    Ok(claim_path(live, claims, own))
}

// The `dir.c9r` of the first node that names a folder.
fn claim_path(live: &LiveTree, claims: &Claims, own: &[u8; 32]) -> Option<VaultPath>
    ensures { result ≡ claim_path live.now claims.now own.now }
{
    let number = claims.first(own)?;
    let node = live.node(number)?;
    let above = live.node(node.parent())?.folder()?;
    // The entry of a disk's node is a part of a path.
    let entry = host_folder(above).join(node.entry()).ok()?;
    Some(entry.joined(DIRECTORY_FILE))
}

// A path, if something is there.
fn if_there<R: Reads>(folder: &mut R, path: VaultPath) -> Result<Option<VaultPath>, Failed>
    ensures there { IfOk result (λ found. Told (disk_in (R.log folder.old)) (λ d. found ≡ if_there path (get d path))) }
    ensures log { R.log folder.new ≡ R.log folder.old }
    ensures changes { R.changes folder.new ≡ R.changes folder.old }
    ensures cause { HasCause (R.faults folder.old) (R.faults folder.new) (IsErr result) }
{
    match folder.kind(&path) {
        Ok(Some(_)) => Ok(Some(path)),
        Ok(None) => Ok(None),
        Err(_) => Err(Failed),
    }
}

// A path, if a file is there.
fn if_file<R: Reads>(folder: &mut R, path: VaultPath) -> Result<Option<VaultPath>, Failed>
    ensures there { IfOk result (λ found. Told (disk_in (R.log folder.old)) (λ d. found ≡ if_file path (get d path))) }
    ensures log { R.log folder.new ≡ R.log folder.old }
    ensures changes { R.changes folder.new ≡ R.changes folder.old }
    ensures cause { HasCause (R.faults folder.old) (R.faults folder.new) (IsErr result) }
{
    match folder.kind(&path) {
        Ok(Some(Kind::File(_))) => Ok(Some(path)),
        Ok(_) => Ok(None),
        Err(_) => Err(Failed),
    }
}
