ghost use Rattle.std.specs.Prelude.{◌≡◌, ◌≢◌, true, false, IsTrue, IfOk, IsErrOf, MatchOption};
ghost use Rattle.vault_path.specs.Parts.{is_part};
ghost use Rattle.outside.specs.Calls.{HasCause, Told};
ghost use Rattle.outside.specs.Images.{disk_in};
ghost use Rattle.clear_tree.specs.Places.{host_entry, host_folder, text_dirid};
ghost use Rattle.tree_loading.specs.Format.{sealing_of};
ghost use Rattle.tree_loading.specs.Ciphers.{is_long_entry};
ghost use Rattle.tree_loading.specs.Entries.{IsLongName, IsNoLongName, IsReadable};

use crate::found::FoundNode;
use crate::laws::are_ciphers;
use crate::place::{long_place, short_place};
use crate::reading::{has_twin, is_there, name_in, names_in};
use crate::scan_fault::ScanErr;
use outside::{Kind, Reads};
use std::alloc::Global;
use vault_keys::VaultKeys;
use vault_layout::IDENTIFIER_COPY;
use vault_names::{Name, open_name, reads_long};
use vault_path::{Text, VaultPath};

const LONG_SUFFIX: &str = ".c9s";

/// What an entry of a directory's folder is.
#[derive(Drop)]
pub(crate) enum Entry {
    /// A node of the directory.
    Node(Name, FoundNode),
    /// An entry that isn't the vault's at the short place of a name, which has no node then.
    Taken(Name),
    /// Another entry that isn't the vault's.
    Foreign,
    /// The copy of the directory's identifier.
    Copy,
}

/// Says what an entry of a directory's folder is, by its name and by what is there.
pub(crate) fn entry_of<R: Reads>(
    alloc: Global,
    from: &mut R,
    keys: &VaultKeys,
    identifier: &[u8],
    folder: &VaultPath,
    entry: Text,
) -> Result<Entry, ScanErr>
    requires { folder.now ≡ host_folder ((sealing_of keys.now).folder_of identifier.now) }
    ensures entry { IfOk result (λ e. Told (disk_in (R.log from.old)) (λ d. IsReadable (sealing_of keys.now) d identifier.now entry e)) }
    ensures log { R.log from.new ≡ R.log from.old }
    ensures changes { R.changes from.new ≡ R.changes from.old }
    ensures cause { HasCause (R.faults from.old) (R.faults from.new) (IsErrOf result ScanErr.Device) }
{
    are_ciphers(keys);
    let Ok(path) = folder.join(entry.as_bytes()) else {
        return Ok(Entry::Foreign);
    };
    if entry.as_bytes() == IDENTIFIER_COPY {
        identifier_copy(from, keys, identifier, entry, &path)
    } else if is_long_entry(entry.as_bytes()) {
        long_entry(alloc, from, keys, identifier, folder, entry, &path)
    } else {
        short_entry(alloc, from, keys, identifier, folder, entry, &path)
    }
}

// Whether an entry ends in `.c9s`, as the folder of a text at its long place does.
fn is_long_entry(entry: &[u8]) -> bool
    ensures { result ≡ is_long_entry entry.now }
{
    entry.strip_suffix(LONG_SUFFIX.as_bytes()).is_some()
}

// What an entry of the name of such a copy is. It is never a node.
fn identifier_copy<R: Reads>(
    from: &mut R,
    keys: &VaultKeys,
    identifier: &[u8],
    entry: Text,
    path: &VaultPath,
) -> Result<Entry, ScanErr>
    requires path { path.now ≡ host_entry ((sealing_of keys.now).folder_of identifier.now) entry }
    requires copy { entry ≡ text_dirid }
    ensures entry { IfOk result (λ e. Told (disk_in (R.log from.old)) (λ d. IsReadable (sealing_of keys.now) d identifier.now entry e)) }
    ensures log { R.log from.new ≡ R.log from.old }
    ensures changes { R.changes from.new ≡ R.changes from.old }
    ensures cause { HasCause (R.faults from.old) (R.faults from.new) (IsErrOf result ScanErr.Device) }
{
    are_ciphers(keys);
    match from.kind(path)? {
        Some(Kind::File(_)) => Ok(Entry::Copy),
        Some(Kind::Dir) | None => Ok(Entry::Foreign),
    }
}

// What an entry is that ends in `.c9s`: a node at its long place, if its name isn't at the short place.
fn long_entry<R: Reads>(
    alloc: Global,
    from: &mut R,
    keys: &VaultKeys,
    identifier: &[u8],
    folder: &VaultPath,
    entry: Text,
    node: &VaultPath,
) -> Result<Entry, ScanErr>
    requires folder { folder.now ≡ host_folder ((sealing_of keys.now).folder_of identifier.now) }
    requires node { node.now ≡ host_entry ((sealing_of keys.now).folder_of identifier.now) entry }
    requires part { IsTrue (is_part entry) }
    requires long { is_long_entry entry ≡ true }
    ensures entry { IfOk result (λ e. Told (disk_in (R.log from.old)) (λ d. IsReadable (sealing_of keys.now) d identifier.now entry e)) }
    ensures log { R.log from.new ≡ R.log from.old }
    ensures changes { R.changes from.new ≡ R.changes from.old }
    ensures cause { HasCause (R.faults from.old) (R.faults from.new) (IsErrOf result ScanErr.Device) }
{
    are_ciphers(keys);
    let Some(names) = names_in(alloc, from, node)? else {
        return Ok(Entry::Foreign);
    };
    let Some((name, text)) = long_name(alloc, from, keys, identifier, entry.as_bytes(), node)?
    else {
        return Ok(Entry::Foreign);
    };
    if is_there(from, folder, text.as_bytes())? {
        return Ok(Entry::Foreign);
    }
    let Some(place) = long_place(alloc, from, node, &names)? else {
        return Ok(Entry::Foreign);
    };
    let found = FoundNode {
        entry,
        long: true,
        shown: place.shown,
        shadowed: place.further,
    };
    Ok(Entry::Node(name, found))
}

// The name of a node at its long place, and its text, by the `name.c9s` of its folder.
fn long_name<R: Reads>(
    alloc: Global,
    from: &mut R,
    keys: &VaultKeys,
    identifier: &[u8],
    entry: &[u8],
    node: &VaultPath,
) -> Result<Option<(Name, Text)>, ScanErr>
    requires node { node.now ≡ host_entry ((sealing_of keys.now).folder_of identifier.now) entry.now }
    requires part { IsTrue (is_part entry.now) }
    ensures name { IfOk result (λ found. Told (disk_in (R.log from.old)) (λ d. MatchOption found
        (IsNoLongName (sealing_of keys.now) d identifier.now entry.now)
        (λ f. IsLongName (sealing_of keys.now) d identifier.now entry.now f.0 f.1))) }
    ensures log { R.log from.new ≡ R.log from.old }
    ensures changes { R.changes from.new ≡ R.changes from.old }
    ensures cause { HasCause (R.faults from.old) (R.faults from.new) (IsErrOf result ScanErr.Device) }
{
    let Some(text) = name_in(alloc, from, node)? else {
        return Ok(None);
    };
    if !reads_long(entry, text.as_bytes()) {
        return Ok(None);
    }
    match open_name(alloc, keys, identifier, text.as_bytes())? {
        Some(name) => Ok(Some((name, text))),
        None => Ok(None),
    }
}

// What an entry is that doesn't end in `.c9s`: a node at its short place.
fn short_entry<R: Reads>(
    alloc: Global,
    from: &mut R,
    keys: &VaultKeys,
    identifier: &[u8],
    folder: &VaultPath,
    entry: Text,
    node: &VaultPath,
) -> Result<Entry, ScanErr>
    requires folder { folder.now ≡ host_folder ((sealing_of keys.now).folder_of identifier.now) }
    requires node { node.now ≡ host_entry ((sealing_of keys.now).folder_of identifier.now) entry }
    requires part { IsTrue (is_part entry) }
    requires short { is_long_entry entry ≡ false }
    requires no_copy { entry ≢ text_dirid }
    ensures entry { IfOk result (λ e. Told (disk_in (R.log from.old)) (λ d. IsReadable (sealing_of keys.now) d identifier.now entry e)) }
    ensures log { R.log from.new ≡ R.log from.old }
    ensures changes { R.changes from.new ≡ R.changes from.old }
    ensures cause { HasCause (R.faults from.old) (R.faults from.new) (IsErrOf result ScanErr.Device) }
{
    are_ciphers(keys);
    let Some(name) = open_name(alloc, keys, identifier, entry.as_bytes())? else {
        return Ok(Entry::Foreign);
    };
    let Some(place) = short_place(alloc, from, node)? else {
        return Ok(Entry::Taken(name));
    };
    let twin = has_twin(alloc, from, folder, entry.as_bytes())?;
    let shadowed = place.is_shadowed(twin);
    let found = FoundNode {
        entry,
        long: false,
        shown: place.shown,
        shadowed,
    };
    Ok(Entry::Node(name, found))
}
