ghost use Rattle.std.specs.Prelude.{◌≡◌, ℕ, List, Some, Contains, IfOk, IsErrOf};
ghost use Rattle.std.specs.Ordering.{nat_cmp};
ghost use Rattle.std.specs.Cmp.Lexicographic.{slice_cmp};
ghost use Rattle.std.specs.List.Sorted.{IsStrictlySortedBy};
ghost use Rattle.std.specs.Map.{keys_of};
ghost use Rattle.outside.specs.Disk.{IsFolder};
ghost use Rattle.outside.specs.Calls.{HasCause, Told};
ghost use Rattle.outside.specs.Images.{disk_in};
ghost use Rattle.clear_tree.specs.Places.{host_folder};
ghost use Rattle.clear_tree.specs.Scan.{IsScanned, names_of};
ghost use Rattle.tree_loading.specs.Format.{sealing_of};
ghost use Rattle.tree_loading.specs.declared.found.FoundNode.{FoundNode};
ghost use Rattle.tree_loading.specs.Entries.{AreThere, IsGathered, node_named};

use crate::entry::{Entry, entry_of};
use crate::found::FoundNode;
use crate::laws::are_ciphers;
use crate::reading::names_in;
use crate::scan_fault::ScanErr;
use crate::scanned::Scanned;
use outside::Reads;
use std::alloc::{AllocError, Global};
use std::collections::BTreeMap;
use vault_keys::VaultKeys;
use vault_names::Name;
use vault_path::{Text, VaultPath};

/// Reads the folder of the directory with this identifier: which nodes it shows, in the order of their names' bytes, and
/// whether it has foreign entries, in O(n log n) for n entries. A folder that may not be listed shows nothing. Of a `name.c9s` at most 1,393 bytes are read, of a
/// `dir.c9r` at most 1,001. No changing call is made.
pub fn scan<R: Reads>(
    alloc: Global,
    from: &mut R,
    keys: &VaultKeys,
    identifier: &[u8],
    folder: &VaultPath,
) -> Result<Scanned, ScanErr>
    requires { folder.now ≡ host_folder ((sealing_of keys.now).folder_of identifier.now) }
    ensures scanned { IfOk result (λ s. Told (disk_in (R.log from.old))
        (λ d. IsFolder d folder.now → IsScanned (sealing_of keys.now) d identifier.now s.found s.foreign)) }
    ensures sorted { IfOk result (λ s. IsStrictlySortedBy (slice_cmp nat_cmp) (names_of s.found)) }
    ensures log { R.log from.new ≡ R.log from.old }
    ensures changes { R.changes from.new ≡ R.changes from.old }
    ensures cause { HasCause (R.faults from.old) (R.faults from.new) (IsErrOf result ScanErr.Device) }
{
    are_ciphers(keys);
    let Some(entries) = names_in(alloc, from, folder)? else {
        return Ok(Scanned::new(Vec::new(alloc), false));
    };
    let gathered = gather(alloc, from, keys, identifier, folder, entries)?;
    let nodes = in_order(alloc, gathered.nodes)?;
    let scanned = Scanned::new(nodes, gathered.foreign);
    Ok(scanned)
}

// What the entries of a directory's folder are.
#[derive(Drop)]
struct Gathered {
    nodes: BTreeMap<Name, FoundNode>,
    foreign: bool,
}

fn gather<R: Reads>(
    alloc: Global,
    from: &mut R,
    keys: &VaultKeys,
    identifier: &[u8],
    folder: &VaultPath,
    entries: Vec<Text>,
) -> Result<Gathered, ScanErr>
    requires { folder.now ≡ host_folder ((sealing_of keys.now).folder_of identifier.now) }
    ensures gathered { IfOk result (λ g. Told (disk_in (R.log from.old))
        (λ d. AreThere (sealing_of keys.now) d identifier.now entries.items
        → IsGathered (sealing_of keys.now) d identifier.now entries.items g.nodes.entries g.foreign)) }
    ensures log { R.log from.new ≡ R.log from.old }
    ensures changes { R.changes from.new ≡ R.changes from.old }
    ensures cause { HasCause (R.faults from.old) (R.faults from.new) (IsErrOf result ScanErr.Device) }
{
    are_ciphers(keys);
    let mut nodes = BTreeMap::new(alloc);
    let mut taken = Vec::new(alloc);
    let mut foreign = false;
    for entry in entries {
        match entry_of(alloc, from, keys, identifier, folder, entry)? {
            Entry::Node(name, node) => {
                nodes.insert(name, node)?;
            }
            Entry::Taken(name) => {
                taken.push(name)?;
                foreign = true;
            }
            Entry::Foreign => foreign = true,
            Entry::Copy => {}
        }
    }
    // At a short place that a link of the host has, `kind` has found nothing.
    leave_out(&mut nodes, taken);
    Ok(Gathered { nodes, foreign })
}

// Leaves out the nodes of these names.
fn leave_out(nodes: &mut BTreeMap<Name, FoundNode>, names: Vec<Name>)
    ensures fewer { (name : List ℕ) (node : FoundNode) → node_named nodes.new.entries name ≡ Some node → node_named nodes.old.entries name ≡ Some node }
    ensures others { (name : List ℕ) → ¬ Contains names.items name → node_named nodes.new.entries name ≡ node_named nodes.old.entries name }
{
    for name in names {
        nodes.remove(&name);
    }
}

// The nodes in the order of their names' bytes.
fn in_order(
    alloc: Global,
    nodes: BTreeMap<Name, FoundNode>,
) -> Result<Vec<(Name, FoundNode)>, AllocError>
    ensures same { IfOk result (λ v. v.items ≡ nodes.entries) }
    ensures sorted { IfOk result (λ v. IsStrictlySortedBy (slice_cmp nat_cmp) (keys_of v.items)) }
{
    nodes.into_iter().collect(alloc)
}
