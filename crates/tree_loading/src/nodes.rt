ghost use Rattle.std.specs.Prelude.{◌≡◌, ◌≤◌, ◌+◌, ℕ, length, OnOk, IsErrOf};
ghost use Rattle.std.specs.Ordering.{nat_cmp};
ghost use Rattle.std.specs.Cmp.Lexicographic.{slice_cmp};
ghost use Rattle.std.specs.List.Sorted.{IsStrictlySortedBy};
ghost use Rattle.outside.specs.Calls.{HasCause, Told};
ghost use Rattle.outside.specs.Images.{disk_in};
ghost use Rattle.tree_model.specs.Step.{node_limit};
ghost use Rattle.clear_tree.specs.Scan.{names_of};
ghost use Rattle.tree_loading.specs.Scanned.{all_found, found_of};
ghost use Rattle.tree_loading.specs.Under.{IsReady, IsDirectoryAt, HaveOwnFolders, IsBehindLast};
ghost use Rattle.tree_loading.specs.Added.{AddsNode, AddsAll, Pushes};

use crate::found::FoundNode;
use crate::load_fault::LoadErr;
use crate::naming::{Settled, settle};
use clear_tree::{Node, Tree};
use outside::Reads;
use std::alloc::Global;
use std::collections::BTreeSet;
use vault_keys::VaultKeys;
use vault_names::Name;

/// A tree under way, and the folders that its nodes name.
#[derive(Drop)]
pub(crate) struct Loading {
    pub(crate) tree: Tree,
    pub(crate) claims: BTreeSet<[u8; 32]>,
}

/// Puts a node that was found in the directory of a number after the others.
pub(crate) fn add_node<R: Reads>(
    alloc: Global,
    from: &mut R,
    keys: &VaultKeys,
    loading: &mut Loading,
    parent: u64,
    name: Name,
    found: FoundNode,
) -> Result<(), LoadErr>
    requires behind { IsBehindLast loading.old.tree parent name }
    requires inside { IsDirectoryAt loading.old.tree parent }
    requires folders { HaveOwnFolders keys.now loading.old.tree }
    ensures pushed { OnOk result (Pushes keys.now loading.old.tree loading.new.tree parent name) }
    ensures added { OnOk result (Told (disk_in (R.log from.old)) (λ d. AddsNode keys.now d parent (found_of (name, found)) loading.old loading.new)) }
    ensures root_is_there { IsErrOf result LoadErr.NoRoot → ⊥ }
    ensures few { (n : ℕ) → IsErrOf result (LoadErr.TooMany n) → ⊥ }
    ensures log { R.log from.new ≡ R.log from.old }
    ensures changes { R.changes from.new ≡ R.changes from.old }
    ensures cause { HasCause (R.faults from.old) (R.faults from.new) (IsErrOf result LoadErr.Device) }
{
    let FoundNode {
        entry,
        long,
        shown,
        shadowed,
    } = found;
    let Settled { what, again } = settle(alloc, from, keys, &mut loading.claims, shown)?;
    let node = Node::new(parent, name.into_text(), what, entry, long, shadowed);
    loading.tree.push(node)?;
    if again {
        loading.tree.mark_twice(true);
    }
    Ok(())
}

/// Puts the nodes that were found in the directory of a number after the others.
pub(crate) fn add_nodes<R: Reads>(
    alloc: Global,
    from: &mut R,
    keys: &VaultKeys,
    loading: &mut Loading,
    parent: u64,
    nodes: Vec<(Name, FoundNode)>,
) -> Result<(), LoadErr>
    requires ready { IsReady keys.now loading.old.tree parent }
    requires room { length loading.old.tree.nodes + length nodes.items ≤ node_limit }
    requires inside { IsDirectoryAt loading.old.tree parent }
    requires sorted { IsStrictlySortedBy (slice_cmp nat_cmp) (names_of (all_found nodes.items)) }
    ensures ready { OnOk result (IsReady keys.now loading.new.tree (parent + 1)) }
    ensures longer { OnOk result (length loading.old.tree.nodes ≤ length loading.new.tree.nodes) }
    ensures added { OnOk result (Told (disk_in (R.log from.old)) (λ d. AddsAll keys.now d parent (all_found nodes.items) loading.old loading.new)) }
    ensures root_is_there { IsErrOf result LoadErr.NoRoot → ⊥ }
    ensures few { (n : ℕ) → IsErrOf result (LoadErr.TooMany n) → ⊥ }
    ensures log { R.log from.new ≡ R.log from.old }
    ensures changes { R.changes from.new ≡ R.changes from.old }
    ensures cause { HasCause (R.faults from.old) (R.faults from.new) (IsErrOf result LoadErr.Device) }
{
    for (name, found) in nodes {
        add_node(alloc, from, keys, loading, parent, name, found)?;
    }
    Ok(())
}
