ghost use Rattle.std.specs.Prelude.{◌≡◌, ◌≤◌, ◌<◌, ◌+◌, ℕ, length, OnOk, IfOk, IfSome, IfNone, IsErrOf};
ghost use Rattle.std.specs.Ordering.{nat_cmp};
ghost use Rattle.std.specs.Cmp.Lexicographic.{slice_cmp};
ghost use Rattle.std.specs.List.Sorted.{IsStrictlySortedBy};
ghost use Rattle.outside.specs.Calls.{HasCause, Told};
ghost use Rattle.outside.specs.Images.{disk_in};
ghost use Rattle.clear_tree.specs.Scan.{names_of};
ghost use Rattle.tree_loading.specs.Under.{IsReady, HaveOwnFolders};
ghost use Rattle.tree_loading.specs.Turned.{GoesOn, IsScanAt, IsNoDirectory, FindsTooMany};

use crate::load_fault::LoadErr;
use crate::nodes::{Loading, add_nodes};
use crate::scanned::Scanned;
use crate::scanning::scan;
use clear_tree::{Tree, What, host_folder};
use outside::Reads;
use std::alloc::Global;
use vault_keys::VaultKeys;

// The most nodes that a tree may have.
const NODE_LIMIT: usize = 1_048_576;

/// The turn of the node of a number: if it is a directory, its folder is scanned and its nodes are put after the
/// others.
pub(crate) fn turn<R: Reads>(
    alloc: Global,
    from: &mut R,
    keys: &VaultKeys,
    loading: &mut Loading,
    number: u64,
) -> Result<(), LoadErr>
    requires inside { number < length loading.old.tree.nodes }
    requires ready { IsReady keys.now loading.old.tree number }
    ensures ready { OnOk result (IsReady keys.now loading.new.tree (number + 1)) }
    ensures longer { OnOk result (length loading.old.tree.nodes ≤ length loading.new.tree.nodes) }
    ensures turned { OnOk result (Told (disk_in (R.log from.old)) (λ d. GoesOn keys.now d number (number + 1) loading.old loading.new)) }
    ensures too_many { (n : ℕ) → IsErrOf result (LoadErr.TooMany n) → FindsTooMany keys.now (disk_in (R.log from.old)) number loading.old n }
    ensures root_is_there { IsErrOf result LoadErr.NoRoot → ⊥ }
    ensures log { R.log from.new ≡ R.log from.old }
    ensures changes { R.changes from.new ≡ R.changes from.old }
    ensures cause { HasCause (R.faults from.old) (R.faults from.new) (IsErrOf result LoadErr.Device) }
{
    let Some(scanned) = scan_at(alloc, from, keys, &loading.tree, number)? else {
        return Ok(());
    };
    let foreign = scanned.has_foreign();
    let nodes = scanned.into_nodes();
    if nodes.len() > NODE_LIMIT - loading.tree.len() {
        return Err(LoadErr::TooMany(NODE_LIMIT as u64 + 1));
    }
    add_nodes(alloc, from, keys, loading, number, nodes)?;
    loading.tree.mark_foreign(number, foreign);
    Ok(())
}

// What the folder of the node of a number shows, if that is a directory.
fn scan_at<R: Reads>(
    alloc: Global,
    from: &mut R,
    keys: &VaultKeys,
    tree: &Tree,
    number: u64,
) -> Result<Option<Scanned>, LoadErr>
    requires { HaveOwnFolders keys.now tree.now }
    ensures other { IfOk result (λ o. IfNone o (IsNoDirectory tree.now number)) }
    ensures scanned { IfOk result (λ o. IfSome o (λ s. IsScanAt keys.now (disk_in (R.log from.old)) tree.now number s)) }
    ensures sorted { IfOk result (λ o. IfSome o (λ s. IsStrictlySortedBy (slice_cmp nat_cmp) (names_of s.found))) }
    ensures root_is_there { IsErrOf result LoadErr.NoRoot → ⊥ }
    ensures few { (n : ℕ) → IsErrOf result (LoadErr.TooMany n) → ⊥ }
    ensures log { R.log from.new ≡ R.log from.old }
    ensures changes { R.changes from.new ≡ R.changes from.old }
    ensures cause { HasCause (R.faults from.old) (R.faults from.new) (IsErrOf result LoadErr.Device) }
{
    let Some(node) = tree.node(number) else {
        return Ok(None);
    };
    let What::Dir { identifier, folder } = node.what() else {
        return Ok(None);
    };
    let path = host_folder(folder);
    let scanned = scan(alloc, from, keys, identifier.as_bytes(), &path)?;
    Ok(Some(scanned))
}
