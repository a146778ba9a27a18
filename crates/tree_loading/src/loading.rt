ghost use Rattle.std.specs.Prelude.{◌≡◌, ◌≤◌, ◌<◌, ℕ, length, OnOk, IfOk, IsErrOf};
ghost use Rattle.vault_layout.specs.Limits.{max_threshold};
ghost use Rattle.outside.specs.Disk.{Disk, IsFolder};
ghost use Rattle.outside.specs.Calls.{HasCause, Told};
ghost use Rattle.outside.specs.Images.{disk_in};
ghost use Rattle.tree_model.specs.Step.{node_limit};
ghost use Rattle.clear_tree.specs.Kept.{IsKept};
ghost use Rattle.clear_tree.specs.Loading.{IsLoading};
ghost use Rattle.tree_loading.specs.Format.{sealing_of};
ghost use Rattle.tree_loading.specs.Clear.{HasTooMany, LoadingIsClear, root_folder};
ghost use Rattle.tree_loading.specs.Undamaged.{UndamagedIsRead};
ghost use Rattle.tree_loading.specs.Under.{IsReady, is_claimed};
ghost use Rattle.tree_loading.specs.Turned.{FindsTooMany, GoesOn};

use crate::folders::characters_of;
use crate::load_fault::LoadErr;
use crate::naming::is_there;
use crate::nodes::Loading;
use crate::turns::turn;
use clear_tree::Tree;
use outside::Reads;
use std::alloc::Global;
use std::collections::BTreeSet;
use vault_keys::VaultKeys;
use vault_names::folder_of;

/// Loads the tree of a vault's folder: each directory by its identifier from the root on, breadth first, in O(n log n) for
/// n nodes and entries. `threshold` is the vault's shortening threshold; it decides nothing, since a name of any length is
/// read at its short place and at its long one. A directory whose folder may not be listed is a Bad node, but for the root: `Device`.
/// No changing call is made.
pub fn load<R: Reads>(
    alloc: Global,
    from: &mut R,
    keys: &VaultKeys,
    threshold: u32,
) -> Result<Tree, LoadErr>
    requires { (1 ≤ threshold) × (threshold ≤ max_threshold) }
    ensures loaded { IfOk result (λ t. Told (disk_in (R.log from.old)) (λ d. IsKept (sealing_of keys.now) d t)) }
    ensures few { IfOk result (λ t. length t.nodes ≤ node_limit) }
    ensures no_root { IsErrOf result LoadErr.NoRoot
        → Told (disk_in (R.log from.old)) (λ d. ¬ (IsFolder d (root_folder keys.now))) }
    ensures too_many { (n : ℕ) → IsErrOf result (LoadErr.TooMany n) → HasTooMany keys.now (disk_in (R.log from.old)) n }
    ensures log { R.log from.new ≡ R.log from.old }
    ensures changes { R.changes from.new ≡ R.changes from.old }
    ensures cause { HasCause (R.faults from.old) (R.faults from.new) (IsErrOf result LoadErr.Device) }
{
    let root = folder_of(keys, b"");
    if !is_there(from, &root)? {
        return Err(LoadErr::NoRoot);
    }
    // A directory that can't be listed is a Bad node, but the root can't be one.
    from.list(alloc, &root)?;
    let mut loading = root_alone(alloc, keys)?;
    walk(alloc, from, keys, &mut loading)?;
    let Loading { tree, claims: _ } = loading;
    Ok(tree)
}

/// What loading keeps of a disk determines the rows that the disk stands for. It does nothing.
pub fn loading_is_clear()
    ensures { LoadingIsClear }
{}

/// Of a disk without damage each byte is read: no read is answered damaged. It does nothing.
pub fn undamaged_is_read()
    ensures { UndamagedIsRead }
{}

// The root, before its turn.
fn root_alone(alloc: Global, keys: &VaultKeys) -> Result<Loading, LoadErr>
    ensures ready { IfOk result (λ l. IsReady keys.now l.tree 0) }
    ensures begun { IfOk result (λ l. (d : Disk) → IsLoading (sealing_of keys.now) d 0 l.tree (is_claimed l.claims)) }
    ensures root_is_there { IsErrOf result LoadErr.NoRoot → ⊥ }
    ensures few { (n : ℕ) → IsErrOf result (LoadErr.TooMany n) → ⊥ }
    ensures no_fault { IsErrOf result LoadErr.Device → ⊥ }
{
    let folder = characters_of(keys, b"");
    let tree = Tree::with_root(alloc, folder)?;
    let mut claims = BTreeSet::new(alloc);
    claims.insert(folder)?;
    Ok(Loading { tree, claims })
}

// Gives each node its turn, in the order of their numbers, until none is left.
fn walk<R: Reads>(
    alloc: Global,
    from: &mut R,
    keys: &VaultKeys,
    loading: &mut Loading,
) -> Result<(), LoadErr>
    requires { IsReady keys.now loading.old.tree 0 }
    ensures few { OnOk result (length loading.new.tree.nodes ≤ node_limit) }
    ensures walked { OnOk result (Told (disk_in (R.log from.old)) (λ d. GoesOn keys.now d 0 (length loading.new.tree.nodes) loading.old loading.new)) }
    ensures too_many { (n : ℕ) → IsErrOf result (LoadErr.TooMany n) → FindsTooMany keys.now (disk_in (R.log from.old)) 0 loading.old n }
    ensures root_is_there { IsErrOf result LoadErr.NoRoot → ⊥ }
    ensures log { R.log from.new ≡ R.log from.old }
    ensures changes { R.changes from.new ≡ R.changes from.old }
    ensures cause { HasCause (R.faults from.old) (R.faults from.new) (IsErrOf result LoadErr.Device) }
{
    let mut number = 0;
    while number < loading.tree.len() as u64 {
        turn(alloc, from, keys, loading, number)?;
        number += 1;
    }
    Ok(())
}
