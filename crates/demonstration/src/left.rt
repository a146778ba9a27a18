ghost use Rattle.std.specs.Prelude.{◌≡◌, ◌↔◌, IfOk, IsErrOf, IsTrue, map};
ghost use Rattle.std.specs.Ordering.{nat_cmp};
ghost use Rattle.std.specs.Cmp.Lexicographic.{slice_cmp};
ghost use Rattle.std.specs.declared.cmp.Ordering.TheVariants.{Less};
ghost use Rattle.std.specs.List.Sorted.{IsStrictlySortedBy};
ghost use Rattle.outside.specs.Calls.{Told};
ghost use Rattle.outside.specs.Images.{disk_in};
ghost use Rattle.tree_model.specs.Rows.{Rows};
ghost use Rattle.clear_tree.specs.Kept.{IsKept};
ghost use Rattle.tree_loading.specs.Format.{sealing_of};
ghost use Rattle.tree_deed_laws.specs.Shapes.{HasTree};
ghost use Rattle.demonstration.specs.Summary.{plain_row};
ghost use Rattle.demonstration.specs.Left.{AreDamaged, AreLeft, text_of};

use crate::error::LeftErr;
use crate::nodes::rows_of;
use crate::rows::DemoRow;
use clear_tree::Tree;
use outside::Reads;
use std::alloc::Global;
use std::cmp::Ordering;
use vault_keys::VaultKeys;

/// The rows of all nodes but the root of a tree that was loaded from a vault's folder under these keys, in the order of their paths' bytes. The folder is only
/// read.
///
/// # Errors
///
/// The folder failed; a content file is damaged, or two nodes have one path; out of memory.
pub fn rows_left<R: Reads>(
    alloc: Global,
    folder: &mut R,
    keys: &VaultKeys,
    tree: &Tree,
) -> Result<Vec<DemoRow>, LeftErr>
    ensures left { IfOk result (λ rows. Told (disk_in (R.log folder.old)) (λ d. IsKept (sealing_of keys.now) d tree.now
        → (shown : Rows) → HasTree (sealing_of keys.now) d shown → AreLeft shown (map plain_row rows.items))) }
    ensures damaged { IsErrOf result LeftErr.Damaged → Told (disk_in (R.log folder.old)) (λ d. IsKept (sealing_of keys.now) d tree.now
        → (shown : Rows) → HasTree (sealing_of keys.now) d shown → AreDamaged shown) }
    ensures log { R.log folder.new ≡ R.log folder.old }
{
    let mut rows = rows_of(alloc, folder, keys, tree)?;
    rows.sort_by(|a, b| a.path.cmp(&b.path))?;
    if !are_ordered(&rows) {
        return Err(LeftErr::Damaged);
    }
    Ok(rows)
}

// Whether each row's path is before that of the next one.
fn are_ordered(rows: &[DemoRow]) -> bool
    ensures { IsTrue result ↔ IsStrictlySortedBy (slice_cmp nat_cmp) (map text_of (map plain_row rows.now)) }
{
    for index in 1..rows.len() {
        if !stands_before(&rows[index - 1], &rows[index]) {
            return false;
        }
    }
    true
}

fn stands_before(a: &DemoRow, b: &DemoRow) -> bool
    ensures { IsTrue result ↔ (slice_cmp nat_cmp a.now.path.items b.now.path.items ≡ Less) }
{
    a.path.cmp(&b.path) == Ordering::Less
}
