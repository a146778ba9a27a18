ghost use Rattle.std.specs.Prelude.{◌≡◌, ℕ, Some};
ghost use Rattle.live_tree.specs.Held.{path_of};
ghost use Rattle.pending_files.specs.Pending.{IsInside};
ghost use Rattle.request_checks.specs.Files.{IsFileOf};
ghost use Rattle.file_changes.specs.Held.{IsHeldFile, rewritten_tree, RowsAreRewritten};

use content_reader::SealedFile;
use node_changes::VaultTree;

/// Where the host file of a file is, and how many bytes it has.
pub(crate) fn sealed_file(tree: &VaultTree, number: u64) -> SealedFile
    requires { (size : ℕ) × (clear : ℕ) × IsFileOf tree.now.live number size clear }
    ensures path { path_of tree.now.live number ≡ Some result.path }
    ensures file { (size : ℕ) (clear : ℕ) → IsFileOf tree.now.live number size clear → IsFileOf tree.now.live number result.size clear }
    ensures inside { IsInside result.path }
{
    let live = tree.live();
    // for its clause: each node is in a directory
    let _count = live.len();
    match (live.path(number), live.size(number)) {
        (Some(path), Some(size)) => SealedFile { path, size },
        _ => unreachable!(),
    }
}

/// Puts the size of a host file that changed at a second into the tree in memory, and an mtime, if one is given.
pub(crate) fn put_size(
    tree: &mut VaultTree,
    number: u64,
    size: u64,
    modified: Option<u32>,
    now: u32,
)
    requires file { IsHeldFile tree.old.live number }
    ensures live { tree.new.live ≡ rewritten_tree tree.old.live number size modified now }
    ensures rows { RowsAreRewritten tree.old.live tree.new.live number modified now }
    ensures claims { tree.new.claims ≡ tree.old.claims }
    ensures keys { tree.new.keys ≡ tree.old.keys }
    ensures threshold { tree.new.threshold ≡ tree.old.threshold }
{
    tree.touch(number, size, now);
    if let Some(modified) = modified {
        tree.set_modified(number, modified);
    }
}
