ghost use Rattle.std.specs.Prelude.{◌≡◌, ℕ, Some, IsTrue};
ghost use Rattle.vault_path.specs.Parts.{is_part, is_path};
ghost use Rattle.clear_tree.specs.Places.{host_folder};
ghost use Rattle.live_tree.specs.Held.{node_of};
ghost use Rattle.node_changes.specs.Removal.{IsDirectoryAbove};

use clear_tree::What;
use live_tree::{LiveNode, LiveTree};
use vault_path::VaultPath;

/// A directory that nodes are in.
#[derive(Clone, Copy)]
pub(crate) struct Directory<'a> {
    pub(crate) identifier: &'a [u8],
    /// The 32 characters of its folder.
    pub(crate) folder: &'a [u8; 32],
}

/// The directory that a node is in.
pub(crate) fn directory_above<'a>(live: &'a LiveTree, node: &LiveNode) -> Directory<'a>
    requires { (number : ℕ) × (node_of live.now number ≡ Some node.now) }
    ensures above { IsDirectoryAbove live.now node.now result.identifier.now result.folder.now }
    ensures path { IsTrue (is_path (host_folder result.folder.now)) }
{
    // for its clause: each node is in a directory
    let _count = live.len();
    let Some(above) = live.node(node.parent()) else {
        unreachable!()
    };
    let Some(folder) = above.folder() else {
        unreachable!()
    };
    let What::Dir { identifier, .. } = above.what() else {
        unreachable!()
    };
    Directory {
        identifier: identifier.as_bytes(),
        folder,
    }
}

/// Whether host paths can be made of an entry.
pub(crate) fn is_host_part(entry: &[u8]) -> bool
    ensures { result ≡ is_part entry.now }
{
    VaultPath::root().join(entry).is_ok()
}
