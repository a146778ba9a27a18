ghost use Rattle.std.specs.Prelude.{◌≡◌, IsTrue};
ghost use Rattle.vault_path.specs.Parts.{is_part};
ghost use Rattle.tree_deed_laws.specs.Deeds.{entry_path, inner_path};
ghost use Rattle.node_deeds.specs.Made.{IsHostPlace, place_at};

use clear_tree::{host_entry, host_inner};
use vault_path::VaultPath;

/// A place of a node: the 32 characters of its directory's folder, its entry there, and whether that is the long place.
#[derive(Clone, Copy, Debug)]
pub struct Place<'a> {
    pub folder: &'a [u8; 32],
    pub entry: &'a [u8],
    pub long: bool,
}

/// The path of the entry.
pub(crate) fn entry_of(place: &Place) -> VaultPath
    requires { IsHostPlace (place_at place.now) }
    ensures { result ≡ entry_path (place_at place.now) }
{
    host_entry(place.folder, place.entry)
}

/// The path of a file in the node folder there.
pub(crate) fn inner_of(place: &Place, file: &[u8]) -> VaultPath
    requires place { IsHostPlace (place_at place.now) }
    requires file { IsTrue (is_part file.now) }
    ensures { result ≡ inner_path (place_at place.now) file.now }
{
    host_inner(place.folder, place.entry, file)
}
