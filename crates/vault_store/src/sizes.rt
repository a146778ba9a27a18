ghost use Rattle.tree_loading.specs.Format.{sealing_of};
ghost use Rattle.vault_store.specs.Sizes.{SizesAreHeld};

use file_chunks::reads_are_slices;
use vault_keys::VaultKeys;

/// States that the contents of a tree's files and links on a disk are what the sizes of their host files give. It does nothing.
pub(crate) fn have_sizes(keys: &VaultKeys)
    ensures { SizesAreHeld (sealing_of keys.now) }
{
    reads_are_slices();
    keys.have_32_bytes();
}
