ghost use Rattle.std.specs.Prelude.{◌≤◌, length};
ghost use Rattle.vault_layout.specs.Limits.{identifier_limit};
ghost use Rattle.tree_loading.specs.Under.{HasFolder};

use vault_keys::VaultKeys;
use vault_names::directory_folder;

/// The 32 characters of the folder of an identifier.
pub(crate) fn characters_of(keys: &VaultKeys, identifier: &[u8]) -> [u8; 32]
    requires { length identifier.now ≤ identifier_limit }
    ensures { HasFolder keys.now identifier.now result }
{
    directory_folder(keys, identifier)
}
