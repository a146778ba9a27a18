ghost use Rattle.std.specs.Prelude.{◌≡◌, [], ◌∷◌, IsTrue};
ghost use Rattle.vault_path.specs.Parts.{is_path};
ghost use Rattle.unlocking.specs.Files.{config_place, masterkey_place, new_config_place};

use vault_layout::{MASTERKEY_FILE, NEW_VAULT_FILE, VAULT_FILE};
use vault_path::VaultPath;

/// The path of the masterkey file.
pub fn masterkey_path() -> VaultPath
    ensures { result ≡ masterkey_place }
{
    top_path(MASTERKEY_FILE)
}

/// The path of the vault file.
pub fn config_path() -> VaultPath
    ensures { result ≡ config_place }
{
    top_path(VAULT_FILE)
}

/// The path at which a new vault file is written before it takes its place.
pub fn new_config_path() -> VaultPath
    ensures { result ≡ new_config_place }
{
    top_path(NEW_VAULT_FILE)
}

// The path of an entry of the vault's folder.
fn top_path(name: &[u8]) -> VaultPath
    requires { IsTrue (is_path (name.now ∷ [])) }
    ensures { result ≡ name.now ∷ [] }
{
    let Ok(path) = VaultPath::root().join(name) else {
        unreachable!();
    };
    path
}
