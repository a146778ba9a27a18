ghost use Rattle.std.specs.Prelude.{◌≡◌, ◌≤◌, length, IsTrue};
ghost use Rattle.vault_layout.specs.Limits.{identifier_limit};
ghost use Rattle.vault_path.specs.Parts.{is_path};
ghost use Rattle.vault_names.specs.Folder.{base32, folder_of, folder_path, hash_of};

use crate::digits::base32;
use sha1::Sha1;
use siv_mode::TAG_LEN;
use vault_keys::VaultKeys;
use vault_layout::{FOLDERS, IDENTIFIER_LIMIT};
use vault_path::VaultPath;

// The longest sealed identifier, in bytes.
const SEALED_LIMIT: usize = IDENTIFIER_LIMIT + TAG_LEN;

/// The 32 characters of the folder of the directory with this identifier, of at most `IDENTIFIER_LIMIT` bytes; the root's
/// identifier is the empty text. It takes no memory.
pub fn directory_folder(keys: &VaultKeys, identifier: &[u8]) -> [u8; 32]
    requires { length identifier.now ≤ identifier_limit }
    ensures folder { result ≡ base32 (hash_of keys.now identifier.now) }
    ensures path { IsTrue (is_path (folder_path result)) }
{
    let mut buffer = [0; SEALED_LIMIT];
    let sealed = &mut buffer[..identifier.len() + TAG_LEN];
    let mac = keys.mac_lanes();
    let ctr = keys.encryption_lanes();
    siv_mode::seal(mac, ctr, None, identifier, sealed);
    base32(&Sha1::digest(sealed))
}

/// The host path of the folder of the directory with this identifier, of at most `IDENTIFIER_LIMIT` bytes. It takes no memory.
#[tactic(auto, unfolding(crate::specs::Folder::folder_of))]
pub fn folder_of(keys: &VaultKeys, identifier: &[u8]) -> VaultPath
    requires { length identifier.now ≤ identifier_limit }
    ensures { result ≡ folder_of keys.now identifier.now }
{
    path_of(&directory_folder(keys, identifier))
}

// The host path of a directory's folder of these characters.
fn path_of(folder: &[u8; 32]) -> VaultPath
    requires { IsTrue (is_path (folder_path folder.now)) }
    ensures { result ≡ folder_path folder.now }
{
    let (two, others) = folder.split_at(2);
    VaultPath::root().joined(FOLDERS).joined(two).joined(others)
}
