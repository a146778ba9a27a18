//! The host paths of what a vault's disk holds of a directory, whose folder is named by 32 characters (Cryptomator's vault format 8).

ghost use Rattle.std.specs.Prelude.{◌≡◌, IsTrue};
ghost use Rattle.vault_path.specs.Parts.{is_part, is_path};
ghost use Rattle.clear_tree.specs.Places.{host_two, host_folder, host_entry, host_inner};

use vault_layout::FOLDERS;
use vault_path::VaultPath;

/// The path of what holds a directory's folder: `d`, and the first two of its characters.
pub fn host_two(folder: &[u8; 32]) -> VaultPath
    requires { IsTrue (is_path (host_folder folder.now)) }
    ensures { result ≡ host_two folder.now }
{
    let (two, _) = folder.split_at(2);
    VaultPath::root().joined(FOLDERS).joined(two)
}

/// The path of a directory's folder.
pub fn host_folder(folder: &[u8; 32]) -> VaultPath
    requires { IsTrue (is_path (host_folder folder.now)) }
    ensures { result ≡ host_folder folder.now }
{
    let (_, rest) = folder.split_at(2);
    host_two(folder).joined(rest)
}

/// The path of an entry in a directory's folder.
pub fn host_entry(folder: &[u8; 32], entry: &[u8]) -> VaultPath
    requires folder { IsTrue (is_path (host_folder folder.now)) }
    requires entry { IsTrue (is_part entry.now) }
    ensures { result ≡ host_entry folder.now entry.now }
{
    host_folder(folder).joined(entry)
}

/// The path of a file in a node folder.
pub fn host_inner(folder: &[u8; 32], entry: &[u8], file: &[u8]) -> VaultPath
    requires folder { IsTrue (is_path (host_folder folder.now)) }
    requires entry { IsTrue (is_part entry.now) }
    requires file { IsTrue (is_part file.now) }
    ensures { result ≡ host_inner folder.now entry.now file.now }
{
    host_entry(folder, entry).joined(file)
}
