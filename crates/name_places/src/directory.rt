ghost use Rattle.tree_loading.specs.Format.{sealing_of};
ghost use Rattle.name_places.specs.New.{IsNewDirectory};

use uuid::{Builder, Uuid};
use vault_keys::VaultKeys;
use vault_names::directory_folder;

/// A directory that is to be made.
#[derive(Clone, Copy, Debug)]
pub struct NewDirectory {
    /// Its identifier, a UUID as text.
    pub identifier: [u8; 36],
    /// The 32 characters of its folder.
    pub folder: [u8; 32],
}

/// The directory of 16 drawn bytes: its identifier is their version 4 UUID (RFC 9562, section 5.4), in lower case with hyphens.
/// It takes no memory.
pub fn new_directory(keys: &VaultKeys, drawn: &[u8; 16]) -> NewDirectory
    ensures { IsNewDirectory (sealing_of keys.now) drawn.now result }
{
    let mut buffer = Uuid::encode_buffer();
    let id = Builder::from_random_bytes(*drawn).into_uuid().hyphenated();
    let text = id.encode_lower(&mut buffer);
    let mut identifier = [0; 36];
    identifier.copy_from_slice(text.as_bytes());
    let folder = directory_folder(keys, &identifier);
    NewDirectory { identifier, folder }
}
