ghost use Rattle.std.specs.Prelude.{◌≡◌, ◌↔◌, IsTrue};
ghost use Rattle.vault_names.specs.Places.{ReadsLong, long_folder, place_of};

use base64::engine::general_purpose::URL_SAFE;
use sha1::Sha1;

/// The characters of a long name's folder: a hash of 20 bytes in base64, and `.c9s`.
pub const LONG_FOLDER_LENGTH: usize = 32;

/// The longest text of a sealed name with its `.c9r`, in characters: that of a clear name of 1,024 bytes.
pub const LONGEST_TEXT: usize = 1392;

const LONG_SUFFIX: &[u8; 4] = b".c9s";

// The characters of a hash of 20 bytes in base64, with padding.
const HASH_LENGTH: usize = 28;

/// Where a sealed name is placed.
#[derive(Clone, Copy, Debug, PartialEq, Eq)]
pub enum Place {
    /// At its own text.
    Short,
    /// In the folder of this name.
    Long([u8; LONG_FOLDER_LENGTH]),
}

/// Where a vault with this shortening threshold places a sealed name, which ends in `.c9r`: short if the text has at most
/// `threshold` characters.
pub fn place_of(threshold: u32, sealed: &[u8]) -> Place
    ensures { result ≡ place_of threshold sealed.now }
{
    if sealed.len() <= threshold as usize {
        Place::Short
    } else {
        Place::Long(long_folder(sealed))
    }
}

/// The folder of a sealed name at its long place: SHA-1 of the text in base64url with padding (RFC 4648, section 5), and
/// `.c9s`.
#[tactic(auto, unfolding(crate::specs::Places::long_folder))]
pub fn long_folder(sealed: &[u8]) -> [u8; LONG_FOLDER_LENGTH]
    ensures { result ≡ long_folder sealed.now }
{
    let mut folder = [0; LONG_FOLDER_LENGTH];
    folder[HASH_LENGTH..].copy_from_slice(LONG_SUFFIX);
    let Ok(_) = URL_SAFE.encode_slice(&Sha1::digest(sealed), &mut folder) else {
        unreachable!();
    };
    folder
}

/// Whether a folder of this name stands for the text that its `name.c9s` holds: a text of a sealed name's length, whose
/// folder it is.
pub fn reads_long(folder: &[u8], text: &[u8]) -> bool
    ensures { IsTrue result ↔ ReadsLong folder.now text.now }
{
    text.len() <= LONGEST_TEXT && folder == long_folder(text).as_slice()
}
