ghost use Rattle.std.specs.Prelude.{◌≤◌, IfOk};
ghost use Rattle.vault_layout.specs.Limits.{max_threshold};
ghost use Rattle.tree_loading.specs.Format.{sealing_of};
ghost use Rattle.name_places.specs.New.{IsNewPlace};

use siv_mode::opening_is_exact;
use std::alloc::{AllocError, Global};
use vault_keys::VaultKeys;
use vault_names::{Name, Place, opening_undoes_sealing, place_of, seal_name};
use vault_path::Text;

/// The place of a new name in the folder of its directory.
#[derive(Debug, Drop)]
pub struct NewPlace {
    /// The text of the sealed name, which a long place keeps.
    pub text: Text,
    /// The entry in the directory's folder.
    pub entry: Text,
    /// Whether that is the long place.
    pub long: bool,
}

/// The place of a name in the directory of an identifier, by the threshold: the most characters of a text that is at
/// its short place. Fails only if memory runs out.
pub fn place_name(
    alloc: Global,
    keys: &VaultKeys,
    identifier: &[u8],
    threshold: u32,
    name: &Name,
) -> Result<NewPlace, AllocError>
    requires { (1 ≤ threshold) × (threshold ≤ max_threshold) }
    ensures { IfOk result (IsNewPlace (sealing_of keys.now) identifier.now name.now threshold) }
{
    opening_undoes_sealing(keys);
    opening_is_exact(keys);
    let clear = name.as_bytes();
    let text = seal_name(alloc, keys, identifier, name)?;
    match place_of(threshold, text.as_bytes()) {
        Place::Short => {
            let entry = Text::from_slice(alloc, text.as_bytes())?;
            Ok(NewPlace {
                text,
                entry,
                long: false,
            })
        }
        Place::Long(folder) => {
            let entry = Text::from_slice(alloc, &folder)?;
            Ok(NewPlace {
                text,
                entry,
                long: true,
            })
        }
    }
}
