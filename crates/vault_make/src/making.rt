ghost use Rattle.std.specs.Prelude.{OnOk, IfErr, IsErrOf};
ghost use Rattle.outside.specs.Calls.{HasCause, Told};
ghost use Rattle.outside.specs.Images.{now};
ghost use Rattle.outside.specs.Views.{entropy_in, folder_in};
ghost use Rattle.vault_make.specs.Vault.{HasMade, IsEmpty};
ghost use Rattle.vault_make.specs.Errors.{IsBegun, IsUnmade};

use crate::draws::draw_all;
use crate::entries::first_entry;
use crate::error::MakeErr;
use crate::files::key_files;
use crate::layout::lay_out;
use outside::{Entropy, Folder};
use std::alloc::Global;
use vault_names::folder_of;

/// Makes a new vault in an empty folder under a password (UTF-8 in the form NFC). If the folder is empty it draws 32 bytes for the
/// encryption key, 32 for the MAC key, 8 for the salt and 16 for the vault file's identifier, and writes the masterkey
/// file, the vault file with the default threshold, and the empty folder of the root. From its first sync on, even if it fails later, a
/// stop leaves no vault file, or the whole vault. After Ok all of it is on the disk. `MakeErr` gives each error's cause.
pub fn make<D: Folder, E: Entropy>(
    alloc: Global,
    folder: &mut D,
    password: &[u8],
    entropy: &mut E,
) -> Result<(), MakeErr>
    ensures made { OnOk result (HasMade password.now
        (folder_in D.Reads folder.old) (folder_in D.Reads folder.new)
        (entropy_in E.Entropy entropy.old) (entropy_in E.Entropy entropy.new)) }
    ensures unmade { IfErr result (λ error. IsUnmade password.now error
        (folder_in D.Reads folder.old) (folder_in D.Reads folder.new)
        (entropy_in E.Entropy entropy.old) (entropy_in E.Entropy entropy.new)) }
    ensures folder { HasCause (D.faults folder.old) (D.faults folder.new) (IsErrOf result MakeErr.Device) }
    ensures entropy { HasCause (E.faults entropy.old) (E.faults entropy.new) (IsErrOf result MakeErr.Entropy) }
{
    match first_entry(alloc, folder)? {
        Some(name) => Err(MakeErr::NotEmpty(name)),
        None => make_in_empty(alloc, folder, password, entropy),
    }
}

// The same in a folder that is known to be empty.
fn make_in_empty<D: Folder, E: Entropy>(
    alloc: Global,
    folder: &mut D,
    password: &[u8],
    entropy: &mut E,
) -> Result<(), MakeErr>
    requires { Told (D.log folder.old) (λ log. IsEmpty (now log)) }
    ensures made { OnOk result (HasMade password.now
        (folder_in D.Reads folder.old) (folder_in D.Reads folder.new)
        (entropy_in E.Entropy entropy.old) (entropy_in E.Entropy entropy.new)) }
    ensures unmade { IfErr result (λ error. IsBegun password.now error
        (folder_in D.Reads folder.old) (folder_in D.Reads folder.new)
        (entropy_in E.Entropy entropy.old) (entropy_in E.Entropy entropy.new)) }
    ensures folder { HasCause (D.faults folder.old) (D.faults folder.new) (IsErrOf result MakeErr.Device) }
    ensures entropy { HasCause (E.faults entropy.old) (E.faults entropy.new) (IsErrOf result MakeErr.Entropy) }
{
    let draws = draw_all(entropy)?;
    let files = key_files(alloc, &draws, password)?;
    match lay_out(folder, &folder_of(&draws.keys, b""), &files) {
        Ok(()) => Ok(()),
        Err(_) => Err(MakeErr::Device),
    }
}
