ghost use Rattle.std.specs.Prelude.{◌≡◌, OnOk, IsErr};
ghost use Rattle.outside.specs.Calls.{HasCause, Told, Changes};
ghost use Rattle.outside.specs.Images.{now};
ghost use Rattle.chunk_journal.specs.Journal.{journal_file, new_file, IsQuiet, IsReady, IsAlike, StaysShut};

use crate::fault::Device;
use crate::steps::{CLOSED, move_synced, put_synced};
use outside::Folder;
use vault_path::VaultPath;

/// Makes the first journal: beside its place, and moved there once it is on the disk, since a byte that is put in place
/// might read as an open gate after a stop.
pub fn make_first<D: Folder>(
    folder: &mut D,
    journal: &VaultPath,
    beside: &VaultPath,
) -> Result<(), Device>
    requires journal { journal.now ≡ journal_file }
    requires beside { beside.now ≡ new_file }
    requires quiet { Told (D.log folder.old) IsQuiet }
    ensures made { OnOk result (Changes (D.log folder.old) (D.log folder.new) (λ old new. IsReady new × IsAlike (now old) (now new))) }
    ensures any_moment { Changes (D.log folder.old) (D.log folder.new) StaysShut }
    ensures cause { HasCause (D.faults folder.old) (D.faults folder.new) (IsErr result) }
{
    put_synced(folder, beside, &[CLOSED])?;
    move_synced(folder, beside, journal)?;
    Ok(())
}
