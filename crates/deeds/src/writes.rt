ghost use Rattle.std.specs.Prelude.{[], ◌∷◌, OnOk, IsErrOf};
ghost use Rattle.outside.specs.Calls.{HasCause, Changes, IsUnfit};
ghost use Rattle.outside.specs.Disk.{Disk};
ghost use Rattle.outside.specs.Images.{now};
ghost use Rattle.deeds.specs.Reshape.{EndWithin};
ghost use Rattle.deeds.specs.Deeds.{Reshapes, Does, StaysAmid, GoesOnAt};
ghost use Rattle.deeds.specs.Applying.{StaysRefused, HasBrokenOff};
ghost use Rattle.deeds.specs.Plain.{plain_ranges};

use outside::{Folder, FolderErr};
use vault_path::VaultPath;

/// Bytes, and the offset in a file that they go to.
#[derive(Debug, Drop)]
pub struct Range {
    /// The offset of the first byte.
    pub at: u64,
    /// The bytes.
    pub bytes: Vec<u8>,
}

/// Writes ranges of a file in order, and cuts it.
pub fn do_reshape<F: Folder>(
    folder: &mut F,
    path: &VaultPath,
    len: u64,
    ranges: &[Range],
) -> Result<(), FolderErr>
    requires { EndWithin len (plain_ranges ranges.now) }
    ensures done { OnOk result (Changes (F.log folder.old) (F.log folder.new) (λ old new. Does (Reshapes path.now len (plain_ranges ranges.now)) (now old) (now new))) }
    ensures amid { Changes (F.log folder.old) (F.log folder.new) (StaysAmid (Reshapes path.now len (plain_ranges ranges.now) ∷ [])) }
    ensures grown { Changes (F.log folder.old) (F.log folder.new) (GoesOnAt (path.now ∷ [])) }
    ensures refused { Changes (F.log folder.old) (F.log folder.new) (StaysRefused (Reshapes path.now len (plain_ranges ranges.now))) }
    ensures unfit { IsErrOf result FolderErr.Unfit
        → IsUnfit (F.log folder.old) (F.faults folder.old) (F.faults folder.new) (λ log. (after : Disk) × Does (Reshapes path.now len (plain_ranges ranges.now)) (now log) after) }
    ensures left { IsErrOf result FolderErr.Unfit → Changes (F.log folder.old) (F.log folder.new) (HasBrokenOff (Reshapes path.now len (plain_ranges ranges.now))) }
    ensures no_memory { IsErrOf result FolderErr.Memory → ⊥ }
    ensures cause { HasCause (F.faults folder.old) (F.faults folder.new) (IsErrOf result FolderErr.Failed) }
{
    for range in ranges {
        folder.write(path, range.at, &range.bytes)?;
    }
    folder.set_len(path, len)?;
    Ok(())
}
