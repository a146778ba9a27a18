ghost use Rattle.std.specs.Prelude.{OnOk, IsErr};
ghost use Rattle.outside.specs.Calls.{HasCause, Told, Changes};
ghost use Rattle.outside.specs.Changes.{Put, Write, SetLen, Move, CanDo};
ghost use Rattle.outside.specs.Images.{now, IsSteady};
ghost use Rattle.chunk_journal.specs.Stages.{IsKept, LeavesParts};

use crate::fault::Device;
use outside::Folder;
use vault_path::VaultPath;

/// The gate's byte before a batch that is to be done.
pub const OPEN: u8 = 1;

/// The gate's byte otherwise. Any byte but `OPEN` is closed.
pub const CLOSED: u8 = 0;

/// The offset of the gate.
pub const GATE: u64 = 0;

/// The offset of what follows the gate.
pub const BEHIND_GATE: u64 = 1;

/// The length of a journal's file that has no gate, which stands for a closed one.
pub const EMPTY: u64 = 0;

/// Writes bytes over those of a file, and syncs.
pub fn write_synced<D: Folder>(
    folder: &mut D,
    path: &VaultPath,
    at: u64,
    bytes: &[u8],
) -> Result<(), Device>
    requires steady { Told (D.log folder.old) IsSteady }
    requires can { Told (D.log folder.old) (λ log. CanDo (Write path.now at bytes.now) (now log)) }
    ensures written { OnOk result (Changes (D.log folder.old) (D.log folder.new) (IsKept (Write path.now at bytes.now))) }
    ensures any_moment { Changes (D.log folder.old) (D.log folder.new) (LeavesParts (Write path.now at bytes.now)) }
    ensures cause { HasCause (D.faults folder.old) (D.faults folder.new) (IsErr result) }
{
    folder.write(path, at, bytes)?;
    folder.sync()?;
    Ok(())
}

/// Cuts a file, and syncs.
pub fn cut_synced<D: Folder>(folder: &mut D, path: &VaultPath, len: u64) -> Result<(), Device>
    requires steady { Told (D.log folder.old) IsSteady }
    requires can { Told (D.log folder.old) (λ log. CanDo (SetLen path.now len) (now log)) }
    ensures cut { OnOk result (Changes (D.log folder.old) (D.log folder.new) (IsKept (SetLen path.now len))) }
    ensures any_moment { Changes (D.log folder.old) (D.log folder.new) (LeavesParts (SetLen path.now len)) }
    ensures cause { HasCause (D.faults folder.old) (D.faults folder.new) (IsErr result) }
{
    folder.set_len(path, len)?;
    folder.sync()?;
    Ok(())
}

/// Puts a file, and syncs.
pub fn put_synced<D: Folder>(folder: &mut D, path: &VaultPath, bytes: &[u8]) -> Result<(), Device>
    requires steady { Told (D.log folder.old) IsSteady }
    requires can { Told (D.log folder.old) (λ log. CanDo (Put path.now bytes.now) (now log)) }
    ensures put { OnOk result (Changes (D.log folder.old) (D.log folder.new) (IsKept (Put path.now bytes.now))) }
    ensures any_moment { Changes (D.log folder.old) (D.log folder.new) (LeavesParts (Put path.now bytes.now)) }
    ensures cause { HasCause (D.faults folder.old) (D.faults folder.new) (IsErr result) }
{
    folder.put(path, bytes)?;
    folder.sync()?;
    Ok(())
}

/// Moves a file, and syncs.
pub fn move_synced<D: Folder>(
    folder: &mut D,
    from: &VaultPath,
    to: &VaultPath,
) -> Result<(), Device>
    requires steady { Told (D.log folder.old) IsSteady }
    requires can { Told (D.log folder.old) (λ log. CanDo (Move from.now to.now) (now log)) }
    ensures moved { OnOk result (Changes (D.log folder.old) (D.log folder.new) (IsKept (Move from.now to.now))) }
    ensures any_moment { Changes (D.log folder.old) (D.log folder.new) (LeavesParts (Move from.now to.now)) }
    ensures cause { HasCause (D.faults folder.old) (D.faults folder.new) (IsErr result) }
{
    folder.rename(from, to)?;
    folder.sync()?;
    Ok(())
}
