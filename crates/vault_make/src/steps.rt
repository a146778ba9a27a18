//! Calls of a folder that can be made: each fails only if the folder's count of faults rises.

ghost use Rattle.std.specs.Prelude.{◌≡◌, OnOk, OnErr, IsErr};
ghost use Rattle.outside.specs.Calls.{Changes, HasCause, Told};
ghost use Rattle.outside.specs.Changes.{MakeDir, Move, Put, CanDo, done};
ghost use Rattle.outside.specs.Images.{now};
ghost use Rattle.vault_make.specs.Stages.{HasCalled, HasSynced};

use outside::{Folder, FolderErr};
use vault_path::VaultPath;

/// The folder's count of faults rose.
#[derive(Clone, Copy, Debug, PartialEq, Eq)]
pub(crate) struct Device;

impl From<FolderErr> for Device {
    ghost from_gives = { λ _ _. Unit {0} };

    fn from(_: FolderErr) -> Device {
        Device
    }
}

pub(crate) fn make_dir<D: Folder>(folder: &mut D, path: &VaultPath) -> Result<(), Device>
    requires { Told (D.log folder.old) (λ log. CanDo (MakeDir path.now) (now log)) }
    ensures made { OnOk result (Changes (D.log folder.old) (D.log folder.new)
        (λ old new. now new ≡ done (MakeDir path.now) (now old))) }
    ensures called { Changes (D.log folder.old) (D.log folder.new) (HasCalled (MakeDir path.now)) }
    ensures cause { HasCause (D.faults folder.old) (D.faults folder.new) (IsErr result) }
{
    folder.make_dir(path)?;
    Ok(())
}

pub(crate) fn put<D: Folder>(folder: &mut D, path: &VaultPath, bytes: &[u8]) -> Result<(), Device>
    requires { Told (D.log folder.old) (λ log. CanDo (Put path.now bytes.now) (now log)) }
    ensures put { OnOk result (Changes (D.log folder.old) (D.log folder.new)
        (λ old new. now new ≡ done (Put path.now bytes.now) (now old))) }
    ensures called { Changes (D.log folder.old) (D.log folder.new) (HasCalled (Put path.now bytes.now)) }
    ensures cause { HasCause (D.faults folder.old) (D.faults folder.new) (IsErr result) }
{
    folder.put(path, bytes)?;
    Ok(())
}

pub(crate) fn move_file<D: Folder>(
    folder: &mut D,
    from: &VaultPath,
    to: &VaultPath,
) -> Result<(), Device>
    requires { Told (D.log folder.old) (λ log. CanDo (Move from.now to.now) (now log)) }
    ensures moved { OnOk result (Changes (D.log folder.old) (D.log folder.new)
        (λ old new. now new ≡ done (Move from.now to.now) (now old))) }
    ensures called { Changes (D.log folder.old) (D.log folder.new) (HasCalled (Move from.now to.now)) }
    ensures cause { HasCause (D.faults folder.old) (D.faults folder.new) (IsErr result) }
{
    folder.rename(from, to)?;
    Ok(())
}

/// After it a stop leaves what reads give. If it failed, the folder is as if it hadn't been called.
pub(crate) fn sync<D: Folder>(folder: &mut D) -> Result<(), Device>
    ensures synced { OnOk result (Changes (D.log folder.old) (D.log folder.new) HasSynced) }
    ensures failed { OnErr result (D.log folder.new ≡ D.log folder.old) }
    ensures changes { D.changes folder.new ≡ D.changes folder.old }
    ensures cause { HasCause (D.faults folder.old) (D.faults folder.new) (IsErr result) }
{
    folder.sync()?;
    Ok(())
}
