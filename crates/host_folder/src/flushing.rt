ghost use Rattle.std.specs.Prelude.{◌≡◌, string_bytes, OnOk, IsOkUnless};
ghost use Rattle.std.specs.List.{flat_map};
ghost use Rattle.outside.specs.Calls.{Changes};
ghost use Rattle.host_folder.specs.First.{with_folder};
ghost use Rattle.host_folder.specs.Held.{IsLater, HasCome, HaveCome, HaveComeFirst};
ghost use Rattle.host_folder.specs.Ready.{IfReady};

use crate::path_buffer::PathBuffer;
use host_calls::{Found, HostCalls};
use outside::FolderErr;
use vault_path::VaultPath;

/// Flushes what is at a path. If nothing is there, flushing the folder above makes that last.
pub(crate) fn flush_path<H: HostCalls>(
    host: &mut H,
    paths: &mut PathBuffer,
    path: &VaultPath,
) -> Result<(), FolderErr>
    ensures failed { IsOkUnless result FolderErr.Failed }
    ensures base { string_bytes paths.new.base ≡ string_bytes paths.old.base }
    ensures top { H.top host.new ≡ H.top host.old }
    ensures later { Changes (H.story host.old) (H.story host.new) (IfReady (string_bytes paths.old.base) (H.top host.old) IsLater) }
    ensures come { OnOk result (Changes (H.story host.old) (H.story host.new)
        (IfReady (string_bytes paths.old.base) (H.top host.old) (HasCome path.now))) }
{
    paths.compose(path);
    match host.stat(paths.text(), path.is_empty())? {
        Found::Nothing | Found::Other => Ok(()),
        seen => host.fsync(paths.text(), seen),
    }
}

/// Flushes what is at these paths.
pub(crate) fn flush_each<H: HostCalls>(
    host: &mut H,
    paths: &mut PathBuffer,
    touched: &[VaultPath],
) -> Result<(), FolderErr>
    ensures failed { IsOkUnless result FolderErr.Failed }
    ensures base { string_bytes paths.new.base ≡ string_bytes paths.old.base }
    ensures top { H.top host.new ≡ H.top host.old }
    ensures later { Changes (H.story host.old) (H.story host.new) (IfReady (string_bytes paths.old.base) (H.top host.old) IsLater) }
    ensures come { OnOk result (Changes (H.story host.old) (H.story host.new)
        (IfReady (string_bytes paths.old.base) (H.top host.old) (HaveCome touched.now))) }
{
    for path in touched {
        flush_path(host, paths, path)?;
    }
    Ok(())
}

/// Flushes what is at these paths, and the folders that they are in.
pub(crate) fn flush_with_folders<H: HostCalls>(
    host: &mut H,
    paths: &mut PathBuffer,
    touched: &[VaultPath],
) -> Result<(), FolderErr>
    ensures failed { IsOkUnless result FolderErr.Failed }
    ensures base { string_bytes paths.new.base ≡ string_bytes paths.old.base }
    ensures top { H.top host.new ≡ H.top host.old }
    ensures later { Changes (H.story host.old) (H.story host.new) (IfReady (string_bytes paths.old.base) (H.top host.old) IsLater) }
    ensures come { OnOk result (Changes (H.story host.old) (H.story host.new)
        (IfReady (string_bytes paths.old.base) (H.top host.old) (HaveComeFirst (flat_map with_folder touched.now)))) }
{
    for path in touched {
        flush_path(host, paths, path)?;
        flush_path(host, paths, &path.parent())?;
    }
    Ok(())
}
