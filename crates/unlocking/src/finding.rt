ghost use Rattle.std.specs.Prelude.{◌≡◌, ◌≤◌, Some, IfOk, IsErrOf, vec_len};
ghost use Rattle.outside.specs.Disk.{file, node_at};
ghost use Rattle.outside.specs.Calls.{HasCause, Told};
ghost use Rattle.outside.specs.Images.{disk_in};
ghost use Rattle.vault_layout.specs.Limits.{key_file_limit};
ghost use Rattle.unlocking.specs.Finding.{HasLength, IsSeenAs};

use outside::{Folder, FolderErr, Kind};
use std::alloc::{AllocError, Global};
use thiserror::Error;
use vault_layout::KEY_FILE_LIMIT;
use vault_path::VaultPath;

/// What is found where a key file should be.
#[derive(Debug, Drop)]
pub enum Found {
    /// Nothing.
    Absent,
    /// A folder.
    Folder,
    /// A file of so many bytes, more than `KEY_FILE_LIMIT`, of which none was read.
    TooLong(u64),
    /// A file with these bytes, at most `KEY_FILE_LIMIT`.
    File(Vec<u8>),
}

/// Why nothing is said of a file.
#[derive(Clone, Copy, Debug, PartialEq, Eq, Error)]
pub enum FindErr {
    /// The folder's count of faults rose.
    #[error("the vault's folder failed")]
    Device,
    /// Memory ran out.
    #[error("out of memory")]
    Memory,
}

impl From<FolderErr> for FindErr {
    ghost use Rattle.std.specs.Prelude.{◌≡◌};
    ghost use Rattle.unlocking.specs.declared.finding.FindErr.TheVariants.{Device};

    ghost from_gives = { λ _ e. e ≡ Device };

    fn from(_: FolderErr) -> FindErr {
        FindErr::Device
    }
}

impl From<AllocError> for FindErr {
    ghost use Rattle.std.specs.Prelude.{◌≡◌};
    ghost use Rattle.unlocking.specs.declared.finding.FindErr.TheVariants.{Memory};

    ghost from_gives = { λ _ e. e ≡ Memory };

    fn from(_: AllocError) -> FindErr {
        FindErr::Memory
    }
}

/// What is found at the path of a key file. A file above `KEY_FILE_LIMIT` bytes isn't read. `FindErr` gives each error's cause.
pub fn find<D: Folder>(alloc: Global, folder: &mut D, path: &VaultPath) -> Result<Found, FindErr>
    ensures found { IfOk result (IsSeenAs (disk_in (D.log folder.old)) path.now) }
    ensures cause { HasCause (D.faults folder.old) (D.faults folder.new) (IsErrOf result FindErr.Device) }
    ensures log { D.log folder.new ≡ D.log folder.old }
    ensures changes { D.changes folder.new ≡ D.changes folder.old }
{
    match folder.kind(path)? {
        None => Ok(Found::Absent),
        Some(Kind::Dir) => Ok(Found::Folder),
        Some(Kind::File(length)) if length > KEY_FILE_LIMIT as u64 => Ok(Found::TooLong(length)),
        Some(Kind::File(length)) => {
            let bytes = read_whole(alloc, folder, path, length as usize)?;
            Ok(Found::File(bytes))
        }
    }
}

// The bytes of a file of so many.
fn read_whole<D: Folder>(
    alloc: Global,
    folder: &mut D,
    path: &VaultPath,
    length: usize,
) -> Result<Vec<u8>, FindErr>
    requires few { length ≤ key_file_limit }
    requires there { Told (disk_in (D.log folder.old)) (λ disk. HasLength disk path.now length) }
    ensures bytes { IfOk result (λ bytes. Told (disk_in (D.log folder.old)) (λ disk. node_at disk path.now ≡ Some (file bytes.items))) }
    ensures few { IfOk result (λ bytes. vec_len bytes ≤ length) }
    ensures cause { HasCause (D.faults folder.old) (D.faults folder.new) (IsErrOf result FindErr.Device) }
    ensures log { D.log folder.new ≡ D.log folder.old }
    ensures changes { D.changes folder.new ≡ D.changes folder.old }
{
    let mut bytes = vec![in alloc; 0; length]?;
    let count = folder.read(path, 0, &mut bytes)?;
    bytes.truncate(count);
    Ok(bytes)
}
