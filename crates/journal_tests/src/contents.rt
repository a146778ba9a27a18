//! A content file in memory: a header, a full chunk and one of 100 bytes, each of one byte's copies.

use outside::Folder;
use outside_mem::MemFolder;
use std::test::Fail;
use vault_path::VaultPath;

pub const HEADER: usize = 68;

pub const FULL: usize = 32_796;

/// The path of a name in the folder `d`.
pub fn path_of(name: &[u8]) -> Result<VaultPath, Fail> {
    let folder = VaultPath::root().join(b"d").ok().ok_or("a good part")?;
    Ok(folder.join(name).ok().ok_or("a good part")?)
}

/// A folder with a file of these bytes.
pub fn folder_with(rt: &HostRuntime, path: &VaultPath, bytes: &[u8]) -> Result<MemFolder, Fail> {
    let mut folder = MemFolder::new(rt.alloc())?;
    folder.make_dir(&path.parent())?;
    folder.put(path, bytes)?;
    Ok(folder)
}

/// The file's bytes.
pub fn three_parts(rt: &HostRuntime) -> Result<Vec<u8>, Fail> {
    let mut bytes = Vec::new(rt.alloc());
    bytes.resize(HEADER, 1)?;
    bytes.resize(HEADER + FULL, 2)?;
    bytes.resize(HEADER + FULL + 100, 3)?;
    Ok(bytes)
}
