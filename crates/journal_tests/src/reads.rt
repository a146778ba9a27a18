//! What waits over a folder in memory, and what reads give of it.

use crate::contents::{folder_with, path_of, three_parts};
use outside::FolderErr;
use outside_mem::MemFolder;
use pending_files::Pending;
use std::test::Fail;
use vault_path::VaultPath;

/// Where the file's second chunk begins.
const SECOND: u64 = 32_864;

/// What a read of four bytes gives, and how many they are.
fn four_at(
    pending: &Pending,
    folder: &mut MemFolder,
    path: &VaultPath,
    at: u64,
) -> Result<([u8; 4], usize), FolderErr> {
    let mut out = *b"----";
    let count = pending.read_through(folder, path, at, &mut out)?;
    Ok((out, count))
}

#[test]
fn a_cut_waits_until_it_is_cleared(rt: HostRuntime) -> Result<(), Fail> {
    let path = path_of(b"f")?;
    let mut folder = folder_with(&rt, &path, &three_parts(&rt)?)?;
    let mut pending = Pending::new(rt.alloc())?;
    if !pending.room(&path, 0) {
        return Err("room".into());
    }
    pending.cut(&path, SECOND + 1);
    assert!(rt; four_at(&pending, &mut folder, &path, SECOND - 2)? == (*b"\x02\x02\x03-", 3));
    pending.clear();
    assert!(rt; four_at(&pending, &mut folder, &path, SECOND - 2)? == (*b"\x02\x02\x03\x03", 4));
    Ok(())
}

#[test]
fn a_chunk_waits_in_place_of_the_folders(rt: HostRuntime) -> Result<(), Fail> {
    let path = path_of(b"f")?;
    let mut folder = folder_with(&rt, &path, &three_parts(&rt)?)?;
    let mut pending = Pending::new(rt.alloc())?;
    if !pending.room(&path, 1) {
        return Err("room".into());
    }
    pending.put_chunk(&path, SECOND + 16, SECOND, &[9; 16]);
    assert!(rt; four_at(&pending, &mut folder, &path, SECOND - 2)? == (*b"\x02\x02\x09\x09", 4));
    assert!(rt; four_at(&pending, &mut folder, &path, SECOND + 15)? == (*b"\x09---", 1));
    Ok(())
}
