//! The paths that are loose by a journal as it is found.

use crate::batches::FIVE_DEEDS;
use crate::contents::path_of;
use chunk_journal::loose_paths;
use deeds::{journal_path, new_path};
use outside::Folder;
use outside_mem::MemFolder;
use std::test::Fail;
use vault_path::VaultPath;

// A folder whose journal has this gate before five deeds.
fn folder_with_gate(rt: &HostRuntime, gate: u8) -> Result<MemFolder, Fail> {
    let mut bytes = Vec::new(rt.alloc());
    bytes.extend_from_slice(&[gate])?;
    bytes.extend_from_slice(&(FIVE_DEEDS.len() as u64).to_be_bytes())?;
    bytes.extend_from_slice(&FIVE_DEEDS)?;
    let mut folder = MemFolder::new(rt.alloc())?;
    folder.put(&journal_path(), &bytes)?;
    Ok(folder)
}

// The path of a name in the folder itself.
fn top(name: &[u8]) -> Result<VaultPath, Fail> {
    Ok(VaultPath::root().join(name).ok().ok_or("a good part")?)
}

#[test]
fn what_an_open_batch_names_is_loose(rt: HostRuntime) -> Result<(), Fail> {
    let mut folder = folder_with_gate(&rt, 1)?;
    let paths = loose_paths(rt.alloc(), &mut folder)?;
    let expected = [
        journal_path(),
        new_path(),
        path_of(b"f")?,
        path_of(b"f")?,
        top(b"g")?,
        top(b"h")?,
        top(b"f")?,
        top(b"d")?,
    ];
    assert!(rt; paths[..] == expected[..]);
    Ok(())
}

#[test]
fn behind_a_closed_gate_the_journals_files_alone_are_loose(rt: HostRuntime) -> Result<(), Fail> {
    let mut folder = folder_with_gate(&rt, 0)?;
    let paths = loose_paths(rt.alloc(), &mut folder)?;
    assert!(rt; paths[..] == [journal_path(), new_path()][..]);
    Ok(())
}
