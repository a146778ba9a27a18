//! A vault of zero keys in memory, and its tree as a text.

use clear_tree::{Tree, What};
use outside::Folder;
use outside_mem::MemFolder;
use std::alloc::{AllocError, Global};
use std::test::Fail;
use vault_keys::VaultKeys;
use vault_names::{clear_name, folder_of, long_folder, seal_name};
use vault_path::VaultPath;

/// The keys of a vault, which are zeros.
pub fn zero_keys() -> VaultKeys {
    VaultKeys::new(&[0; 32], &[0; 32])
}

/// The path of an entry of a folder.
pub fn inside(folder: &VaultPath, entry: &[u8]) -> Result<VaultPath, Fail> {
    Ok(folder.join(entry).ok().ok_or("a good part")?)
}

/// The folder of the root.
pub fn root() -> VaultPath {
    folder_of(&zero_keys(), b"")
}

/// The text of a name in the root's folder.
pub fn text_of(rt: &HostRuntime, name: &[u8]) -> Result<Vec<u8>, Fail> {
    let name = clear_name(rt.alloc(), name).ok().ok_or("a good name")?;
    Ok(seal_name(rt.alloc(), &zero_keys(), b"", &name)?.into_vec())
}

/// The short place of a name in the root's folder.
pub fn short_place(rt: &HostRuntime, name: &[u8]) -> Result<VaultPath, Fail> {
    inside(&root(), &text_of(rt, name)?)
}

/// The long place of a name in the root's folder.
pub fn long_place(rt: &HostRuntime, name: &[u8]) -> Result<VaultPath, Fail> {
    inside(&root(), &long_folder(&text_of(rt, name)?))
}

/// A vault that has nothing but the folder of its root.
pub fn bare_vault(rt: &HostRuntime) -> Result<MemFolder, Fail> {
    let mut vault = MemFolder::new(rt.alloc())?;
    make_folder(&mut vault, &root())?;
    Ok(vault)
}

/// Makes the folder of a directory.
pub fn make_folder(vault: &mut MemFolder, folder: &VaultPath) -> Result<(), Fail> {
    let two = folder.parent();
    vault.make_dir(&two.parent())?;
    vault.make_dir(&two)?;
    vault.make_dir(folder)?;
    Ok(())
}

/// Puts a file at the long place of a name in the root's folder.
pub fn put_long(rt: &HostRuntime, vault: &mut MemFolder, name: &[u8]) -> Result<(), Fail> {
    let node = long_place(rt, name)?;
    vault.make_dir(&node)?;
    vault.put(&inside(&node, b"name.c9s")?, &text_of(rt, name)?)?;
    vault.put(&inside(&node, b"contents.c9r")?, b"content")?;
    Ok(())
}

/// Puts a directory at the short place of a name in the root's folder, and makes the folder of its identifier.
pub fn put_directory(
    rt: &HostRuntime,
    vault: &mut MemFolder,
    name: &[u8],
    identifier: &[u8],
) -> Result<(), Fail> {
    let node = short_place(rt, name)?;
    vault.make_dir(&node)?;
    vault.put(&inside(&node, b"dir.c9r")?, identifier)?;
    let [_, ..] = identifier else {
        return Err("an identifier".into());
    };
    if identifier.len() > 36 {
        return Err("an identifier".into());
    }
    make_folder(vault, &folder_of(&zero_keys(), identifier))
}

/// The nodes of a tree in the order of their numbers: the name of each, what it is, and its marks.
pub fn nodes_of(alloc: Global, tree: &Tree) -> Result<String, AllocError> {
    let mut text = String::new(alloc);
    for number in 0..tree.len() as u64 {
        let Some(node) = tree.node(number) else {
            continue;
        };
        if number > 0 {
            text.push_str(", ")?;
        }
        text.push_str(str::from_utf8(node.name()).unwrap_or("?"))?;
        text.push_str(match node.what() {
            What::File { .. } => " file",
            What::Link { .. } => " link",
            What::Dir { .. } => " dir",
            What::Bad { .. } => " bad",
        })?;
        if node.is_foreign() {
            text.push_str(" foreign")?;
        }
        if node.is_shadowed() {
            text.push_str(" shadowed")?;
        }
    }
    Ok(text)
}
