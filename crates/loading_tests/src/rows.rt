//! Vaults with odd entries, and what is loaded of them.

use crate::odd::Odd;
use crate::vault::{
    bare_vault, inside, long_place, nodes_of, put_directory, put_long, root, short_place, zero_keys,
};
use outside::Folder;
use outside_mem::MemFolder;
use std::test::Fail;
use tree_loading::{LoadErr, load};
use vault_layout::DEFAULT_THRESHOLD;
use vault_names::folder_of;
use vault_path::VaultPath;

// A vault without odd entries.
fn plain(rt: &HostRuntime, folder: MemFolder) -> Odd<MemFolder> {
    Odd {
        folder,
        links: Vec::new(rt.alloc()),
        locked: Vec::new(rt.alloc()),
    }
}

// A vault in which a link is at a path.
fn linked(rt: &HostRuntime, folder: MemFolder, path: VaultPath) -> Result<Odd<MemFolder>, Fail> {
    let mut vault = plain(rt, folder);
    vault.links.push(path)?;
    Ok(vault)
}

// A vault in which the folder at a path may not be listed.
fn locked(rt: &HostRuntime, folder: MemFolder, path: VaultPath) -> Result<Odd<MemFolder>, Fail> {
    let mut vault = plain(rt, folder);
    vault.locked.push(path)?;
    Ok(vault)
}

// The nodes that are loaded of a vault.
fn loaded(rt: &HostRuntime, mut vault: Odd<MemFolder>) -> Result<String, Fail> {
    let tree = load(rt.alloc(), &mut vault, &zero_keys(), DEFAULT_THRESHOLD)?;
    Ok(nodes_of(rt.alloc(), &tree)?)
}

#[test]
fn a_long_place_is_a_nodes_without_a_short_one(rt: HostRuntime) -> Result<(), Fail> {
    let mut folder = bare_vault(&rt)?;
    put_long(&rt, &mut folder, b"a")?;
    let nodes = loaded(&rt, plain(&rt, folder))?;
    assert_eq!(rt; nodes.as_str(), "/ dir, a file");
    Ok(())
}

#[test]
fn a_link_at_the_short_place_takes_the_name(rt: HostRuntime) -> Result<(), Fail> {
    let mut folder = bare_vault(&rt)?;
    put_long(&rt, &mut folder, b"a")?;
    put_long(&rt, &mut folder, b"b")?;
    let path = short_place(&rt, b"a")?;
    folder.put(&path, b"")?;
    let nodes = loaded(&rt, linked(&rt, folder, path)?)?;
    assert_eq!(rt; nodes.as_str(), "/ dir foreign, b file");
    Ok(())
}

#[test]
fn a_link_at_the_long_place_is_foreign(rt: HostRuntime) -> Result<(), Fail> {
    let mut folder = bare_vault(&rt)?;
    put_long(&rt, &mut folder, b"a")?;
    let path = long_place(&rt, b"a")?;
    let nodes = loaded(&rt, linked(&rt, folder, path)?)?;
    assert_eq!(rt; nodes.as_str(), "/ dir foreign");
    Ok(())
}

#[test]
fn a_link_at_the_long_place_is_no_twin(rt: HostRuntime) -> Result<(), Fail> {
    let mut folder = bare_vault(&rt)?;
    put_long(&rt, &mut folder, b"a")?;
    folder.put(&short_place(&rt, b"a")?, b"content")?;
    let path = long_place(&rt, b"a")?;
    let nodes = loaded(&rt, linked(&rt, folder, path)?)?;
    assert_eq!(rt; nodes.as_str(), "/ dir foreign, a file");
    Ok(())
}

#[test]
fn a_link_of_another_name_is_foreign(rt: HostRuntime) -> Result<(), Fail> {
    let mut folder = bare_vault(&rt)?;
    folder.put(&short_place(&rt, b"a")?, b"content")?;
    let path = inside(&root(), b"socket")?;
    folder.put(&path, b"")?;
    let nodes = loaded(&rt, linked(&rt, folder, path)?)?;
    assert_eq!(rt; nodes.as_str(), "/ dir foreign, a file");
    Ok(())
}

#[test]
fn a_link_to_a_directorys_folder_makes_it_bad(rt: HostRuntime) -> Result<(), Fail> {
    let mut folder = bare_vault(&rt)?;
    put_directory(&rt, &mut folder, b"a", b"i")?;
    let path = folder_of(&zero_keys(), b"i");
    let nodes = loaded(&rt, linked(&rt, folder, path)?)?;
    assert_eq!(rt; nodes.as_str(), "/ dir, a bad");
    Ok(())
}

#[test]
fn a_directory_whose_folder_is_not_listed_is_bad(rt: HostRuntime) -> Result<(), Fail> {
    let mut folder = bare_vault(&rt)?;
    put_directory(&rt, &mut folder, b"a", b"i")?;
    put_directory(&rt, &mut folder, b"b", b"j")?;
    let path = folder_of(&zero_keys(), b"i");
    let nodes = loaded(&rt, locked(&rt, folder, path)?)?;
    assert_eq!(rt; nodes.as_str(), "/ dir, a bad, b dir");
    Ok(())
}

#[test]
fn a_node_folder_that_is_not_listed_is_foreign(rt: HostRuntime) -> Result<(), Fail> {
    let mut folder = bare_vault(&rt)?;
    put_directory(&rt, &mut folder, b"a", b"i")?;
    put_directory(&rt, &mut folder, b"b", b"j")?;
    let path = short_place(&rt, b"a")?;
    let nodes = loaded(&rt, locked(&rt, folder, path)?)?;
    assert_eq!(rt; nodes.as_str(), "/ dir foreign, b dir");
    Ok(())
}

#[test]
fn a_long_node_folder_that_is_not_listed_is_foreign(rt: HostRuntime) -> Result<(), Fail> {
    let mut folder = bare_vault(&rt)?;
    put_long(&rt, &mut folder, b"a")?;
    put_long(&rt, &mut folder, b"b")?;
    let path = long_place(&rt, b"a")?;
    let nodes = loaded(&rt, locked(&rt, folder, path)?)?;
    assert_eq!(rt; nodes.as_str(), "/ dir foreign, b file");
    Ok(())
}

#[test]
fn a_root_that_is_not_listed_is_a_fault(rt: HostRuntime) -> Result<(), Fail> {
    let folder = bare_vault(&rt)?;
    let mut vault = locked(&rt, folder, root())?;
    let Err(cause) = load(rt.alloc(), &mut vault, &zero_keys(), DEFAULT_THRESHOLD) else {
        return Err("it was loaded".into());
    };
    assert!(rt; cause == LoadErr::Device);
    Ok(())
}
