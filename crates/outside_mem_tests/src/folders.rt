//! A folder: its calls, the calls that fail or break off, and what a stop leaves.
// The helpers have no contracts, so that what is known of a folder doesn't grow from call to call.

use outside::{Folder, Kind, Reads};
use outside_mem::MemFolder;
use std::process::Abort;
use std::test::Fail;
use vault_path::VaultPath;

fn path_of(rt: &impl Abort, parts: &[&[u8]]) -> VaultPath {
    let mut path = VaultPath::root();
    for part in parts {
        path = path.join(part).expect(rt, "a good part");
    }
    path
}

fn makes<F: Folder>(folder: &mut F, path: &VaultPath) -> bool {
    folder.make_dir(path).is_ok()
}

fn puts<F: Folder>(folder: &mut F, path: &VaultPath, bytes: &[u8]) -> bool {
    folder.put(path, bytes).is_ok()
}

fn writes<F: Folder>(folder: &mut F, path: &VaultPath, at: u64, bytes: &[u8]) -> bool {
    folder.write(path, at, bytes).is_ok()
}

fn cuts<F: Folder>(folder: &mut F, path: &VaultPath, len: u64) -> bool {
    folder.set_len(path, len).is_ok()
}

fn renames<F: Folder>(folder: &mut F, from: &VaultPath, to: &VaultPath) -> bool {
    folder.rename(from, to).is_ok()
}

fn removes<F: Folder>(folder: &mut F, path: &VaultPath) -> bool {
    folder.remove_file(path).is_ok()
}

fn removes_dir<F: Folder>(folder: &mut F, path: &VaultPath) -> bool {
    folder.remove_dir(path).is_ok()
}

fn syncs<F: Folder>(folder: &mut F) -> bool {
    folder.sync().is_ok()
}

fn kind_at<F: Reads>(folder: &mut F, path: &VaultPath) -> Option<Kind> {
    folder.kind(path).ok().flatten()
}

fn eight_at<F: Reads>(folder: &mut F, path: &VaultPath, at: u64) -> Option<([u8; 8], usize)> {
    let mut out = *b"........";
    let count = folder.read(path, at, &mut out).ok()?;
    Some((out, count))
}

fn only_name<F: Reads>(rt: &HostRuntime, folder: &mut F, path: &VaultPath) -> Option<Vec<u8>> {
    let mut names = folder.list(rt.alloc(), path).ok()?;
    let name = names.pop()?.into_vec();
    if names.is_empty() { Some(name) } else { None }
}

#[test]
fn a_folder_holds_what_was_put(rt: HostRuntime) -> Result<(), Fail> {
    let mut folder = MemFolder::new(rt.alloc())?;
    let dir = path_of(&rt, &[b"d"]);
    let file = path_of(&rt, &[b"d", b"a"]);
    assert!(rt; !puts(&mut folder, &file, b"early"), "it has no folder yet");
    assert!(rt; makes(&mut folder, &dir));
    assert!(rt; puts(&mut folder, &file, b"hello"));
    assert!(rt; !makes(&mut folder, &file), "a file is there");
    assert_eq!(rt; kind_at(&mut folder, &file), Some(Kind::File(5)));
    assert_eq!(rt; kind_at(&mut folder, &dir), Some(Kind::Dir));
    assert!(rt; eight_at(&mut folder, &file, 3) == Some((*b"lo......", 2)));
    let name = only_name(&rt, &mut folder, &dir).ok_or("a name")?;
    assert!(rt; name.as_slice() == b"a".as_slice());
    assert_eq!(rt; folder.call_count(), 8);
    assert_eq!(rt; folder.change_count(), 4);
    Ok(())
}

#[test]
fn a_folder_changes(rt: HostRuntime) -> Result<(), Fail> {
    let mut folder = MemFolder::new(rt.alloc())?;
    let file = path_of(&rt, &[b"a"]);
    let other = path_of(&rt, &[b"b"]);
    let dir = path_of(&rt, &[b"d"]);
    assert!(rt; makes(&mut folder, &dir) && puts(&mut folder, &file, b"hello"));
    assert!(rt;
        writes(&mut folder, &file, 3, b"ped"),
        "over the last two and one more"
    );
    assert!(rt; !writes(&mut folder, &file, 7, b"x"), "behind the end");
    assert!(rt; eight_at(&mut folder, &file, 0) == Some((*b"helped..", 6)));
    assert!(rt; cuts(&mut folder, &file, 4) && !cuts(&mut folder, &file, 5));
    assert!(rt; renames(&mut folder, &file, &other));
    assert!(rt; kind_at(&mut folder, &file).is_none());
    assert!(rt; eight_at(&mut folder, &other, 0) == Some((*b"help....", 4)));
    assert!(rt; !removes_dir(&mut folder, &other) && removes(&mut folder, &other));
    assert!(rt; !removes(&mut folder, &dir) && removes_dir(&mut folder, &dir));
    assert!(rt; kind_at(&mut folder, &dir).is_none());
    Ok(())
}

#[test]
fn a_folder_fails_and_breaks_off_at_listed_calls(rt: HostRuntime) -> Result<(), Fail> {
    let failing = [1, 2].to_vec(rt.alloc())?;
    let breaking = [4].to_vec(rt.alloc())?;
    let mut folder = MemFolder::new(rt.alloc())?
        .failing_at(failing)
        .breaking_at(breaking);
    let file = path_of(&rt, &[b"a"]);
    assert!(rt; puts(&mut folder, &file, b"one"));
    assert!(rt; !puts(&mut folder, &file, b"other"));
    assert!(rt; kind_at(&mut folder, &file).is_none());
    assert_eq!(rt; kind_at(&mut folder, &file), Some(Kind::File(3)));
    assert!(rt; !puts(&mut folder, &file, b"broken"), "half of it is put");
    assert!(rt; eight_at(&mut folder, &file, 0) == Some((*b"bro.....", 3)));
    assert_eq!(rt; folder.fault_count(), 3);
    Ok(())
}

// What the image of a number has at a path.
fn image_at(
    folder: &MemFolder,
    most: usize,
    number: usize,
    path: &VaultPath,
) -> Option<([u8; 8], usize)> {
    let mut images = folder.images(most).ok()?;
    images.truncate(number.checked_add(1)?);
    let mut image = images.pop()?;
    eight_at(&mut image, path, 0)
}

#[test]
fn a_stop_leaves_what_was_synced_and_a_choice_of_the_rest(rt: HostRuntime) -> Result<(), Fail> {
    let mut folder = MemFolder::new(rt.alloc())?;
    let file = path_of(&rt, &[b"a"]);
    assert!(rt; puts(&mut folder, &file, b"old") && syncs(&mut folder));
    assert!(rt; puts(&mut folder, &file, b"new"));
    assert!(rt; image_at(&folder, 9, 0, &file) == Some((*b"old.....", 3)));
    assert!(rt; image_at(&folder, 9, 1, &file) == Some((*b"new.....", 3)));
    assert!(rt; image_at(&folder, 9, 2, &file) == Some((*b"\xa5\xa5\xa5.....", 3)));
    assert_eq!(rt; folder.images(9)?.len(), 6);
    assert_eq!(rt; folder.images(2)?.len(), 2);
    Ok(())
}
