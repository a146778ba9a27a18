//! A folder below `/tmp`, for each test its own.

use host_calls::{Found, HostCalls};
use host_folder::HostFolder;
use log::sink::{Discard, Memory};
use log::{Level, Logged};
use outside::{Folder, FolderErr, Kind, Reads};
use outside_real::StdCalls;
use std::fs::Permissions;
use std::os::unix::fs::{MetadataExt, PermissionsExt, symlink};
use std::test::Fail;
use std::{fs, process};
use vault_path::VaultPath;

fn place(rt: &HostRuntime, test: &str) -> Result<String, Fail> {
    let id = process::id(rt.process());
    Ok(format!(in rt.alloc(); "/tmp/outside_real-{test}-{id}")?)
}

fn path_of(names: &[&[u8]]) -> Result<VaultPath, Fail> {
    let mut path = VaultPath::root();
    for name in names {
        path = path.join(name).ok().ok_or("a good part")?;
    }
    Ok(path)
}

// A folder `d`, a file `d/f` of the bytes `abc`, and a link `d/link` to it.
fn fill(
    rt: &HostRuntime,
    place: &str,
    folder: &mut HostFolder<StdCalls<&HostRuntime, Discard>>,
) -> Result<(), Fail> {
    fs::create_dir(rt, place)?;
    folder.make_dir(&path_of(&[b"d"])?)?;
    folder.put(&path_of(&[b"d", b"f"])?, b"longer")?;
    folder.put(&path_of(&[b"d", b"f"])?, b"abc")?;
    symlink(rt, "f", format!(in rt.alloc(); "{place}/d/link")?)?;
    Ok(())
}

// The bytes of `d/f`, and after them what `out` had.
fn bytes_of_f(folder: &mut HostFolder<StdCalls<&HostRuntime, Discard>>) -> Result<[u8; 6], Fail> {
    let mut out = *b"------";
    folder.read(&path_of(&[b"d", b"f"])?, 0, &mut out)?;
    Ok(out)
}

#[test]
fn kinds_and_modes_come_back(rt: HostRuntime) -> Result<(), Fail> {
    let place = place(&rt, "kinds")?;
    let mut folder = HostFolder::untold(StdCalls::new(&rt, Discard), rt.alloc(), place.as_str())?;
    fill(&rt, place.as_str(), &mut folder)?;
    let rows: [(&[&[u8]], Option<Kind>); 6] = [
        (&[], Some(Kind::Dir)),
        (&[b"d"], Some(Kind::Dir)),
        (&[b"d", b"f"], Some(Kind::File(3))),
        (&[b"d", b"link"], None),
        (&[b"d", b"f", b"x"], None),
        (&[b"none", b"x"], None),
    ];
    for (names, want) in rows {
        assert_eq!(rt; folder.kind(&path_of(names)?), Ok(want), "{names:?}");
    }
    assert_eq!(rt; folder.list(rt.alloc(), &path_of(&[b"d"])?)?.len(), 2);
    for (name, mode) in [("d", 0o700), ("d/f", 0o600)] {
        let text = format!(in rt.alloc(); "{place}/{name}")?;
        assert_eq!(rt; fs::metadata(&rt, text)?.mode() & 0o777, mode, "{name}");
    }
    fs::remove_dir_all(&rt, place)?;
    Ok(())
}

#[test]
fn changes_come_back(rt: HostRuntime) -> Result<(), Fail> {
    let place = place(&rt, "changes")?;
    let mut folder = HostFolder::untold(StdCalls::new(&rt, Discard), rt.alloc(), place.as_str())?;
    fill(&rt, place.as_str(), &mut folder)?;
    let dir = path_of(&[b"d"])?;
    let file = path_of(&[b"d", b"f"])?;
    let moved = path_of(&[b"g"])?;
    assert!(rt; bytes_of_f(&mut folder)? == *b"abc---");
    folder.write(&file, 3, b"de")?;
    assert!(rt; bytes_of_f(&mut folder)? == *b"abcde-");
    folder.set_len(&file, 4)?;
    folder.write(&file, 1, b"X")?;
    folder.sync()?;
    assert!(rt; bytes_of_f(&mut folder)? == *b"aXcd--");
    folder.rename(&file, &moved)?;
    assert_eq!(rt; folder.kind(&file), Ok(None));
    assert_eq!(rt; folder.kind(&moved), Ok(Some(Kind::File(4))));
    folder.remove_file(&moved)?;
    folder.remove_file(&moved)?;
    assert_eq!(rt;
        folder.remove_dir(&dir),
        Err(FolderErr::Unfit),
        "it has a link"
    );
    fs::remove_file(&rt, format!(in rt.alloc(); "{place}/d/link")?)?;
    folder.remove_dir(&dir)?;
    folder.sync()?;
    assert_eq!(rt; folder.list(rt.alloc(), &VaultPath::root())?.len(), 0);
    fs::remove_dir_all(&rt, place)?;
    Ok(())
}

// A rename of the one to the other would leave both. A file that is moved to its own name stays.
#[test]
fn of_two_names_of_a_file_one_is_left(rt: HostRuntime) -> Result<(), Fail> {
    let place = place(&rt, "links")?;
    let mut folder = HostFolder::untold(StdCalls::new(&rt, Discard), rt.alloc(), place.as_str())?;
    fill(&rt, place.as_str(), &mut folder)?;
    let file = path_of(&[b"d", b"f"])?;
    let moved = path_of(&[b"g"])?;
    let from = format!(in rt.alloc(); "{place}/d/f")?;
    fs::hard_link(&rt, from, format!(in rt.alloc(); "{place}/g")?)?;
    folder.rename(&file, &moved)?;
    assert_eq!(rt; folder.kind(&file), Ok(None));
    assert_eq!(rt; folder.kind(&moved), Ok(Some(Kind::File(3))));
    folder.rename(&moved, &moved)?;
    assert_eq!(rt; folder.kind(&moved), Ok(Some(Kind::File(3))));
    folder.sync()?;
    fs::remove_dir_all(&rt, place)?;
    Ok(())
}

#[test]
fn what_does_not_fit_is_refused(rt: HostRuntime) -> Result<(), Fail> {
    let place = place(&rt, "unfit")?;
    let mut folder = HostFolder::untold(StdCalls::new(&rt, Discard), rt.alloc(), place.as_str())?;
    fill(&rt, place.as_str(), &mut folder)?;
    let file = path_of(&[b"d", b"f"])?;
    let unfit = Err(FolderErr::Unfit);
    let no_files: [&[&[u8]]; 3] = [&[b"d"], &[b"none", b"x"], &[b"d", b"link"]];
    for names in no_files {
        let path = path_of(names)?;
        assert!(rt; folder.read(&path, 0, &mut [0; 2]).is_err(), "{names:?}");
        assert_eq!(rt; folder.put(&path, b""), unfit, "{names:?}");
        assert_eq!(rt; folder.write(&path, 0, b""), unfit, "{names:?}");
        assert_eq!(rt; folder.set_len(&path, 0), unfit, "{names:?}");
        assert_eq!(rt; folder.rename(&path, &file), unfit, "{names:?}");
        assert_eq!(rt; folder.rename(&file, &path), unfit, "{names:?}");
    }
    assert_eq!(rt; folder.make_dir(&file), unfit);
    assert_eq!(rt; folder.write(&file, 4, b"x"), unfit);
    assert_eq!(rt; folder.set_len(&file, 4), unfit);
    assert_eq!(rt; folder.remove_file(&path_of(&[b"d", b"link"])?), unfit);
    assert_eq!(rt; folder.remove_dir(&VaultPath::root()), unfit);
    assert!(rt; bytes_of_f(&mut folder)? == *b"abc---", "nothing changed");
    fs::remove_dir_all(&rt, place)?;
    Ok(())
}

#[test]
fn no_device_is_opened(rt: HostRuntime) -> Result<(), Fail> {
    let mut folder = HostFolder::untold(StdCalls::new(&rt, Discard), rt.alloc(), "/dev")?;
    let null = path_of(&[b"null"])?;
    assert_eq!(rt; folder.kind(&null), Ok(None));
    assert_eq!(rt; folder.read(&null, 0, &mut [0; 2]), Err(FolderErr::Unfit));
    assert_eq!(rt; folder.put(&null, b"x"), Err(FolderErr::Unfit));
    Ok(())
}

#[test]
fn nothing_is_told_of_a_folder_that_is_missing(rt: HostRuntime) -> Result<(), Fail> {
    let missing = place(&rt, "missing")?;
    for place in [missing.as_str(), ""] {
        let mut folder = HostFolder::untold(StdCalls::new(&rt, Discard), rt.alloc(), place)?;
        for names in [[].as_slice(), &[b"tmp".as_slice()]] {
            let path = path_of(names)?;
            assert_eq!(rt; folder.kind(&path), Err(FolderErr::Failed), "{names:?}");
            assert!(rt; folder.list(rt.alloc(), &path).is_err(), "{names:?}");
        }
    }
    Ok(())
}

// The system says EACCES, but to root. It is told, and no folder is there.
#[test]
fn a_closed_folder_is_none(rt: HostRuntime) -> Result<(), Fail> {
    let place = place(&rt, "closed")?;
    fs::create_dir(&rt, place.as_str())?;
    fs::set_permissions(&rt, place.as_str(), Permissions::from_mode(0o000))?;
    let log = Logged::new(&rt, Level::Error, Memory::new(rt.alloc()));
    let answer = StdCalls::new(&rt, &log).list(rt.alloc(), place.as_str());
    fs::set_permissions(&rt, place.as_str(), Permissions::from_mode(0o700))?;
    fs::remove_dir(&rt, place.as_str())?;
    let Err(cause) = answer else {
        return Ok(());
    };
    assert_eq!(rt; cause, FolderErr::Unfit);
    let (_, lines) = log.into_parts();
    let lines = lines.into_lines();
    let want = [format!(in rt.alloc();
        "[ERROR vaultd] list of {place}: Permission denied (os error 13)"
    )?];
    assert!(rt; lines.as_slice() == want.as_slice());
    Ok(())
}

// What the system says of EEXIST, EINVAL and ENOENT. A path at which nothing is, and one that a change doesn't fit, are no faults.
#[test]
fn each_fault_is_told_once(rt: HostRuntime) -> Result<(), Fail> {
    let place = place(&rt, "told")?;
    fs::create_dir(&rt, place.as_str())?;
    let inside = format!(in rt.alloc(); "{place}/x")?;
    let log = Logged::new(&rt, Level::Error, Memory::new(rt.alloc()));
    let mut calls = StdCalls::new(&rt, &log);
    assert!(rt; matches!(calls.stat(inside.as_str(), false), Ok(Found::Nothing)));
    assert_eq!(rt; calls.unlink(inside.as_str()), Err(FolderErr::Unfit));
    assert_eq!(rt; calls.mkdir(place.as_str()), Err(FolderErr::Failed));
    assert_eq!(rt;
        calls.rename(place.as_str(), inside.as_str()),
        Err(FolderErr::Failed)
    );
    assert!(rt; calls.list(rt.alloc(), inside.as_str()).is_err());
    drop(calls);
    let (_, lines) = log.into_parts();
    let lines = lines.into_lines();
    let want = [
        format!(in rt.alloc(); "[ERROR vaultd] mkdir of {place}: File exists (os error 17)")?,
        format!(in rt.alloc();
            "[ERROR vaultd] rename of {place} to {inside}: Invalid argument (os error 22)"
        )?,
        format!(in rt.alloc();
            "[ERROR vaultd] list of {inside}: No such file or directory (os error 2)"
        )?,
    ];
    assert!(rt; lines.as_slice() == want.as_slice());
    fs::remove_dir(&rt, place.as_str())?;
    Ok(())
}
