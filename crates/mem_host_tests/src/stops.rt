//! A folder over the host is stopped after each of its changes, and at each call of the host: what the next run finds.
// The helpers have no contracts, so that what is known of a host doesn't grow from call to call.

use crate::calls::host_at;
use crate::lent::Lent;
use host_calls::{Found, HostCalls};
use host_folder::{HostFolder, Unsettled};
use mem_host::{Extent, Fault, Leaves, MemHost};
use outside::{Folder, FolderErr, Kind, Reads};
use std::alloc::{AllocError, Global};
use std::test::Fail;
use vault_path::VaultPath;

// How many steps the run has.
const STEPS: u64 = 10;

fn path_of(names: &[&[u8]]) -> Result<VaultPath, Fail> {
    let mut path = VaultPath::root();
    for name in names {
        path = path.join(name).ok().ok_or("a good part")?;
    }
    Ok(path)
}

// The paths of the run.
fn paths(alloc: Global) -> Result<Vec<VaultPath>, Fail> {
    let mut paths = Vec::new(alloc);
    paths.push(path_of(&[b"d"])?)?;
    paths.push(path_of(&[b"a"])?)?;
    paths.push(path_of(&[b"d", b"a"])?)?;
    paths.push(path_of(&[b"b"])?)?;
    Ok(paths)
}

// The folder as the next run opens it.
fn opened(host: &mut MemHost, alloc: Global) -> Result<HostFolder<Lent<'_>>, Fail> {
    let paths = paths(alloc)?;
    Ok(Unsettled::new(Lent { host }, alloc, "v")?.settle(&paths))
}

// One step of the run.
fn step<F: Folder>(folder: &mut F, number: u64) -> Result<Result<(), FolderErr>, Fail> {
    Ok(match number {
        0 => folder.make_dir(&path_of(&[b"d"])?),
        1 => folder.put(&path_of(&[b"a"])?, b"one"),
        3 => folder.write(&path_of(&[b"a"])?, 2, b"ly"),
        4 => folder.rename(&path_of(&[b"a"])?, &path_of(&[b"d", b"a"])?),
        6 => folder.put(&path_of(&[b"b"])?, b"two"),
        7 => folder.remove_file(&path_of(&[b"d", b"a"])?),
        8 => folder.remove_dir(&path_of(&[b"d"])?),
        _ => folder.sync(),
    })
}

// Takes the first steps of the run, up to one that fails, and says how many were done.
fn run(host: &mut MemHost, alloc: Global, count: u64) -> Result<u64, Fail> {
    let mut folder = HostFolder::untold(Lent { host }, alloc, "v")?;
    for number in 0..count {
        if step(&mut folder, number)?.is_err() {
            return Ok(number);
        }
    }
    Ok(count)
}

// What the next run finds at each of the paths, once it has settled them: `/` a folder, `-` nothing, `=` a file with its bytes.
fn found(host: &mut MemHost, alloc: Global) -> Result<Vec<u8>, Fail> {
    let paths = paths(alloc)?;
    let mut folder = opened(host, alloc)?;
    let mut text = Vec::new(alloc);
    for path in &paths {
        match folder.kind(path)? {
            None => text.push(b'-')?,
            Some(Kind::Dir) => text.push(b'/')?,
            Some(Kind::File(_)) => {
                let mut out = [0; 8];
                let count = folder.read(path, 0, &mut out)?;
                text.push(b'=')?;
                text.extend_from_slice(out.get(..count).ok_or("a count")?)?;
            }
        }
        text.push(b' ')?;
    }
    Ok(text)
}

// The host after a power cut that leaves nothing but what is on the disk.
fn lasting(host: &MemHost) -> Result<MemHost, AllocError> {
    host.power_cut(&[Leaves::Nothing])
}

// How many steps are taken, what is then found, and what a power cut may take all back to.
static SYNCED: [(u64, &[u8], &[u8]); 11] = [
    (0, b"- - - - ", b"- - - - "),
    (1, b"/ - - - ", b"- - - - "),
    (2, b"/ =one - - ", b"- - - - "),
    (3, b"/ =one - - ", b"/ =one - - "),
    (4, b"/ =only - - ", b"/ =one - - "),
    (5, b"/ - =only - ", b"/ =one - - "),
    (6, b"/ - =only - ", b"/ - =only - "),
    (7, b"/ - =only =two ", b"/ - =only - "),
    (8, b"/ - - =two ", b"/ - =only - "),
    (9, b"- - - =two ", b"/ - =only - "),
    (10, b"- - - =two ", b"- - - =two "),
];

// Whether so many steps of the run are found as they were done, after a kill and a power cut that loses nothing, and what was synced after one
// that loses all; and whether all of it lasts once the next run has settled it.
fn lasts(alloc: Global, count: u64, now: &[u8], synced: &[u8]) -> Result<bool, Fail> {
    let mut host = host_at(alloc)?;
    if run(&mut host, alloc, count)? != count {
        return Ok(false);
    }
    let cut = found(&mut lasting(&host)?, alloc)?.as_slice() == synced;
    let kept = found(&mut host.power_cut(&[])?, alloc)?.as_slice() == now;
    Ok(cut && kept && lasts_after_kill(host, alloc, now)?)
}

fn lasts_after_kill(host: MemHost, alloc: Global, now: &[u8]) -> Result<bool, Fail> {
    let mut next = host.restarted();
    let kept = found(&mut next, alloc)?.as_slice() == now;
    Ok(kept && found(&mut lasting(&next)?, alloc)?.as_slice() == now)
}

#[test]
fn a_sync_lasts_and_nothing_else_must(rt: HostRuntime) -> Result<(), Fail> {
    for (count, now, synced) in SYNCED {
        assert!(rt; lasts(rt.alloc(), count, now, synced)?, "{count} steps");
    }
    Ok(())
}

// A host with a file `b/a` and a folder `c`, which last, and a folder in each of both folders, which doesn't last yet.
fn with_two_folders(alloc: Global) -> Result<MemHost, Fail> {
    let mut host = host_at(alloc)?;
    host.mkdir("v/b")?;
    host.mkdir("v/c")?;
    host.create("v/b/a", b"x")?;
    for text in ["v/b/a", "v/b", "v/c", "v"] {
        let seen = host.stat(text, false)?;
        host.fsync(text, seen)?;
    }
    host.mkdir("v/b/left")?;
    host.mkdir("v/c/come")?;
    Ok(host)
}

// Moves the file from the one folder to the other, and syncs. Says how many calls of the host there were by then.
fn move_and_sync(host: &mut MemHost, alloc: Global) -> Result<u64, Fail> {
    let mut folder = HostFolder::untold(Lent { host }, alloc, "v")?;
    folder.rename(&path_of(&[b"b", b"a"])?, &path_of(&[b"c", b"a"])?)?;
    let _ = folder.sync();
    drop(folder);
    Ok(host.call_count())
}

// The last flush fails: what else was made in the folder that the file came to lasts by then, and what was made in the one that it left
// doesn't.
#[test]
fn the_folder_that_a_file_left_is_flushed_last(rt: HostRuntime) -> Result<(), Fail> {
    let alloc = rt.alloc();
    let calls = move_and_sync(&mut with_two_folders(alloc)?, alloc)?;
    let call = calls.checked_sub(1).ok_or("a call")?;
    let done = Extent::Nothing;
    let faults = vec![in alloc; Fault { call, done }]?;
    let mut host = with_two_folders(alloc)?.failing_at(faults);
    move_and_sync(&mut host, alloc)?;
    let mut left = lasting(&host)?;
    assert!(rt; matches!(left.stat("v/c/come", false), Ok(Found::Dir(_))));
    assert!(rt; matches!(left.stat("v/b/left", false), Ok(Found::Nothing)));
    Ok(())
}

// What may be found after a stop: what the last sync left, or what steps after it made of that, each of them in part or not at all.
static BEFORE_FIRST: [&[u8]; 8] = [
    b"- - - - ",
    b"- = - - ",
    b"- =o - - ",
    b"- =one - - ",
    b"/ - - - ",
    b"/ = - - ",
    b"/ =o - - ",
    b"/ =one - - ",
];

static AFTER_FIRST: [&[u8]; 6] = [
    b"/ =one - - ",
    b"/ =onl - - ",
    b"/ =only - - ",
    b"/ - =one - ",
    b"/ - =onl - ",
    b"/ - =only - ",
];

static AFTER_SECOND: [&[u8]; 12] = [
    b"/ - =only - ",
    b"/ - =only = ",
    b"/ - =only =t ",
    b"/ - =only =two ",
    b"/ - - - ",
    b"/ - - = ",
    b"/ - - =t ",
    b"/ - - =two ",
    b"- - - - ",
    b"- - - = ",
    b"- - - =t ",
    b"- - - =two ",
];

// Whether this may be found after a run of which so many steps were done.
fn may_be_found(text: &[u8], count: u64) -> bool {
    match count {
        0..=2 => BEFORE_FIRST.contains(&text),
        3..=5 => AFTER_FIRST.contains(&text),
        _ => AFTER_SECOND.contains(&text),
    }
}

// What is left of the steps that didn't last.
static CHOICES: [&[Leaves]; 5] = [
    &[Leaves::Nothing],
    &[Leaves::Half],
    &[],
    &[Leaves::Nothing, Leaves::All],
    &[Leaves::All, Leaves::Nothing],
];

// Whether this is found after a power cut, may be found after so many steps, and lasts once it was settled.
fn is_settled_after(
    host: &MemHost,
    alloc: Global,
    leaves: &[Leaves],
    count: u64,
) -> Result<bool, Fail> {
    let mut left = host.power_cut(leaves)?;
    let text = found(&mut left, alloc)?;
    Ok(may_be_found(&text, count) && found(&mut lasting(&left)?, alloc)? == text)
}

// The same of each power cut.
fn are_settled_after(host: &MemHost, alloc: Global, count: u64) -> Result<bool, Fail> {
    for leaves in CHOICES {
        if !is_settled_after(host, alloc, leaves, count)? {
            return Ok(false);
        }
    }
    Ok(true)
}

// Whether it is so of a run that fails at a call, of which so much is done, and after a kill.
fn stops_well(alloc: Global, call: u64, done: Extent) -> Result<bool, Fail> {
    let faults = vec![in alloc; Fault { call, done }]?;
    let mut host = host_at(alloc)?.failing_at(faults);
    let count = run(&mut host, alloc, STEPS)?;
    if count == STEPS || !are_settled_after(&host, alloc, count)? {
        return Ok(false);
    }
    let text = found(&mut host.restarted(), alloc)?;
    Ok(may_be_found(&text, count))
}

// How many calls of the host the run takes, if none fails.
fn calls_of_run(alloc: Global) -> Result<Option<u64>, Fail> {
    let mut whole = host_at(alloc)?;
    let count = run(&mut whole, alloc, STEPS)?;
    Ok((count == STEPS).then_some(whole.call_count()))
}

#[test]
fn a_stop_at_any_call_leaves_a_part_of_the_run(rt: HostRuntime) -> Result<(), Fail> {
    let calls = calls_of_run(rt.alloc())?.ok_or("a whole run")?;
    for call in 0..calls {
        for done in [Extent::Nothing, Extent::Half, Extent::All] {
            assert!(rt; stops_well(rt.alloc(), call, done)?, "call {call}");
        }
    }
    Ok(())
}
