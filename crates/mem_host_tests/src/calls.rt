//! What the calls of a host answer, and what power cuts leave of it, as tables.

use host_calls::{Found, HostCalls, Inode};
use mem_host::{Extent, Fault, Leaves, MemHost};
use outside::FolderErr;
use std::alloc::{AllocError, Global};
use std::test::Fail;

/// A host with a folder of this text.
pub fn host_at(alloc: Global) -> Result<MemHost, AllocError> {
    MemHost::new(alloc, "v")
}

// What is done at a path, or looked at.
#[derive(Clone, Copy)]
enum Act {
    /// What is there: `d` a folder, `f` a file, `-` nothing, `o` something else, `!` a failure.
    Kind,
    /// Whether the file there has just these bytes: `=`, or `-`.
    Holds(&'static [u8]),
    Make,
    Create(&'static [u8]),
    Write(u64, &'static [u8]),
    /// The same, and the file is cut after these bytes.
    WriteLast(u64, &'static [u8]),
    Cut(u64),
    Rename(&'static str),
    Unlink,
    Remove,
    Flush,
}

use Act::*;

// A row: what a power cut leaves of each step, if one comes first, which the host itself isn't told of; a path; what is done there; and what
// comes of it: `d` done, `u` unfit, `!` failed.
type Row = (Option<&'static [Leaves]>, &'static str, Act, char);

fn kind(host: &mut MemHost, text: &str) -> char {
    match host.stat(text, false) {
        Ok(Found::Dir(_)) => 'd',
        Ok(Found::File(_, _)) => 'f',
        Ok(Found::Nothing) => '-',
        Ok(Found::Other) => 'o',
        Err(_) => '!',
    }
}

fn inode(host: &mut MemHost, text: &str) -> Option<Inode> {
    match host.stat(text, false) {
        Ok(Found::File(inode, _)) => Some(inode),
        _ => None,
    }
}

fn holds(host: &mut MemHost, text: &str, bytes: &[u8]) -> char {
    let Some(seen) = inode(host, text) else {
        return '-';
    };
    let mut out = [b'.'; 16];
    match host.read_at(text, seen, 0, &mut out) {
        Ok(count) if out.get(..count) == Some(bytes) => '=',
        _ => '-',
    }
}

fn answer(done: Result<(), FolderErr>) -> char {
    match done {
        Ok(()) => 'd',
        Err(FolderErr::Unfit) => 'u',
        Err(FolderErr::Failed) => '!',
        Err(FolderErr::Memory) => 'm',
    }
}

fn write(host: &mut MemHost, text: &str, at: u64, bytes: &[u8], is_end: bool) -> char {
    match inode(host, text) {
        None => '-',
        Some(seen) => answer(host.write_at(text, seen, at, bytes, is_end)),
    }
}

fn cut(host: &mut MemHost, text: &str, len: u64) -> char {
    match inode(host, text) {
        None => '-',
        Some(seen) => answer(host.set_len(text, seen, len)),
    }
}

fn flush(host: &mut MemHost, text: &str) -> char {
    match host.stat(text, false) {
        Err(_) => '?',
        Ok(seen) => answer(host.fsync(text, seen)),
    }
}

fn done(host: &mut MemHost, text: &str, act: Act) -> char {
    match act {
        Kind => kind(host, text),
        Holds(bytes) => holds(host, text, bytes),
        Make => answer(host.mkdir(text)),
        Create(bytes) => answer(host.create(text, bytes)),
        Write(at, bytes) => write(host, text, at, bytes, false),
        WriteLast(at, bytes) => write(host, text, at, bytes, true),
        Cut(len) => cut(host, text, len),
        Rename(to) => answer(host.rename(text, to)),
        Unlink => answer(host.unlink(text)),
        Remove => answer(host.rmdir(text)),
        Flush => flush(host, text),
    }
}

// The first row that comes out otherwise.
fn first_wrong(host: &mut MemHost, rows: &[Row]) -> Result<Option<usize>, AllocError> {
    for (index, (left, text, act, want)) in rows.iter().enumerate() {
        let came = match left {
            None => done(host, text, *act),
            Some(leaves) => done(&mut host.power_cut(leaves)?, text, *act),
        };
        if came != *want {
            return Ok(Some(index));
        }
    }
    Ok(None)
}

const NOTHING: Option<&[Leaves]> = Some(&[Leaves::Nothing]);

const HALF: Option<&[Leaves]> = Some(&[Leaves::Half]);

const ALL: Option<&[Leaves]> = Some(&[Leaves::All]);

static HELD: [Row; 18] = [
    (None, "v", Kind, 'd'),
    // it has no folder yet
    (None, "v/d/a", Create(b"early"), 'u'),
    (None, "v/d", Make, 'd'),
    (None, "v/d", Make, 'u'),
    (None, "v/d/a", Create(b"hello"), 'd'),
    (None, "v/d/a", Create(b"again"), 'u'),
    (None, "v/d/a", Holds(b"hello"), '='),
    (None, "v/d/a", WriteLast(4, b"p me"), 'd'),
    (None, "v/d/a", Holds(b"hellp me"), '='),
    (None, "v/d/a", Write(0, b"H"), 'd'),
    (None, "v/d/a", Holds(b"Hellp me"), '='),
    (None, "v/d/a", WriteLast(1, b"i"), 'd'),
    (None, "v/d/a", Holds(b"Hi"), '='),
    // past the end
    (None, "v/d/a", Write(3, b"x"), 'u'),
    (None, "v/d/a", Cut(3), 'u'),
    (None, "v/d/a", Cut(1), 'd'),
    (None, "v/d/a", Holds(b"H"), '='),
    (None, "v/d/a", Kind, 'f'),
];

#[test]
fn a_host_holds_what_was_done(rt: HostRuntime) -> Result<(), Fail> {
    assert_eq!(rt; first_wrong(&mut host_at(rt.alloc())?, &HELD)?, None);
    Ok(())
}

static NAMES: [Row; 17] = [
    (None, "v/d", Make, 'd'),
    (None, "v/a", Create(b"one"), 'd'),
    (None, "v/d/b", Create(b"two"), 'd'),
    // onto a folder, and into none
    (None, "v/a", Rename("v/d"), 'u'),
    (None, "v/a", Rename("v/e/b"), 'u'),
    (None, "v/a", Rename("v/d/b"), 'd'),
    (None, "v/a", Kind, '-'),
    (None, "v/d/b", Holds(b"one"), '='),
    (None, "v/d/b", Rename("v/d/b"), 'd'),
    // a folder that isn't empty, a folder, a file, and nothing
    (None, "v/d", Remove, 'u'),
    (None, "v/d", Unlink, 'u'),
    (None, "v/d/b", Remove, 'u'),
    (None, "v/d/b", Unlink, 'd'),
    (None, "v/d/b", Unlink, 'u'),
    (None, "v/d", Remove, 'd'),
    // the folder itself
    (None, "v", Remove, 'u'),
    (None, "v", Kind, 'd'),
];

#[test]
fn names_move_and_go(rt: HostRuntime) -> Result<(), Fail> {
    assert_eq!(rt; first_wrong(&mut host_at(rt.alloc())?, &NAMES)?, None);
    Ok(())
}

#[test]
fn texts_of_no_path_fail(rt: HostRuntime) -> Result<(), Fail> {
    let mut host = host_at(rt.alloc())?;
    for text in [
        "",
        "w",
        "v/",
        "va",
        "v//a",
        "v/./a",
        "v/..",
        "v/a b",
        "v/a/b/c/d/e/f/g",
    ] {
        assert!(rt; done(&mut host, text, Kind) == '!');
        assert!(rt; done(&mut host, text, Make) == '!');
    }
    assert!(rt; done(&mut host, "v/a/b/c/d/e/f", Kind) == '-');
    Ok(())
}

fn failing(alloc: Global, faults: &[(u64, Extent)]) -> Result<MemHost, AllocError> {
    let mut listed = Vec::new(alloc);
    for (call, done) in faults {
        listed.push(Fault {
            call: *call,
            done: *done,
        })?;
    }
    Ok(host_at(alloc)?.failing_at(listed))
}

static LISTED: [Row; 6] = [
    (None, "v/a", Make, '!'),
    (None, "v/a", Kind, '-'),
    (None, "v/a", Make, '!'),
    (None, "v/a", Kind, 'd'),
    (None, "v/b", Create(b"hello"), '!'),
    (None, "v/b", Holds(b"he"), '='),
];

#[test]
fn listed_calls_fail(rt: HostRuntime) -> Result<(), Fail> {
    let faults = [(0, Extent::Nothing), (2, Extent::All), (4, Extent::Half)];
    let mut host = failing(rt.alloc(), &faults)?;
    assert_eq!(rt; first_wrong(&mut host, &LISTED)?, None);
    assert_eq!(rt; host.call_count(), 7);
    Ok(())
}

static NAMES_LAST: [Row; 9] = [
    (None, "v/d", Make, 'd'),
    (None, "v/d/e", Make, 'd'),
    (NOTHING, "v/d", Kind, '-'),
    (ALL, "v/d/e", Kind, 'd'),
    // a name without its folder
    (Some(&[Leaves::Nothing, Leaves::All]), "v/d/e", Kind, '-'),
    (None, "v", Flush, 'd'),
    (NOTHING, "v/d/e", Kind, '-'),
    (None, "v/d", Flush, 'd'),
    (NOTHING, "v/d/e", Kind, 'd'),
];

static BYTES_LAST: [Row; 14] = [
    (None, "v/a", Create(b"hello"), 'd'),
    (None, "v", Flush, 'd'),
    (NOTHING, "v/a", Holds(b""), '='),
    (HALF, "v/a", Holds(b"he"), '='),
    (Some(&[Leaves::Filled]), "v/a", Holds(&[0xA5; 5]), '='),
    (ALL, "v/a", Holds(b"hello"), '='),
    (None, "v/a", Flush, 'd'),
    (NOTHING, "v/a", Holds(b"hello"), '='),
    (None, "v/a", WriteLast(3, b"p"), 'd'),
    (NOTHING, "v/a", Holds(b"hello"), '='),
    (ALL, "v/a", Holds(b"help"), '='),
    (
        Some(&[Leaves::Nothing, Leaves::All]),
        "v/a",
        Holds(b"hell"),
        '=',
    ),
    (None, "v/a", Cut(1), 'd'),
    (HALF, "v/a", Holds(b"hel"), '='),
];

static MOVES_LAST: [Row; 11] = [
    (None, "v/a", Create(b"one"), 'd'),
    (None, "v/a", Flush, 'd'),
    (None, "v/d", Make, 'd'),
    (None, "v", Flush, 'd'),
    (None, "v/a", Rename("v/d/a"), 'd'),
    (None, "v/d", Flush, 'd'),
    (NOTHING, "v/a", Holds(b"one"), '='),
    (None, "v", Flush, 'd'),
    (NOTHING, "v/d/a", Holds(b"one"), '='),
    (None, "v/d/a", Unlink, 'd'),
    (NOTHING, "v/d/a", Holds(b"one"), '='),
];

#[test]
fn what_lasts_was_flushed(rt: HostRuntime) -> Result<(), Fail> {
    for rows in [
        NAMES_LAST.as_slice(),
        BYTES_LAST.as_slice(),
        MOVES_LAST.as_slice(),
    ] {
        assert_eq!(rt; first_wrong(&mut host_at(rt.alloc())?, rows)?, None);
    }
    Ok(())
}

static IN_DOUBT: [Row; 5] = [
    (None, "v/d", Make, 'd'),
    (None, "v", Flush, '!'),
    (None, "v", Flush, 'd'),
    (None, "v/d", Kind, 'd'),
    (NOTHING, "v/d", Kind, '-'),
];

#[test]
fn after_a_flush_that_failed_no_flush_helps(rt: HostRuntime) -> Result<(), Fail> {
    let mut host = failing(rt.alloc(), &[(2, Extent::All)])?;
    assert_eq!(rt; first_wrong(&mut host, &IN_DOUBT)?, None);
    // a kill leaves it
    let after_kill: [Row; 2] = [(None, "v/d", Kind, 'd'), (NOTHING, "v/d", Kind, '-')];
    assert_eq!(rt; first_wrong(&mut host.restarted(), &after_kill)?, None);
    Ok(())
}
