//! Whole sessions over a link: each message has its answer, and the link ends after the last.

use crate::frames::*;
use crate::one_file::OneFile;
use outside_mem::{MemLink, MemSink, MemSource, SetClock};
use session_server::{SessionEnd, serve_session};
use std::alloc::{AllocError, Global};
use std::process::Abort;
use std::test::Fail;

fn frames_of(alloc: Global, rows: &[Row]) -> Result<Vec<u8>, AllocError> {
    let mut frames = Vec::new(alloc);
    for (frame, _) in rows {
        frames.extend_from_slice(frame)?;
    }
    Ok(frames)
}

// Each row's frame has its answer. What the tree has noted is returned with it.
fn expect_talk(
    rt: &impl Abort,
    alloc: Global,
    shows: &str,
    rows: &[Row],
) -> Result<OneFile, AllocError> {
    let mut tree = OneFile::new();
    let source = MemSource::new(alloc, frames_of(alloc, rows)?);
    let mut link = MemLink::new(alloc, source, MemSink::new(alloc))?;
    let end = serve_session(alloc, &mut link, &mut tree, &mut SetClock::new(100));
    assert_eq!(rt; end, SessionEnd::Done, "{shows}");
    let mut rest = link.sink().taken();
    for (frame, answer) in rows {
        let (said, others) = rest.split_at(answer.len().min(rest.len()));
        assert_eq!(rt; said, *answer, "{shows}: {frame:?}");
        rest = others;
    }
    assert!(rt; rest.is_empty(), "{shows}");
    Ok(tree)
}

const HALF_WALK: [Row; 5] = [
    (VERSION, VERSION_SAID),
    (ATTACH, ATTACH_SAID),
    // By `a` and `b`, of which only `a` is there.
    (
        b"\x17\0\0\0\x6e\x01\0\0\0\0\0\x01\0\0\0\x02\0\x01\0a\x01\0b",
        WALK_SAID,
    ),
    (CLUNK, UNKNOWN_FID),
    (WALK, WALK_SAID),
];

const REFUSED_REMOVE: [Row; 5] = [
    (VERSION, VERSION_SAID),
    (ATTACH, ATTACH_SAID),
    (WALK, WALK_SAID),
    (b"\x0b\0\0\0\x7a\x01\0\x01\0\0\0", NOT_PERMITTED),
    (CLUNK, UNKNOWN_FID),
];

const SECOND_VERSION: [Row; 6] = [
    (VERSION, VERSION_SAID),
    (ATTACH, ATTACH_SAID),
    (WALK, WALK_SAID),
    (VERSION, VERSION_SAID),
    (CLUNK, UNKNOWN_FID),
    (ATTACH, ATTACH_SAID),
];

const WALK_FROM_OPEN: [Row; 5] = [
    (VERSION, VERSION_SAID),
    (ATTACH, ATTACH_SAID),
    (WALK, WALK_SAID),
    (OPEN, OPEN_SAID),
    // From fid 1 to fid 2, by no names.
    (b"\x11\0\0\0\x6e\x01\0\x01\0\0\0\x02\0\0\0\0\0", FID_IS_OPEN),
];

const WALK_TO_USED: [Row; 5] = [
    (VERSION, VERSION_SAID),
    (ATTACH, ATTACH_SAID),
    (WALK, WALK_SAID),
    (WALK, FID_IN_USE),
    // From fid 0 to fid 1, by no names.
    (b"\x11\0\0\0\x6e\x01\0\0\0\0\0\x01\0\0\0\0\0", FID_IN_USE),
];

const OTHER_OFFSET: [Row; 6] = [
    (VERSION, VERSION_SAID),
    (ATTACH, ATTACH_SAID),
    // The root, for reading.
    (
        b"\x0c\0\0\0\x70\x01\0\0\0\0\0\0",
        b"\x18\0\0\0\x71\x01\0\x80\0\0\0\0\0\0\0\0\0\0\0\0\0\0\x01\0",
    ),
    // From offset 0, 64 and 65 on.
    (
        b"\x17\0\0\0\x74\x01\0\0\0\0\0\0\0\0\0\0\0\0\0\0\x04\0\0",
        b"\x4c\0\0\0\x75\x01\0\x41\0\0\0\
            \x3f\0\0\0\0\0\0\0\0\0\0\0\0\x01\0\0\0\0\0\0\0\xa4\x01\0\0\x64\0\0\0\x64\0\0\0\
            \x05\0\0\0\0\0\0\0\x01\0a\x05\0vault\x05\0vault\x05\0vault",
    ),
    (
        b"\x17\0\0\0\x74\x01\0\0\0\0\0\x40\0\0\0\0\0\0\0\0\x04\0\0",
        BAD_OFFSET,
    ),
    (
        b"\x17\0\0\0\x74\x01\0\0\0\0\0\x41\0\0\0\0\0\0\0\0\x04\0\0",
        READ_NONE,
    ),
];

#[test]
fn fids_are_those_of_the_manual(rt: HostRuntime) -> Result<(), Fail> {
    let talks: [(&str, &[Row]); 6] = [
        (
            "a walk whose second name fails leaves newfid unset",
            &HALF_WALK,
        ),
        ("a remove that is refused frees its fid", &REFUSED_REMOVE),
        ("a version frees the fids", &SECOND_VERSION),
        ("no walk starts from an open fid", &WALK_FROM_OPEN),
        ("newfid isn't in use", &WALK_TO_USED),
        (
            "a directory is read on where the last read ended",
            &OTHER_OFFSET,
        ),
    ];
    for (shows, rows) in talks {
        let _tree = expect_talk(&rt, rt.alloc(), shows, rows)?;
    }
    Ok(())
}

const LARGE_READ: [Row; 5] = [
    // A size of 2,048 bytes, which leaves 2,024 to a read.
    (
        b"\x13\0\0\0\x64\xff\xff\0\x08\0\0\x06\09P2000",
        b"\x13\0\0\0\x65\xff\xff\0\x08\0\0\x06\09P2000",
    ),
    (ATTACH, ATTACH_SAID),
    (WALK, WALK_SAID),
    (
        OPEN,
        b"\x18\0\0\0\x71\x01\0\0\0\0\0\0\x01\0\0\0\0\0\0\0\xe8\x07\0\0",
    ),
    // 65,536 bytes.
    (
        b"\x17\0\0\0\x74\x01\0\x01\0\0\0\0\0\0\0\0\0\0\0\0\0\x01\0",
        READ_SAID,
    ),
];

#[test]
fn a_count_is_cut_to_the_agreed_size(rt: HostRuntime) -> Result<(), Fail> {
    let tree = expect_talk(&rt, rt.alloc(), "a count", &LARGE_READ)?;
    assert_eq!(rt; tree.count, 2024);
    Ok(())
}

const CHANGES: [Row; 4] = [
    (VERSION, VERSION_SAID),
    (ATTACH, ATTACH_SAID),
    // A stat that touches nothing, and one with a mode.
    (SYNC, SYNC_SAID),
    (
        b"\x3e\0\0\0\x7e\x01\0\0\0\0\0\x31\0\x2f\0\xff\xff\xff\xff\xff\xff\xff\xff\xff\xff\xff\xff\xff\xff\xff\xff\xff\xff\xff\xa4\x01\0\0\xff\xff\xff\xff\xff\xff\xff\xff\xff\xff\xff\xff\xff\xff\xff\xff\0\0\0\0\0\0\0\0",
        NOT_PERMITTED,
    ),
];

#[test]
fn a_wstat_that_touches_nothing_syncs(rt: HostRuntime) -> Result<(), Fail> {
    let tree = expect_talk(&rt, rt.alloc(), "a sync", &CHANGES)?;
    assert_eq!(rt; tree.syncs, 1);
    Ok(())
}
