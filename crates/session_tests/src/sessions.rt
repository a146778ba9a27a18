//! Answers of a session over a tree with one file.

use crate::answers::{buffer, expect_answers, said, session_after};
use crate::frames::*;
use crate::one_file::{OneFile, Refusing};
use std::test::Fail;
use tree_model::Refusal;
use vault_path::VaultPath;

#[test]
fn a_file_is_read(rt: HostRuntime) -> Result<(), Fail> {
    let rows: [Row; 6] = [
        (VERSION, VERSION_SAID),
        (ATTACH, ATTACH_SAID),
        (WALK, WALK_SAID),
        (OPEN, OPEN_SAID),
        (READ, READ_SAID),
        (CLUNK, CLUNK_SAID),
    ];
    expect_answers(&rt, rt.alloc(), &mut OneFile::new(), 0, &rows)?;
    Ok(())
}

const FRESH: [Row; 6] = [
    // A size of 2,047 bytes.
    (
        b"\x13\0\0\0\x64\x01\0\xff\x07\0\0\x06\09P2000",
        b"\x1f\0\0\0\x6b\x01\0\x16\0message size too small",
    ),
    // The version `foo`.
    (
        b"\x10\0\0\0\x64\x01\0\x18\0\x01\0\x03\0foo",
        b"\x14\0\0\0\x65\x01\0\x18\0\x01\0\x07\0unknown",
    ),
    (ATTACH, NO_VERSION),
    // The version `9P2000.u`.
    (
        b"\x15\0\0\0\x64\xff\xff\x18\0\x01\0\x08\09P2000.u",
        VERSION_SAID,
    ),
    (VERSION, VERSION_SAID),
    (ATTACH, ATTACH_SAID),
];

#[test]
fn only_a_version_of_the_protocol_is_first(rt: HostRuntime) -> Result<(), Fail> {
    expect_answers(&rt, rt.alloc(), &mut OneFile::new(), 0, &FRESH)?;
    Ok(())
}

const AGREED: [Row; 6] = [
    // NOFID as the fid.
    (
        b"\x14\0\0\0\x68\x01\0\xff\xff\xff\xff\xff\xff\xff\xff\x01\0u\0\0",
        UNKNOWN_FID,
    ),
    // An afid, and an authentication.
    (
        b"\x14\0\0\0\x68\x01\0\0\0\0\0\x02\0\0\0\x01\0u\0\0",
        NO_AUTHENTICATION,
    ),
    (
        b"\x11\0\0\0\x66\x01\0\x05\0\0\0\x01\0u\x01\0a",
        NO_AUTHENTICATION,
    ),
    (WALK, UNKNOWN_FID),
    (ATTACH, ATTACH_SAID),
    (ATTACH, FID_IN_USE),
];

#[test]
fn only_a_fid_without_an_afid_is_attached(rt: HostRuntime) -> Result<(), Fail> {
    expect_answers(&rt, rt.alloc(), &mut OneFile::new(), 1, &AGREED)?;
    Ok(())
}

const ATTACHED: [Row; 6] = [
    // From a fid that isn't in use, and to NOFID.
    (
        b"\x14\0\0\0\x6e\x01\0\x02\0\0\0\x01\0\0\0\x01\0\x01\0a",
        UNKNOWN_FID,
    ),
    (
        b"\x14\0\0\0\x6e\x01\0\0\0\0\0\xff\xff\xff\xff\x01\0\x01\0a",
        UNKNOWN_FID,
    ),
    (OPEN, UNKNOWN_FID),
    // By no names to fid 2, and to the same fid.
    (
        b"\x11\0\0\0\x6e\x01\0\0\0\0\0\x02\0\0\0\0\0",
        b"\x09\0\0\0\x6f\x01\0\0\0",
    ),
    (
        b"\x14\0\0\0\x6e\x01\0\x02\0\0\0\x02\0\0\0\x01\0\x01\0a",
        WALK_SAID,
    ),
    (WALK, WALK_SAID),
];

#[test]
fn a_fid_in_use_is_walked_from(rt: HostRuntime) -> Result<(), Fail> {
    expect_answers(&rt, rt.alloc(), &mut OneFile::new(), 2, &ATTACHED)?;
    Ok(())
}

const AT_NODE: [Row; 4] = [
    (READ, FID_IS_NOT_OPEN),
    // With a bit that no mode has.
    (b"\x0c\0\0\0\x70\x01\0\x01\0\0\0\x20", NOT_PERMITTED),
    (OPEN, OPEN_SAID),
    (OPEN, FID_IS_OPEN),
];

#[test]
fn a_fid_is_opened_once(rt: HostRuntime) -> Result<(), Fail> {
    expect_answers(&rt, rt.alloc(), &mut OneFile::new(), 3, &AT_NODE)?;
    Ok(())
}

const OPENED: [Row; 9] = [
    // The root's fid.
    (
        b"\x17\0\0\0\x74\x01\0\0\0\0\0\0\0\0\0\0\0\0\0\x05\0\0\0",
        FID_IS_NOT_OPEN,
    ),
    (READ, READ_SAID),
    // At the end.
    (
        b"\x17\0\0\0\x74\x01\0\x01\0\0\0\x05\0\0\0\0\0\0\0\x05\0\0\0",
        READ_NONE,
    ),
    // A write by a fid that is open for reading.
    (
        b"\x19\0\0\0\x76\x01\0\x01\0\0\0\0\0\0\0\0\0\0\0\x02\0\0\0hi",
        NOT_PERMITTED,
    ),
    // A flush of what isn't pending.
    (b"\x09\0\0\0\x6c\x01\0\x04\0", b"\x07\0\0\0\x6d\x01\0"),
    (CLUNK, CLUNK_SAID),
    (CLUNK, UNKNOWN_FID),
    (READ, UNKNOWN_FID),
    (WALK, WALK_SAID),
];

#[test]
fn an_open_fid_is_read_until_it_is_clunked(rt: HostRuntime) -> Result<(), Fail> {
    expect_answers(&rt, rt.alloc(), &mut OneFile::new(), 4, &OPENED)?;
    Ok(())
}

const UNREAD: [Row; 9] = [
    // A type that is none, with good fields and with bad ones.
    (b"\x07\0\0\0\x6a\x01\0", UNKNOWN_MESSAGE),
    (b"\x08\0\0\0\x6a\x01\0\0", UNKNOWN_MESSAGE),
    // A string past the end, a byte left, and a string that isn't UTF-8.
    (b"\x13\0\0\0\x64\x01\0\x18\0\x01\0\x07\09P2000", BAD_MESSAGE),
    (
        b"\x14\0\0\0\x64\x01\0\x18\0\x01\0\x06\09P2000\0",
        BAD_MESSAGE,
    ),
    (
        b"\x13\0\0\0\x64\x01\0\x18\0\x01\0\x06\09P200\xff",
        BAD_MESSAGE,
    ),
    // Before a version: a fid past the end, a byte left, and 17 names.
    (b"\x0a\0\0\0\x78\x01\0\x01\0\0", BAD_MESSAGE),
    (b"\x0d\0\0\0\x70\x01\0\x01\0\0\0\0\0", BAD_MESSAGE),
    (
        b"\x44\0\0\0\x6e\x01\0\0\0\0\0\x01\0\0\0\x11\0\x01\0a\x01\0a\x01\0a\x01\0a\x01\0a\x01\0a\x01\0a\x01\0a\x01\0a\x01\0a\x01\0a\x01\0a\x01\0a\x01\0a\x01\0a\x01\0a\x01\0a",
        BAD_MESSAGE,
    ),
    (VERSION, VERSION_SAID),
];

#[test]
fn unknown_comes_before_bad_and_bad_before_order(rt: HostRuntime) -> Result<(), Fail> {
    expect_answers(&rt, rt.alloc(), &mut OneFile::new(), 0, &UNREAD)?;
    Ok(())
}

#[test]
fn refusals_of_the_tree_are_told_and_change_nothing(rt: HostRuntime) -> Result<(), Fail> {
    let rows: [(Refusal, &[u8]); 22] = [
        (Refusal::Removed, b"\x10\0\0\0\x6b\x01\0\x07\0removed"),
        (
            Refusal::NotADirectory,
            b"\x18\0\0\0\x6b\x01\0\x0f\0not a directory",
        ),
        (
            Refusal::IsADirectory,
            b"\x17\0\0\0\x6b\x01\0\x0e\0is a directory",
        ),
        (Refusal::BadName, b"\x11\0\0\0\x6b\x01\0\x08\0bad name"),
        (
            Refusal::NameTooLong,
            b"\x16\0\0\0\x6b\x01\0\x0d\0name too long",
        ),
        (
            Refusal::FileDoesNotExist,
            b"\x1c\0\0\0\x6b\x01\0\x13\0file does not exist",
        ),
        (
            Refusal::FileExists,
            b"\x14\0\0\0\x6b\x01\0\x0b\0file exists",
        ),
        (
            Refusal::NotPermitted,
            b"\x16\0\0\0\x6b\x01\0\x0d\0not permitted",
        ),
        (
            Refusal::DirectoryNotEmpty,
            b"\x1c\0\0\0\x6b\x01\0\x13\0directory not empty",
        ),
        (
            Refusal::CountTooSmall,
            b"\x18\0\0\0\x6b\x01\0\x0f\0count too small",
        ),
        (
            Refusal::FileTooLarge,
            b"\x17\0\0\0\x6b\x01\0\x0e\0file too large",
        ),
        (
            Refusal::GapTooLarge,
            b"\x16\0\0\0\x6b\x01\0\x0d\0gap too large",
        ),
        (
            Refusal::OneChangeAtATime,
            b"\x1d\0\0\0\x6b\x01\0\x14\0one change at a time",
        ),
        (Refusal::VaultFull, b"\x13\0\0\0\x6b\x01\0\x0a\0vault full"),
        (Refusal::Damaged, b"\x10\0\0\0\x6b\x01\0\x07\0damaged"),
        (Refusal::Foreign, b"\x10\0\0\0\x6b\x01\0\x07\0foreign"),
        (
            Refusal::PlaceTaken(VaultPath::root()),
            b"\x14\0\0\0\x6b\x01\0\x0b\0place taken",
        ),
        (Refusal::Stopped(1), b"\x10\0\0\0\x6b\x01\0\x07\0stopped"),
        (
            Refusal::Exhausted(1),
            b"\x12\0\0\0\x6b\x01\0\x09\0exhausted",
        ),
        (
            Refusal::DeviceFault,
            b"\x15\0\0\0\x6b\x01\0\x0c\0device fault",
        ),
        (
            Refusal::RandomFault,
            b"\x15\0\0\0\x6b\x01\0\x0c\0random fault",
        ),
        (
            Refusal::OutOfMemory,
            b"\x16\0\0\0\x6b\x01\0\x0d\0out of memory",
        ),
    ];
    let mut out = buffer(rt.alloc())?;
    let mut session = session_after(rt.alloc(), &mut OneFile::new(), 2, &mut out)?;
    for (refusal, expected) in rows {
        let mut tree = Refusing {
            refusal: Some(refusal),
        };
        let answer = said(&mut session, &mut tree, WALK, &mut out);
        assert_eq!(rt; answer, expected);
    }
    let answer = said(&mut session, &mut OneFile::new(), WALK, &mut out);
    assert_eq!(rt; answer, WALK_SAID);
    Ok(())
}
