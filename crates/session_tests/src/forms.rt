//! Answers of every form.

use crate::answers::expect_answers;
use crate::frames::*;
use crate::obliging::Obliging;
use std::test::Fail;

// Fid 1 is at a node, not open.
const CREATED: [Row; 9] = [
    // Fid 2, which isn't in use.
    (
        b"\x13\0\0\0\x72\x01\0\x02\0\0\0\x01\0n\xa4\x01\0\0\x02",
        UNKNOWN_FID,
    ),
    // A perm of 0x400001a4 (DMAPPEND), and one of 0x3a4.
    (
        b"\x13\0\0\0\x72\x01\0\x01\0\0\0\x01\0n\xa4\x01\0\x40\x02",
        NOT_PERMITTED,
    ),
    (
        b"\x13\0\0\0\x72\x01\0\x01\0\0\0\x01\0n\xa4\x03\0\0\x02",
        NOT_PERMITTED,
    ),
    // A mode of 0x42 (ORCLOSE).
    (
        b"\x13\0\0\0\x72\x01\0\x01\0\0\0\x01\0n\xa4\x01\0\0\x42",
        NOT_PERMITTED,
    ),
    // DMDIR, to be written.
    (
        b"\x13\0\0\0\x72\x01\0\x01\0\0\0\x01\0n\xed\x01\0\x80\x01",
        b"\x17\0\0\0\x6b\x01\0\x0e\0is a directory",
    ),
    // The file `n`, to be read and written, by which the fid is open.
    (
        b"\x13\0\0\0\x72\x01\0\x01\0\0\0\x01\0n\xa4\x01\0\0\x02",
        b"\x18\0\0\0\x73\x01\0\0\x01\0\0\0\x02\0\0\0\0\0\0\0\0\0\x01\0",
    ),
    (
        b"\x13\0\0\0\x72\x01\0\x01\0\0\0\x01\0n\xa4\x01\0\0\x02",
        FID_IS_OPEN,
    ),
    (
        b"\x19\0\0\0\x76\x01\0\x01\0\0\0\0\0\0\0\0\0\0\0\x02\0\0\0hi",
        b"\x0b\0\0\0\x77\x01\0\x02\0\0\0",
    ),
    // The directory `n`, by fid 0.
    (
        b"\x13\0\0\0\x72\x01\0\0\0\0\0\x01\0n\xed\x01\0\x80\0",
        b"\x18\0\0\0\x73\x01\0\x80\x01\0\0\0\x02\0\0\0\0\0\0\0\0\0\x01\0",
    ),
];

#[test]
fn a_create_opens_what_it_makes(rt: HostRuntime) -> Result<(), Fail> {
    expect_answers(&rt, rt.alloc(), &mut Obliging::new(), 3, &CREATED)?;
    Ok(())
}

// Fid 1 is at a node, not open.
const CHANGED: [Row; 9] = [
    // Fid 2, which isn't in use.
    (b"\x0b\0\0\0\x7c\x01\0\x02\0\0\0", UNKNOWN_FID),
    // The stat of `a`, and its size before it.
    (
        b"\x0b\0\0\0\x7c\x01\0\x01\0\0\0",
        b"\x4a\0\0\0\x7d\x01\0\x41\0\
            \x3f\0\0\0\0\0\0\0\0\0\0\0\0\x01\0\0\0\0\0\0\0\xa4\x01\0\0\x64\0\0\0\x64\0\0\0\
            \x05\0\0\0\0\0\0\0\x01\0a\x05\0vault\x05\0vault\x05\0vault",
    ),
    // The name `b`: by fid 2, by fid 1, with n one too many, and so with a byte more.
    (
        b"\x3f\0\0\0\x7e\x01\0\x02\0\0\0\x32\0\x30\0\xff\xff\xff\xff\xff\xff\xff\xff\xff\xff\xff\xff\xff\xff\xff\xff\xff\xff\xff\xff\xff\xff\xff\xff\xff\xff\xff\xff\xff\xff\xff\xff\xff\xff\xff\xff\xff\xff\xff\x01\0b\0\0\0\0\0\0",
        UNKNOWN_FID,
    ),
    (
        b"\x3f\0\0\0\x7e\x01\0\x01\0\0\0\x32\0\x30\0\xff\xff\xff\xff\xff\xff\xff\xff\xff\xff\xff\xff\xff\xff\xff\xff\xff\xff\xff\xff\xff\xff\xff\xff\xff\xff\xff\xff\xff\xff\xff\xff\xff\xff\xff\xff\xff\xff\xff\x01\0b\0\0\0\0\0\0",
        b"\x07\0\0\0\x7f\x01\0",
    ),
    (
        b"\x3f\0\0\0\x7e\x01\0\x01\0\0\0\x33\0\x30\0\xff\xff\xff\xff\xff\xff\xff\xff\xff\xff\xff\xff\xff\xff\xff\xff\xff\xff\xff\xff\xff\xff\xff\xff\xff\xff\xff\xff\xff\xff\xff\xff\xff\xff\xff\xff\xff\xff\xff\x01\0b\0\0\0\0\0\0",
        BAD_MESSAGE,
    ),
    (
        b"\x40\0\0\0\x7e\x01\0\x01\0\0\0\x33\0\x30\0\xff\xff\xff\xff\xff\xff\xff\xff\xff\xff\xff\xff\xff\xff\xff\xff\xff\xff\xff\xff\xff\xff\xff\xff\xff\xff\xff\xff\xff\xff\xff\xff\xff\xff\xff\xff\xff\xff\xff\x01\0b\0\0\0\0\0\0\0",
        BAD_MESSAGE,
    ),
    // A remove frees its fid.
    (b"\x0b\0\0\0\x7a\x01\0\x01\0\0\0", b"\x07\0\0\0\x7b\x01\0"),
    (b"\x0b\0\0\0\x7a\x01\0\x01\0\0\0", UNKNOWN_FID),
    (CLUNK, UNKNOWN_FID),
];

#[test]
fn a_stat_is_told_and_changed_until_the_node_is_removed(rt: HostRuntime) -> Result<(), Fail> {
    expect_answers(&rt, rt.alloc(), &mut Obliging::new(), 3, &CHANGED)?;
    Ok(())
}
