//! A client that asks for one sync: what it sends, and what it makes of the replies.

use crate::frames::{ATTACH_SAID, NOT_PERMITTED, SYNC_SAID};
use crate::links::connect;
use crate::one_file::OneFile;
use outside_mem::SetClock;
use session_server::{SessionEnd, serve_session};
use std::alloc::{AllocError, Global};
use std::test::Fail;
use sync_client::{SyncErr, sync_root};

// A version of 8,192 bytes, an attach of fid 0 as `vault`, and a stat of fid 0 that touches nothing.
const SENT: &[u8] = b"\x13\0\0\0\x64\xff\xff\0\x20\0\0\x06\09P2000\
    \x18\0\0\0\x68\x01\0\0\0\0\0\xff\xff\xff\xff\x05\0vault\0\0\
    \x3e\0\0\0\x7e\x01\0\0\0\0\0\x31\0\x2f\0\xff\xff\xff\xff\xff\xff\xff\xff\xff\xff\xff\xff\xff\xff\xff\xff\xff\xff\xff\xff\xff\xff\xff\xff\xff\xff\xff\xff\xff\xff\xff\xff\xff\xff\xff\xff\xff\xff\xff\0\0\0\0\0\0\0\0";

// How many of these bytes are its first message, its first two, and all three.
const ONE: usize = 19;

const TWO: usize = 43;

const ALL: usize = 105;

const VERSION_SAID: &[u8] = b"\x13\0\0\0\x65\xff\xff\0\x20\0\0\x06\09P2000";

fn joined(alloc: Global, replies: &[&[u8]]) -> Result<Vec<u8>, AllocError> {
    let mut bytes = Vec::new(alloc);
    for reply in replies {
        bytes.extend_from_slice(reply)?;
    }
    Ok(bytes)
}

// What a row shows, the replies, what they are to the client, and how many bytes it has sent by then.
type Row = (
    &'static str,
    &'static [&'static [u8]],
    Result<(), SyncErr>,
    usize,
);

const ROWS: [Row; 19] = [
    (
        "each is answered",
        &[VERSION_SAID, ATTACH_SAID, SYNC_SAID],
        Ok(()),
        ALL,
    ),
    (
        "a size of 62 serves",
        &[
            b"\x13\0\0\0\x65\xff\xff\x3e\0\0\0\x06\09P2000",
            ATTACH_SAID,
            SYNC_SAID,
        ],
        Ok(()),
        ALL,
    ),
    (
        "a size of 61 does not",
        &[
            b"\x13\0\0\0\x65\xff\xff\x3d\0\0\0\x06\09P2000",
            ATTACH_SAID,
            SYNC_SAID,
        ],
        Err(SyncErr::NotNinep),
        ONE,
    ),
    (
        "a larger size is none",
        &[
            b"\x13\0\0\0\x65\xff\xff\x01\x20\0\0\x06\09P2000",
            ATTACH_SAID,
            SYNC_SAID,
        ],
        Err(SyncErr::NotNinep),
        ONE,
    ),
    (
        "another version is none",
        &[
            b"\x14\0\0\0\x65\xff\xff\0\x20\0\0\x07\0unknown",
            ATTACH_SAID,
            SYNC_SAID,
        ],
        Err(SyncErr::NotNinep),
        ONE,
    ),
    (
        "the version is refused",
        &[b"\x0b\0\0\0\x6b\xff\xff\x02\0no"],
        Err(SyncErr::Refused),
        ONE,
    ),
    (
        "the attach is refused",
        &[VERSION_SAID, NOT_PERMITTED],
        Err(SyncErr::Refused),
        TWO,
    ),
    (
        "the sync is refused",
        &[VERSION_SAID, ATTACH_SAID, NOT_PERMITTED],
        Err(SyncErr::Refused),
        ALL,
    ),
    (
        "an error has a whole text",
        &[VERSION_SAID, b"\x0b\0\0\0\x6b\x01\0\x03\0no"],
        Err(SyncErr::NotNinep),
        TWO,
    ),
    (
        "an error's text is UTF-8",
        &[VERSION_SAID, b"\x0b\0\0\0\x6b\x01\0\x02\0n\xff"],
        Err(SyncErr::NotNinep),
        TWO,
    ),
    (
        "a reply has its message's tag",
        &[
            VERSION_SAID,
            b"\x14\0\0\0\x69\x02\0\x80\0\0\0\0\0\0\0\0\0\0\0\0",
            SYNC_SAID,
        ],
        Err(SyncErr::NotNinep),
        TWO,
    ),
    (
        "and its type",
        &[VERSION_SAID, ATTACH_SAID, b"\x07\0\0\0\x79\x01\0"],
        Err(SyncErr::NotNinep),
        ALL,
    ),
    (
        "a qid has 13 bytes",
        &[
            VERSION_SAID,
            b"\x13\0\0\0\x69\x01\0\x80\0\0\0\0\0\0\0\0\0\0\0",
            SYNC_SAID,
        ],
        Err(SyncErr::NotNinep),
        TWO,
    ),
    (
        "an Rwstat has no fields",
        &[VERSION_SAID, ATTACH_SAID, b"\x08\0\0\0\x7f\x01\0\0"],
        Err(SyncErr::NotNinep),
        ALL,
    ),
    (
        "no reply has 6 bytes",
        &[VERSION_SAID, b"\x06\0\0\0\x69\x01", SYNC_SAID],
        Err(SyncErr::NotNinep),
        TWO,
    ),
    (
        "none has 8,193",
        &[VERSION_SAID, b"\x01\x20\0\0\x69\x01\0", SYNC_SAID],
        Err(SyncErr::NotNinep),
        TWO,
    ),
    ("the input ends at once", &[], Err(SyncErr::Ended), ONE),
    (
        "it ends within a size",
        &[VERSION_SAID, b"\x14\0"],
        Err(SyncErr::Ended),
        TWO,
    ),
    (
        "it ends within a reply",
        &[VERSION_SAID, ATTACH_SAID, b"\x07\0\0\0\x7f\x01"],
        Err(SyncErr::Ended),
        ALL,
    ),
];

// What a sync comes to whose replies come in pieces of so many bytes, and whether it has sent so many bytes by then.
fn asked(
    alloc: Global,
    replies: &[&[u8]],
    step: usize,
    count: usize,
) -> Result<(Result<(), SyncErr>, bool), AllocError> {
    let input = joined(alloc, replies)?;
    let mut link = connect(alloc, &input, step, None, None)?;
    let result = sync_root(&mut link);
    let is_sent = Some(link.sink().taken()) == SENT.get(..count);
    Ok((result, is_sent))
}

#[test]
fn replies_are_taken_in_any_pieces(rt: HostRuntime) -> Result<(), Fail> {
    for (shows, replies, result, count) in ROWS {
        for step in [65536, 3, 1] {
            let found = asked(rt.alloc(), replies, step, count)?;
            assert_eq!(rt; found, (result, true), "{shows}, {step}");
        }
    }
    Ok(())
}

#[test]
fn a_fault_ends_it(rt: HostRuntime) -> Result<(), Fail> {
    // The most bytes of a call, the read or the write that fails, and how many bytes were taken.
    let rows = [
        // A read of the first reply's size, of what follows it, and of the last reply's size.
        (65536, Some(0), None, ONE),
        (65536, Some(1), None, ONE),
        (65536, Some(4), None, ALL),
        // A write before the first message, within it, and within the last.
        (10, None, Some(0), 0),
        (10, None, Some(1), 10),
        (10, None, Some(6), 53),
    ];
    for (step, read, write, count) in rows {
        let input = joined(rt.alloc(), &[VERSION_SAID, ATTACH_SAID, SYNC_SAID])?;
        let mut link = connect(rt.alloc(), &input, step, read, write)?;
        let result = sync_root(&mut link);
        assert_eq!(rt; result, Err(SyncErr::Fault), "{read:?} {write:?}");
        let taken = link.sink().taken();
        assert_eq!(rt; Some(taken), SENT.get(..count), "{read:?} {write:?}");
    }
    Ok(())
}

#[test]
fn a_session_answers_a_sync(rt: HostRuntime) -> Result<(), Fail> {
    let mut tree = OneFile::new();
    let mut server = connect(rt.alloc(), SENT, 65536, None, None)?;
    let end = serve_session(rt.alloc(), &mut server, &mut tree, &mut SetClock::new(100));
    assert_eq!(rt; end, SessionEnd::Done);
    assert_eq!(rt; tree.syncs, 1);
    let mut client = connect(rt.alloc(), server.sink().taken(), 65536, None, None)?;
    assert_eq!(rt; sync_root(&mut client), Ok(()));
    assert_eq!(rt; client.sink().taken(), SENT);
    assert!(rt; client.source().left().is_empty());
    Ok(())
}
