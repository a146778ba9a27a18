//! How a session over a link ends, and what its client was sent by then.

use crate::one_file::OneFile;
use outside_mem::{MemLink, MemSink, MemSource, SetClock};
use session_server::{SessionEnd, serve_session};
use std::alloc::{AllocError, Global};
use std::test::Fail;

const INPUT: &[u8] = b"\x13\0\0\0\x64\xff\xff\x18\0\x01\0\x06\09P2000\
    \x14\0\0\0\x68\x01\0\0\0\0\0\xff\xff\xff\xff\x01\0u\0\0\
    \x14\0\0\0\x6e\x01\0\0\0\0\0\x01\0\0\0\x01\0\x01\0a\
    \x0c\0\0\0\x70\x01\0\x01\0\0\0\0\
    \x17\0\0\0\x74\x01\0\x01\0\0\0\0\0\0\0\0\0\0\0\x05\0\0\0\
    \x0b\0\0\0\x78\x01\0\x01\0\0\0";

const OUTPUT: &[u8] = b"\x13\0\0\0\x65\xff\xff\x18\0\x01\0\x06\09P2000\
    \x14\0\0\0\x69\x01\0\x80\0\0\0\0\0\0\0\0\0\0\0\0\
    \x16\0\0\0\x6f\x01\0\x01\0\0\0\0\0\0\x01\0\0\0\0\0\0\0\
    \x18\0\0\0\x71\x01\0\0\0\0\0\0\x01\0\0\0\0\0\0\0\0\0\x01\0\
    \x10\0\0\0\x75\x01\0\x05\0\0\0hello\
    \x07\0\0\0\x79\x01\0";

// The calls that shall fail: one at most.
fn calls(alloc: Global, call: Option<u64>) -> Result<Vec<u64>, AllocError> {
    match call {
        Some(call) => [call].to_vec(alloc),
        None => Ok(Vec::new(alloc)),
    }
}

/// A link that gives these bytes. A call moves at most `step` bytes, and the calls of these numbers fail.
pub fn connect(
    alloc: Global,
    input: &[u8],
    step: usize,
    read: Option<u64>,
    write: Option<u64>,
) -> Result<MemLink, AllocError> {
    let source = MemSource::new(alloc, input.to_vec(alloc)?)
        .in_pieces(step)
        .failing_at(calls(alloc, read)?);
    let sink = MemSink::new(alloc)
        .in_pieces(step)
        .failing_at(calls(alloc, write)?);
    MemLink::new(alloc, source, sink)
}

fn serve_client(alloc: Global, link: &mut MemLink) -> SessionEnd {
    serve_session(alloc, link, &mut OneFile::new(), &mut SetClock::new(100))
}

#[test]
fn a_file_is_read_in_any_pieces(rt: HostRuntime) -> Result<(), Fail> {
    for step in [65536, 3, 1] {
        let mut link = connect(rt.alloc(), INPUT, step, None, None)?;
        let end = serve_client(rt.alloc(), &mut link);
        assert_eq!(rt; end, SessionEnd::Done, "{step}");
        assert_eq!(rt; link.sink().taken(), OUTPUT, "{step}");
    }
    Ok(())
}

#[test]
fn the_end_tells_what_came_last(rt: HostRuntime) -> Result<(), Fail> {
    let rows: [(&[u8], SessionEnd); 6] = [
        (b"", SessionEnd::Done),
        (b"\x13\0", SessionEnd::Cut { had: 2, wanted: 4 }),
        (b"\x13\0\0\0\x64", SessionEnd::Cut { had: 5, wanted: 19 }),
        (b"\x06\0\0\0\x64\x01", SessionEnd::BadFrame(6)),
        (
            b"\x18\0\x01\0\x64\x01\0",
            SessionEnd::Cut {
                had: 7,
                wanted: 65560,
            },
        ),
        (b"\x19\0\x01\0\x64\x01\0", SessionEnd::BadFrame(65561)),
    ];
    for (input, end) in rows {
        let mut link = connect(rt.alloc(), input, 65536, None, None)?;
        assert_eq!(rt; serve_client(rt.alloc(), &mut link), end, "{input:?}");
        assert_eq!(rt; link.sink().taken().len(), 0, "{input:?}");
    }
    Ok(())
}

const VERSION_SAID: &[u8] = b"\x13\0\0\0\x65\xff\xff\0\x20\0\0\x06\09P2000";

// A version with a size of 8,192 bytes comes first.
#[test]
fn a_size_that_was_agreed_is_the_largest(rt: HostRuntime) -> Result<(), Fail> {
    let rows: [(&[u8], SessionEnd); 4] = [
        (
            b"\x13\0\0\0\x64\xff\xff\0\x20\0\0\x06\09P2000",
            SessionEnd::Done,
        ),
        (
            b"\x13\0\0\0\x64\xff\xff\0\x20\0\0\x06\09P2000\0\x20\0",
            SessionEnd::Cut { had: 3, wanted: 4 },
        ),
        (
            b"\x13\0\0\0\x64\xff\xff\0\x20\0\0\x06\09P2000\0\x20\0\0\x68\x01",
            SessionEnd::Cut {
                had: 6,
                wanted: 8192,
            },
        ),
        (
            b"\x13\0\0\0\x64\xff\xff\0\x20\0\0\x06\09P2000\x01\x20\0\0\x68\x01\0",
            SessionEnd::BadFrame(8193),
        ),
    ];
    for (input, end) in rows {
        let mut link = connect(rt.alloc(), input, 65536, None, None)?;
        assert_eq!(rt; serve_client(rt.alloc(), &mut link), end, "{input:?}");
        assert_eq!(rt; link.sink().taken(), VERSION_SAID, "{input:?}");
    }
    Ok(())
}

#[test]
fn a_fault_ends_the_session(rt: HostRuntime) -> Result<(), Fail> {
    // The most bytes of a call, the read or the write that fails, the end, and how many bytes were taken.
    let rows = [
        // A read before the first message, within its size, before the second, and after its size.
        (65536, Some(0), None, SessionEnd::ReadFault, 0),
        (3, Some(1), None, SessionEnd::ReadFault, 0),
        (65536, Some(2), None, SessionEnd::ReadFault, 19),
        (65536, Some(3), None, SessionEnd::ReadFault, 19),
        // A write before the first answer, within it, and within the second.
        (10, None, Some(0), SessionEnd::WriteFault, 0),
        (10, None, Some(1), SessionEnd::WriteFault, 10),
        (10, None, Some(3), SessionEnd::WriteFault, 29),
    ];
    for (step, read, write, end, count) in rows {
        let mut link = connect(rt.alloc(), INPUT, step, read, write)?;
        let ended = serve_client(rt.alloc(), &mut link);
        assert_eq!(rt; ended, end, "{read:?} {write:?}");
        let taken = link.sink().taken();
        assert_eq!(rt; Some(taken), OUTPUT.get(..count), "{read:?} {write:?}");
    }
    Ok(())
}
