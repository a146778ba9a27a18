//! The sizes that bound a frame.

use crate::obliging::Obliging;
use outside_mem::{MemLink, MemSink, MemSource, SetClock};
use session_server::{SessionEnd, serve_session};
use std::test::Fail;

// After a version with the smallest size, and one with 2^32 - 1 bytes, of which 65,560 are agreed to.
#[test]
fn no_frame_is_larger_than_what_was_agreed(rt: HostRuntime) -> Result<(), Fail> {
    let smallest = b"\x13\0\0\0\x65\xff\xff\0\x08\0\0\x06\09P2000";
    let largest = b"\x13\0\0\0\x65\xff\xff\x18\0\x01\0\x06\09P2000";
    let rows: [(&[u8], SessionEnd, &[u8]); 4] = [
        (
            b"\x13\0\0\0\x64\xff\xff\0\x08\0\0\x06\09P2000\0\x08\0\0\x68\x01",
            SessionEnd::Cut {
                had: 6,
                wanted: 2048,
            },
            smallest,
        ),
        (
            b"\x13\0\0\0\x64\xff\xff\0\x08\0\0\x06\09P2000\x01\x08\0\0\x68\x01",
            SessionEnd::BadFrame(2049),
            smallest,
        ),
        (
            b"\x13\0\0\0\x64\xff\xff\xff\xff\xff\xff\x06\09P2000\x18\0\x01\0\x68\x01",
            SessionEnd::Cut {
                had: 6,
                wanted: 65560,
            },
            largest,
        ),
        (
            b"\x13\0\0\0\x64\xff\xff\xff\xff\xff\xff\x06\09P2000\x19\0\x01\0\x68\x01",
            SessionEnd::BadFrame(65561),
            largest,
        ),
    ];
    for (input, end, taken) in rows {
        let source = MemSource::new(rt.alloc(), input.to_vec(rt.alloc())?);
        let mut link = MemLink::new(rt.alloc(), source, MemSink::new(rt.alloc()))?;
        let ended = serve_session(
            rt.alloc(),
            &mut link,
            &mut Obliging::new(),
            &mut SetClock::new(100),
        );
        assert_eq!(rt; ended, end, "{input:?}");
        assert_eq!(rt; link.sink().taken(), taken, "{input:?}");
    }
    Ok(())
}
