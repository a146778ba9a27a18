//! A session whose clock moves: what each message asks is asked at that message's own second.

use crate::frames::*;
use crate::one_file::ROOT;
use outside_mem::{MemLink, MemSink, MemSource, TickingClock};
use session_server::{SessionEnd, serve_session};
use std::test::Fail;
use tree_model::{Refusal, Reply, Request, TreeObject};

// A root that does nothing but sync. It notes at which second it was last looked at, and at which it was synced: the last time, and the time
// before that.
#[derive(Drop)]
struct Dated {
    looked: u32,
    synced: u32,
    synced_before: u32,
}

impl TreeObject for Dated {
    ghost stands = { λ object origin before. Unit {0} };

    fn ask(&mut self, request: &Request<'_>, now: u32, _buffer: &mut [u8]) -> Reply {
        match request {
            Request::Look { .. } => {
                self.looked = now;
                Reply::Qid(ROOT)
            }
            Request::Sync { .. } => {
                self.synced_before = self.synced;
                self.synced = now;
                Reply::Done
            }
            _ => Reply::Refused(Refusal::NotPermitted),
        }
    }
}

#[test]
fn each_message_has_its_own_second(rt: HostRuntime) -> Result<(), Fail> {
    let mut frames = Vec::new(rt.alloc());
    for frame in [VERSION, ATTACH, SYNC, SYNC] {
        frames.extend_from_slice(frame)?;
    }
    let source = MemSource::new(rt.alloc(), frames);
    let mut link = MemLink::new(rt.alloc(), source, MemSink::new(rt.alloc()))?;
    let mut tree = Dated {
        looked: 0,
        synced: 0,
        synced_before: 0,
    };
    let end = serve_session(
        rt.alloc(),
        &mut link,
        &mut tree,
        &mut TickingClock::new(100),
    );
    assert_eq!(rt; end, SessionEnd::Done);
    // The version is read at 100.
    assert_eq!(rt; tree.looked, 101);
    assert_eq!(rt; tree.synced_before, 102);
    assert_eq!(rt; tree.synced, 103);
    Ok(())
}
