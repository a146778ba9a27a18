//! A client that waits for each answer before it sends the next message.

ghost use Rattle.std.specs.Prelude.{None};

use crate::frames::*;
use crate::obliging::Obliging;
use outside::{Failed, Link};
use outside_mem::SetClock;
use session_server::{SessionEnd, serve_session};
use std::test::Fail;

// A client that sends and takes a byte at a time. It sends nothing of a message before it has the whole answer to the one before.
#[derive(Drop)]
struct PatientClient<'a> {
    rows: &'a [Row],
    // The row that it is at, and how many bytes of its frame were sent and of its answer came.
    at: usize,
    sent: usize,
    came: usize,
    // Whether more was read before an answer was whole, and whether an answer was another.
    hurried: bool,
    misled: bool,
}

impl Link for PatientClient<'_> {
    ghost left = { λ client. None };

    ghost taken = { λ client. None };

    ghost read_faults = { λ client. 0 };

    ghost write_faults = { λ client. 0 };

    fn read(&mut self, out: &mut [u8]) -> Result<usize, Failed> {
        let Some((frame, _)) = self.rows.get(self.at) else {
            return Ok(0);
        };
        if out.is_empty() {
            return Ok(0);
        }
        let Some(byte) = frame.get(self.sent) else {
            self.hurried = true;
            return Ok(0);
        };
        out[0] = *byte;
        self.sent = self.sent.saturating_add(1);
        Ok(1)
    }

    fn write(&mut self, piece: &[u8]) -> Result<usize, Failed> {
        let Some(byte) = piece.first() else {
            return Ok(0);
        };
        let Some((_, answer)) = self.rows.get(self.at) else {
            self.misled = true;
            return Ok(1);
        };
        self.misled |= answer.get(self.came) != Some(byte);
        self.came = self.came.saturating_add(1);
        if self.came >= answer.len() {
            self.at = self.at.saturating_add(1);
            self.sent = 0;
            self.came = 0;
        }
        Ok(1)
    }
}

const TALK: [Row; 6] = [
    (VERSION, VERSION_SAID),
    (ATTACH, ATTACH_SAID),
    (WALK, WALK_SAID),
    (OPEN, OPEN_SAID),
    (READ, READ_XS_SAID),
    (CLUNK, CLUNK_SAID),
];

#[test]
fn a_client_that_waits_gets_each_answer(rt: HostRuntime) -> Result<(), Fail> {
    let mut client = PatientClient {
        rows: &TALK,
        at: 0,
        sent: 0,
        came: 0,
        hurried: false,
        misled: false,
    };
    let end = serve_session(
        rt.alloc(),
        &mut client,
        &mut Obliging::new(),
        &mut SetClock::new(100),
    );
    assert_eq!(rt; end, SessionEnd::Done);
    assert_eq!(rt; client.at, TALK.len());
    assert!(rt; !client.hurried);
    assert!(rt; !client.misled);
    Ok(())
}
