//! A session over one link.

ghost use Rattle.std.specs.Prelude.{◌≡◌, ◌≤◌, length, IfOk, vec_len};
ghost use Rattle.outside.specs.Views.{link_in};
ghost use Rattle.session_core.specs.State.{most_message, fresh};
ghost use Rattle.session_server.specs.Served.{HasTalked};

use crate::ending::SessionEnd;
use crate::frame::read_frame;
use crate::full::write_full;
use outside::{Clock, Link};
use session_core::{MAX_MESSAGE, Session};
use std::alloc::{AllocError, Global};
use tree_model::TreeObject;

// The most messages that one session answers. It keeps a session's work finite: at the rate of a million messages a second it
// is reached after more than an hour.
const MESSAGE_LIMIT: u64 = 1 << 32;

// Room for the largest message.
fn buffer(alloc: Global) -> Result<Vec<u8>, AllocError>
    ensures { IfOk result (λ v. vec_len v ≡ most_message) }
{
    vec![in alloc; 0u8; MAX_MESSAGE]
}

// Answers messages until the session ends. There are two buffers, as a message's names and bytes are borrowed from its frame while
// its answer is written.
fn answer_messages<L: Link, B: TreeObject, K: Clock>(
    mut session: Session,
    link: &mut L,
    object: &mut B,
    clock: &mut K,
    frame: &mut [u8],
    out: &mut [u8],
) -> SessionEnd
    requires fresh { session ≡ fresh }
    requires frame { most_message ≤ length frame.old }
    requires out { most_message ≤ length out.old }
    ensures talked { HasTalked B.stands object.old object.new
        (link_in L.Link link.old)
        (link_in L.Link link.new) (K.to_give clock.old) (K.to_give clock.new) result }
{
    let mut answered: u64 = 0;
    while answered < MESSAGE_LIMIT {
        let size = match read_frame(&session, link, frame) {
            Ok(size) => size,
            Err(end) => return end,
        };
        let now = clock.now();
        let answer = session.answer(&frame[..size], object, now, out);
        match write_full(link, &out[..answer]) {
            Ok(()) => answered += 1,
            Err(_) => return SessionEnd::WriteFault,
        }
    }
    SessionEnd::Limit
}

/// Serves one link until its session ends. Each answer is written whole before a byte of the next message is read, so a client
/// may wait for each answer. The session's fids and two buffers of 65,560 bytes are taken at the start, and no
/// memory after them; if it is refused, nothing was read. `clock` gives the seconds of the requests, since 1970-01-01: it is read once for each
/// message, when it is there whole.
pub fn serve_session<L: Link, B: TreeObject, K: Clock>(
    alloc: Global,
    link: &mut L,
    object: &mut B,
    clock: &mut K,
) -> SessionEnd
    // There is one talk that was held: what was asked in it is what the object stands for from now on.
    ensures talked { HasTalked B.stands object.old object.new
        (link_in L.Link link.old)
        (link_in L.Link link.new) (K.to_give clock.old) (K.to_give clock.new) result }
{
    let Ok(session) = Session::new(alloc) else {
        return SessionEnd::Memory;
    };
    let Ok(mut frame) = buffer(alloc) else {
        return SessionEnd::Memory;
    };
    let Ok(mut out) = buffer(alloc) else {
        return SessionEnd::Memory;
    };
    answer_messages(session, link, object, clock, &mut frame, &mut out)
}
