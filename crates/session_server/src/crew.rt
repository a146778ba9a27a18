//! A worker's part: where its links come from, what its sessions ask, and by which clock.
ghost use Rattle.std.specs.Prelude.{◌≡◌};
ghost use Rattle.outside.specs.Views.{link_in, listener_in};
ghost use Rattle.session_server.specs.Workers.{HasServedShare};
ghost use Rattle.session_server.specs.Links.{HasServedNext};

use crate::counts::SessionCounts;
use crate::ending::SessionEnd;
use crate::server::serve_session;
use outside::{Clock, Failed, Listener};
use std::alloc::Global;
use tree_model::TreeObject;

/// A worker: where its links come from, the object that its sessions ask, and the clock that gives their seconds. After its work, how its sessions
/// ended, and whether its listener failed.
#[derive(Drop)]
pub struct Crew<N, B, K> {
    pub listener: N,
    pub object: B,
    pub clock: K,
    pub counts: SessionCounts,
    pub failed: bool,
}

impl<N, B, K> Crew<N, B, K> {
    /// One that has served nothing yet.
    pub fn new(listener: N, object: B, clock: K) -> Crew<N, B, K>
        ensures listener { result.listener ≡ listener }
        ensures object { result.object ≡ object }
        ensures clock { result.clock ≡ clock }
    {
        Crew {
            listener,
            object,
            clock,
            counts: SessionCounts::default(),
            failed: false,
        }
    }
}

// Serves the next link of a listener, if there is one, and gives it back. None: there was no link.
fn serve_next<N: Listener, B: TreeObject, K: Clock>(
    alloc: Global,
    listener: &mut N,
    object: &mut B,
    clock: &mut K,
) -> Result<Option<SessionEnd>, Failed>
    ensures served { HasServedNext B.stands object.old object.new
        (link_in N.Conn.Link) (K.to_give clock.old) (K.to_give clock.new)
        (listener_in N.Listener listener.old) (listener_in N.Listener listener.new) result }
{
    let Some(mut link) = listener.next()? else {
        return Ok(None);
    };
    let end = serve_session(alloc, &mut link, object, clock);
    listener.back(link);
    Ok(Some(end))
}

/// Serves up to `sessions` sessions over the crew's object, by its clock, fewer if there are no more links, and gives
/// each link back.
pub(crate) fn serve_share<N: Listener, B: TreeObject, K: Clock>(
    alloc: Global,
    crew: &mut Crew<N, B, K>,
    sessions: u32,
)
    ensures { HasServedShare B.stands (listener_in N.Listener)
        (link_in N.Conn.Link) K.to_give sessions crew.old crew.new }
{
    crew.counts = SessionCounts::default();
    crew.failed = false;
    while crew.counts.sessions < sessions {
        match serve_next(alloc, &mut crew.listener, &mut crew.object, &mut crew.clock) {
            Ok(Some(end)) => crew.counts.add(end),
            Ok(None) => return,
            Err(Failed) => {
                crew.failed = true;
                return;
            }
        }
    }
}
