//! Serving all workers' sessions over a vault that is only read.

ghost use Rattle.std.specs.Prelude.{◌≡◌, ◌≤◌, [], List, option_map, vec_len};
ghost use Rattle.outside.specs.Views.{folder_in};
ghost use Rattle.session_server.specs.declared.ending.SessionEnd as ends;
ghost use Rattle.tree_model.specs.Rows.{Rows};
ghost use Rattle.tree_model.specs.History.{Origin};
ghost use Rattle.shared_tree.specs.Turns.{StandsFor};
ghost use Rattle.shared_tree.specs.Joined.{AreSince};
ghost use Rattle.vault_top.specs.Span.{views_of};
ghost use Rattle.vault_top.specs.ReadOnly.{IsSharedView};
ghost use Rattle.vault_top.specs.Viewing.{HasReadOutcome, HasViewed};

use crate::serving::{Outcome, sharers};
use crate::task::Service;
use crate::vault::Since;
use outside::{Clock, Entropy, Failed, Listener, Reads};
use session_server::SessionCounts;
use shared_tree::{Served, SharedTree, Start, Worker, serve_all};
use std::alloc::Global;
use std::marker::PhantomData;
use std::sync::Wait;
use std::thread::Threads;
use tree_model::{Reply, Request};
use vault_store::ReadOnlyStore;

/// A vault that is only read, with how the run began.
#[derive(Drop)]
pub(crate) struct SharedView<D: Reads, B> {
    store: ReadOnlyStore<D>,
    since: PhantomData<B>,
}

impl<D: Reads, B> SharedView<D, B> {
    ghost use Rattle.std.specs.Prelude.{◌≡◌};

    pub(crate) fn new(store: ReadOnlyStore<D>) -> SharedView<D, B>
        ensures { result.store ≡ store }
    {
        SharedView {
            store,
            since: PhantomData,
        }
    }

    pub(crate) fn into_folder(self) -> D
        ensures { result ≡ self.store.folder }
    {
        let SharedView { store, since: _ } = self;
        store.into_folder()
    }
}

impl<D: Reads, B: Since> SharedTree for SharedView<D, B> {
    ghost use Rattle.outside.specs.Views.{folder_in};
    ghost use Rattle.store_laws.specs.Turns.{draws_for};
    ghost use Rattle.vault_top.specs.ReadOnly.{IsSharedView};

    ghost stands = { λ view rows origin history. IsSharedView (folder_in D.Reads) B.since view.store rows origin history };

    ghost draws = { draws_for };

    fn serve<E: Entropy>(
        &mut self,
        request: &Request<'_>,
        now: u32,
        entropy: &mut E,
        buffer: &mut [u8],
    ) -> Reply {
        // nothing is drawn where nothing is made
        let _ = entropy;
        self.store.serve(request, now, buffer)
    }
}

/// What is handed back after serving: the folder, which may be lost if memory ran out, and what serving came to.
#[derive(Drop)]
pub(crate) struct ReadBack<D> {
    pub folder: Option<D>,
    pub outcome: Outcome,
}

/// Serves all workers' sessions over a vault that is only read.
pub(crate) fn serve_readers<
    R: Threads + Wait + Sync,
    D: Reads + Send,
    B: Start + Since + Send + Sync,
    N: Listener + Send,
    E: Entropy + Send,
    K: Clock + Send,
>(
    rt: &R,
    alloc: Global,
    store: ReadOnlyStore<D>,
    service: Service,
    workers: &mut Vec<Worker<N, E, K>>,
) -> ReadBack<D>
where
    N::Conn: Send,
    requires some { 1 ≤ vec_len workers.old }
    requires right { StandsFor B.is (λ v rows origin history. IsSharedView (folder_in D.Reads) B.since v rows origin history) store [] }
    requires since { (rows : Rows) (origin : Origin) → B.is rows origin → AreSince E.faults origin 0 workers.old.items }
    ensures served { (ends : List ends.SessionEnd) × HasViewed B.is B.since
        (views_of D.Reads N.Listener N.Conn.Link E.Entropy K.Clock)
        service workers.old.items workers.new.items ends result }
{
    let view = SharedView::<D, B>::new(store);
    let at_once = sharers(service.at_once, workers.len());
    match serve_all::<R, SharedView<D, B>, B, N, E, K>(
        rt,
        alloc,
        view,
        service.sessions,
        at_once,
        workers,
    ) {
        Ok(Served { tree, counts }) => ReadBack {
            folder: Some(tree.into_folder()),
            outcome: read_outcome(counts),
        },
        Err(left) => ReadBack {
            folder: folder_left(left),
            outcome: Outcome::NoMemory,
        },
    }
}

// The folder of a vault that was served to nobody, if it is left.
fn folder_left<D: Reads, B: Since>(left: Option<SharedView<D, B>>) -> Option<D>
    ensures { result ≡ option_map (λ view. view.store.folder) left }
{
    match left {
        Some(view) => Some(view.into_folder()),
        None => None,
    }
}

fn read_outcome(counts: Result<SessionCounts, Failed>) -> Outcome
    ensures { HasReadOutcome counts result }
{
    match counts {
        Ok(counts) => Outcome::Served(counts),
        Err(_) => Outcome::ListenerFault,
    }
}
