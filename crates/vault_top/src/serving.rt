//! Serving all workers' sessions over an open vault.

ghost use Rattle.std.specs.Prelude.{◌≡◌, ◌≤◌, [], List, min, option_map, vec_len};
ghost use Rattle.outside.specs.Views.{folder_in};
ghost use Rattle.session_server.specs.declared.ending.SessionEnd as ends;
ghost use Rattle.tree_model.specs.Rows.{Rows};
ghost use Rattle.tree_model.specs.History.{Origin};
ghost use Rattle.shared_tree.specs.Turns.{StandsFor};
ghost use Rattle.shared_tree.specs.Joined.{AreSince};
ghost use Rattle.vault_top.specs.Span.{views_of};
ghost use Rattle.vault_top.specs.Sharing.{IsSharedStore};
ghost use Rattle.vault_top.specs.Serving.{HasOutcome, HasServed, unreported};

use crate::task::Service;
use crate::vault::{SharedVault, Since};
use outside::{Clock, Entropy, Failed, Folder, Listener};
use session_server::SessionCounts;
use shared_tree::{Served, Start, Worker, serve_all};
use std::alloc::Global;
use std::sync::Wait;
use std::sync::atomic::AtomicBool;
use std::thread::Threads;
use vault_store::{ClosedStore, Store};

/// What serving came to.
#[derive(Clone, Copy, Debug, PartialEq, Eq)]
pub(crate) enum Outcome {
    Served(SessionCounts),
    /// Some listener failed.
    ListenerFault,
    /// A commit failed, in a request or as the vault was closed: the vault's folder failed in it.
    FolderFault,
    /// There was no memory to serve.
    NoMemory,
}

impl Outcome {
    /// The status if the sink failed before this could be reported.
    pub(crate) fn unreported(self) -> u8
        ensures { result ≡ unreported self }
    {
        match self {
            Outcome::NoMemory => 5,
            Outcome::Served(_) | Outcome::ListenerFault | Outcome::FolderFault => 4,
        }
    }
}

/// What is handed back after serving: the folder, which may be lost if memory ran out, what serving came to, and the closed store, if
/// sessions were served.
#[derive(Drop)]
pub(crate) struct HandedBack<D> {
    pub folder: Option<D>,
    pub outcome: Outcome,
    pub store: Option<ClosedStore>,
}

/// Serves all workers' sessions over an open vault, and closes the vault. `stopped` is set as soon as a commit of a session has failed.
pub(crate) fn serve_workers<
    R: Threads + Wait + Sync,
    D: Folder + Send,
    B: Start + Since + Send + Sync,
    N: Listener + Send,
    E: Entropy + Send,
    K: Clock + Send,
>(
    rt: &R,
    alloc: Global,
    store: Store<D>,
    service: Service,
    workers: &mut Vec<Worker<N, E, K>>,
    stopped: &AtomicBool,
) -> HandedBack<D>
where
    N::Conn: Send,
    requires some { 1 ≤ vec_len workers.old }
    requires right { StandsFor B.is (λ s rows origin history. IsSharedStore (folder_in D.Reads) B.since s rows origin history) store [] }
    requires since { (rows : Rows) (origin : Origin) → B.is rows origin → AreSince E.faults origin 0 workers.old.items }
    ensures served { (ends : List ends.SessionEnd) × HasServed B.is B.since
        (views_of D.Reads N.Listener N.Conn.Link E.Entropy K.Clock)
        service workers.old.items workers.new.items ends result }
{
    let vault = SharedVault::<'_, D, B>::new(store, stopped);
    let at_once = sharers(service.at_once, workers.len());
    match serve_all::<R, SharedVault<'_, D, B>, B, N, E, K>(
        rt,
        alloc,
        vault,
        service.sessions,
        at_once,
        workers,
    ) {
        Ok(Served { tree, counts }) => {
            let (folder, closed) = tree.into_store().close();
            HandedBack {
                folder: Some(folder),
                outcome: outcome_of(counts, closed.committed()),
                store: Some(closed),
            }
        }
        Err(left) => HandedBack {
            folder: folder_of(left),
            outcome: Outcome::NoMemory,
            store: None,
        },
    }
}

/// How many of so many workers share the sessions.
pub(crate) fn sharers(at_once: u32, workers: usize) -> usize
    ensures { result ≡ min at_once workers }
{
    workers.min(at_once as usize)
}

// The folder of a vault that was served to nobody, if it is left.
fn folder_of<D: Folder, B: Since>(left: Option<SharedVault<'_, D, B>>) -> Option<D>
    ensures { result ≡ option_map (λ vault. vault.store.folder) left.entry }
{
    match left {
        Some(vault) => Some(vault.into_store().into_folder()),
        None => None,
    }
}

fn outcome_of(counts: Result<SessionCounts, Failed>, committed: Result<(), Failed>) -> Outcome
    ensures { HasOutcome counts committed result }
{
    match (counts, committed) {
        (_, Err(_)) => Outcome::FolderFault,
        (Err(_), Ok(())) => Outcome::ListenerFault,
        (Ok(counts), Ok(())) => Outcome::Served(counts),
    }
}
