//! A demonstration: a vault in memory is served to clients that send their scripts.

ghost use Rattle.std.specs.Prelude.{◌≡◌, ◌≤◌, ℕ, List, min, length, Some, IfOk, IfSome, vec_len};
ghost use Rattle.outside.specs.Calls.{next_of};
ghost use Rattle.outside.specs.Views.{folder_in};
ghost use Rattle.masterkey_file.specs.Password.{line_of};
ghost use Rattle.unlocking.specs.Secret.{raw_keys};
ghost use Rattle.vault_words.specs.Jobs.{Demonstration};
ghost use Rattle.vault_top.specs.Report.{line};
ghost use Rattle.vault_top.specs.Span.{course, source_in, span_of, views_of};
ghost use Rattle.vault_top.specs.Sharing.{AreBeginnings, IsAlone};
ghost use Rattle.vault_top.specs.Sessions.{IsServedWhole};
ghost use Rattle.vault_top.specs.Demonstrated.{HasHeld, workers_of};
ghost use Rattle.vault_top.specs.Tasks.{AreScriptsOf};
ghost use Rattle.vault_top.specs.Serving.{IsKeptOf, SumsUpKept};

use crate::opening::open_vault;
use crate::serving::{HandedBack, Outcome, serve_workers};
use crate::task::{Scripts, Service};
use crate::vault::Since;
use demonstration::{client_listener, empty_vault, key_line, rows_left, summary, worker_entropy};
use outside::{Clock, Entropy, Folder, Listener, Source};
use outside_mem::{MemFolder, MemListener, MemSource, SeedEntropy, SetClock};
use shared_tree::{Start, Worker};
use std::alloc::{AllocError, Global};
use std::marker::Brand;
use std::sync::Wait;
use std::sync::atomic::AtomicBool;
use std::thread::Threads;
use tree_loading::load;
use unlocking::{SecretKind, read_keys};
use vault_keys::VaultKeys;
use vault_layout::DEFAULT_THRESHOLD;
use vault_store::ClosedStore;

/// The folder of a vault all of whose sessions were held, and its store, which was closed.
#[derive(Drop)]
pub(crate) struct Kept<D> {
    pub folder: D,
    pub store: ClosedStore,
}

/// What a demonstration leaves: the line that sums it up, with its LF, and the store of its vault, which was closed.
#[derive(Drop)]
pub(crate) struct Demonstrated {
    pub line: Vec<u8>,
    pub store: ClosedStore,
}

/// Holds a demonstration.
///
/// # Errors
///
/// Out of memory, even if that kept a session from its end.
pub(crate) fn demonstrate<R: Threads + Wait + Sync>(
    rt: &R,
    alloc: Global,
    scripts: Scripts,
) -> Result<Demonstrated, AllocError>
    requires { (1 ≤ scripts.clients) × (scripts.clients ≤ 64) }
    ensures { IfOk result (λ held. (d : Demonstration) → AreScriptsOf d scripts → (text : List ℕ) × (held.line.items ≡ line text) × HasHeld d text held.store) }
{
    let line = key_line(alloc, scripts.seed)?;
    let keys = keys_in(alloc, &line)?;
    let folder = empty_vault(alloc, &keys)?;
    let mut secret = MemSource::new(alloc, line);
    let mut workers = workers_of(alloc, scripts)?;
    let service = Service {
        kind: SecretKind::RawKeys,
        sessions: scripts.clients,
        at_once: scripts.clients,
        read_only: false,
    };
    let kept = hold_sessions::<R, MemFolder, Brand, MemListener, SeedEntropy, MemSource, SetClock>(
        rt,
        alloc,
        service,
        folder,
        &mut workers,
        &mut secret,
        &mut SetClock::new(0),
    );
    match kept {
        Some(kept) => sum_up(alloc, scripts, &keys, kept),
        None => Err(AllocError),
    }
}

// The keys that a secret's line spells.
fn keys_in(alloc: Global, line: &[u8]) -> Result<VaultKeys, AllocError>
    ensures { IfOk result (λ keys. raw_keys (line_of line.now) ≡ Some keys) }
{
    let mut secret = MemSource::new(alloc, line.to_vec(alloc)?);
    match read_keys(&mut secret) {
        Ok(keys) => Ok(keys),
        Err(_) => Err(AllocError),
    }
}

// A worker for each client.
fn workers_of(
    alloc: Global,
    scripts: Scripts,
) -> Result<Vec<Worker<MemListener, SeedEntropy, SetClock>>, AllocError>
    requires { scripts.clients ≤ 64 }
    ensures { IfOk result (λ workers. workers.items ≡ workers_of scripts.seed scripts.clients scripts.requests) }
{
    let mut workers = Vec::new(alloc);
    for client in 0..scripts.clients {
        let listener = client_listener(alloc, scripts.seed, client, scripts.requests)?;
        let entropy = worker_entropy(alloc, scripts.seed, client);
        let clock = SetClock::new(0);
        workers.push(Worker {
            listener,
            entropy,
            clock,
        })?;
    }
    Ok(workers)
}

// Serves the vault that the secret unlocks. None is returned if a session didn't end between two messages, or memory ran out
// before.
fn hold_sessions<
    R: Threads + Wait + Sync,
    D: Folder + Send + Drop,
    B: Start + Since + Send + Sync,
    N: Listener + Send,
    E: Entropy + Send,
    S: Source,
    K: Clock + Send,
>(
    rt: &R,
    alloc: Global,
    service: Service,
    folder: D,
    workers: &mut Vec<Worker<N, E, K>>,
    secret: &mut S,
    clock: &mut K,
) -> Option<Kept<D>>
where
    N::Conn: Send,
    requires some { 1 ≤ vec_len workers.old }
    requires start { AreBeginnings B.is
        (views_of D.Reads N.Listener N.Conn.Link E.Entropy K.Clock)
        folder workers.old.items }
    requires since { IsAlone B.since service.kind (folder_in D.Reads folder)
        (source_in S.Source secret.old) (next_of (K.to_give clock.old)) }
    ensures whole { IfSome result (λ kept. (words : List (List ℕ)) → IsServedWhole
        (views_of D.Reads N.Listener N.Conn.Link E.Entropy K.Clock)
        (span_of (views_of D.Reads N.Listener N.Conn.Link E.Entropy K.Clock)
        words (course (source_in S.Source) secret.old secret.new) (next_of (K.to_give clock.old))
        folder kept.folder workers.old.items workers.new.items (Some kept.store))
        service.kind service.sessions (min service.at_once (length workers.old.items)) kept.store.store.entries) }
{
    match open_vault(alloc, service.kind, folder, secret, clock) {
        Ok(store) => kept_of(
            serve_workers::<R, D, B, N, E, K>(
                rt,
                alloc,
                store,
                service,
                workers,
                &AtomicBool::new(false),
            ),
            service.sessions,
        ),
        Err(_) => None,
    }
}

// What is kept, if so many sessions ended between two messages.
fn kept_of<D: Drop>(back: HandedBack<D>, sessions: u32) -> Option<Kept<D>>
    ensures { IfSome result (IsKeptOf back sessions) }
{
    let HandedBack {
        folder,
        outcome,
        store,
    } = back;
    let Outcome::Served(counts) = outcome else {
        return None;
    };
    let store = store?;
    // A count at its end says nothing of how many there are.
    if counts.sessions != sessions || counts.done != sessions || store.entries() == u64::MAX {
        return None;
    }
    Some(Kept {
        folder: folder?,
        store,
    })
}

// Sums up what is left in the folder, and gives the store on.
fn sum_up(
    alloc: Global,
    scripts: Scripts,
    keys: &VaultKeys,
    kept: Kept<MemFolder>,
) -> Result<Demonstrated, AllocError>
    ensures { IfOk result (SumsUpKept scripts keys.now kept) }
{
    let Kept { mut folder, store } = kept;
    let Ok(tree) = load(alloc, &mut folder, keys, DEFAULT_THRESHOLD) else {
        return Err(AllocError);
    };
    let Ok(rows) = rows_left(alloc, &mut folder, keys, &tree) else {
        return Err(AllocError);
    };
    let mut line = summary(
        alloc,
        scripts.clients,
        scripts.requests,
        store.entries(),
        &rows,
    )?;
    line.push(b'\n')?;
    Ok(Demonstrated { line, store })
}
