ghost use Rattle.std.specs.Prelude.{◌≡◌, ℕ, true, false, ◌<◌, ◌≤◌, ◌∷◌, ◌++◌, [], List, Option, Some, OnOk, OnErr, IsErr, vec_len, vec_capacity};
ghost use Rattle.outside.specs.Calls.{HasCause, Changes, next_of};
ghost use Rattle.session_server.specs.declared.ending.SessionEnd.{SessionEnd};
ghost use Rattle.vault_words.specs.Jobs.{Making, Serving, Demonstration, serve, make};
ghost use Rattle.vault_top.specs.Words.{Ask, words_of};
ghost use Rattle.vault_top.specs.Tasks.{AreScriptsOf, IsServiceOf};
ghost use Rattle.vault_top.specs.Span.{course, source_in, sink_in, views_of};
ghost use Rattle.vault_top.specs.Report.{TakesPart};
ghost use Rattle.vault_top.specs.Ending.{HasRun, SaysInUse, SaysNoSocket, serving};
ghost use Rattle.vault_top.specs.Sharing.{AreBeginnings, IsAlone, IsSharedStore};
ghost use Rattle.vault_top.specs.ReadOnly.{IsSharedView};
ghost use Rattle.vault_top.specs.Viewing.{HasServedView};
ghost use Rattle.vault_top.specs.Serving.{HasServedVault, HasDemonstrated, AreCounted, HasLastLine};
ghost use Rattle.outside.specs.Views.{folder_in};
ghost use Rattle.tree_model.specs.Rows.{Rows};
ghost use Rattle.tree_model.specs.History.{Origin};
ghost use Rattle.shared_tree.specs.Turns.{StandsFor};
ghost use Rattle.shared_tree.specs.Joined.{AreSince};

use crate::cause::Cause;
use crate::demonstrating::{Demonstrated, demonstrate};
use crate::making::make_vault;
use crate::opening::{open_to_read, open_vault};
use crate::report::{counts_line, refuse, report, write_all};
use crate::serving::{Outcome, serve_workers};
use crate::task::{Scripts, Service, Task, read_task};
use crate::vault::Since;
use crate::viewing::serve_readers;
use outside::{Clock, Entropy, Failed, Folder, Gate, Listener, Reads, Refused, Sink, Source};
use shared_tree::{Start, Worker};
use std::alloc::Global;
use std::marker::Brand;
use std::sync::Wait;
use std::sync::atomic::AtomicBool;
use std::thread::Threads;
use vault_store::{ClosedStore, ReadOnlyStore, Store};
use vault_words::{VERSION, WordsErr, help_text};

// The status if the report's last line wasn't taken whole.
const CUT_STATUS: u8 = 4;

// The status if another server has the vault.
const IN_USE_STATUS: u8 = 14;

/// How the program ended: its exit status; the vault's folder, which is missing with status 5 alone; and, if a vault was served that could be changed,
/// that of a demonstration among them, the store that all sessions asked, closed.
#[derive(Drop)]
pub struct Ended<D> {
    pub status: u8,
    pub folder: Option<D>,
    pub store: Option<ClosedStore>,
}

/// Runs the program: does the job that the words after its name ask for, and writes the report to `out`.
///
/// `serve` reads the secret, unlocks the vault in `folder`, does what a stop left in its journal, serves so many sessions as the words say, or if they
/// don't 4,294,967,295, and gives the folder back. What all sessions ask is one history of the vault's tree, which the folder follows by whole batches: a stop at
/// any moment leaves what a beginning of the history comes to, with each entry that no stop undoes. Once a commit failed, nothing more is
/// done, and each request is answered with the entry in which it failed. As many workers as the words say, or all if there are fewer, share
/// the sessions, each in a thread of its own if one can be made; a worker whose listener has no more links, or fails, ends before.
///
/// `serve --read-only` makes no call that changes the folder: it refuses a vault whose journal is open, answers each request that changes nothing from the tree
/// that it found, refuses each other as not permitted, and hands back no store.
///
/// `demo` serves an empty vault in memory, whose keys are drawn from the seed, to so many clients, each of whom sends its script, and sums up the rows
/// after the last entry of the history of all their sessions. It touches neither `folder` nor the secret nor the workers; the store that is
/// handed back is that of the vault in memory.
///
/// `make` reads the secret and makes a vault in `folder`, of what it draws from the first worker; from its first sync on a stop leaves no
/// vault, or the whole of it, even if it fails later. `--help` and `--version` touch nothing. If the secret is accepted, exactly its first line was read.
///
/// | status | report | when |
/// |---|---|---|
/// | 0 | `serving`, then `sessions N done a cut b bad c read d write e memory f limit g` | the vault was served, and no commit failed |
/// | 0 | `made` | the folder was empty and holds a new vault |
/// | 0 | `clients M requests R entries E bytes B rows H` | each session of the demonstration ended between two messages; its vault's store is handed back |
/// | 0 | `help_text`; `VERSION` | the words are `--help`, of the program or of a command; `--version` |
/// | 1 | `bad words` | the words ask for no job, or for serving at an empty address |
/// | 2 | `bad secret` | the secret's line is no password, or isn't two keys if keys are wanted |
/// | 2, 3 | `wrong password`; `vault refused: ..` | the key files, with the cause; too many nodes; no root |
/// | 4 | `device fault: secret`, `folder`, `random` | that count of faults rose |
/// | 4 | `serving`, then `device fault: folder` | a commit failed in an entry of the history: the folder's count of faults rose |
/// | 5 | `out of memory` | memory ran out before the job was done |
/// | 5 | `serving`, then `out of memory` | the vault was served, and memory for the last line ran out |
/// | 5 | `serving`, then `out of memory` | memory ran out before a session was served; the folder may be lost |
/// | 6 | `journal damaged at N` | the journal that a stop left is damaged, at that place of its file in bytes |
/// | 7 | `serving`, then `listener fault` | some listener's count of faults rose |
/// | 8 | `not empty: NAME` | `make`'s folder has an entry, the first by the names' bytes |
/// | 15 | `journal open` | a vault was only to be read, and its journal has a batch that is to be done |
///
/// If writing the report failed, a prefix of it was written, and a status of 0 or 7 becomes 4.
///
/// The vault is unlocked at the second that `clock` gives next, and each worker's own clock gives the seconds of what its sessions ask, one for
/// each message. `rt` starts the workers' threads, and `gate` is passed by no session. `stopped` is set as soon as a commit of a session has failed, so that whoever
/// listens can end: it is never read here, and no clause speaks of it.
pub fn run<
    R: Threads + Wait + Sync,
    D: Folder + Send,
    N: Listener + Send,
    E: Entropy + Send,
    S: Source,
    O: Sink,
    K: Clock + Send,
    G: Gate,
>(
    rt: &R,
    alloc: Global,
    words: &[String],
    folder: D,
    workers: &mut Vec<Worker<N, E, K>>,
    secret: &mut S,
    out: &mut O,
    clock: &mut K,
    gate: &G,
    stopped: &AtomicBool,
) -> Ended<D>
where
    N::Conn: Send,
    requires { (1 ≤ vec_len workers.old) × (vec_len workers.old ≤ 64) }
    // The program has one ending, which has its reason; its status and its report are that ending's.
    ensures run { HasRun
        (views_of D.Reads N.Listener N.Conn.Link E.Entropy K.Clock)
        (words_of words.now) (course (source_in S.Source) secret.old secret.new) (next_of (K.to_give clock.old))
        folder workers.old.items workers.new.items (course (sink_in O.Sink) out.old out.new) result }
{
    let _ = gate;
    match read_task(alloc, words) {
        Ok(Task::Serve(service)) if service.read_only => {
            serve_to_read::<R, D, Brand, N, E, S, O, K>(
                rt, alloc, service, folder, workers, secret, out, clock,
            )
        }
        Ok(Task::Serve(service)) => serve::<R, D, Brand, N, E, S, O, K>(
            rt, alloc, service, folder, workers, secret, out, clock, stopped,
        ),
        Ok(Task::Make) => make(alloc, folder, workers, secret, out),
        Ok(Task::Demo(scripts)) => report_demonstration(rt, alloc, scripts, folder, out),
        Ok(Task::Help(topic)) => Ended {
            status: report(out, help_text(topic).as_bytes(), 0, CUT_STATUS),
            folder: Some(folder),
            store: None,
        },
        Ok(Task::Version) => Ended {
            status: report(out, VERSION.as_bytes(), 0, CUT_STATUS),
            folder: Some(folder),
            store: None,
        },
        Err(WordsErr::Refused) => Ended {
            status: refuse(out, &Cause::Words),
            folder: Some(folder),
            store: None,
        },
        Err(WordsErr::Memory) => Ended {
            status: refuse(out, &Cause::Memory),
            folder: Some(folder),
            store: None,
        },
    }
}

/// Reports that no client can connect, as the socket for them isn't bound, and returns the program's status: 7, or 4 if the sink failed. For whoever finds
/// that before a run.
pub fn report_no_socket<O: Sink>(out: &mut O) -> u8
    ensures { SaysNoSocket (course (sink_in O.Sink) out.old out.new) result }
{
    report(out, b"listener fault\n", 7, CUT_STATUS)
}

/// Reports that another server has the vault, and returns the program's status, 14. For whoever finds that before a run.
pub fn report_in_use<O: Sink>(out: &mut O) -> u8
    ensures { SaysInUse (course (sink_in O.Sink) out.old out.new) result }
{
    report(out, b"vault in use\n", IN_USE_STATUS, IN_USE_STATUS)
}

// Serves the vault that the secret unlocks. B says from where the history of all sessions may begin, how the folder was then, and which keys
// are unlocked.
fn serve<
    R: Threads + Wait + Sync,
    D: Folder + Send,
    B: Start + Since + Send + Sync,
    N: Listener + Send,
    E: Entropy + Send,
    S: Source,
    O: Sink,
    K: Clock + Send,
>(
    rt: &R,
    alloc: Global,
    service: Service,
    folder: D,
    workers: &mut Vec<Worker<N, E, K>>,
    secret: &mut S,
    out: &mut O,
    clock: &mut K,
    stopped: &AtomicBool,
) -> Ended<D>
where
    N::Conn: Send,
    requires some { 1 ≤ vec_len workers.old }
    requires start { AreBeginnings B.is
        (views_of D.Reads N.Listener N.Conn.Link E.Entropy K.Clock)
        folder workers.old.items }
    requires since { IsAlone B.since service.kind (folder_in D.Reads folder)
        (source_in S.Source secret.old) (next_of (K.to_give clock.old)) }
    ensures { (words : List (List ℕ)) (serving : Serving) → Ask words (serve serving) → serving.read_only ≡ false → IsServiceOf serving service → HasRun
        (views_of D.Reads N.Listener N.Conn.Link E.Entropy K.Clock)
        words (course (source_in S.Source) secret.old secret.new) (next_of (K.to_give clock.old))
        folder workers.old.items workers.new.items (course (sink_in O.Sink) out.old out.new) result }
{
    match open_vault(alloc, service.kind, folder, secret, clock) {
        Ok(store) => {
            serve_vault::<R, D, B, N, E, O, K>(rt, alloc, store, service, workers, out, stopped)
        }
        Err(Refused { folder, cause }) => Ended {
            status: refuse(out, &cause),
            folder: Some(folder),
            store: None,
        },
    }
}

// Serves the vault that the secret unlocks to be read alone: no call is made that changes the folder.
fn serve_to_read<
    R: Threads + Wait + Sync,
    D: Folder + Send,
    B: Start + Since + Send + Sync,
    N: Listener + Send,
    E: Entropy + Send,
    S: Source,
    O: Sink,
    K: Clock + Send,
>(
    rt: &R,
    alloc: Global,
    service: Service,
    folder: D,
    workers: &mut Vec<Worker<N, E, K>>,
    secret: &mut S,
    out: &mut O,
    clock: &mut K,
) -> Ended<D>
where
    N::Conn: Send,
    requires some { 1 ≤ vec_len workers.old }
    requires start { AreBeginnings B.is
        (views_of D.Reads N.Listener N.Conn.Link E.Entropy K.Clock)
        folder workers.old.items }
    requires since { IsAlone B.since service.kind (folder_in D.Reads folder)
        (source_in S.Source secret.old) (next_of (K.to_give clock.old)) }
    ensures { (words : List (List ℕ)) (serving : Serving) → Ask words (serve serving) → serving.read_only ≡ true → IsServiceOf serving service → HasRun
        (views_of D.Reads N.Listener N.Conn.Link E.Entropy K.Clock)
        words (course (source_in S.Source) secret.old secret.new) (next_of (K.to_give clock.old))
        folder workers.old.items workers.new.items (course (sink_in O.Sink) out.old out.new) result }
{
    match open_to_read(alloc, service.kind, folder, secret, clock) {
        Ok(store) => serve_view::<R, D, B, N, E, O, K>(rt, alloc, store, service, workers, out),
        Err(Refused { folder, cause }) => Ended {
            status: refuse(out, &cause),
            folder: Some(folder),
            store: None,
        },
    }
}

// Makes a vault under the secret's password, of what the first worker's random source gives.
fn make<D: Folder, N: Listener, E: Entropy, S: Source, O: Sink, K: Clock>(
    alloc: Global,
    mut folder: D,
    workers: &mut Vec<Worker<N, E, K>>,
    secret: &mut S,
    out: &mut O,
) -> Ended<D>
    requires { 1 ≤ vec_len workers.old }
    ensures { (words : List (List ℕ)) (making : Making) (second : Option ℕ) → Ask words (make making) → HasRun
        (views_of D.Reads N.Listener N.Conn.Link E.Entropy K.Clock)
        words (course (source_in S.Source) secret.old secret.new) second
        folder workers.old.items workers.new.items (course (sink_in O.Sink) out.old out.new) result }
{
    let Worker {
        listener,
        mut entropy,
        clock,
    } = workers.remove(0);
    let made = make_vault(alloc, &mut folder, &mut entropy, secret);
    put_back(
        workers,
        Worker {
            listener,
            entropy,
            clock,
        },
    );
    let status = match made {
        Ok(()) => report(out, b"made\n", 0, CUT_STATUS),
        Err(cause) => refuse(out, &cause),
    };
    Ended {
        status,
        folder: Some(folder),
        store: None,
    }
}

// Serves all workers' shares over an open vault, closes the vault, and reports it: `serving` before, and the last line after.
// Once the sink failed, nothing more is written.
fn serve_vault<
    R: Threads + Wait + Sync,
    D: Folder + Send,
    B: Start + Since + Send + Sync,
    N: Listener + Send,
    E: Entropy + Send,
    O: Sink,
    K: Clock + Send,
>(
    rt: &R,
    alloc: Global,
    store: Store<D>,
    service: Service,
    workers: &mut Vec<Worker<N, E, K>>,
    out: &mut O,
    stopped: &AtomicBool,
) -> Ended<D>
where
    N::Conn: Send,
    requires some { 1 ≤ vec_len workers.old }
    requires right { StandsFor B.is (λ s rows origin history. IsSharedStore (folder_in D.Reads) B.since s rows origin history) store [] }
    requires since { (rows : Rows) (origin : Origin) → B.is rows origin → AreSince E.faults origin 0 workers.old.items }
    ensures served { HasServedVault B.is B.since
        (views_of D.Reads N.Listener N.Conn.Link E.Entropy K.Clock)
        service workers.old.items workers.new.items (course (sink_in O.Sink) out.old out.new) result }
{
    let serving = announce(out);
    let served = serve_workers::<R, D, B, N, E, K>(rt, alloc, store, service, workers, stopped);
    let status = match serving {
        Ok(()) => report_outcome(alloc, out, served.outcome),
        Err(_) => served.outcome.unreported(),
    };
    Ended {
        status,
        folder: served.folder,
        store: served.store,
    }
}

// Serves all workers' shares over a vault that is only read, and reports it: `serving` before, and the last line after. Once the sink failed, nothing more is written.
fn serve_view<
    R: Threads + Wait + Sync,
    D: Reads + Send,
    B: Start + Since + Send + Sync,
    N: Listener + Send,
    E: Entropy + Send,
    O: Sink,
    K: Clock + Send,
>(
    rt: &R,
    alloc: Global,
    store: ReadOnlyStore<D>,
    service: Service,
    workers: &mut Vec<Worker<N, E, K>>,
    out: &mut O,
) -> Ended<D>
where
    N::Conn: Send,
    requires some { 1 ≤ vec_len workers.old }
    requires right { StandsFor B.is (λ v rows origin history. IsSharedView (folder_in D.Reads) B.since v rows origin history) store [] }
    requires since { (rows : Rows) (origin : Origin) → B.is rows origin → AreSince E.faults origin 0 workers.old.items }
    ensures served { HasServedView B.is B.since
        (views_of D.Reads N.Listener N.Conn.Link E.Entropy K.Clock)
        service workers.old.items workers.new.items (course (sink_in O.Sink) out.old out.new) result }
{
    let serving = announce(out);
    let served = serve_readers::<R, D, B, N, E, K>(rt, alloc, store, service, workers);
    let status = match serving {
        Ok(()) => report_outcome(alloc, out, served.outcome),
        Err(_) => served.outcome.unreported(),
    };
    Ended {
        status,
        folder: served.folder,
        store: None,
    }
}

// Writes the report's first line.
fn announce<O: Sink>(out: &mut O) -> Result<(), Failed>
    ensures whole { OnOk result (Changes (O.taken out.old) (O.taken out.new) (λ old new. new ≡ old ++ serving)) }
    ensures part { OnErr result (Changes (O.taken out.old) (O.taken out.new) (TakesPart serving)) }
    ensures cause { HasCause (O.faults out.old) (O.faults out.new) (IsErr result) }
{
    write_all(out, b"serving\n")
}

// Holds a demonstration, and reports it. The folder is given on as it is.
fn report_demonstration<R: Threads + Wait + Sync, D, O: Sink>(
    rt: &R,
    alloc: Global,
    scripts: Scripts,
    folder: D,
    out: &mut O,
) -> Ended<D>
    requires { (1 ≤ scripts.clients) × (scripts.clients ≤ 64) }
    ensures folder { result.folder ≡ Some folder }
    ensures demonstrated { (d : Demonstration) → AreScriptsOf d scripts
        → HasDemonstrated d (course (sink_in O.Sink) out.old out.new) result }
{
    match demonstrate(rt, alloc, scripts) {
        Ok(Demonstrated { line, store }) => Ended {
            status: report(out, &line, 0, CUT_STATUS),
            folder: Some(folder),
            store: Some(store),
        },
        Err(_) => Ended {
            status: refuse(out, &Cause::Memory),
            folder: Some(folder),
            store: None,
        },
    }
}

// Puts a worker back to the front of the others, from where it was taken.
fn put_back<N, E, K>(workers: &mut Vec<Worker<N, E, K>>, worker: Worker<N, E, K>)
    requires { vec_len workers.old < vec_capacity workers.old }
    ensures { workers.new.items ≡ worker ∷ workers.old.items }
{
    match workers.insert(0, worker) {
        Ok(()) => {}
        Err(_) => unreachable!(),
    }
}

// Reports what serving came to, and returns the program's status.
fn report_outcome<O: Sink>(alloc: Global, out: &mut O, outcome: Outcome) -> u8
    ensures { (ends : List SessionEnd) → AreCounted ends outcome
        → HasLastLine ends outcome (course (sink_in O.Sink) out.old out.new) result }
{
    match outcome {
        Outcome::Served(counts) => match counts_line(alloc, &counts) {
            Ok(line) => report(out, line.as_bytes(), 0, CUT_STATUS),
            Err(_) => report(out, b"out of memory\n", 5, 5),
        },
        Outcome::ListenerFault => report(out, b"listener fault\n", 7, CUT_STATUS),
        Outcome::FolderFault => report(out, b"device fault: folder\n", 4, CUT_STATUS),
        Outcome::NoMemory => report(out, b"out of memory\n", 5, 5),
    }
}
