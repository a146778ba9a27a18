//! The vault's folder: its lock, and how it is opened; and the lock of a socket's.

ghost use Rattle.std.specs.Prelude.{◌≡◌, ◌↔◌, if◌then◌else◌, IfOk, IsNone};
ghost use Rattle.host_calls.specs.declared.lock.Locking.TheVariants.{InUse};
ghost use Rattle.vaultd.specs.Starting.{IsAsFound, IsFolderAt, IsSettled};

use crate::host::Host;
use crate::recovering::tell_unfinished;
use chunk_journal::{JournalErr, loose_paths};
use deeds::{journal_path, new_path};
use host_calls::{Found, HostCalls, Locking, Sharing};
use host_folder::{HostFolder, Unsettled};
use host_sockets::Address;
use log::{Log, error};
use outside::{Folder, FolderErr, Kind};
use outside_real::StdCalls;
use std::alloc::AllocError;
use std::fs::File;
use std::rt::{Clock, Files};
use std::thread;
use std::time::Duration;
use vault_path::VaultPath;

// How often the lock of a socket's folder is asked for, while another has it: for two seconds.
const TURN_TRIES: u32 = 100;

// Milliseconds between two of these.
const TURN_PAUSE: u64 = 20;

// The gate's byte before a batch that is to be done.
const OPEN_GATE: u8 = 1;

// As many bytes of a journal are copied at once.
const PIECE_LEN: usize = 65536;

/// The lock of a folder, which is given back as this is dropped; or none, where the file system has no locks.
#[derive(Drop)]
pub(crate) struct FolderLock {
    _file: Option<File>,
}

/// Takes the lock of the folder at a path: alone, or, to read, with others that read. `None`: another server has it.
pub(crate) fn lock_folder<R: Files<File = File>, L: Log>(
    host: Host<'_, R, L>,
    path: &str,
    read_only: bool,
) -> Option<FolderLock> {
    admitted(StdCalls::new(host.rt, host.log).lock(path, sharing(read_only)))
}

// The path of the folder that a path is in.
fn parent_of(path: &str) -> &str {
    match path.rsplit_once('/') {
        Some(("", _)) => "/",
        Some((folder, _)) => folder,
        None => ".",
    }
}

/// Has those that start at Unix sockets of one folder go one after another, so that none takes away as left behind what another has bound since: the folder's
/// lock, for which it waits two seconds at most. Then, and at another address, it is done without.
pub(crate) fn turn_at<R: Clock + Files<File = File>, L: Log>(
    host: Host<'_, R, L>,
    address: &Address,
) -> Option<FolderLock> {
    let Address::Path(path) = address else {
        return None;
    };
    for _ in 0..TURN_TRIES {
        let lock = lock_folder(host, parent_of(path), false);
        if lock.is_some() {
            return lock;
        }
        thread::sleep(host.rt, Duration::from_millis(TURN_PAUSE));
    }
    None
}

/// Tells if there is no folder at a path: what comes of that is a fault of which no call of the host has told.
pub(crate) fn tell_missing<R: Files<File = File>, L: Log>(host: Host<'_, R, L>, path: &str) {
    if let Ok(Found::Nothing | Found::File(..) | Found::Other) = StdCalls::new(
        host.rt, host.log,
    ).stat(path, true)
    {
        error!(host.log; target: "vaultd", "{path} is no folder");
    }
}

fn sharing(read_only: bool) -> Sharing
    ensures { result ≡ (if read_only then Sharing.Shared else Sharing.Alone) }
{
    if read_only {
        Sharing::Shared
    } else {
        Sharing::Alone
    }
}

// What came of taking a lock: a vault that another server has isn't served.
fn admitted(locking: Locking<File>) -> Option<FolderLock>
    ensures { IsNone result ↔ (locking ≡ InUse) }
{
    match locking {
        Locking::Taken(file) => Some(FolderLock { _file: Some(file) }),
        Locking::Unknown => Some(FolderLock { _file: None }),
        Locking::InUse => None,
    }
}

// The paths in a vault's folder at which an earlier run may have left something off the disk, by its journal. If that can't be read or is damaged
// there are none: `run` comes to the same fault and reports it.
fn loose_at<R: Files<File = File> + AllocGlobal, L: Log>(
    host: Host<'_, R, L>,
    path: &str,
) -> Result<Vec<VaultPath>, AllocError> {
    let mut folder = Unsettled::new(StdCalls::new(host.rt, host.log), host.rt.alloc(), path)?;
    match loose_paths(host.rt.alloc(), &mut folder) {
        Ok(paths) => Ok(paths),
        Err(JournalErr::Memory) => Err(AllocError),
        Err(JournalErr::Device | JournalErr::JournalDamaged(_)) => Ok(Vec::new(host.rt.alloc())),
    }
}

// Whether the gate of a journal is open.
fn is_open<D: Folder>(folder: &mut D, journal: &VaultPath) -> Result<bool, FolderErr> {
    let mut gate = [0];
    Ok(folder.read(journal, 0, &mut gate)? == 1 && gate == [OPEN_GATE])
}

// Puts so many bytes of a file once more, at another path.
fn copy<D: Folder>(
    folder: &mut D,
    from: &VaultPath,
    len: u64,
    to: &VaultPath,
) -> Result<(), FolderErr> {
    folder.put(to, &[])?;
    let mut piece = [0; PIECE_LEN];
    for i in 0..len.div_ceil(PIECE_LEN as u64) {
        let at = i * PIECE_LEN as u64;
        let most = (len - at).min(PIECE_LEN as u64) as usize;
        let count = folder.read(from, at, &mut piece[..most])?;
        folder.write(to, at, &piece[..count])?;
    }
    Ok(())
}

// Puts a journal that a run left anew, and of one with a closed gate that alone: beside it, and moved to its place once that is on the disk. Of a flush that fails
// a host may keep what was to be flushed in memory, and hold it for flushed from then on: so the gate that is read may not be the one on the disk, and no
// flush would put it there. It isn't written over itself, since of a write any byte may be left.
fn renew_journal<D: Folder>(folder: &mut D) -> Result<(), FolderErr> {
    let (journal, beside) = (journal_path(), new_path());
    let Some(Kind::File(len)) = folder.kind(&journal)? else {
        return Ok(());
    };
    if len == 0 {
        return Ok(());
    }
    let is_open = is_open(folder, &journal)?;
    copy(folder, &journal, if is_open { len } else { 1 }, &beside)?;
    folder.sync()?;
    folder.rename(&beside, &journal)?;
    folder.sync()
}

/// The folder at a path, once what an earlier run may have left off the disk is on it. It is opened anew, since no clause says that what read the
/// journal is still at that path.
pub(crate) fn settled_at<'a, R: Files<File = File> + AllocGlobal, L: Log>(
    host: Host<'a, R, L>,
    path: &str,
) -> Result<HostFolder<StdCalls<&'a R, &'a L>>, AllocError>
    ensures { IfOk result (IsSettled path.now) }
{
    // what fails is told, and the journal is as it was
    let _ = renew_journal(&mut untold_at(host, path)?);
    let loose = loose_at(host, path)?;
    let folder = Unsettled::new(StdCalls::new(host.rt, host.log), host.rt.alloc(), path)?;
    Ok(folder.settle(&loose))
}

/// The folder at a path, as it is found.
pub(crate) fn untold_at<'a, R: Files<File = File> + AllocGlobal, L: Log>(
    host: Host<'a, R, L>,
    path: &str,
) -> Result<HostFolder<StdCalls<&'a R, &'a L>>, AllocError>
    ensures { IfOk result (IsAsFound path.now) }
{
    let folder = HostFolder::untold(StdCalls::new(host.rt, host.log), host.rt.alloc(), path)?;
    Ok(folder)
}

/// The folder of a vault whose lock is taken: as it is found if it is only to be read, and else once what an earlier run may have left off the disk is on it.
pub(crate) fn vault_at<'a, R: Files<File = File> + AllocGlobal, L: Log>(
    host: Host<'a, R, L>,
    _lock: &FolderLock,
    path: &str,
    read_only: bool,
) -> Result<HostFolder<StdCalls<&'a R, &'a L>>, AllocError>
    ensures { IfOk result (IsFolderAt read_only path.now) }
{
    if read_only {
        untold_at(host, path)
    } else {
        tell_unfinished(host, path)?;
        settled_at(host, path)
    }
}
