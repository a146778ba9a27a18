ghost use Rattle.std.specs.Prelude.{◌≡◌, ◌≤◌, ◌⊎◌, ◌↔◌, IsTrue, IsSome, IsNone, length, IfOk, IfErr, OnOk, IsErr};
ghost use Rattle.vault_layout.specs.Limits.{max_threshold};
ghost use Rattle.outside.specs.Calls.{Changes, Rose};
ghost use Rattle.chunk_journal.specs.Journal.{AnyMoment};
ghost use Rattle.outside.specs.Views.{folder_in, entropy_in};
ghost use Rattle.tree_model.specs.Asked.{CanAsk, plain_request, plain_reply, asked_of};
ghost use Rattle.store_laws.specs.Turns.{AddsEntry, IsFlushed};
ghost use Rattle.vault_store.specs.Open.{idle_of};
ghost use Rattle.vault_store.specs.Opening.{HasOpenedStore, HasRefusedStore};
ghost use Rattle.vault_store.specs.Outcome.{IsFormed};

use crate::answering::{Broken, Vault};
use crate::closed::ClosedStore;
use crate::opening::OpenErr;
use outside::{Entropy, Failed, Folder, Refused};
use std::alloc::Global;
use std::marker::Model;
use tree_model::{Refusal, Reply, Request};
use vault_keys::VaultKeys;

/// A vault that is open: its folder, which changes by whole batches alone, and its tree, which was loaded whole. Writes and truncations
/// wait in memory until a sync, a change that is to last, or a lack of room has them committed. Clauses see what it is in memory, and the folder.
#[derive(Drop)]
pub struct Store<D: Folder> {
    vault: Vault<D>,
    entries: u64,
    // The entry whose commit failed; from it on nothing is done.
    stopped: Option<u64>,
}

impl<D: Folder> Model for Store<D> {
    ghost use Rattle.std.specs.Prelude.{IsNone};
    ghost use Rattle.vault_store.specs.Open.{IsResting, OpenVault, opened_in};

    ghost Value = { OpenVault D };

    ghost view = { λ s. opened_in s.vault s.entries s.stopped };

    ghost invariant = { λ s. IsNone s.stopped → IsResting D.Reads s.vault };
}

impl<D: Folder> Store<D> {
    /// Opens the vault in a folder: does what a stop left in its journal, and loads its tree. `threshold` is the vault's shortening
    /// threshold, 1 to `MAX_THRESHOLD` characters, and `now` the second of unlocking, since 1970-01-01. All memory that reads need is taken
    /// here. A refusal hands the folder back; if it is that a deed of the journal doesn't fit it, the deeds before are done.
    pub fn open(
        alloc: Global,
        folder: D,
        keys: &VaultKeys,
        threshold: u32,
        now: u32,
    ) -> Result<Store<D>, Refused<D, OpenErr>>
        requires { (1 ≤ threshold) × (threshold ≤ max_threshold) }
        ensures opened { IfOk result (HasOpenedStore (folder_in D.Reads) folder keys.now now threshold) }
        ensures refused { IfErr result (HasRefusedStore (folder_in D.Reads) folder keys.now) }
    {
        let vault = Vault::open(alloc, folder, keys, threshold, now)?;
        Ok(Store {
            vault,
            entries: 0,
            stopped: None,
        })
    }

    /// Answers a request that is made at a second since 1970-01-01, and adds one entry to the history, attributed to the caller that owns
    /// `entropy`. Bytes of the reply are put into `buffer`, from its front on. Reads, writes and syncs take no memory.
    ///
    /// Each change of the tree's shape or of a length is committed before it is answered, and what waits before it; a write and a truncation
    /// wait, and reads show them at once. If a commit fails, that is answered as the folder's fault, and from then on each request is
    /// answered that the store stopped there. If another program took away, cut or replaced a file for which something waits, that is
    /// dropped, and the request that was to commit it is refused as the folder's fault; all else is committed, and the store goes on.
    pub fn serve<E: Entropy>(
        &mut self,
        request: &Request<'_>,
        now: u32,
        entropy: &mut E,
        buffer: &mut [u8],
    ) -> Reply
        requires form { CanAsk request.now (length buffer.old) }
        ensures entry { AddsEntry self.old.store self.new.store
            (folder_in D.Reads self.old.folder) (folder_in D.Reads self.new.folder)
            (asked_of (plain_request request.now) now (plain_reply result) buffer.new)
            (entropy_in E.Entropy entropy.old) (entropy_in E.Entropy entropy.new) }
        ensures formed { IsFormed (plain_request request.now) result buffer.old buffer.new }
        ensures keys { self.new.store.keys ≡ self.old.store.keys }
        ensures threshold { self.new.threshold ≡ self.old.threshold }
        ensures faults { D.faults self.old.folder ≤ D.faults self.new.folder }
        ensures entropy { E.faults entropy.old ≤ E.faults entropy.new }
    {
        let reply = match self.stopped {
            Some(entry) => Reply::Refused(Refusal::Stopped(entry)),
            None => match self.vault.answer(request, now, entropy, buffer) {
                Ok(reply) => reply,
                Err(Broken) => {
                    self.stopped = Some(self.entries);
                    Reply::Refused(Refusal::DeviceFault)
                }
            },
        };
        self.entries = self.entries.saturating_add(1);
        reply
    }

    /// Whether a commit has failed, so that nothing more is done.
    pub fn is_stopped(&self) -> bool
        ensures { IsTrue result ↔ IsSome self.now.store.stopped }
    {
        self.stopped.is_some()
    }

    /// Closes the vault: has what waits committed, and hands back its folder and what is left in memory. `committed` is `Failed` only if
    /// that commit failed or some of it was dropped, which raised the folder's count of faults, or an earlier commit failed.
    pub fn close(self) -> (D, ClosedStore)
        ensures idle { result.1.store ≡ idle_of self.store }
        ensures flushed { IsNone self.store.stopped → OnOk result.1.committed (IsFlushed self.store (idle_of self.store)
            (folder_in D.Reads self.folder) (folder_in D.Reads result.0)) }
        ensures moments { IsNone self.store.stopped → Changes (D.log self.folder) (D.log result.0) (AnyMoment self.store.waiting) }
        ensures stopped { IsSome self.store.stopped → (result.0 ≡ self.folder) × IsErr result.1.committed }
        ensures later { D.faults self.folder ≤ D.faults result.0 }
        ensures cause { IsErr result.1.committed → IsSome self.store.stopped ⊎ Rose (D.faults self.folder) (D.faults result.0) }
    {
        let Store {
            mut vault,
            entries,
            stopped,
        } = self;
        let committed = match stopped {
            None => match vault.flush() {
                Ok(()) => Ok(()),
                Err(_) => Err(Failed),
            },
            Some(_) => Err(Failed),
        };
        let (folder, tree) = vault.into_parts();
        let closed = ClosedStore::new(tree, entries, stopped, committed);
        (folder, closed)
    }

    /// Hands the vault's folder back as it is; what waits is forgotten.
    pub fn into_folder(self) -> D
        ensures { result ≡ self.folder }
    {
        let Store { vault, .. } = self;
        let (folder, _) = vault.into_parts();
        folder
    }

    /// How many entries there are in the history that it stands for, at most 2^64 - 1.
    pub fn entries(&self) -> u64
        ensures { result ≡ self.now.store.entries }
    {
        self.entries
    }
}
