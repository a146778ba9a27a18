//! A vault that is only read.

ghost use Rattle.std.specs.Prelude.{◌≡◌, ◌≤◌, length, IfOk, IfErr, IsErr};
ghost use Rattle.vault_layout.specs.Limits.{max_threshold};
ghost use Rattle.outside.specs.Calls.{HasCause, Told};
ghost use Rattle.outside.specs.Disk.{IsTree};
ghost use Rattle.outside.specs.Images.{disk_in};
ghost use Rattle.outside.specs.Views.{folder_in};
ghost use Rattle.chunk_journal.specs.Journal.{IsClosed};
ghost use Rattle.tree_model.specs.Asked.{CanAsk, plain_request, plain_reply, asked_of};
ghost use Rattle.vault_store.specs.declared.opening.OpenErr.TheVariants as open_errs;
ghost use Rattle.vault_store.specs.Open.{IsLoadedTree};
ghost use Rattle.vault_store.specs.Outcome.{IsFormed};
ghost use Rattle.vault_store.specs.ReadOnly.{AddsReading, HasOpenedToRead, HasRefusedToRead, IsOnlyRead};

use crate::answering::load_tree;
use crate::opening::OpenErr;
use crate::reading::look_up;
use chunk_journal::{JournalErr, needs_recovery};
use content_reader::ContentReader;
use deeds::journal_path;
use node_changes::VaultTree;
use outside::{Reads, Refused};
use std::alloc::{AllocError, Global};
use std::marker::Model;
use thiserror::Error;
use tree_answers::{is_truncating, sync};
use tree_model::{Refusal, Reply, Request};
use vault_keys::VaultKeys;

/// Why a vault can't be opened to be read alone.
#[derive(Clone, Copy, Debug, PartialEq, Eq, Error)]
pub enum ReadOnlyErr {
    /// Its journal holds a batch that a stop left and that is to be done, which would change the folder.
    #[error("the journal is open")]
    JournalOpen,
    /// It can't be opened at all.
    #[error("{0}")]
    NotOpened(OpenErr),
}

impl From<OpenErr> for ReadOnlyErr {
    ghost use Rattle.std.specs.Prelude.{◌≡◌};
    ghost use Rattle.vault_store.specs.declared.read_only.ReadOnlyErr.TheVariants.{NotOpened};

    ghost from_gives = { λ cause e. e ≡ NotOpened cause };

    fn from(cause: OpenErr) -> ReadOnlyErr {
        ReadOnlyErr::NotOpened(cause)
    }
}

impl From<JournalErr> for ReadOnlyErr {
    ghost use Rattle.std.specs.Prelude.{◌≡◌};
    ghost use Rattle.vault_store.specs.Causes.{of_journal};
    ghost use Rattle.vault_store.specs.declared.read_only.ReadOnlyErr.TheVariants.{NotOpened};

    ghost from_gives = { λ cause e. e ≡ NotOpened (of_journal cause) };

    fn from(cause: JournalErr) -> ReadOnlyErr {
        ReadOnlyErr::NotOpened(OpenErr::from(cause))
    }
}

impl From<AllocError> for ReadOnlyErr {
    ghost use Rattle.std.specs.Prelude.{◌≡◌};
    ghost use Rattle.vault_store.specs.declared.opening.OpenErr.TheVariants.{Memory};
    ghost use Rattle.vault_store.specs.declared.read_only.ReadOnlyErr.TheVariants.{NotOpened};

    ghost from_gives = { λ _ e. e ≡ NotOpened Memory };

    fn from(_: AllocError) -> ReadOnlyErr {
        ReadOnlyErr::NotOpened(OpenErr::Memory)
    }
}

/// A vault that is open to be read: its tree, which was loaded whole, and its folder, of which no call is made that changes it. Clauses see both.
#[derive(Drop)]
pub struct ReadOnlyStore<D: Reads> {
    folder: D,
    tree: VaultTree,
    reader: ContentReader,
    alloc: Global,
}

impl<D: Reads> Model for ReadOnlyStore<D> {
    ghost use Rattle.outside.specs.Calls.{Told};
    ghost use Rattle.outside.specs.Images.{disk_in};
    ghost use Rattle.tree_loading.specs.Format.{sealing_of};
    ghost use Rattle.vault_store.specs.Reading.{HasContents};
    ghost use Rattle.vault_store.specs.ReadOnly.{ReadOnlyVault};

    ghost Value = { ReadOnlyVault D };

    ghost view = { λ s. record { tree = s.tree; folder = s.folder } };

    ghost invariant = { λ s. Told (disk_in (D.log s.folder)) (HasContents (sealing_of s.tree.keys) s.tree.live) };
}

impl<D: Reads> ReadOnlyStore<D> {
    /// Opens the vault in a folder whose journal is closed, and loads its tree. `threshold` is the vault's shortening threshold, 1 to `MAX_THRESHOLD`
    /// characters, and `now` the second of unlocking, since 1970-01-01. All memory that reads need is taken here. A refusal hands the folder back.
    pub fn open(
        alloc: Global,
        mut folder: D,
        keys: &VaultKeys,
        threshold: u32,
        now: u32,
    ) -> Result<ReadOnlyStore<D>, Refused<D, ReadOnlyErr>>
        requires { (1 ≤ threshold) × (threshold ≤ max_threshold) }
        ensures opened { IfOk result (λ vault. HasOpenedToRead (folder_in D.Reads folder) (folder_in D.Reads vault.folder) keys.now now vault.tree) }
        ensures refused { IfErr result (λ refusal. HasRefusedToRead (folder_in D.Reads folder) (folder_in D.Reads refusal.folder) keys.now refusal.cause) }
    {
        match load_to_read(alloc, &mut folder, keys, threshold, now) {
            Ok(Loaded { tree, reader }) => Ok(ReadOnlyStore {
                folder,
                tree,
                reader,
                alloc,
            }),
            Err(cause) => Err(Refused { folder, cause }),
        }
    }

    /// Answers a request that is made at a second since 1970-01-01, and adds one entry to the history. Bytes of the reply are put into `buffer`, from its
    /// front on. A request that would change something is `NotPermitted`; a sync is done, since nothing waits. Reads take no memory.
    pub fn serve(&mut self, request: &Request<'_>, now: u32, buffer: &mut [u8]) -> Reply
        requires form { CanAsk request.now (length buffer.old) }
        ensures entry { AddsReading self.old.tree
            (folder_in D.Reads self.old.folder) (folder_in D.Reads self.new.folder)
            (asked_of (plain_request request.now) now (plain_reply result) buffer.new) }
        ensures formed { IsFormed (plain_request request.now) result buffer.old buffer.new }
        ensures tree { self.new.tree ≡ self.old.tree }
        ensures read { IsOnlyRead (folder_in D.Reads self.old.folder) (folder_in D.Reads self.new.folder) }
    {
        // `now` dates changes alone
        let _ = now;
        match request {
            Request::Create { .. }
            | Request::Remove { .. }
            | Request::Change { .. }
            | Request::Write { .. } => Reply::Refused(Refusal::NotPermitted),
            Request::OpenNode { mode, .. } if is_truncating(*mode) => {
                Reply::Refused(Refusal::NotPermitted)
            }
            Request::Sync { node } => sync(self.tree.live(), *node),
            _ => look_up(
                self.alloc,
                &mut self.folder,
                &self.tree,
                &mut self.reader,
                request,
                buffer,
            ),
        }
    }

    /// Hands the vault's folder back as it is.
    pub fn into_folder(self) -> D
        ensures { result ≡ self.folder }
    {
        self.folder
    }
}

// What is taken of memory and of a folder.
struct Loaded {
    tree: VaultTree,
    reader: ContentReader,
}

// Loads the tree of a folder whose journal is closed.
fn load_to_read<D: Reads>(
    alloc: Global,
    folder: &mut D,
    keys: &VaultKeys,
    threshold: u32,
    now: u32,
) -> Result<Loaded, ReadOnlyErr>
    requires { (1 ≤ threshold) × (threshold ≤ max_threshold) }
    ensures loaded { IfOk result (λ loaded. IsLoadedTree keys.now now threshold (D.log folder.old) loaded.tree) }
    ensures closed { IfOk result (λ _. Told (disk_in (D.log folder.old)) IsClosed) }
    ensures host { IfOk result (λ _. Told (disk_in (D.log folder.old)) IsTree) }
    ensures refused { IfErr result (HasRefusedToRead (folder_in D.Reads folder.old) (folder_in D.Reads folder.new) keys.now) }
    ensures read { IsOnlyRead (folder_in D.Reads folder.old) (folder_in D.Reads folder.new) }
{
    let reader = ContentReader::new(alloc)?;
    if needs_recovery(alloc, folder)? {
        return Err(ReadOnlyErr::JournalOpen);
    }
    is_tree(folder)?;
    let tree = load_tree(alloc, folder, keys, threshold, now)?;
    Ok(Loaded { tree, reader })
}

// What a folder tells is a tree, as each answer to a question of it says.
fn is_tree<R: Reads>(from: &mut R) -> Result<(), OpenErr>
    ensures tree { Told (disk_in (R.log from.old)) IsTree }
    ensures log { R.log from.new ≡ R.log from.old }
    ensures changes { R.changes from.new ≡ R.changes from.old }
    ensures fault { IfErr result (λ error. error ≡ open_errs.Device) }
    ensures cause { HasCause (R.faults from.old) (R.faults from.new) (IsErr result) }
{
    match from.kind(&journal_path()) {
        Ok(_) => Ok(()),
        Err(_) => Err(OpenErr::Device),
    }
}
