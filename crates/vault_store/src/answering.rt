ghost use Rattle.std.specs.Prelude.{◌≡◌, ◌≤◌, ℕ, None, length, IfOk, IfErr, IsErrOf, OnOk};
ghost use Rattle.vault_layout.specs.Limits.{max_threshold};
ghost use Rattle.outside.specs.Calls.{HasCause, Told};
ghost use Rattle.outside.specs.Disk.{IsFolder};
ghost use Rattle.outside.specs.Images.{disk_in};
ghost use Rattle.outside.specs.Views.{folder_in, entropy_in};
ghost use Rattle.clear_tree.specs.Kept.{KeptTree};
ghost use Rattle.tree_model.specs.Asked.{CanAsk, plain_request};
ghost use Rattle.tree_loading.specs.Clear.{root_folder, HasTooMany};
ghost use Rattle.store_laws.specs.Ends.{HasBeenOpened};
ghost use Rattle.vault_store.specs.declared.opening.OpenErr.TheVariants as open_errs;
ghost use Rattle.vault_store.specs.Open.{IsLoadedTree, IsResting, Keeps, opened_in, store_in};
ghost use Rattle.vault_store.specs.Opening.{HasOpenedStore, HasRefusedStore};
ghost use Rattle.vault_store.specs.Outcome.{HasAnswered};

use crate::opening::OpenErr;
use chunk_journal::Journal;
use content_reader::ContentReader;
use file_changes::FileChanges;
use live_tree::LiveTree;
use node_changes::VaultTree;
use outside::{Entropy, Folder, Reads, Refused};
use pending_files::Pending;
use std::alloc::Global;
use std::marker::Model;
use tree_answers::is_truncating;
use tree_loading::load;
use tree_model::{Reply, Request};
use vault_keys::VaultKeys;
use write_back::{Headers, WriteBack};

/// A commit failed: the folder's count of faults rose, and nothing can be answered any more.
#[derive(Clone, Copy, Debug, PartialEq, Eq)]
pub(crate) struct Broken;

/// What a store answers from: its folder behind the journal, with what waits to be committed; its tree; and room for reads and for changes
/// of contents. Clauses see the tree, what waits and the folder.
#[derive(Drop)]
pub(crate) struct Vault<D: Folder> {
    pub back: WriteBack<D>,
    pub tree: VaultTree,
    pub reader: ContentReader,
    pub files: FileChanges,
    pub alloc: Global,
}

impl<D: Folder> Model for Vault<D> {
    ghost use Rattle.std.specs.Prelude.{◌≤◌};
    ghost use Rattle.vault_layout.specs.Limits.{max_threshold};
    ghost use Rattle.vault_store.specs.Open.{VaultView};

    ghost Value = { VaultView D };

    ghost view = { λ v. record { tree = v.tree; waiting = v.back.waiting; folder = v.back.folder } };

    ghost invariant = { λ v. (1 ≤ v.tree.threshold) × (v.tree.threshold ≤ max_threshold) };
}

impl<D: Folder> Vault<D> {
    /// Opens the journal of a folder, and loads its tree. A refusal hands the folder back.
    pub fn open(
        alloc: Global,
        folder: D,
        keys: &VaultKeys,
        threshold: u32,
        now: u32,
    ) -> Result<Vault<D>, Refused<D, OpenErr>>
        requires { (1 ≤ threshold) × (threshold ≤ max_threshold) }
        ensures made { IfOk result (λ vault. (kept : KeptTree) × HasBeenOpened (folder_in D.Reads folder) keys.now now kept
            (store_in vault 0 None) (folder_in D.Reads vault.folder)) }
        ensures opened { IfOk result (λ vault. HasOpenedStore (folder_in D.Reads) folder keys.now now threshold (opened_in vault 0 None)) }
        ensures rest { IfOk result (IsResting D.Reads) }
        ensures refused { IfErr result (HasRefusedStore (folder_in D.Reads) folder keys.now) }
    {
        let reader = match ContentReader::new(alloc) {
            Ok(reader) => reader,
            Err(_) => {
                return Err(Refused {
                    folder,
                    cause: OpenErr::Memory,
                });
            }
        };
        let files = match FileChanges::new(alloc) {
            Ok(files) => files,
            Err(_) => {
                return Err(Refused {
                    folder,
                    cause: OpenErr::Memory,
                });
            }
        };
        let pending = match Pending::new(alloc) {
            Ok(pending) => pending,
            Err(_) => {
                return Err(Refused {
                    folder,
                    cause: OpenErr::Memory,
                });
            }
        };
        let headers = match Headers::new(alloc) {
            Ok(headers) => headers,
            Err(_) => {
                return Err(Refused {
                    folder,
                    cause: OpenErr::Memory,
                });
            }
        };
        let mut journal = match Journal::open(alloc, folder) {
            Ok(journal) => journal,
            Err(Refused { folder, cause }) => {
                return Err(Refused {
                    folder,
                    cause: OpenErr::from(cause),
                });
            }
        };
        match load_tree(alloc, &mut journal, keys, threshold, now) {
            Ok(tree) => Ok(Vault {
                back: WriteBack::new(journal, pending, headers),
                tree,
                reader,
                files,
                alloc,
            }),
            Err(cause) => Err(Refused {
                folder: journal.into_folder(),
                cause,
            }),
        }
    }

    /// What a request comes to, before it is counted.
    pub fn answer<E: Entropy>(
        &mut self,
        request: &Request<'_>,
        now: u32,
        entropy: &mut E,
        buffer: &mut [u8],
    ) -> Result<Reply, Broken>
        requires form { CanAsk request.now (length buffer.old) }
        requires rest { IsResting D.Reads self.old }
        ensures outcome { HasAnswered D.Reads self.old self.new
            (entropy_in E.Entropy entropy.old) (entropy_in E.Entropy entropy.new)
            (plain_request request.now) now result buffer.old buffer.new }
        ensures rest { OnOk result (IsResting D.Reads self.new) }
        ensures keeps { Keeps D.Reads self.old self.new }
        ensures entropy { E.faults entropy.old ≤ E.faults entropy.new }
    {
        match request {
            Request::Create {
                node,
                name,
                is_dir,
                ..
            } => self.create(*node, name, *is_dir, now, entropy),
            Request::Remove { node } => self.remove(*node, now),
            Request::Change { node, change } => self.change(*node, change, now, entropy),
            Request::Write { node, at, bytes } => self.write(*node, *at, bytes, now, entropy),
            Request::OpenNode { node, mode } if is_truncating(*mode) => {
                self.truncate(*node, *mode, now, entropy)
            }
            Request::Sync { node } => self.sync(*node),
            _ => Ok(self.look_up(request, buffer)),
        }
    }

    /// Its folder and its tree. What waits is forgotten.
    pub fn into_parts(self) -> (D, VaultTree)
        ensures folder { result.0 ≡ self.folder }
        ensures tree { result.1 ≡ self.tree }
    {
        let Vault { back, tree, .. } = self;
        (back.into_folder(), tree)
    }
}

/// The tree of what a folder holds, as it is loaded.
pub(crate) fn load_tree<R: Reads>(
    alloc: Global,
    from: &mut R,
    keys: &VaultKeys,
    threshold: u32,
    now: u32,
) -> Result<VaultTree, OpenErr>
    requires { (1 ≤ threshold) × (threshold ≤ max_threshold) }
    ensures loaded { IfOk result (IsLoadedTree keys.now now threshold (R.log from.old)) }
    ensures log { R.log from.new ≡ R.log from.old }
    ensures changes { R.changes from.new ≡ R.changes from.old }
    ensures damaged { (at : ℕ) → IsErrOf result (open_errs.JournalDamaged at) → ⊥ }
    ensures too_many { (n : ℕ) → IsErrOf result (open_errs.TooMany n) → HasTooMany keys.now (disk_in (R.log from.old)) n }
    ensures no_root { IsErrOf result open_errs.NoRoot → Told (disk_in (R.log from.old)) (λ d. ¬ (IsFolder d (root_folder keys.now))) }
    ensures cause { HasCause (R.faults from.old) (R.faults from.new) (IsErrOf result open_errs.Device) }
{
    let tree = load(alloc, from, keys, threshold)?;
    let live = LiveTree::from_tree(alloc, tree, now)?;
    Ok(VaultTree::new(alloc, keys, threshold, live)?)
}
