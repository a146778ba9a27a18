//! What waits to be committed.

ghost use Rattle.std.specs.Prelude.{◌≡◌, ◌↔◌, ◌≤◌, ◌-◌, ◌+◌, ℕ, List, [], Some, length, take, drop, min, IfOk, IsErrOf, IsTrue, option_map};
ghost use Rattle.outside.specs.Disk.{Disk, node_at, file, IsFile};
ghost use Rattle.outside.specs.Calls.{HasCause, Told, IsUnfit, KeepsFrom};
ghost use Rattle.outside.specs.Images.{disk_in};
ghost use Rattle.deeds.specs.Deeds.{DoesAll, in_order};
ghost use Rattle.deeds.specs.Grammar.{IsBatch};
ghost use Rattle.deeds.specs.Plain.{plains};
ghost use Rattle.deeds.specs.Repeatable.{IsRepeatable};
ghost use Rattle.pending_files.specs.Pending.{IsPlace, HasRoom, ArePending, put_in, cut_in, file_of, without, sealed_length};

use crate::places::{file_in, index_of};
use crate::reading::read_reshaped;
use crate::room::{MOST, add, cut_ranges, forget, new_buffers, new_lists, put_range, take_ranges};
use deeds::{Deed, Range};
use outside::{FolderErr, Reads};
use std::alloc::{AllocError, Global};
use std::marker::Model;
use vault_path::VaultPath;

/// The changes of content files that are sealed and not yet committed: of at most 64 files, with at most 64 sealed chunks.
/// Clauses see the deeds that will commit them, a reshaping for each file.
#[derive(Drop)]
pub struct Pending {
    deeds: Vec<Deed>,
    lists: Vec<Vec<Range>>,
    buffers: Vec<Vec<u8>>,
}

impl Model for Pending {
    ghost use Rattle.std.specs.Prelude.{List};
    ghost use Rattle.deeds.specs.Deeds.{PlainDeed};

    ghost Value = { List PlainDeed };

    ghost use Rattle.pending_files.specs.Kept.{plain_deeds, IsKept};

    ghost view = { plain_deeds };

    ghost invariant = { IsKept };
}

impl Pending {
    /// Nothing that waits, and the room for all that can.
    pub fn new(alloc: Global) -> Result<Pending, AllocError>
        ensures { IfOk result (λ pending. pending ≡ []) }
    {
        let deeds = Vec::with_capacity(alloc, MOST)?;
        let lists = new_lists(alloc)?;
        let buffers = new_buffers(alloc)?;
        Ok(Pending {
            deeds,
            lists,
            buffers,
        })
    }

    /// Whether there is room for a change of a file with this many sealed chunks more. A file in the folder itself has none.
    pub fn room(&self, path: &VaultPath, chunks: usize) -> bool
        ensures { IsTrue result ↔ HasRoom self.now path.now chunks }
    {
        if path.len() < 2 || self.buffers.len() < chunks {
            return false;
        }
        match file_in(&self.deeds, path) {
            Some(_) => true,
            None => self.deeds.len() < MOST,
        }
    }

    /// The length in bytes that a file will have, if changes of it wait.
    pub fn len_of(&self, path: &VaultPath) -> Option<u64>
        ensures { result ≡ option_map (λ found. found.0) (file_of path.now self.now) }
    {
        match file_in(&self.deeds, path) {
            Some((len, _)) => Some(len),
            None => None,
        }
    }

    /// Puts a sealed chunk at its place of a file, `at` bytes after its beginning, in place of one that waits there; the
    /// file has `size` bytes from now on. It takes no memory.
    pub fn put_chunk(&mut self, path: &VaultPath, size: u64, at: u64, sealed: &[u8])
        requires room { HasRoom self.old path.now 1 }
        requires place { IsPlace at }
        requires short { length sealed.now ≤ sealed_length }
        requires within { at + length sealed.now ≤ size }
        ensures put { self.new ≡ put_in path.now size at sealed.now self.old }
        ensures pending { ArePending self.new }
        ensures room { (chunks : ℕ) → HasRoom self.old path.now (chunks + 1) → HasRoom self.new path.now chunks }
    {
        let mut ranges = take_ranges(&mut self.deeds, &mut self.lists, path);
        cut_ranges(&mut ranges, size, &mut self.buffers);
        put_range(&mut ranges, at, sealed, &mut self.buffers);
        add(&mut self.deeds, Deed::Reshape(path.copied(), size, ranges));
    }

    /// Cuts a file, which has `len` bytes from now on. It takes no memory.
    pub fn cut(&mut self, path: &VaultPath, len: u64)
        requires { HasRoom self.old path.now 0 }
        ensures cut { self.new ≡ cut_in path.now len self.old }
        ensures pending { ArePending self.new }
        ensures room { (chunks : ℕ) → HasRoom self.old path.now chunks → HasRoom self.new path.now chunks }
    {
        let mut ranges = take_ranges(&mut self.deeds, &mut self.lists, path);
        cut_ranges(&mut ranges, len, &mut self.buffers);
        add(&mut self.deeds, Deed::Reshape(path.copied(), len, ranges));
    }

    /// Forgets what waits for a file, and keeps the room. It takes no memory.
    pub fn drop_file(&mut self, path: &VaultPath)
        ensures dropped { self.new ≡ without path.now self.old }
        ensures pending { ArePending self.new }
    {
        let Some(index) = index_of(&self.deeds, path) else {
            return;
        };
        let deed = self.deeds.remove(index);
        forget(deed, &mut self.lists, &mut self.buffers);
    }

    /// Forgets all that waits, and keeps the room. It takes no memory.
    pub fn clear(&mut self)
        ensures { self.new ≡ [] }
    {
        while let Some(deed) = self.deeds.pop() {
            forget(deed, &mut self.lists, &mut self.buffers);
        }
    }

    /// Reads a file from byte `at` on, as a read of the folder would once all that waits is done: as many bytes as there are
    /// and `out` has room for, and their number. The rest of `out` is as it was. What is promised supposes that what waits
    /// can be done. `Unfit`: no file would be there.
    pub fn read_through<R: Reads>(
        &self,
        folder: &mut R,
        path: &VaultPath,
        at: u64,
        out: &mut [u8],
    ) -> Result<usize, FolderErr>
        ensures count { IfOk result (λ n. n ≤ length out.old) }
        ensures rest { IfOk result (λ n. KeepsFrom n out.old out.new) }
        ensures bytes { IfOk result (λ n. Told (disk_in (R.log folder.old)) (λ d. (later : Disk)
            → DoesAll (in_order self.now) d later → (bytes : List ℕ) × (node_at later path.now ≡ Some (file bytes))
            × (n ≡ min (length out.old) (length bytes - at)) × (take n out.new ≡ take n (drop at bytes)))) }
        ensures unfit { IsErrOf result FolderErr.Unfit → IsUnfit (disk_in (R.log folder.old)) (R.faults folder.old) (R.faults folder.new)
            (λ d. (later : Disk) × DoesAll (in_order self.now) d later × IsFile later path.now) }
        ensures no_memory { IsErrOf result FolderErr.Memory → ⊥ }
        ensures log { R.log folder.new ≡ R.log folder.old }
        ensures changes { R.changes folder.new ≡ R.changes folder.old }
        ensures cause { HasCause (R.faults folder.old) (R.faults folder.new) (IsErrOf result FolderErr.Failed) }
    {
        match file_in(&self.deeds, path) {
            None => folder.read(path, at, out),
            Some((len, ranges)) => read_reshaped(folder, path, len, ranges, at, out),
        }
    }

    /// The batch that commits what waits, a reshaping for each file. It takes no memory.
    pub fn deeds(&self) -> &[Deed]
        ensures deeds { plains result.now ≡ self.now }
        ensures pending { ArePending self.now }
        ensures batch { IsBatch self.now }
        ensures repeatable { IsRepeatable self.now }
        ensures order { in_order self.now ≡ self.now }
    {
        &self.deeds
    }
}
