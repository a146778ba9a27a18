ghost use Rattle.std.specs.Prelude.{◌≡◌, ◌≤◌, ℕ, List, Option, Some, None, OnOk, OnErr, IsErr, IsErrOf};
ghost use Rattle.std.specs.Option.{option_map};
ghost use Rattle.outside.specs.Calls.{Changes, Extends, HasCause, Told};
ghost use Rattle.pending_files.specs.Pending.{HasRoom, IsInside};
ghost use Rattle.pending_files.specs.Laid.{laid_log};
ghost use Rattle.chunk_journal.specs.Journal.{IsQuiet, AnyMoment};
ghost use Rattle.tree_model.specs.Rows.{Content};
ghost use Rattle.tree_model.specs.Asked.{PlainRequest};
ghost use Rattle.tree_model.specs.Step.{Answer};
ghost use Rattle.tree_loading.specs.Format.{sealing_of};
ghost use Rattle.live_tree.specs.Held.{path_of};
ghost use Rattle.content_writer.specs.Sealed.{IsPuttable, nonces_of};
ghost use Rattle.request_checks.specs.Files.{IsFileOf};
ghost use Rattle.write_back.specs.declared.fault.FlushErr.TheVariants as flush_errs;
ghost use Rattle.file_changes.specs.Files.{IsSealedIn};
ghost use Rattle.file_changes.specs.Steps.{ChangesContent};
ghost use Rattle.file_changes.specs.Waiting.{HasWritten, IsAtRestOver, MayBeFlushed};

use crate::file::put_size;
use crate::room::FileChanges;
use content_reader::SealedFile;
use file_chunks::SEALED_LENGTH;
use node_changes::VaultTree;
use outside::Folder;
use vault_path::VaultPath;
use write_back::{FlushErr, SealedChunks, WriteBack};

impl FileChanges {
    /// Puts the chunks that are sealed for a host file after what waits, and its size into the tree in memory. If there is no
    /// room, what waits is committed before. If that isn't done, or not of all, the folder's count of faults rose in this call,
    /// and the tree is as it was.
    pub(crate) fn put<D: Folder>(
        &self,
        tree: &mut VaultTree,
        back: &mut WriteBack<D>,
        file: &SealedFile,
        number: u64,
        now: u32,
    ) -> Result<(), FlushErr>
        requires rest { Told (D.log back.old.folder) (IsAtRestOver (sealing_of tree.old.keys) tree.old.live tree.old.claims back.old.waiting) }
        requires file { (clear : ℕ) × IsFileOf tree.old.live number file.now.size clear }
        requires path { path_of tree.old.live number ≡ Some file.now.path }
        requires inside { IsInside file.now.path }
        requires puttable { IsPuttable file.now.size self.now.writer }
        // of each change that the chunks are sealed for, and each request that makes it
        ensures written { (change : Content → Option Content) (request : PlainRequest) (answer : Answer) (drew drew' : Option (List ℕ))
            → IsSealedIn tree.old.keys file.now.path file.now.size self.now.writer change (option_map (laid_log back.old.waiting) (D.log back.old.folder))
            → ChangesContent (sealing_of tree.old.keys) tree.old.live tree.old.claims number change None now request answer
            → Extends drew drew' (nonces_of self.now.writer.sealed)
            → OnOk result (Changes (D.log back.old.folder) (D.log back.new.folder) (HasWritten (sealing_of tree.old.keys)
            request now answer tree.old.live tree.new.live tree.old.claims tree.new.claims back.old.waiting back.new.waiting drew drew')) }
        ensures rest { (change : Content → Option Content)
            → IsSealedIn tree.old.keys file.now.path file.now.size self.now.writer change (option_map (laid_log back.old.waiting) (D.log back.old.folder))
            → OnOk result (Told (D.log back.new.folder) (IsAtRestOver (sealing_of tree.new.keys) tree.new.live tree.new.claims back.new.waiting)) }
        ensures any_moment { OnErr result (Changes (D.log back.old.folder) (D.log back.new.folder) (AnyMoment back.old.waiting)) }
        ensures dropped { IsErrOf result flush_errs.Dropped → D.log back.old.folder ≡ None }
        ensures cause { HasCause (D.faults back.old.folder) (D.faults back.new.folder) (IsErr result) }
        ensures same_live { OnErr result (tree.new.live ≡ tree.old.live) }
        ensures claims { tree.new.claims ≡ tree.old.claims }
        ensures keys { tree.new.keys ≡ tree.old.keys }
        ensures threshold { tree.new.threshold ≡ tree.old.threshold }
    {
        let change = SealedChunks {
            first: self.writer.first(),
            sealed: self.writer.sealed(),
            size: self.writer.size(),
        };
        make_room(
            back,
            &file.path,
            change.sealed.len().div_ceil(SEALED_LENGTH),
        )?;
        back.put(&file.path, file.size, &change);
        put_size(tree, number, change.size, None, now);
        Ok(())
    }
}

// Makes room after what waits for a change of a file with this many sealed chunks: if there is none, what waits is committed.
fn make_room<D: Folder>(
    back: &mut WriteBack<D>,
    path: &VaultPath,
    chunks: usize,
) -> Result<(), FlushErr>
    requires quiet { Told (D.log back.old.folder) IsQuiet }
    requires inside { IsInside path.now }
    requires few { chunks ≤ 64 }
    ensures room { OnOk result (HasRoom back.new.waiting path.now chunks) }
    ensures flushed { OnOk result (Changes (D.log back.old.folder) (D.log back.new.folder) (MayBeFlushed back.old.waiting back.new.waiting)) }
    ensures any_moment { OnErr result (Changes (D.log back.old.folder) (D.log back.new.folder) (AnyMoment back.old.waiting)) }
    ensures dropped { IsErrOf result flush_errs.Dropped → D.log back.old.folder ≡ None }
    ensures cause { HasCause (D.faults back.old.folder) (D.faults back.new.folder) (IsErr result) }
{
    if back.room(path, chunks) {
        return Ok(());
    }
    back.flush()
}
