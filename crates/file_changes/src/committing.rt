ghost use Rattle.std.specs.Prelude.{◌≡◌, OnOk, IsErr, IsErrOf, IsFalse};
ghost use Rattle.outside.specs.Calls.{Changes, HasCause, Told};
ghost use Rattle.outside.specs.Images.{now as disk_now};
ghost use Rattle.pending_files.specs.Pending.{IsInside};
ghost use Rattle.chunk_journal.specs.Journal.{IsQuiet, AnyMoment, HasCommitted};
ghost use Rattle.content_writer.specs.Sealed.{IsPuttable};
ghost use Rattle.write_back.specs.declared.fault.FlushErr.TheVariants as flush_errs;
ghost use Rattle.write_back.specs.Deeds.{deeds_of};
ghost use Rattle.file_changes.specs.Files.{HasFileFor};
ghost use Rattle.file_changes.specs.Held.{IsHeldFile, rewritten_tree, RowsAreRewritten};

use crate::file::put_size;
use crate::room::FileChanges;
use chunk_journal::Journal;
use content_reader::SealedFile;
use deeds::Deed;
use node_changes::VaultTree;
use outside::{Folder, Reads};
use vault_path::VaultPath;
use write_back::{FlushErr, SealedChunks, deeds_rewrite, fits, put_chunks};

impl FileChanges {
    /// Commits the chunks that are sealed for a host file, and puts its size and an mtime, if one is given, into the tree in
    /// memory, even if the commit fails. If another program took the file away or cut it since it was read, they are dropped,
    /// and nothing changes. After each error the folder's count of faults rose in this call.
    pub(crate) fn commit<D: Folder>(
        &mut self,
        tree: &mut VaultTree,
        journal: &mut Journal<D>,
        file: &SealedFile,
        number: u64,
        modified: Option<u32>,
        now: u32,
    ) -> Result<(), FlushErr>
        requires quiet { Told (D.log journal.old) IsQuiet }
        requires held { IsHeldFile tree.old.live number }
        requires puttable { IsPuttable file.now.size self.old.writer }
        requires inside { IsInside file.now.path }
        requires can { Told (D.log journal.old) (λ log. HasFileFor (disk_now log) file.now.path self.old.writer) }
        ensures committed { OnOk result (Changes (D.log journal.old) (D.log journal.new) (HasCommitted (deeds_of file.now.path self.old.writer))) }
        ensures any_moment { (IsErrOf result flush_errs.Dropped → ⊥)
            → Changes (D.log journal.old) (D.log journal.new) (AnyMoment (deeds_of file.now.path self.old.writer)) }
        ensures dropped { IsErrOf result flush_errs.Dropped → (tree.new.live ≡ tree.old.live) × (D.log journal.new ≡ D.log journal.old) }
        ensures cause { HasCause (D.faults journal.old) (D.faults journal.new) (IsErr result) }
        ensures live { (IsErrOf result flush_errs.Dropped → ⊥) → tree.new.live ≡ rewritten_tree tree.old.live number self.old.writer.size modified now }
        ensures rows { (IsErrOf result flush_errs.Dropped → ⊥) → RowsAreRewritten tree.old.live tree.new.live number modified now }
        ensures claims { tree.new.claims ≡ tree.old.claims }
        ensures keys { tree.new.keys ≡ tree.old.keys }
        ensures threshold { tree.new.threshold ≡ tree.old.threshold }
    {
        deeds_rewrite();
        let change = SealedChunks {
            first: self.writer.first(),
            sealed: self.writer.sealed(),
            size: self.writer.size(),
        };
        put_chunks(&mut self.pending, &file.path, &change);
        if !still_fit(journal, self.pending.deeds(), &file.path) {
            self.pending.clear();
            return Err(FlushErr::Dropped);
        }
        put_size(tree, number, self.writer.size(), modified, now);
        let done = journal.commit(self.pending.deeds());
        self.pending.clear();
        match done {
            Ok(()) => Ok(()),
            Err(_) => Err(FlushErr::Device),
        }
    }
}

// Whether the one deed of a file can still be done. If not, or if the look fails, the folder's count of faults rose.
fn still_fit<R: Reads>(folder: &mut R, deeds: &[Deed], path: &VaultPath) -> bool
    ensures log { R.log folder.new ≡ R.log folder.old }
    ensures changes { R.changes folder.new ≡ R.changes folder.old }
    ensures cause { HasCause (R.faults folder.old) (R.faults folder.new) (IsFalse result) }
{
    let Some(deed) = deeds.first() else {
        return true;
    };
    // its header was just read, so its length alone is looked at
    match fits(folder, deed, None) {
        Ok(true) => true,
        Ok(false) => {
            folder.report_changed(path);
            false
        }
        Err(_) => false,
    }
}
