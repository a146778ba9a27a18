ghost use Rattle.std.specs.Prelude.{◌≡◌, ◌≤◌, ◌⊎◌, IfOk, IfErr, OnOk, IsErr};
ghost use Rattle.outside.specs.Calls.{HasCause, Told, Changes};
ghost use Rattle.outside.specs.Disk.{Disk};
ghost use Rattle.outside.specs.Images.{now};
ghost use Rattle.deeds.specs.Deeds.{DoesAll, in_order};
ghost use Rattle.deeds.specs.Grammar.{IsBatch};
ghost use Rattle.deeds.specs.Plain.{plains};
ghost use Rattle.chunk_journal.specs.Journal.{IsQuiet, IsRepeatable, AnyMoment, HasCommitted};
ghost use Rattle.chunk_journal.specs.Opening.{IsDamagedAt, LeavesFolder, IfDamaged, IsLeftApplied, IsOpening, StaysOpening, HasOpened};
ghost use Rattle.chunk_journal.specs.declared.fault.JournalErr.TheVariants as journal_errs;

use crate::fault::{Device, JournalErr};
use crate::recovery::recover;
use crate::running::commit;
use deeds::Deed;
use outside::{Folder, FolderErr, Kind, Reads, Refused};
use std::alloc::Global;
use std::marker::Model;
use vault_path::{Text, VaultPath};

/// A folder that is changed by whole batches alone. Clauses see the folder.
#[derive(Drop)]
pub struct Journal<D> {
    folder: D,
}

impl<D> Model for Journal<D> {
    ghost Value = { D };

    ghost view = { λ journal. journal.folder };
}

/// The folder's own answers.
impl<D: Reads> Reads for Journal<D> {
    ghost log = { λ journal. D.log journal };

    ghost faults = { λ journal. D.faults journal };

    ghost changes = { λ journal. D.changes journal };

    fn kind(&mut self, path: &VaultPath) -> Result<Option<Kind>, FolderErr> {
        self.folder.kind(path)
    }

    fn list(&mut self, alloc: Global, path: &VaultPath) -> Result<Vec<Text>, FolderErr> {
        self.folder.list(alloc, path)
    }

    fn read(&mut self, path: &VaultPath, at: u64, out: &mut [u8]) -> Result<usize, FolderErr> {
        self.folder.read(path, at, out)
    }

    fn report_changed(&mut self, path: &VaultPath) {
        self.folder.report_changed(path);
    }
}

impl<D: Folder> Journal<D> {
    /// Opens the journal of a folder: syncs, does the batch after an open gate, if one is there, and closes the gate. A
    /// refusal hands the folder back. If it is that a deed doesn't fit the folder, the deeds before it are done, and of a
    /// `Reshape` the writes before the call that doesn't fit, and the gate is open still. If it is `Device`, the folder failed,
    /// or a file that the batch reshapes has another header by now, so that another program saved it anew: each such path is
    /// reported as changed, and nothing is done.
    pub fn open(alloc: Global, mut folder: D) -> Result<Journal<D>, Refused<D, JournalErr>>
        ensures opened { IfOk result (λ journal. Changes (D.log folder) (D.log journal) HasOpened) }
        ensures any_moment { IfOk result (λ journal. Changes (D.log folder) (D.log journal) IsOpening) }
        ensures refused { IfErr result (λ refused. Changes (D.log folder) (D.log refused.folder) StaysOpening) }
        ensures damaged { IfErr result (λ refused. IfDamaged refused.cause
            (λ at. Told (D.log folder) (λ log. IsDamagedAt (now log) at ⊎ LeavesFolder (now log) at))) }
        ensures left { IfErr result (λ refused. IfDamaged refused.cause (λ at. Changes (D.log folder) (D.log refused.folder) IsLeftApplied)) }
        ensures later { IfOk result (λ journal. D.faults folder ≤ D.faults journal) }
        ensures cause { IfErr result (λ refused.
            HasCause (D.faults folder) (D.faults refused.folder) (refused.cause ≡ journal_errs.Device)) }
    {
        match recover(alloc, &mut folder) {
            Ok(()) => Ok(Journal { folder }),
            Err(cause) => Err(Refused { folder, cause }),
        }
    }

    /// Commits a batch, each of whose deeds can be done in the order of doing: it is done wholly or not at all, whenever a
    /// stop happens. It takes no memory. After `Device`, which says that the folder's count of faults rose in this call,
    /// the folder is to be opened again.
    pub fn commit(&mut self, deeds: &[Deed]) -> Result<(), Device>
        requires quiet { Told (D.log self.old) IsQuiet }
        requires batch { IsBatch (plains deeds.now) }
        requires repeatable { IsRepeatable (plains deeds.now) }
        requires can { Told (D.log self.old) (λ log. (after : Disk) × DoesAll (in_order (plains deeds.now)) (now log) after) }
        ensures committed { OnOk result (Changes (D.log self.old) (D.log self.new) (HasCommitted (plains deeds.now))) }
        ensures any_moment { Changes (D.log self.old) (D.log self.new) (AnyMoment (plains deeds.now)) }
        ensures cause { HasCause (D.faults self.old) (D.faults self.new) (IsErr result) }
    {
        commit(&mut self.folder, deeds)
    }

    /// The folder.
    pub fn into_folder(self) -> D
        ensures { result ≡ self }
    {
        let Journal { folder } = self;
        folder
    }
}
