ghost use Rattle.std.specs.Prelude.{◌≡◌, ◌↔◌, ℕ, ◌≤◌, List, [], Some, None, length, OnOk, IsOk, IsErr, IsErrOf, IsTrue};
ghost use Rattle.outside.specs.Calls.{HasCause, Told, Changes};
ghost use Rattle.outside.specs.Disk.{node_at, file};
ghost use Rattle.outside.specs.Images.{now};
ghost use Rattle.live_tree_laws.specs.Writing.{IsRewritten};
ghost use Rattle.pending_files.specs.Pending.{HasRoom};
ghost use Rattle.pending_files.specs.Laid.{laid, CanWait};
ghost use Rattle.chunk_journal.specs.Journal.{IsQuiet, AnyMoment, HasCommitted};
ghost use Rattle.content_laws.specs.Rewriting.{CanPutChunks, rewritten};
ghost use Rattle.write_back.specs.Deeds.{rewriting_in};
ghost use Rattle.write_back.specs.Headers.{AreHeaders};
ghost use Rattle.write_back.specs.Sealed.{rewriting_of};
ghost use Rattle.write_back.specs.Shown.{kind_with, HasFile};

use crate::behind::put_behind;
use crate::fault::FlushErr;
use crate::headers::{Headers, shown_header};
use crate::looking::drop_changed;
use crate::putting::SealedChunks;
use chunk_journal::Journal;
use file_chunks::HEADER_LENGTH;
use outside::{Folder, FolderErr, Kind, Reads};
use pending_files::Pending;
use std::alloc::Global;
use std::marker::Model;
use vault_path::{Text, VaultPath};

/// A journal whose writes of contents wait in memory until they are committed together. Reads show what waits. Clauses see the
/// journal's folder, and the deeds that will commit what waits.
#[derive(Drop)]
pub struct WriteBack<D: Folder> {
    journal: Journal<D>,
    pending: Pending,
    headers: Headers,
}

impl<D: Folder> Model for WriteBack<D> {
    ghost use Rattle.outside.specs.Calls.{Told};
    ghost use Rattle.outside.specs.Images.{now};
    ghost use Rattle.pending_files.specs.Laid.{CanWait};
    ghost use Rattle.write_back.specs.Headers.{AreHeaders};
    ghost use Rattle.write_back.specs.View.{WriteBackView};

    ghost Value = { WriteBackView D };

    ghost view = { λ back. record { folder = back.journal; waiting = back.pending } };

    ghost invariant = { λ back. Told (D.log back.journal) (λ log. CanWait back.pending (now log) × AreHeaders back.headers (now log)) };
}

/// The folder as if what waits were already written.
impl<D: Folder> Reads for WriteBack<D> {
    ghost use Rattle.std.specs.Option.{option_map};
    ghost use Rattle.pending_files.specs.Laid.{laid_log};

    ghost log = { λ back. option_map (laid_log back.waiting) (D.log back.folder) };

    ghost faults = { λ back. D.faults back.folder };

    ghost changes = { λ back. D.changes back.folder };

    fn kind(&mut self, path: &VaultPath) -> Result<Option<Kind>, FolderErr> {
        let found = self.journal.kind(path)?;
        Ok(shown_kind(found, self.pending.len_of(path)))
    }

    fn list(&mut self, alloc: Global, path: &VaultPath) -> Result<Vec<Text>, FolderErr> {
        self.journal.list(alloc, path)
    }

    fn read(&mut self, path: &VaultPath, at: u64, out: &mut [u8]) -> Result<usize, FolderErr> {
        // What waits lies behind the header, so a kept one is shown without a read of the journal's folder.
        if at.saturating_add(out.len() as u64) <= HEADER_LENGTH as u64 {
            if let (Some(len), Some(header)) = (self.pending.len_of(path), self.headers.of(path)) {
                return Ok(shown_header(header, len, at, out));
            }
        }
        self.pending.read_through(&mut self.journal, path, at, out)
    }

    fn report_changed(&mut self, path: &VaultPath) {
        self.journal.report_changed(path);
    }
}

// A kind in which a file has the length that waits for it, if one does.
fn shown_kind(found: Option<Kind>, len: Option<u64>) -> Option<Kind>
    ensures { result ≡ kind_with len found }
{
    match (found, len) {
        (Some(Kind::File(_)), Some(len)) => Some(Kind::File(len)),
        (found, _) => found,
    }
}

impl<D: Folder> WriteBack<D> {
    ghost use Rattle.std.specs.Borrow.{Lends, sem};
    ghost use Rattle.write_back.specs.contracts.back.WriteBack.{the_row};
    ghost use Rattle.chunk_journal.specs.contracts.journal.Journal.{the_row as journal_row};
    ghost use Rattle.write_back.specs.View.{over};

    /// A journal over which nothing waits yet, and the room for what can.
    pub fn new(journal: Journal<D>, pending: Pending, headers: Headers) -> WriteBack<D>
        requires pending { pending ≡ [] }
        requires headers { headers ≡ [] }
        ensures folder { result.folder ≡ journal }
        ensures waiting { result.waiting ≡ [] }
    {
        WriteBack {
            journal,
            pending,
            headers,
        }
    }

    /// Whether nothing waits.
    pub fn is_idle(&self) -> bool
        ensures idle { IsTrue result ↔ (self.now.waiting ≡ []) }
        ensures waits { Told (D.log self.now.folder) (λ log. CanWait self.now.waiting (now log)) }
    {
        self.pending.deeds().is_empty()
    }

    /// Whether there is room for a change of a file with this many sealed chunks more. A file in the folder itself has none.
    pub fn room(&self, path: &VaultPath, chunks: usize) -> bool
        ensures { IsTrue result ↔ HasRoom self.now.waiting path.now chunks }
    {
        self.pending.room(path, chunks)
    }

    /// Puts the sealed chunks of a change after what waits. `len` is how many bytes reads give the host file before. It takes no
    /// memory.
    pub fn put(&mut self, path: &VaultPath, len: u64, change: &SealedChunks<'_>)
        requires room { HasRoom self.old.waiting path.now (length (rewriting_of change.now).sealed) }
        requires can { CanPutChunks change.now.size len change.now.first (rewriting_of change.now).sealed }
        requires file { Told (D.log self.old.folder) (λ log. HasFile self.old.waiting path.now len (now log)) }
        ensures folder { self.new.folder ≡ self.old.folder }
        ensures waiting { self.new.waiting ≡ rewriting_in path.now len (rewriting_of change.now) self.old.waiting }
        ensures waits { Told (D.log self.new.folder) (λ log. CanWait self.new.waiting (now log)) }
        ensures rewritten { Told (D.log self.old.folder) (λ log. (bytes : List ℕ) → node_at (laid self.old.waiting (now log)) path.now ≡ Some (file bytes)
            → IsRewritten (laid self.old.waiting (now log)) (laid self.new.waiting (now log)) path.now (rewritten bytes (rewriting_of change.now))) }
    {
        // The proof knows of what is read that it fits its type.
        let _size = change.size;
        put_behind(&mut self.pending, path, len, change);
    }

    /// Keeps the header of a file for which a change is to wait, as it is in the journal's folder: its first 68 bytes, which the
    /// next flush looks for. If one is kept already it stays. If the file is shorter, or isn't there, none is kept, and the
    /// flush looks at its length alone. It fails only if the folder did, and then none is kept. It takes no memory.
    pub fn keep_header(&mut self, path: &VaultPath) -> Result<(), FolderErr>
        ensures waiting { self.new.waiting ≡ self.old.waiting }
        ensures log { D.log self.new.folder ≡ D.log self.old.folder }
        ensures changes { D.changes self.new.folder ≡ D.changes self.old.folder }
        ensures waits { Told (D.log self.new.folder) (λ log. CanWait self.new.waiting (now log)) }
        ensures cause { HasCause (D.faults self.old.folder) (D.faults self.new.folder) (IsErr result) }
    {
        if !self.headers.has_room() || self.headers.of(path).is_some() {
            return Ok(());
        }
        let mut header = [0; HEADER_LENGTH];
        match self.journal.read(path, 0, &mut header) {
            Ok(HEADER_LENGTH) => self.headers.keep(path, &header),
            Ok(_) | Err(FolderErr::Unfit) => {}
            Err(error) => return Err(error),
        }
        Ok(())
    }

    /// Commits all that waits, as one batch, but for what waits for a file that another program took away, cut or replaced: it
    /// looks at each file before. Afterwards nothing waits, even if that failed: after `Device` the folder is to be opened again.
    /// It takes no memory.
    pub fn flush(&mut self) -> Result<(), FlushErr>
        requires quiet { Told (D.log self.old.folder) IsQuiet }
        ensures none { self.new.waiting ≡ [] }
        ensures still { self.old.waiting ≡ [] → self.new ≡ self.old }
        ensures idle { self.old.waiting ≡ [] → IsOk result }
        ensures waited { Told (D.log self.old.folder) (λ log. CanWait self.old.waiting (now log)) }
        ensures dropped { IsErrOf result FlushErr.Dropped → D.log self.old.folder ≡ None }
        ensures committed { OnOk result (Changes (D.log self.old.folder) (D.log self.new.folder) (HasCommitted self.old.waiting)) }
        ensures any_moment { Changes (D.log self.old.folder) (D.log self.new.folder) (AnyMoment self.old.waiting) }
        ensures cause { HasCause (D.faults self.old.folder) (D.faults self.new.folder) (IsErr result) }
    {
        if self.pending.deeds().is_empty() {
            return Ok(());
        }
        let result = commit_fitting(&mut self.journal, &mut self.pending, &self.headers);
        self.pending.clear();
        self.headers.clear();
        result
    }

    /// The journal, for a commit of its own while nothing waits.
    pub fn journal(&mut self) -> &mut Journal<D>
        requires { self.old.waiting ≡ [] }
        ensures* lends { sem 𝓛 (Lends (the_row D.row D.Reads) (journal_row D.row) self.entry result (λ folder. over folder self.old)) }
        ensures journal { result.now ≡ self.old.folder }
    {
        self.headers.clear();
        &mut self.journal
    }

    /// The folder. What waits is forgotten.
    pub fn into_folder(self) -> D
        ensures { result ≡ self.folder }
    {
        let WriteBack {
            journal,
            pending: _,
            headers: _,
        } = self;
        journal.into_folder()
    }
}

// Drops what waits for files that another program changed, and commits the rest.
fn commit_fitting<D: Folder>(
    journal: &mut Journal<D>,
    pending: &mut Pending,
    headers: &Headers,
) -> Result<(), FlushErr>
    requires quiet { Told (D.log journal.old) IsQuiet }
    requires some { pending.old ≡ [] → ⊥ }
    requires waits { Told (D.log journal.old) (λ log. CanWait pending.old (now log)) }
    requires headers { Told (D.log journal.old) (λ log. AreHeaders headers.now (now log)) }
    ensures dropped { IsErrOf result FlushErr.Dropped → D.log journal.old ≡ None }
    ensures all { OnOk result (pending.new ≡ pending.old) }
    ensures committed { OnOk result (Changes (D.log journal.old) (D.log journal.new) (HasCommitted pending.old)) }
    ensures any_moment { Changes (D.log journal.old) (D.log journal.new) (AnyMoment pending.old) }
    ensures cause { HasCause (D.faults journal.old) (D.faults journal.new) (IsErr result) }
{
    let dropped = drop_changed(journal, pending, headers)?;
    let fitting = pending.deeds();
    if fitting.is_empty() {
        return Err(FlushErr::Dropped);
    }
    journal.commit(fitting)?;
    if dropped {
        return Err(FlushErr::Dropped);
    }
    Ok(())
}
