ghost use Rattle.std.specs.Prelude.{◌≡◌, ◌≤◌, ◌-◌, ℕ, List, [], ◌∷◌, Some, false, length, take, drop, min, IsSome, IfOk, OnOk, OnErr, IsErrOf, IsOkUnless, IsTrue};
ghost use Rattle.outside.specs.Disk.{node_at, file, IsFolder, IsListing};
ghost use Rattle.outside.specs.Calls.{KeepsFrom};
ghost use Rattle.outside.specs.Images.{Did, Synced};
ghost use Rattle.host_calls.specs.Names.{MadeFolder, Moved, Dropped, Fits, CanMake, HasFile, IsEmptyFolder, CanMoveTo};
ghost use Rattle.host_calls.specs.Bytes.{Cut};
ghost use Rattle.host_calls.specs.Story.{names_now, disk_now, writes};
ghost use Rattle.host_calls.specs.Calls.{AtPath, IsFound, HasTaken, MayHaveTaken, HasCreated, MayHaveCreated, IsLongFile, HasWritten, MayHaveWritten, MayHaveCut, written, HasFlushed, HasDoubt, change_of, HasNoted, HasNotedBreak};
ghost use Rattle.mem_host.specs.Plan.{next_fault, after};
ghost use Rattle.mem_host.specs.Steps.{step_of};
ghost use Rattle.mem_host.specs.Holding.{IsNameStep, IsPlanned};

use crate::host::MemHost;
use crate::names::MemEntry;
use crate::plan::Extent;
use crate::step::MemStep;
use host_calls::{Found, HostCalls, HostChange, Inode, Locking, Sharing, is_same};
use outside::FolderErr;
use std::alloc::Global;
use vault_path::{Text, VaultPath};

// The inode of all folders.
const FOLDER: Inode = Inode { dev: 0, ino: 0 };

impl HostCalls for MemHost {
    ghost story = { λ s. Some s.story };

    ghost top = { λ s. s.top };

    type Lock = ();

    fn stat(&mut self, text: &str, _is_top: bool) -> Result<Found, FolderErr>
        ensures found { IfOk result (λ found. AtPath self.old.top text.now (IsFound found self.old.story)) }
        ensures failed { IsOkUnless result FolderErr.Failed }
        ensures story { self.new.story ≡ self.old.story }
        ensures top { self.new.top ≡ self.old.top }
        ensures listed { IsSome (next_fault self.old.plan) → IsErrOf result FolderErr.Failed }
        ensures plan { self.new.plan ≡ after self.old.plan }
    {
        if self.next_call().is_some() {
            return Err(FolderErr::Failed);
        }
        match self.path(text) {
            None => Err(FolderErr::Failed),
            Some(path) => Ok(self.found(&path)),
        }
    }

    fn list(&mut self, alloc: Global, text: &str) -> Result<Vec<Text>, FolderErr>
        ensures names { IfOk result (λ names. AtPath self.old.top text.now
            (λ path. IsFolder (disk_now self.old.story) path × IsListing (disk_now self.old.story) path names.items)) }
        ensures unfit { IsErrOf result FolderErr.Unfit → AtPath self.old.top text.now (λ path. ¬ IsFolder (disk_now self.old.story) path) }
        ensures story { self.new.story ≡ self.old.story }
        ensures top { self.new.top ≡ self.old.top }
        ensures listed { IsSome (next_fault self.old.plan) → IsErrOf result FolderErr.Failed }
        ensures plan { self.new.plan ≡ after self.old.plan }
    {
        if self.next_call().is_some() {
            return Err(FolderErr::Failed);
        }
        match self.path(text) {
            None => Err(FolderErr::Failed),
            Some(path) => self.names_at(alloc, &path),
        }
    }

    fn read_at(
        &mut self,
        text: &str,
        seen: Inode,
        at: u64,
        out: &mut [u8],
    ) -> Result<usize, FolderErr>
        ensures count { IfOk result (λ n. n ≤ length out.old) }
        ensures rest { IfOk result (λ n. KeepsFrom n out.old out.new) }
        ensures bytes { IfOk result (λ n. AtPath self.old.top text.now (λ path. (bytes : List ℕ)
            × (node_at (disk_now self.old.story) path ≡ Some (file bytes))
            × (n ≡ min (length out.old) (length bytes - at)) × (take n out.new ≡ take n (drop at bytes)))) }
        ensures failed { IsOkUnless result FolderErr.Failed }
        ensures story { self.new.story ≡ self.old.story }
        ensures top { self.new.top ≡ self.old.top }
        ensures listed { IsSome (next_fault self.old.plan) → IsErrOf result FolderErr.Failed }
        ensures plan { self.new.plan ≡ after self.old.plan }
    {
        if self.next_call().is_some() {
            return Err(FolderErr::Failed);
        }
        match self.path(text) {
            None => Err(FolderErr::Failed),
            Some(path) => self.read(&path, seen, at, out),
        }
    }

    fn mkdir(&mut self, text: &str) -> Result<(), FolderErr>
        ensures done { OnOk result (AtPath self.old.top text.now (λ path. HasTaken (MadeFolder path) self.old.story self.new.story)) }
        ensures unfit { IsErrOf result FolderErr.Unfit
            → AtPath self.old.top text.now (λ path. (self.new.story ≡ self.old.story) × ¬ CanMake (names_now self.old.story) path) }
        ensures broken { OnErr result
            (AtPath self.old.top text.now (λ path. MayHaveTaken (MadeFolder path) self.old.story self.new.story)) }
        ensures planned { IsPlanned (next_fault self.old.plan) (after self.old.plan) result self.old self.new }
    {
        let fault = self.next_call();
        match self.path(text) {
            None => Err(FolderErr::Failed),
            Some(path) => {
                let fits = self.names().can_make(&path);
                self.step(fault, fits, MemStep::MadeFolder(path))
            }
        }
    }

    fn create(&mut self, text: &str, bytes: &[u8]) -> Result<(), FolderErr>
        ensures done { OnOk result (AtPath self.old.top text.now (λ path. HasCreated path bytes.now self.old.story self.new.story)) }
        ensures unfit { IsErrOf result FolderErr.Unfit
            → AtPath self.old.top text.now (λ path. (self.new.story ≡ self.old.story) × ¬ CanMake (names_now self.old.story) path) }
        ensures broken { OnErr result (AtPath self.old.top text.now (λ path. MayHaveCreated path bytes.now self.old.story self.new.story)) }
        ensures planned { IsPlanned (next_fault self.old.plan) (after self.old.plan) result self.old self.new }
    {
        let fault = self.next_call();
        match self.path(text) {
            None => Err(FolderErr::Failed),
            Some(path) => self.create_at(fault, path, bytes),
        }
    }

    fn write_at(
        &mut self,
        text: &str,
        seen: Inode,
        at: u64,
        bytes: &[u8],
        is_end: bool,
    ) -> Result<(), FolderErr>
        ensures done { OnOk result
            (AtPath self.old.top text.now (λ path. HasWritten path seen at (written at bytes.now is_end) self.old.story self.new.story)) }
        ensures unfit { IsErrOf result FolderErr.Unfit
            → AtPath self.old.top text.now (λ path. (self.new.story ≡ self.old.story) × ¬ IsLongFile path seen at self.old.story) }
        ensures broken { OnErr result
            (AtPath self.old.top text.now (λ path. MayHaveWritten path seen at bytes.now is_end self.old.story self.new.story)) }
        ensures planned { IsPlanned (next_fault self.old.plan) (after self.old.plan) result self.old self.new }
    {
        let fault = self.next_call();
        match self.path(text) {
            None => Err(FolderErr::Failed),
            Some(path) => self.write_where(fault, &path, seen, at, bytes, is_end),
        }
    }

    fn set_len(&mut self, text: &str, seen: Inode, len: u64) -> Result<(), FolderErr>
        ensures done { OnOk result
            (AtPath self.old.top text.now (λ path. HasWritten path seen len (Cut len ∷ []) self.old.story self.new.story)) }
        ensures unfit { IsErrOf result FolderErr.Unfit
            → AtPath self.old.top text.now (λ path. (self.new.story ≡ self.old.story) × ¬ IsLongFile path seen len self.old.story) }
        ensures broken { OnErr result (AtPath self.old.top text.now (λ path. MayHaveCut path seen len self.old.story self.new.story)) }
        ensures planned { IsPlanned (next_fault self.old.plan) (after self.old.plan) result self.old self.new }
    {
        let fault = self.next_call();
        match self.path(text) {
            None => Err(FolderErr::Failed),
            Some(path) => self.cut_where(fault, &path, seen, len),
        }
    }

    fn rename(&mut self, from: &str, to: &str) -> Result<(), FolderErr>
        ensures done { OnOk result
            (AtPath self.old.top from.now (λ source. AtPath self.old.top to.now (λ target. HasTaken (Moved source target) self.old.story self.new.story))) }
        ensures unfit { IsErrOf result FolderErr.Unfit → AtPath self.old.top from.now (λ source. AtPath self.old.top to.now
            (λ target. (self.new.story ≡ self.old.story) × ¬ CanMoveTo (names_now self.old.story) source target)) }
        ensures broken { OnErr result
            (AtPath self.old.top from.now (λ source. AtPath self.old.top to.now (λ target. MayHaveTaken (Moved source target) self.old.story self.new.story))) }
        ensures planned { IsPlanned (next_fault self.old.plan) (after self.old.plan) result self.old self.new }
    {
        let fault = self.next_call();
        match (self.path(from), self.path(to)) {
            (Some(source), Some(target)) => {
                let fits = self.names().can_move(&source, &target);
                self.step(fault, fits, MemStep::Moved(source, target))
            }
            _ => Err(FolderErr::Failed),
        }
    }

    fn unlink(&mut self, text: &str) -> Result<(), FolderErr>
        ensures done { OnOk result (AtPath self.old.top text.now (λ path. HasTaken (Dropped path) self.old.story self.new.story)) }
        ensures unfit { IsErrOf result FolderErr.Unfit
            → AtPath self.old.top text.now (λ path. (self.new.story ≡ self.old.story) × ¬ HasFile (names_now self.old.story) path) }
        ensures broken { OnErr result (AtPath self.old.top text.now (λ path. MayHaveTaken (Dropped path) self.old.story self.new.story)) }
        ensures planned { IsPlanned (next_fault self.old.plan) (after self.old.plan) result self.old self.new }
    {
        let fault = self.next_call();
        match self.path(text) {
            None => Err(FolderErr::Failed),
            Some(path) => {
                let fits = self.names().is_file(&path);
                self.step(fault, fits, MemStep::Dropped(path))
            }
        }
    }

    fn rmdir(&mut self, text: &str) -> Result<(), FolderErr>
        ensures done { OnOk result (AtPath self.old.top text.now (λ path. HasTaken (Dropped path) self.old.story self.new.story)) }
        ensures unfit { IsErrOf result FolderErr.Unfit
            → AtPath self.old.top text.now (λ path. (self.new.story ≡ self.old.story) × ¬ IsEmptyFolder (names_now self.old.story) path) }
        ensures broken { OnErr result (AtPath self.old.top text.now (λ path. MayHaveTaken (Dropped path) self.old.story self.new.story)) }
        ensures planned { IsPlanned (next_fault self.old.plan) (after self.old.plan) result self.old self.new }
    {
        let fault = self.next_call();
        match self.path(text) {
            None => Err(FolderErr::Failed),
            Some(path) => {
                let fits = self.names().is_empty_folder(&path);
                self.step(fault, fits, MemStep::Dropped(path))
            }
        }
    }

    fn fsync(&mut self, text: &str, seen: Found) -> Result<(), FolderErr>
        ensures done { OnOk result (AtPath self.old.top text.now (λ path. HasFlushed path self.old.story self.new.story)) }
        ensures doubt { OnErr result (HasDoubt self.old.story self.new.story) }
        ensures failed { IsOkUnless result FolderErr.Failed }
        ensures top { self.new.top ≡ self.old.top }
        ensures listed { IsSome (next_fault self.old.plan) → IsErrOf result FolderErr.Failed }
        ensures plan { self.new.plan ≡ after self.old.plan }
    {
        let fault = self.next_call();
        match self.path(text) {
            Some(path) if fault.is_none() && is_same(seen, self.found(&path)) => self.flush(&path),
            _ => {
                self.set_doubt();
                Err(FolderErr::Failed)
            }
        }
    }

    // A host in memory has no locks.
    fn lock(&mut self, _text: &str, _sharing: Sharing) -> Locking<()> {
        Locking::Unknown
    }

    // Nobody else changes a host in memory.
    fn report_changed(&mut self, _text: &str)
        ensures story { self.new.story ≡ self.old.story }
        ensures top { self.new.top ≡ self.old.top }
        ensures plan { self.new.plan ≡ self.old.plan }
    {}

    fn did(&mut self, change: HostChange)
        ensures noted { HasNoted (Did (change_of change.entry)) self.old.story self.new.story }
        ensures top { self.new.top ≡ self.old.top }
        ensures plan { self.new.plan ≡ self.old.plan }
    {
        self.note_done(&change);
    }

    fn broke(&mut self, change: HostChange)
        ensures noted { HasNotedBreak (change_of change.entry) self.old.story self.new.story }
        ensures top { self.new.top ≡ self.old.top }
        ensures plan { self.new.plan ≡ self.old.plan }
    {
        self.note_broken(&change);
    }

    fn synced(&mut self)
        ensures noted { HasNoted Synced self.old.story self.new.story }
        ensures top { self.new.top ≡ self.old.top }
        ensures plan { self.new.plan ≡ self.old.plan }
    {
        self.note_synced();
    }
}

impl MemHost {
    // What is at a path.
    fn found(&self, path: &VaultPath) -> Found
        ensures { IsFound result self.now.story path.now }
    {
        match self.names().at(path) {
            None => Found::Nothing,
            Some(MemEntry::Folder) => Found::Dir(FOLDER),
            Some(MemEntry::File(inode)) => Found::File(inode, self.bytes(inode).len() as u64),
        }
    }

    // The names in the folder at a path.
    fn names_at(&self, alloc: Global, path: &VaultPath) -> Result<Vec<Text>, FolderErr>
        ensures names { IfOk result (λ names. IsFolder (disk_now self.now.story) path.now
            × IsListing (disk_now self.now.story) path.now names.items) }
        ensures unfit { IsErrOf result FolderErr.Unfit → ¬ IsFolder (disk_now self.now.story) path.now }
        ensures failed { IsErrOf result FolderErr.Failed → ⊥ }
    {
        if !self.names().is_folder(path) {
            return Err(FolderErr::Unfit);
        }
        match self.names().names_in(alloc, path) {
            Ok(names) => Ok(names),
            Err(_) => Err(FolderErr::Memory),
        }
    }

    // Reads the file that was seen at a path, if it is there.
    fn read(
        &self,
        path: &VaultPath,
        seen: Inode,
        at: u64,
        out: &mut [u8],
    ) -> Result<usize, FolderErr>
        ensures count { IfOk result (λ n. n ≤ length out.old) }
        ensures rest { IfOk result (λ n. KeepsFrom n out.old out.new) }
        ensures bytes { IfOk result (λ n. (bytes : List ℕ) × (node_at (disk_now self.now.story) path.now ≡ Some (file bytes))
            × (n ≡ min (length out.old) (length bytes - at)) × (take n out.new ≡ take n (drop at bytes))) }
        ensures failed { IsOkUnless result FolderErr.Failed }
    {
        if !self.is_file_at(path, seen) {
            return Err(FolderErr::Failed);
        }
        Ok(copy_at(self.bytes(seen), at, out))
    }

    // Takes a step that makes no file, if it fits and shall not fail.
    fn step(&mut self, fault: Option<Extent>, fits: bool, step: MemStep) -> Result<(), FolderErr>
        requires fits { IsTrue fits → Fits (step_of step) (names_now self.old.story) }
        requires name { IsNameStep (step_of step) }
        ensures done { OnOk result (HasTaken (step_of step) self.old.story self.new.story) }
        ensures unfit { IsErrOf result FolderErr.Unfit → (self.new.story ≡ self.old.story) × (fits ≡ false) }
        ensures broken { OnErr result (MayHaveTaken (step_of step) self.old.story self.new.story) }
        ensures planned { IsPlanned fault self.old.plan result self.old self.new }
    {
        match fault {
            None => {
                if !fits {
                    return Err(FolderErr::Unfit);
                }
                match self.take(step) {
                    Ok(()) => Ok(()),
                    Err(_) => Err(FolderErr::Failed),
                }
            }
            Some(Extent::Nothing) => Err(FolderErr::Failed),
            Some(_) => {
                if fits {
                    let _ = self.take(step);
                }
                Err(FolderErr::Failed)
            }
        }
    }

    // Makes a file, if that can be and shall not fail.
    fn create_at(
        &mut self,
        fault: Option<Extent>,
        path: VaultPath,
        bytes: &[u8],
    ) -> Result<(), FolderErr>
        ensures done { OnOk result (HasCreated path bytes.now self.old.story self.new.story) }
        ensures unfit { IsErrOf result FolderErr.Unfit → (self.new.story ≡ self.old.story) × ¬ CanMake (names_now self.old.story) path }
        ensures broken { OnErr result (MayHaveCreated path bytes.now self.old.story self.new.story) }
        ensures planned { IsPlanned fault self.old.plan result self.old self.new }
    {
        let fits = self.names().can_make(&path);
        match fault {
            None => {
                if !fits {
                    return Err(FolderErr::Unfit);
                }
                match self.create_file(path, bytes) {
                    Ok(()) => Ok(()),
                    Err(_) => Err(FolderErr::Failed),
                }
            }
            Some(done) => {
                if fits {
                    self.break_create(done, path, bytes);
                }
                Err(FolderErr::Failed)
            }
        }
    }

    // Makes a file of so much of these bytes, unless memory is refused.
    fn break_create(&mut self, done: Extent, path: VaultPath, bytes: &[u8])
        requires { CanMake (names_now self.old.story) path }
        ensures broken { MayHaveCreated path bytes.now self.old.story self.new.story }
        ensures nothing { done ≡ Extent.Nothing → self.new.story ≡ self.old.story }
        ensures top { self.new.top ≡ self.old.top }
        ensures plan { self.new.plan ≡ self.old.plan }
    {
        match done {
            Extent::Nothing => {}
            Extent::Half => {
                let _ = self.create_file(path, &bytes[..bytes.len() / 2]);
            }
            Extent::All => {
                let _ = self.create_file(path, bytes);
            }
        }
    }

    // Writes over the file that was seen at a path, if that is there and shall not fail.
    fn write_where(
        &mut self,
        fault: Option<Extent>,
        path: &VaultPath,
        seen: Inode,
        at: u64,
        bytes: &[u8],
        is_end: bool,
    ) -> Result<(), FolderErr>
        ensures done { OnOk result (HasWritten path.now seen at (written at bytes.now is_end) self.old.story self.new.story) }
        ensures unfit { IsErrOf result FolderErr.Unfit → (self.new.story ≡ self.old.story) × ¬ IsLongFile path.now seen at self.old.story }
        ensures broken { OnErr result (MayHaveWritten path.now seen at bytes.now is_end self.old.story self.new.story) }
        ensures planned { IsPlanned fault self.old.plan result self.old self.new }
    {
        let fits = self.is_long_file(path, seen, at);
        match fault {
            None => {
                if !fits {
                    return Err(FolderErr::Unfit);
                }
                self.write_whole(path, seen, at, bytes, is_end)
            }
            Some(done) => {
                if fits {
                    self.break_write(done, path, seen, at, bytes, is_end);
                }
                Err(FolderErr::Failed)
            }
        }
    }

    // Writes bytes, and cuts the file after them if they are to be its last. Fails if memory is refused.
    fn write_whole(
        &mut self,
        path: &VaultPath,
        seen: Inode,
        at: u64,
        bytes: &[u8],
        is_end: bool,
    ) -> Result<(), FolderErr>
        requires { IsLongFile path.now seen at self.old.story }
        ensures done { OnOk result (HasWritten path.now seen at (written at bytes.now is_end) self.old.story self.new.story) }
        ensures broken { OnErr result (MayHaveWritten path.now seen at bytes.now is_end self.old.story self.new.story) }
        ensures failed { IsOkUnless result FolderErr.Failed }
        ensures top { self.new.top ≡ self.old.top }
        ensures plan { self.new.plan ≡ self.old.plan }
    {
        let end = self.end_of(path, seen, at, bytes);
        match self.write(path, seen, at, bytes) {
            Err(_) => Err(FolderErr::Failed),
            Ok(()) => {
                if is_end {
                    self.cut_end(path, seen, end)
                } else {
                    Ok(())
                }
            }
        }
    }

    // Cuts a file that was written. Fails if memory is refused.
    fn cut_end(&mut self, path: &VaultPath, seen: Inode, end: u64) -> Result<(), FolderErr>
        requires { IsLongFile path.now seen end self.old.story }
        ensures done { OnOk result (self.new.story ≡ writes seen (Cut end ∷ []) self.old.story) }
        ensures broken { OnErr result (self.new.story ≡ self.old.story) }
        ensures failed { IsOkUnless result FolderErr.Failed }
        ensures top { self.new.top ≡ self.old.top }
        ensures plan { self.new.plan ≡ self.old.plan }
    {
        match self.cut(path, seen, end) {
            Ok(()) => Ok(()),
            Err(_) => Err(FolderErr::Failed),
        }
    }

    // Writes so much of these bytes, unless memory is refused.
    fn break_write(
        &mut self,
        done: Extent,
        path: &VaultPath,
        seen: Inode,
        at: u64,
        bytes: &[u8],
        is_end: bool,
    )
        requires { IsLongFile path.now seen at self.old.story }
        ensures broken { MayHaveWritten path.now seen at bytes.now is_end self.old.story self.new.story }
        ensures nothing { done ≡ Extent.Nothing → self.new.story ≡ self.old.story }
        ensures top { self.new.top ≡ self.old.top }
        ensures plan { self.new.plan ≡ self.old.plan }
    {
        match done {
            Extent::Nothing => {}
            Extent::Half => {
                let _ = self.write(path, seen, at, &bytes[..bytes.len() / 2]);
            }
            Extent::All => {
                let _ = self.write_whole(path, seen, at, bytes, is_end);
            }
        }
    }

    // Cuts the file that was seen at a path, if that is there and shall not fail.
    fn cut_where(
        &mut self,
        fault: Option<Extent>,
        path: &VaultPath,
        seen: Inode,
        len: u64,
    ) -> Result<(), FolderErr>
        ensures done { OnOk result (HasWritten path.now seen len (Cut len ∷ []) self.old.story self.new.story) }
        ensures unfit { IsErrOf result FolderErr.Unfit → (self.new.story ≡ self.old.story) × ¬ IsLongFile path.now seen len self.old.story }
        ensures broken { OnErr result (MayHaveCut path.now seen len self.old.story self.new.story) }
        ensures planned { IsPlanned fault self.old.plan result self.old self.new }
    {
        let fits = self.is_long_file(path, seen, len);
        match fault {
            None => {
                if !fits {
                    return Err(FolderErr::Unfit);
                }
                match self.cut(path, seen, len) {
                    Ok(()) => Ok(()),
                    Err(_) => Err(FolderErr::Failed),
                }
            }
            Some(Extent::Nothing) => Err(FolderErr::Failed),
            Some(_) => {
                if fits {
                    let _ = self.cut(path, seen, len);
                }
                Err(FolderErr::Failed)
            }
        }
    }

    // Brings what is at a path to the disk. After a flush that failed it does nothing, and after refused memory it fails.
    fn flush(&mut self, path: &VaultPath) -> Result<(), FolderErr>
        ensures done { OnOk result (HasFlushed path.now self.old.story self.new.story) }
        ensures doubt { OnErr result (HasDoubt self.old.story self.new.story) }
        ensures failed { IsOkUnless result FolderErr.Failed }
        ensures top { self.new.top ≡ self.old.top }
        ensures plan { self.new.plan ≡ self.old.plan }
    {
        if self.doubts() {
            return Ok(());
        }
        match self.names().at(path) {
            None => Ok(()),
            Some(MemEntry::Folder) => {
                self.flush_folder(path);
                Ok(())
            }
            Some(MemEntry::File(inode)) => {
                if self.flush_file(path, inode).is_err() {
                    self.set_doubt();
                    return Err(FolderErr::Failed);
                }
                Ok(())
            }
        }
    }
}

// Copies the bytes from a place on, as many as there are and `out` has room for, and says how many.
fn copy_at(bytes: &[u8], at: u64, out: &mut [u8]) -> usize
    ensures count { result ≡ min (length out.old) (length bytes.now - at) }
    ensures bytes { take result out.new ≡ take result (drop at bytes.now) }
    ensures rest { KeepsFrom result out.old out.new }
{
    let start = bytes.len().min(at as usize);
    let rest = &bytes[start..];
    let count = rest.len().min(out.len());
    out[..count].copy_from_slice(&rest[..count]);
    count
}
