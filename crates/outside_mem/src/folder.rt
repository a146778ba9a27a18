ghost use Rattle.std.specs.Prelude.{◌≡◌, ◌↔◌, ◌⊎◌, true, ◌-◌, ◌≤◌, [], ◌∷◌, ℕ, List, Some, length, take, drop, min, IfOk, IfErr, OnOk, OnErr, IsErr, IsErrOf, IsTrue, Err};
ghost use Rattle.outside.specs.Calls.{KeepsFrom, risen};
ghost use Rattle.outside.specs.Disk.{kind_at, node_at, file, IsFolder, IsFile, IsListing, IsTree};
ghost use Rattle.outside.specs.Changes.{MakeDir, Put, Write, SetLen, Move, RemoveFile, RemoveDir, CanDo, done};
ghost use Rattle.outside.specs.Images.{Did, Broke, Synced, now, adds, IsSound, HasDone, HasBroken};
ghost use Rattle.outside_mem.specs.Plan.{no_faults, fails_next, breaks_next, after, failing_at, breaking_at, is_failed};
ghost use Rattle.outside_mem.specs.Held.{bare};
ghost use Rattle.outside_mem.specs.Kept.{change_of, halved, call_of, all_calls, disk_by};
ghost use Rattle.outside_mem.specs.Pictures.{IsTried};

use crate::change::{MemCall, MemChange};
use crate::disk::MemDisk;
use crate::plan::FaultPlan;
use crate::stream::copy_front;
use outside::{Folder, FolderErr, Kind, Reads};
use std::alloc::{AllocError, Global};
use std::marker::Model;
use vault_path::{Text, VaultPath};

/// A host folder in memory, which keeps its calls. Clauses see its log and its counts.
#[derive(Drop)]
pub struct MemFolder {
    alloc: Global,
    // What made the disk that it began with out of the empty folder.
    first: Vec<MemCall>,
    // The calls since then.
    calls: Vec<MemCall>,
    disk: MemDisk,
    changes: u64,
    plan: FaultPlan,
}

impl Model for MemFolder {
    ghost use Rattle.std.specs.Prelude.{◌≡◌};
    ghost use Rattle.outside.specs.Images.{IsSound};
    ghost use Rattle.outside_mem.specs.Held.{Holding, coded_holding, bare};

    ghost Value = { Holding };

    ghost coded = { coded_holding };

    ghost use Rattle.outside_mem.specs.Kept.{all_calls, disk_by};

    ghost view = { λ a. record {
      log = record {
        start = disk_by bare a.first.items;
        calls = all_calls (disk_by bare a.first.items) a.calls.items;
      };
      changes = a.changes;
      plan = a.plan;
    } };

    ghost invariant = { λ a.
        (a.disk ≡ disk_by (disk_by bare a.first.items) a.calls.items)
        × IsSound bare (all_calls bare a.first.items)
        × IsSound (disk_by bare a.first.items) (all_calls (disk_by bare a.first.items) a.calls.items) };
}

impl MemFolder {
    /// The empty folder alone.
    pub fn new(alloc: Global) -> Result<MemFolder, AllocError>
        ensures { IfOk result (λ made. made ≡ record { log = record { start = bare; calls = [] }; changes = 0; plan = no_faults }) }
    {
        Ok(MemFolder {
            alloc,
            first: Vec::new(alloc),
            calls: Vec::new(alloc),
            disk: MemDisk::bare(alloc)?,
            changes: 0,
            plan: FaultPlan::new(alloc),
        })
    }

    /// The calls of these numbers, from 0, shall fail before they do anything.
    pub fn failing_at(mut self, calls: Vec<u64>) -> MemFolder
        ensures { result ≡ record self { plan = failing_at self.plan calls.items } }
    {
        self.plan.set_failing(calls);
        self
    }

    /// The calls of these numbers, from 0, shall fail, a change after a part of it.
    pub fn breaking_at(mut self, calls: Vec<u64>) -> MemFolder
        ensures { result ≡ record self { plan = breaking_at self.plan calls.items } }
    {
        self.plan.set_breaking(calls);
        self
    }

    /// How many calls there were.
    pub fn call_count(&self) -> u64
        ensures { result ≡ self.now.plan.calls }
    {
        self.plan.calls()
    }

    /// How many of them failed.
    pub fn fault_count(&self) -> u64
        ensures { result ≡ self.now.plan.faults }
    {
        self.plan.faults()
    }

    /// How many of them were to change it.
    pub fn change_count(&self) -> u64
        ensures { result ≡ self.now.changes }
    {
        self.changes
    }

    // What reads give.
    fn disk(&self) -> &MemDisk
        ensures disk { result.now ≡ now self.now.log }
        ensures sound { IsSound self.now.log.start self.now.log.calls }
    {
        &self.disk
    }

    /// The calls that made the disk that it began with out of the empty folder.
    pub(crate) fn first_calls(&self) -> &[MemCall]
        ensures start { self.now.log.start ≡ disk_by bare result.now }
        ensures sound { IsSound bare (all_calls bare result.now) }
    {
        &self.first
    }

    /// The calls since then.
    pub(crate) fn kept_calls(&self) -> &[MemCall]
        ensures calls { self.now.log.calls ≡ all_calls self.now.log.start result.now }
        ensures sound { IsSound self.now.log.start self.now.log.calls }
    {
        &self.calls
    }

    /// The allocator.
    pub(crate) fn alloc(&self) -> Global {
        self.alloc
    }

    /// A folder that begins with what this one holds, and with no calls.
    pub(crate) fn restarted(self) -> MemFolder
        requires { self.log.start ≡ bare }
        ensures { result ≡ record { log = record { start = now self.log; calls = [] }; changes = 0; plan = no_faults } }
    {
        MemFolder {
            alloc: self.alloc,
            first: self.calls,
            calls: Vec::new(self.alloc),
            disk: self.disk,
            changes: 0,
            plan: FaultPlan::new(self.alloc),
        }
    }

    /// The folder after a change, if that can be made, and else as it is.
    pub(crate) fn with_change(mut self, change: MemChange) -> Result<MemFolder, AllocError>
        ensures start { IfOk result (λ folder. folder.log.start ≡ self.log.start) }
        ensures made { IfOk result (λ folder. IsTried (change_of change) (now self.log) (now folder.log)) }
    {
        let fits = self.disk().can_do(&change);
        if fits {
            self.make(change)?;
        }
        Ok(self)
    }

    /// Makes a change. After refused memory all is as it was.
    pub(crate) fn make(&mut self, change: MemChange) -> Result<(), AllocError>
        requires { CanDo (change_of change) (now self.old.log) }
        ensures ok { OnOk result (self.new ≡ record self.old { log = adds self.old.log (Did (change_of change)) }) }
        ensures err { OnErr result (self.new ≡ self.old) }
    {
        let kept = change.copied(self.alloc)?;
        self.keep(MemCall::Did(kept), &change)
    }

    // Makes a part of a change, and keeps that it broke off. After refused memory all is as it was.
    fn break_off(&mut self, change: MemChange) -> Result<(), AllocError>
        requires { CanDo (change_of change) (now self.old.log) }
        ensures ok { OnOk result (self.new ≡ record self.old {
          log = adds self.old.log (Broke (change_of change) (done (halved (change_of change)) (now self.old.log)));
        }) }
        ensures err { OnErr result (self.new ≡ self.old) }
    {
        let half = change.halved(self.alloc)?;
        self.keep(MemCall::Broke(change), &half)
    }

    // Keeps a call that leaves this change.
    fn keep(&mut self, call: MemCall, change: &MemChange) -> Result<(), AllocError>
        requires can { CanDo (change_of change.now) (now self.old.log) }
        requires sound { IsSound self.old.log.start (call_of (now self.old.log) call ∷ self.old.log.calls) }
        requires leaves { now (adds self.old.log (call_of (now self.old.log) call)) ≡ done (change_of change.now) (now self.old.log) }
        ensures ok { OnOk result (self.new ≡ record self.old { log = adds self.old.log (call_of (now self.old.log) call) }) }
        ensures err { OnErr result (self.new ≡ self.old) }
    {
        self.calls.push(call)?;
        if let Err(error) = self.disk.apply(self.alloc, change) {
            self.calls.pop();
            return Err(error);
        }
        Ok(())
    }

    // Keeps a sync. After refused memory all is as it was.
    fn keep_sync(&mut self) -> Result<(), AllocError>
        ensures ok { OnOk result (self.new ≡ record self.old { log = adds self.old.log Synced }) }
        ensures err { OnErr result (self.new ≡ self.old) }
    {
        self.calls.push(MemCall::Synced)?;
        Ok(())
    }

    // A changing call. It fails if it is listed, and if memory is refused.
    fn change(&mut self, change: MemChange) -> Result<(), FolderErr>
        ensures done { OnOk result (HasDone (change_of change) self.old.log self.new.log) }
        ensures unfit { IsErrOf result FolderErr.Unfit → ¬ CanDo (change_of change) (now self.old.log) }
        ensures refused { IsErrOf result FolderErr.Unfit → self.new.log ≡ self.old.log }
        ensures broken { OnErr result (HasBroken (change_of change) self.old.log self.new.log) }
        ensures kept { OnErr result (IsTrue (breaks_next self.old.plan) ⊎ (self.new.log ≡ self.old.log)) }
        ensures no_memory { IsErrOf result FolderErr.Memory → ⊥ }
        ensures listed { IsTrue (fails_next self.old.plan) → IsErrOf result FolderErr.Failed }
        ensures plan { self.new.plan ≡ after self.old.plan (is_failed result) }
        ensures counted { self.new.changes ≡ risen self.old.changes }
    {
        let breaks = self.plan.next_breaks();
        let fails = self.count_change();
        if breaks {
            self.break_where_fit(change);
            return Err(FolderErr::Failed);
        }
        if fails {
            return Err(FolderErr::Failed);
        }
        if !self.disk().can_do(&change) {
            return Err(FolderErr::Unfit);
        }
        match self.make(change) {
            Ok(()) => Ok(()),
            Err(_) => Err(self.fail()),
        }
    }

    // Counts a changing call, and says whether it shall fail, which is counted too.
    fn count_change(&mut self) -> bool
        ensures fails { result ≡ fails_next self.old.plan }
        ensures counted { self.new ≡ record self.old {
          changes = risen self.old.changes;
          plan = after self.old.plan result;
        } }
    {
        self.changes = self.changes.saturating_add(1);
        self.plan.next_fails()
    }

    // Breaks off a change, if it can be made and memory isn't refused.
    fn break_where_fit(&mut self, change: MemChange)
        ensures broken { HasBroken (change_of change) self.old.log self.new.log }
        ensures counts { (self.new.changes ≡ self.old.changes) × (self.new.plan ≡ self.old.plan) }
    {
        if self.disk().can_do(&change) {
            let _ = self.break_off(change);
        }
    }

    // A changing call that memory was refused for.
    fn refuse(&mut self) -> FolderErr
        ensures counted { self.new ≡ record self.old {
          changes = risen self.old.changes;
          plan = after self.old.plan true;
        } }
        ensures failed { result ≡ FolderErr.Failed }
    {
        if self.count_change() {
            return FolderErr::Failed;
        }
        self.fail()
    }

    // Counts a fault.
    fn fail(&mut self) -> FolderErr
        ensures counted { self.new ≡ record self.old { plan = record self.old.plan { faults = risen self.old.plan.faults } } }
        ensures failed { result ≡ FolderErr.Failed }
    {
        self.plan.add_fault();
        FolderErr::Failed
    }
}

impl Reads for MemFolder {
    ghost log = { λ s. Some s.log };

    ghost faults = { λ s. s.plan.faults };

    ghost changes = { λ s. s.changes };

    // Fails at a listed call alone.
    fn kind(&mut self, path: &VaultPath) -> Result<Option<Kind>, FolderErr>
        ensures kind { IfOk result (λ kind. kind ≡ kind_at (now self.old.log) path.now) }
        ensures tree { IsTree (now self.old.log) }
        ensures error { IfErr result (λ error. error ≡ FolderErr.Failed) }
        ensures log { self.new.log ≡ self.old.log }
        ensures changes { self.new.changes ≡ self.old.changes }
        ensures listed { IsErr result ↔ IsTrue (fails_next self.old.plan) }
        ensures plan { self.new.plan ≡ after self.old.plan (is_failed result) }
    {
        if self.plan.next_fails() {
            return Err(FolderErr::Failed);
        }
        Ok(self.disk().kind(path))
    }

    // Fails at a listed call alone.
    fn list(&mut self, alloc: Global, path: &VaultPath) -> Result<Vec<Text>, FolderErr>
        ensures names { IfOk result (λ names. IsFolder (now self.old.log) path.now × IsListing (now self.old.log) path.now names.items) }
        ensures unfit { IsErrOf result FolderErr.Unfit → ¬ IsFolder (now self.old.log) path.now }
        ensures log { self.new.log ≡ self.old.log }
        ensures changes { self.new.changes ≡ self.old.changes }
        ensures listed { IsErrOf result FolderErr.Failed ↔ IsTrue (fails_next self.old.plan) }
        ensures plan { self.new.plan ≡ after self.old.plan (is_failed result) }
    {
        if self.plan.next_fails() {
            return Err(FolderErr::Failed);
        }
        if !self.disk().is_folder(path) {
            return Err(FolderErr::Unfit);
        }
        self.disk()
            .names_in(alloc, path)
            .map_err(|_| FolderErr::Memory)
    }

    // Fails at a listed call alone.
    fn read(&mut self, path: &VaultPath, at: u64, out: &mut [u8]) -> Result<usize, FolderErr>
        ensures count { IfOk result (λ n. n ≤ length out.old) }
        ensures rest { IfOk result (λ n. KeepsFrom n out.old out.new) }
        ensures bytes { IfOk result (λ n. (bytes : List ℕ) × (node_at (now self.old.log) path.now ≡ Some (file bytes))
            × (n ≡ min (length out.old) (length bytes - at)) × (take n out.new ≡ take n (drop at bytes))) }
        ensures unfit { IsErrOf result FolderErr.Unfit → ¬ IsFile (now self.old.log) path.now }
        ensures no_memory { IsErrOf result FolderErr.Memory → ⊥ }
        ensures log { self.new.log ≡ self.old.log }
        ensures changes { self.new.changes ≡ self.old.changes }
        ensures listed { IsErrOf result FolderErr.Failed ↔ IsTrue (fails_next self.old.plan) }
        ensures plan { self.new.plan ≡ after self.old.plan (is_failed result) }
    {
        if self.plan.next_fails() {
            return Err(FolderErr::Failed);
        }
        match self.disk().bytes_at(path) {
            Some(bytes) => Ok(copy_at(bytes, at, out)),
            None => Err(FolderErr::Unfit),
        }
    }

    fn report_changed(&mut self, _path: &VaultPath)
        ensures log { self.new.log ≡ self.old.log }
        ensures changes { self.new.changes ≡ self.old.changes }
        ensures plan { self.new.plan ≡ record self.old.plan { faults = risen self.old.plan.faults } }
    {
        self.plan.add_fault();
    }
}

impl Folder for MemFolder {
    // Fails at a listed call, and if memory is refused. It changes nothing then unless it is to break off.
    fn make_dir(&mut self, path: &VaultPath) -> Result<(), FolderErr>
        ensures done { OnOk result (HasDone (MakeDir path.now) self.old.log self.new.log) }
        ensures unfit { IsErrOf result FolderErr.Unfit → ¬ CanDo (MakeDir path.now) (now self.old.log) }
        ensures refused { IsErrOf result FolderErr.Unfit → self.new.log ≡ self.old.log }
        ensures broken { OnErr result (HasBroken (MakeDir path.now) self.old.log self.new.log) }
        ensures kept { OnErr result (IsTrue (breaks_next self.old.plan) ⊎ (self.new.log ≡ self.old.log)) }
        ensures no_memory { IsErrOf result FolderErr.Memory → ⊥ }
        ensures listed { IsTrue (fails_next self.old.plan) → IsErrOf result FolderErr.Failed }
        ensures plan { self.new.plan ≡ after self.old.plan (is_failed result) }
        ensures counted { self.new.changes ≡ risen self.old.changes }
    {
        self.change(MemChange::MakeDir(path.copied()))
    }

    // Fails at a listed call, and if memory is refused. It changes nothing then unless it is to break off.
    fn put(&mut self, path: &VaultPath, bytes: &[u8]) -> Result<(), FolderErr>
        ensures done { OnOk result (HasDone (Put path.now bytes.now) self.old.log self.new.log) }
        ensures unfit { IsErrOf result FolderErr.Unfit → ¬ CanDo (Put path.now bytes.now) (now self.old.log) }
        ensures refused { IsErrOf result FolderErr.Unfit → self.new.log ≡ self.old.log }
        ensures broken { OnErr result (HasBroken (Put path.now bytes.now) self.old.log self.new.log) }
        ensures kept { OnErr result (IsTrue (breaks_next self.old.plan) ⊎ (self.new.log ≡ self.old.log)) }
        ensures no_memory { IsErrOf result FolderErr.Memory → ⊥ }
        ensures listed { IsTrue (fails_next self.old.plan) → IsErrOf result FolderErr.Failed }
        ensures plan { self.new.plan ≡ after self.old.plan (is_failed result) }
        ensures counted { self.new.changes ≡ risen self.old.changes }
    {
        match Vec::from_slice(self.alloc, bytes) {
            Ok(bytes) => self.change(MemChange::Put(path.copied(), bytes)),
            Err(_) => Err(self.refuse()),
        }
    }

    // Fails at a listed call, and if memory is refused. It changes nothing then unless it is to break off.
    fn write(&mut self, path: &VaultPath, at: u64, bytes: &[u8]) -> Result<(), FolderErr>
        ensures done { OnOk result (HasDone (Write path.now at bytes.now) self.old.log self.new.log) }
        ensures unfit { IsErrOf result FolderErr.Unfit → ¬ CanDo (Write path.now at bytes.now) (now self.old.log) }
        ensures refused { IsErrOf result FolderErr.Unfit → self.new.log ≡ self.old.log }
        ensures broken { OnErr result (HasBroken (Write path.now at bytes.now) self.old.log self.new.log) }
        ensures kept { OnErr result (IsTrue (breaks_next self.old.plan) ⊎ (self.new.log ≡ self.old.log)) }
        ensures no_memory { IsErrOf result FolderErr.Memory → ⊥ }
        ensures listed { IsTrue (fails_next self.old.plan) → IsErrOf result FolderErr.Failed }
        ensures plan { self.new.plan ≡ after self.old.plan (is_failed result) }
        ensures counted { self.new.changes ≡ risen self.old.changes }
    {
        match Vec::from_slice(self.alloc, bytes) {
            Ok(bytes) => self.change(MemChange::Write(path.copied(), at, bytes)),
            Err(_) => Err(self.refuse()),
        }
    }

    // Fails at a listed call, and if memory is refused. It changes nothing then unless it is to break off.
    fn set_len(&mut self, path: &VaultPath, len: u64) -> Result<(), FolderErr>
        ensures done { OnOk result (HasDone (SetLen path.now len) self.old.log self.new.log) }
        ensures unfit { IsErrOf result FolderErr.Unfit → ¬ CanDo (SetLen path.now len) (now self.old.log) }
        ensures refused { IsErrOf result FolderErr.Unfit → self.new.log ≡ self.old.log }
        ensures broken { OnErr result (HasBroken (SetLen path.now len) self.old.log self.new.log) }
        ensures kept { OnErr result (IsTrue (breaks_next self.old.plan) ⊎ (self.new.log ≡ self.old.log)) }
        ensures no_memory { IsErrOf result FolderErr.Memory → ⊥ }
        ensures listed { IsTrue (fails_next self.old.plan) → IsErrOf result FolderErr.Failed }
        ensures plan { self.new.plan ≡ after self.old.plan (is_failed result) }
        ensures counted { self.new.changes ≡ risen self.old.changes }
    {
        self.change(MemChange::SetLen(path.copied(), len))
    }

    // Fails at a listed call, and if memory is refused. It changes nothing then unless it is to break off.
    fn rename(&mut self, from: &VaultPath, to: &VaultPath) -> Result<(), FolderErr>
        ensures done { OnOk result (HasDone (Move from.now to.now) self.old.log self.new.log) }
        ensures unfit { IsErrOf result FolderErr.Unfit → ¬ CanDo (Move from.now to.now) (now self.old.log) }
        ensures refused { IsErrOf result FolderErr.Unfit → self.new.log ≡ self.old.log }
        ensures broken { OnErr result (HasBroken (Move from.now to.now) self.old.log self.new.log) }
        ensures kept { OnErr result (IsTrue (breaks_next self.old.plan) ⊎ (self.new.log ≡ self.old.log)) }
        ensures no_memory { IsErrOf result FolderErr.Memory → ⊥ }
        ensures listed { IsTrue (fails_next self.old.plan) → IsErrOf result FolderErr.Failed }
        ensures plan { self.new.plan ≡ after self.old.plan (is_failed result) }
        ensures counted { self.new.changes ≡ risen self.old.changes }
    {
        self.change(MemChange::Move(from.copied(), to.copied()))
    }

    // Fails at a listed call, and if memory is refused. It changes nothing then unless it is to break off.
    fn remove_file(&mut self, path: &VaultPath) -> Result<(), FolderErr>
        ensures done { OnOk result (HasDone (RemoveFile path.now) self.old.log self.new.log) }
        ensures unfit { IsErrOf result FolderErr.Unfit → ¬ CanDo (RemoveFile path.now) (now self.old.log) }
        ensures refused { IsErrOf result FolderErr.Unfit → self.new.log ≡ self.old.log }
        ensures broken { OnErr result (HasBroken (RemoveFile path.now) self.old.log self.new.log) }
        ensures kept { OnErr result (IsTrue (breaks_next self.old.plan) ⊎ (self.new.log ≡ self.old.log)) }
        ensures no_memory { IsErrOf result FolderErr.Memory → ⊥ }
        ensures listed { IsTrue (fails_next self.old.plan) → IsErrOf result FolderErr.Failed }
        ensures plan { self.new.plan ≡ after self.old.plan (is_failed result) }
        ensures counted { self.new.changes ≡ risen self.old.changes }
    {
        self.change(MemChange::RemoveFile(path.copied()))
    }

    // Fails at a listed call, and if memory is refused. It changes nothing then unless it is to break off.
    fn remove_dir(&mut self, path: &VaultPath) -> Result<(), FolderErr>
        ensures done { OnOk result (HasDone (RemoveDir path.now) self.old.log self.new.log) }
        ensures unfit { IsErrOf result FolderErr.Unfit → ¬ CanDo (RemoveDir path.now) (now self.old.log) }
        ensures refused { IsErrOf result FolderErr.Unfit → self.new.log ≡ self.old.log }
        ensures broken { OnErr result (HasBroken (RemoveDir path.now) self.old.log self.new.log) }
        ensures kept { OnErr result (IsTrue (breaks_next self.old.plan) ⊎ (self.new.log ≡ self.old.log)) }
        ensures no_memory { IsErrOf result FolderErr.Memory → ⊥ }
        ensures listed { IsTrue (fails_next self.old.plan) → IsErrOf result FolderErr.Failed }
        ensures plan { self.new.plan ≡ after self.old.plan (is_failed result) }
        ensures counted { self.new.changes ≡ risen self.old.changes }
    {
        self.change(MemChange::RemoveDir(path.copied()))
    }

    // Fails at a listed call, and if memory is refused, and does nothing then.
    fn sync(&mut self) -> Result<(), FolderErr>
        ensures synced { OnOk result (self.new.log ≡ adds self.old.log Synced) }
        ensures failed { OnErr result (self.new.log ≡ self.old.log) }
        ensures sound { IsSound self.old.log.start self.old.log.calls }
        ensures error { IfErr result (λ error. error ≡ FolderErr.Failed) }
        ensures listed { IsTrue (fails_next self.old.plan) → IsErr result }
        ensures plan { self.new.plan ≡ after self.old.plan (is_failed result) }
        ensures changes { self.new.changes ≡ self.old.changes }
    {
        if self.plan.next_fails() {
            return Err(FolderErr::Failed);
        }
        match self.keep_sync() {
            Ok(()) => Ok(()),
            Err(_) => Err(self.fail()),
        }
    }
}

// Copies the bytes from a place on, as many as there are and `out` has room for, and says how many.
fn copy_at(bytes: &[u8], at: u64, out: &mut [u8]) -> usize
    ensures count { result ≡ min (length out.old) (length bytes.now - at) }
    ensures bytes { take result out.new ≡ take result (drop at bytes.now) }
    ensures rest { KeepsFrom result out.old out.new }
{
    let start = bytes.len().min(at as usize);
    copy_front(&bytes[start..], usize::MAX, out)
}
