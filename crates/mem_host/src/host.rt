ghost use Rattle.std.specs.Prelude.{◌≡◌, ◌↔◌, ◌+◌, ◌<◌, ◌≤◌, [], ◌∷◌, length, Some, IsTrue, IfOk, IfSome, OnOk, OnErr};
ghost use Rattle.std.specs.FinMap as map;
ghost use Rattle.host_calls.specs.Volume.{File, entry_at};
ghost use Rattle.host_calls.specs.Names.{Fits, CanMake};
ghost use Rattle.host_calls.specs.Bytes.{Wrote, Cut};
ghost use Rattle.host_calls.specs.Story.{IsLeft, names_now, bytes_now, volume_now, takes, writes, flushes_folder, flushes_file, doubts, notes, restarted};
ghost use Rattle.host_calls.specs.Calls.{IsLongFile, HasCreated, change_of, noted_break};
ghost use Rattle.outside.specs.Images.{Did, Synced};
ghost use Rattle.mem_host.specs.Plan.{no_faults, next_fault, after};
ghost use Rattle.mem_host.specs.Entries.{bare};
ghost use Rattle.mem_host.specs.Steps.{step_of};
ghost use Rattle.mem_host.specs.Texts.{IsOnlyTextOf};
ghost use Rattle.mem_host.specs.Holding.{IsSettled, IsBegun, IsNameStep, CanHold};

use crate::choices::{Choices, Leaves};
use crate::diary::Diary;
use crate::filing::MemFiling;
use crate::names::{MemEntry, MemNames};
use crate::naming::MemNaming;
use crate::plan::{Extent, Fault, FaultPlan};
use crate::step::MemStep;
use crate::text::path_of;
use host_calls::{HostChange, Inode};
use std::alloc::{AllocError, Global};
use std::marker::Model;
use vault_path::{Text, VaultPath};

/// A host in memory, and in it a folder. It tells what was done to the folder. Clauses see the text of the folder's own path, the
/// story of the folder, and which calls shall fail.
#[derive(Drop)]
pub struct MemHost {
    alloc: Global,
    top: Text,
    naming: MemNaming,
    files: MemFiling,
    doubt: bool,
    unnoted: bool,
    diary: Diary,
    plan: FaultPlan,
}

impl Model for MemHost {
    ghost use Rattle.mem_host.specs.Holding.{Holding, IsHolding, coded_holding};

    ghost Value = { Holding };

    ghost coded = { coded_holding };

    ghost view = { λ a. record {
      top = a.top;
      story = record {
        base = a.naming.base;
        naming = a.naming.steps;
        files = a.files.held;
        doubt = a.doubt;
        diary = a.diary.log;
        unnoted = a.unnoted;
      };
      plan = a.plan;
    } };

    ghost invariant = { λ a. IsHolding a.top a.files (record {
      base = a.naming.base;
      naming = a.naming.steps;
      files = a.files.held;
      doubt = a.doubt;
      diary = a.diary.log;
      unnoted = a.unnoted;
    }) };
}

impl MemHost {
    /// An empty folder at the path of this text. Condition: it isn't empty. Fails only if memory runs out.
    pub fn new(alloc: Global, top: &str) -> Result<MemHost, AllocError>
        requires { 0 < length top.now }
        ensures top { IfOk result (λ host. host.top ≡ top.now) }
        ensures names { IfOk result (λ host. host.story.base ≡ bare) }
        ensures files { IfOk result (λ host. host.story.files ≡ map.empty) }
        ensures settled { IfOk result (λ host. IsSettled host.story) }
        ensures begun { IfOk result (λ host. IsBegun host.story) }
        ensures plan { IfOk result (λ host. host.plan ≡ no_faults) }
    {
        let top = Text::from_slice(alloc, top.as_bytes())?;
        MemHost::holding(alloc, top, MemNames::bare(alloc)?, MemFiling::new(alloc))
    }

    /// These calls shall fail.
    pub fn failing_at(mut self, faults: Vec<Fault>) -> MemHost
        ensures { result ≡ record self { plan = record self.plan { faults = faults.items } } }
    {
        self.plan.set(faults);
        self
    }

    /// How many calls there were: of `HostCalls` all but `did`, `broke` and `synced`.
    pub fn call_count(&self) -> u64
        ensures { result ≡ self.now.plan.calls }
    {
        self.plan.calls()
    }

    /// The host as the next run of the program finds it: nothing is lost, nothing more is on the disk, and the diary is a new one.
    /// No call was counted, and none shall fail.
    pub fn restarted(self) -> MemHost
        ensures host { result ≡ record { top = self.top; story = restarted self.story; plan = no_faults } }
        ensures begun { IsBegun result.story }
    {
        let diary = Diary::new(self.naming.now(), &self.files);
        MemHost {
            alloc: self.alloc,
            top: self.top,
            naming: self.naming,
            files: self.files,
            doubt: self.doubt,
            unnoted: false,
            diary,
            plan: FaultPlan::new(self.alloc),
        }
    }

    /// The host as it is after a power cut now, as the next run of the program finds it. Of each step that isn't on the disk yet
    /// it has what is chosen: first of the steps that changed names, from the oldest on, and then of those of each file, from the
    /// file made first on. After the last choice comes the first again; with no choices all is left. A step that doesn't fit what
    /// was left of those before is left out. Fails only if memory runs out.
    pub fn power_cut(&self, leaves: &[Leaves]) -> Result<MemHost, AllocError>
        ensures top { IfOk result (λ host. host.top ≡ self.now.top) }
        ensures left { IfOk result (λ host. IsLeft self.now.story (volume_now host.story)) }
        ensures settled { IfOk result (λ host. IsSettled host.story) }
        ensures begun { IfOk result (λ host. IsBegun host.story) }
        ensures plan { IfOk result (λ host. host.plan ≡ no_faults) }
    {
        let mut choices = Choices::new(leaves);
        let names = self.naming.left(self.alloc, &mut choices)?;
        let files = self.files.left(self.alloc, &mut choices)?;
        let top = Text::from_slice(self.alloc, self.top.as_bytes())?;
        MemHost::holding(self.alloc, top, names, files)
    }

    // A host that holds this on its disk, and nothing else.
    fn holding(
        alloc: Global,
        top: Text,
        names: MemNames,
        files: MemFiling,
    ) -> Result<MemHost, AllocError>
        requires named { 0 < length top }
        requires fits { CanHold names files }
        ensures top { IfOk result (λ host. host.top ≡ top) }
        ensures names { IfOk result (λ host. host.story.base ≡ names) }
        ensures files { IfOk result (λ host. host.story.files ≡ files.held) }
        ensures settled { IfOk result (λ host. IsSettled host.story) }
        ensures begun { IfOk result (λ host. IsBegun host.story) }
        ensures plan { IfOk result (λ host. host.plan ≡ no_faults) }
    {
        let diary = Diary::new(&names, &files);
        Ok(MemHost {
            alloc,
            top,
            naming: MemNaming::new(alloc, names)?,
            files,
            doubt: false,
            unnoted: false,
            diary,
            plan: FaultPlan::new(alloc),
        })
    }

    /// Counts a call, and says how much of it is to be done if it shall fail.
    pub(crate) fn next_call(&mut self) -> Option<Extent>
        ensures fault { result ≡ next_fault self.old.plan }
        ensures counted { self.new ≡ record self.old { plan = after self.old.plan } }
    {
        self.plan.next()
    }

    /// The path in the folder that a text names, if it names one.
    pub(crate) fn path(&self, text: &str) -> Option<VaultPath>
        ensures { IfSome result (IsOnlyTextOf self.now.top text.now) }
    {
        path_of(self.top.as_bytes(), text.as_bytes())
    }

    /// The names that there are.
    pub(crate) fn names(&self) -> &MemNames
        ensures { result.now ≡ names_now self.now.story }
    {
        self.naming.now()
    }

    /// The bytes of a file, or none where there is no such file.
    pub(crate) fn bytes(&self, inode: Inode) -> &[u8]
        ensures { result.now ≡ bytes_now self.now.story inode }
    {
        self.files.bytes(inode)
    }

    /// Whether this file is at a path, with at least so many bytes.
    pub(crate) fn is_long_file(&self, path: &VaultPath, inode: Inode, least: u64) -> bool
        ensures { IsTrue result ↔ IsLongFile path.now inode least self.now.story }
    {
        self.is_file_at(path, inode) && least <= self.bytes(inode).len() as u64
    }

    /// Whether this file is at a path.
    pub(crate) fn is_file_at(&self, path: &VaultPath, inode: Inode) -> bool
        ensures { IsTrue result ↔ (entry_at (names_now self.now.story) path.now ≡ Some (File inode)) }
    {
        match self.names().at(path) {
            Some(MemEntry::File(there)) => there == inode,
            _ => false,
        }
    }

    /// Where bytes end that are written over those of the file at a path.
    pub(crate) fn end_of(&self, path: &VaultPath, inode: Inode, at: u64, bytes: &[u8]) -> u64
        requires { IsLongFile path.now inode at self.now.story }
        ensures { result ≡ at + length bytes.now }
    {
        let len = self.bytes(inode).len() as u64;
        prove!(at <= len);
        at + bytes.len() as u64
    }

    /// Takes a step that makes no file. After refused memory all is as it was.
    pub(crate) fn take(&mut self, step: MemStep) -> Result<(), AllocError>
        requires fits { Fits (step_of step) (names_now self.old.story) }
        requires name { IsNameStep (step_of step) }
        ensures ok { OnOk result (self.new ≡ record self.old { story = takes (step_of step) self.old.story }) }
        ensures err { OnErr result (self.new ≡ self.old) }
    {
        self.naming.take(step)?;
        self.unnoted = true;
        Ok(())
    }

    /// Makes a file of these bytes. After refused memory all is as it was.
    pub(crate) fn create_file(&mut self, path: VaultPath, bytes: &[u8]) -> Result<(), AllocError>
        requires { CanMake (names_now self.old.story) path }
        ensures ok { OnOk result (HasCreated path bytes.now self.old.story self.new.story) }
        ensures err { OnErr result (self.new ≡ self.old) }
        ensures top { self.new.top ≡ self.old.top }
        ensures plan { self.new.plan ≡ self.old.plan }
    {
        let inode = self.files.next_inode();
        self.files.create(self.alloc, bytes)?;
        if let Err(error) = self.naming.take(MemStep::MadeFile(path, inode)) {
            self.files.forget_newest();
            return Err(error);
        }
        self.unnoted = true;
        Ok(())
    }

    /// Writes bytes over those of the file at a path. After refused memory all is as it was.
    pub(crate) fn write(
        &mut self,
        path: &VaultPath,
        inode: Inode,
        at: u64,
        bytes: &[u8],
    ) -> Result<(), AllocError>
        requires { IsLongFile path.now inode at self.old.story }
        ensures ok { OnOk result (self.new ≡ record self.old { story = writes inode (Wrote at bytes.now ∷ []) self.old.story }) }
        ensures long { OnOk result (IsLongFile path.now inode (at + length bytes.now) self.new.story) }
        ensures err { OnErr result (self.new ≡ self.old) }
    {
        self.files.write(self.alloc, inode, at, bytes)?;
        self.unnoted = true;
        Ok(())
    }

    /// Cuts the file at a path. After refused memory all is as it was.
    pub(crate) fn cut(&mut self, path: &VaultPath, inode: Inode, len: u64) -> Result<(), AllocError>
        requires { IsLongFile path.now inode len self.old.story }
        ensures ok { OnOk result (self.new ≡ record self.old { story = writes inode (Cut len ∷ []) self.old.story }) }
        ensures err { OnErr result (self.new ≡ self.old) }
    {
        self.files.cut(inode, len)?;
        self.unnoted = true;
        Ok(())
    }

    /// Brings the entries of the folder at a path to the disk.
    pub(crate) fn flush_folder(&mut self, path: &VaultPath)
        ensures { self.new ≡ record self.old { story = flushes_folder path.now self.old.story } }
    {
        self.naming.flush(path);
    }

    /// Brings the bytes of the file at a path to the disk. After refused memory all is as it was.
    pub(crate) fn flush_file(&mut self, path: &VaultPath, inode: Inode) -> Result<(), AllocError>
        requires { entry_at (names_now self.old.story) path.now ≡ Some (File inode) }
        ensures ok { OnOk result (self.new ≡ record self.old { story = flushes_file inode self.old.story }) }
        ensures err { OnErr result (self.new ≡ self.old) }
    {
        self.files.flush(self.alloc, inode)
    }

    /// Whether a flush failed.
    pub(crate) fn doubts(&self) -> bool
        ensures { result ≡ self.now.story.doubt }
    {
        self.doubt
    }

    /// A flush failed.
    pub(crate) fn set_doubt(&mut self)
        ensures { self.new ≡ record self.old { story = doubts self.old.story } }
    {
        self.doubt = true;
    }

    /// A change was done.
    pub(crate) fn note_done(&mut self, change: &HostChange<'_>)
        ensures { self.new ≡ record self.old { story = notes (Did (change_of change.now)) self.old.story } }
    {
        self.diary = self.diary.did(change);
        self.unnoted = false;
    }

    /// A change failed: if any step of it was taken, it left what there is.
    pub(crate) fn note_broken(&mut self, change: &HostChange<'_>)
        ensures { self.new ≡ record self.old { story = noted_break (change_of change.now) self.old.story.unnoted self.old.story } }
    {
        if self.unnoted {
            self.diary = self.diary.broke(change, self.naming.now(), &self.files);
            self.unnoted = false;
        }
    }

    /// A sync was done.
    pub(crate) fn note_synced(&mut self)
        ensures { self.new ≡ record self.old { story = notes Synced self.old.story } }
    {
        self.diary = self.diary.synced();
        self.unnoted = false;
    }
}
