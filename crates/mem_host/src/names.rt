ghost use Rattle.std.specs.Prelude.{◌≡◌, ◌↔◌, ◌++◌, ◌∷◌, [], ◌≢◌, ℕ, List, Some, None, option_map, IfOk, OnOk, OnErr, IsTrue};
ghost use Rattle.std.specs.List.{IsDistinct};
ghost use Rattle.host_calls.specs.Volume.{Volume, Folder, entry_at, disk_of};
ghost use Rattle.host_calls.specs.Names.{MadeFolder, HasFolder, HasFile, CanMake, CanMoveTo, IsEmptyFolder, Fits, named, after_step};
ghost use Rattle.outside.specs.Disk.{IsListing};
ghost use Rattle.mem_host.specs.Entries.{entry_of, names_of, bare, AreNamesIn};
ghost use Rattle.mem_host.specs.Steps.{step_of};

use crate::step::MemStep;
use host_calls::Inode;
use std::alloc::{AllocError, Global};
use std::collections::BTreeMap;
use std::marker::Model;
use vault_path::{Text, VaultPath};

/// What a name is of.
#[derive(Clone, Copy)]
pub enum MemEntry {
    Folder,
    File(Inode),
}

/// The names in a folder and its subfolders. Clauses see what each path has.
#[derive(Drop)]
pub struct MemNames {
    held: BTreeMap<VaultPath, MemEntry>,
}

impl Model for MemNames {
    ghost use Rattle.host_calls.specs.Volume.{Names};
    ghost use Rattle.mem_host.specs.Codes.{coded_names};

    ghost Value = { Names };

    ghost coded = { coded_names };

    ghost use Rattle.mem_host.specs.Entries.{names_of};

    ghost view = { λ a. names_of a.held.entries };
}

impl MemNames {
    /// No names.
    pub fn none(alloc: Global) -> MemNames
        ensures { result ≡ names_of [] }
    {
        MemNames {
            held: BTreeMap::new(alloc),
        }
    }

    /// The folder itself alone.
    pub fn bare(alloc: Global) -> Result<MemNames, AllocError>
        ensures { IfOk result (λ made. made ≡ bare) }
    {
        let mut names = MemNames::none(alloc);
        names.set(&VaultPath::root(), MemEntry::Folder)?;
        Ok(names)
    }

    /// What is at a path.
    pub fn at(&self, path: &VaultPath) -> Option<MemEntry>
        ensures { option_map entry_of result ≡ entry_at self.now path.now }
    {
        self.held.get(path).copied()
    }

    /// Whether a folder is there.
    pub fn is_folder(&self, path: &VaultPath) -> bool
        ensures { IsTrue result ↔ HasFolder self.now path.now }
    {
        matches!(self.at(path), Some(MemEntry::Folder))
    }

    /// Whether a file is there.
    pub fn is_file(&self, path: &VaultPath) -> bool
        ensures { IsTrue result ↔ HasFile self.now path.now }
    {
        matches!(self.at(path), Some(MemEntry::File(_)))
    }

    /// Whether a folder or a file can be made there.
    pub fn can_make(&self, path: &VaultPath) -> bool
        ensures { IsTrue result ↔ CanMake self.now path.now }
    {
        self.is_folder(&path.parent()) && self.at(path).is_none()
    }

    /// Whether a file can be moved.
    pub fn can_move(&self, from: &VaultPath, to: &VaultPath) -> bool
        ensures { IsTrue result ↔ CanMoveTo self.now from.now to.now }
    {
        self.is_file(from) && self.is_folder(&to.parent()) && !self.is_folder(to)
    }

    /// Whether an empty folder below the top is there.
    pub fn is_empty_folder(&self, path: &VaultPath) -> bool
        ensures { IsTrue result ↔ IsEmptyFolder self.now path.now }
    {
        !path.is_empty() && self.is_folder(path) && has_no_child(&self.held, path)
    }

    /// Whether a step can be taken.
    pub fn fits(&self, step: &MemStep) -> bool
        ensures { IsTrue result ↔ Fits (step_of step.now) self.now }
    {
        match step {
            MemStep::MadeFolder(path) => self.can_make(path),
            MemStep::MadeFile(path, _) => self.can_make(path),
            MemStep::Moved(from, to) => self.can_move(from, to),
            MemStep::Dropped(path) => self.is_file(path) || self.is_empty_folder(path),
        }
    }

    /// Takes a step that fits. After refused memory all is as it was.
    pub fn apply(&mut self, step: &MemStep) -> Result<(), AllocError>
        requires { Fits (step_of step.now) self.old }
        ensures ok { OnOk result (self.new ≡ after_step (step_of step.now) self.old) }
        ensures err { OnErr result (self.new ≡ self.old) }
    {
        match step {
            MemStep::MadeFolder(path) => self.set(path, MemEntry::Folder),
            MemStep::MadeFile(path, inode) => self.set(path, MemEntry::File(*inode)),
            MemStep::Moved(from, to) => self.rename(from, to),
            MemStep::Dropped(path) => {
                self.unset(path);
                Ok(())
            }
        }
    }

    /// The names in a folder.
    pub fn names_in(&self, alloc: Global, folder: &VaultPath) -> Result<Vec<Text>, AllocError>
        ensures { IfOk result (λ names. AreNamesIn self.now folder.now names.items) }
    {
        names_in(alloc, &self.held, folder)
    }

    /// All names, and what each is of.
    pub fn entries(&self, alloc: Global) -> Result<Vec<(VaultPath, MemEntry)>, AllocError>
        ensures { IfOk result (λ entries. names_of entries.items ≡ self.now) }
    {
        let mut entries = Vec::new(alloc);
        for (path, entry) in self.held.iter() {
            entries.push((path.copied(), *entry))?;
        }
        Ok(entries)
    }

    /// The names of a list, in which the first of two at one path counts.
    pub fn from_entries(
        alloc: Global,
        entries: &[(VaultPath, MemEntry)],
    ) -> Result<MemNames, AllocError>
        ensures { IfOk result (λ names. names ≡ names_of entries.now) }
    {
        let mut names = MemNames::none(alloc);
        let count = entries.len();
        for back in 0..count {
            let (path, entry) = &entries[count - 1 - back];
            names.set(path, *entry)?;
        }
        Ok(names)
    }

    // Moves what is at a path, where that is a file.
    fn rename(&mut self, from: &VaultPath, to: &VaultPath) -> Result<(), AllocError>
        requires { CanMoveTo self.old from.now to.now }
        ensures ok { OnOk result (self.new ≡ named (named self.old from.now None) to.now (entry_at self.old from.now)) }
        ensures err { OnErr result (self.new ≡ self.old) }
    {
        if from == to {
            return Ok(());
        }
        match self.at(from) {
            None => Ok(()),
            Some(entry) => {
                self.set(to, entry)?;
                self.unset(from);
                Ok(())
            }
        }
    }

    // Sets what is at a path. After refused memory all is as it was.
    fn set(&mut self, path: &VaultPath, entry: MemEntry) -> Result<(), AllocError>
        ensures ok { OnOk result (self.new ≡ named self.old path.now (Some (entry_of entry))) }
        ensures err { OnErr result (self.new ≡ self.old) }
    {
        self.held.insert(path.copied(), entry)?;
        Ok(())
    }

    // Takes away what is at a path.
    fn unset(&mut self, path: &VaultPath)
        ensures { self.new ≡ named self.old path.now None }
    {
        self.held.remove(path);
    }
}

// Whether no path lies in the folder.
fn has_no_child(held: &BTreeMap<VaultPath, MemEntry>, folder: &VaultPath) -> bool
    ensures { IsTrue result ↔ ((name : List ℕ) → entry_at (names_of held.now.entries) (folder.now ++ name ∷ []) ≡ None) }
{
    for path in held.keys() {
        if let Some(_) = path.name_in(folder) {
            return false;
        }
    }
    true
}

// The names in a folder.
fn names_in(
    alloc: Global,
    held: &BTreeMap<VaultPath, MemEntry>,
    folder: &VaultPath,
) -> Result<Vec<Text>, AllocError>
    ensures { IfOk result (λ names. AreNamesIn (names_of held.now.entries) folder.now names.items) }
{
    let mut names = Vec::new(alloc);
    for path in held.keys() {
        if let Some(name) = path.name_in(folder) {
            names.push(Text::from_vec(name.to_vec(alloc)?))?;
        }
    }
    Ok(names)
}
