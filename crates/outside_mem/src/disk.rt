ghost use Rattle.std.specs.Prelude.{◌≡◌, ◌↔◌, ◌++◌, ◌∷◌, [], ℕ, List, Some, None, IfOk, OnOk, OnErr, IsTrue, MatchOption};
ghost use Rattle.std.specs.FinMap as map;
ghost use Rattle.outside.specs.Disk.{kind_at, node_at, file, IsFolder, IsFile, IsListing};
ghost use Rattle.outside.specs.Changes.{IsBare};
ghost use Rattle.outside_mem.specs.Held.{bare};
ghost use Rattle.outside_mem.specs.Entries.{node_of, disk_of};

use outside::Kind;
use std::alloc::{AllocError, Global};
use std::collections::BTreeMap;
use std::marker::Model;
use vault_path::{Text, VaultPath};

/// What is at a path.
#[derive(Drop)]
pub enum Held {
    Folder,
    File(Vec<u8>),
}

/// What is at each path of a folder. Clauses see the disk.
#[derive(Drop)]
pub struct MemDisk {
    held: BTreeMap<VaultPath, Held>,
}

impl Model for MemDisk {
    ghost use Rattle.outside.specs.Disk.{Disk};
    ghost use Rattle.outside_mem.specs.Held.{coded_disk};

    ghost Value = { Disk };

    ghost coded = { coded_disk };

    ghost use Rattle.outside_mem.specs.Entries.{disk_of};

    ghost view = { λ a. disk_of a.held.entries };
}

impl MemDisk {
    /// The empty folder alone.
    pub fn bare(alloc: Global) -> Result<MemDisk, AllocError>
        ensures { IfOk result (λ made. made ≡ bare) }
    {
        let mut held = BTreeMap::new(alloc);
        held.insert(VaultPath::root(), Held::Folder)?;
        Ok(MemDisk { held })
    }

    /// What is at a path.
    pub fn kind(&self, path: &VaultPath) -> Option<Kind>
        ensures { result ≡ kind_at self.now path.now }
    {
        match self.held.get(path) {
            None => None,
            Some(Held::Folder) => Some(Kind::Dir),
            Some(Held::File(bytes)) => Some(Kind::File(bytes.len() as u64)),
        }
    }

    /// Whether a folder is there.
    pub fn is_folder(&self, path: &VaultPath) -> bool
        ensures { IsTrue result ↔ IsFolder self.now path.now }
    {
        matches!(self.kind(path), Some(Kind::Dir))
    }

    /// Whether a file is there.
    pub fn is_file(&self, path: &VaultPath) -> bool
        ensures { IsTrue result ↔ IsFile self.now path.now }
    {
        self.bytes_at(path).is_some()
    }

    /// The bytes of the file that is there.
    pub fn bytes_at(&self, path: &VaultPath) -> Option<&[u8]>
        ensures { MatchOption result (¬ IsFile self.now path.now) (λ bytes. node_at self.now path.now ≡ Some (file bytes.now)) }
    {
        match self.held.get(path) {
            None => None,
            Some(Held::Folder) => None,
            Some(Held::File(bytes)) => Some(bytes),
        }
    }

    /// Whether an empty folder below the top is there.
    pub fn is_bare(&self, path: &VaultPath) -> bool
        ensures { IsTrue result ↔ IsBare self.now path.now }
    {
        !path.is_empty() && self.is_folder(path) && has_no_child(&self.held, path)
    }

    /// The names in a folder.
    pub fn names_in(&self, alloc: Global, folder: &VaultPath) -> Result<Vec<Text>, AllocError>
        ensures { IfOk result (λ names. IsListing self.now folder.now names.items) }
    {
        names_in(alloc, &self.held, folder)
    }

    /// Sets what is at a path. After refused memory all is as it was.
    pub fn set(&mut self, path: &VaultPath, held: Held) -> Result<(), AllocError>
        ensures ok { OnOk result (self.new ≡ map.insert self.old path.now (node_of held)) }
        ensures err { OnErr result (self.new ≡ self.old) }
    {
        self.held.insert(path.copied(), held)?;
        Ok(())
    }

    /// Takes away what is at a path.
    pub fn unset(&mut self, path: &VaultPath)
        ensures { self.new ≡ map.remove self.old path.now }
    {
        self.held.remove(path);
    }
}

// Whether no path lies in the folder.
fn has_no_child(held: &BTreeMap<VaultPath, Held>, folder: &VaultPath) -> bool
    ensures { IsTrue result ↔ ((name : List ℕ) → node_at (disk_of held.now.entries) (folder.now ++ name ∷ []) ≡ None) }
{
    for path in held.keys() {
        if let Some(_) = path.name_in(folder) {
            return false;
        }
    }
    true
}

// The names in a folder.
fn names_in(
    alloc: Global,
    held: &BTreeMap<VaultPath, Held>,
    folder: &VaultPath,
) -> Result<Vec<Text>, AllocError>
    ensures { IfOk result (λ names. IsListing (disk_of held.now.entries) folder.now names.items) }
{
    let mut names = Vec::new(alloc);
    for path in held.keys() {
        if let Some(name) = path.name_in(folder) {
            names.push(Text::from_vec(name.to_vec(alloc)?))?;
        }
    }
    Ok(names)
}
