ghost use Rattle.std.specs.Prelude.{◌≡◌, ◌↔◌, ◌≤◌, Some, length, IfOk, OnOk, OnErr, IsTrue};
ghost use Rattle.outside.specs.Disk.{CanPut};
ghost use Rattle.outside.specs.Changes.{MakeDir, Put, Write, SetLen, Move, RemoveDir, CanDo, done, overwritten};
ghost use Rattle.outside_mem.specs.Kept.{change_of};

use crate::change::MemChange;
use crate::disk::{Held, MemDisk};
use std::alloc::{AllocError, Global};
use vault_path::VaultPath;

impl MemDisk {
    /// Whether the change can be made.
    pub fn can_do(&self, change: &MemChange) -> bool
        ensures { IsTrue result ↔ CanDo (change_of change.now) self.now }
    {
        match change {
            MemChange::MakeDir(path) => self.has_room_for_dir(path),
            MemChange::Put(path, _) => self.has_room_for_file(path),
            MemChange::Write(path, at, _) => self.has_bytes(path, *at),
            MemChange::SetLen(path, len) => self.has_bytes(path, *len),
            MemChange::Move(from, to) => self.can_move(from, to),
            MemChange::RemoveFile(path) => !self.is_folder(path),
            MemChange::RemoveDir(path) => self.is_bare_or_nothing(path),
        }
    }

    /// Makes the change. After refused memory all is as it was.
    pub fn apply(&mut self, alloc: Global, change: &MemChange) -> Result<(), AllocError>
        requires { CanDo (change_of change.now) self.old }
        ensures ok { OnOk result (self.new ≡ done (change_of change.now) self.old) }
        ensures err { OnErr result (self.new ≡ self.old) }
    {
        match change {
            MemChange::MakeDir(path) => self.set(path, Held::Folder),
            MemChange::Put(path, bytes) => self.put(alloc, path, bytes),
            MemChange::Write(path, at, bytes) => self.write(alloc, path, *at, bytes),
            MemChange::SetLen(path, len) => self.set_len(alloc, path, *len),
            MemChange::Move(from, to) => self.move_file(alloc, from, to),
            MemChange::RemoveFile(path) => {
                self.unset(path);
                Ok(())
            }
            MemChange::RemoveDir(path) => {
                self.unset(path);
                Ok(())
            }
        }
    }

    fn has_room_for_dir(&self, path: &VaultPath) -> bool
        ensures { IsTrue result ↔ CanDo (MakeDir path.now) self.now }
    {
        self.is_folder(&path.parent()) && !self.is_file(path)
    }

    fn has_room_for_file(&self, path: &VaultPath) -> bool
        ensures { IsTrue result ↔ CanPut self.now path.now }
    {
        self.is_folder(&path.parent()) && !self.is_folder(path)
    }

    // Whether a file is there with at least so many bytes.
    fn has_bytes(&self, path: &VaultPath, count: u64) -> bool
        ensures { IsTrue result ↔ CanDo (SetLen path.now count) self.now }
    {
        match self.bytes_at(path) {
            None => false,
            Some(bytes) => count <= bytes.len() as u64,
        }
    }

    fn can_move(&self, from: &VaultPath, to: &VaultPath) -> bool
        ensures { IsTrue result ↔ CanDo (Move from.now to.now) self.now }
    {
        self.is_file(from) && self.has_room_for_file(to)
    }

    fn is_bare_or_nothing(&self, path: &VaultPath) -> bool
        ensures { IsTrue result ↔ CanDo (RemoveDir path.now) self.now }
    {
        self.kind(path).is_none() || self.is_bare(path)
    }

    fn put(&mut self, alloc: Global, path: &VaultPath, bytes: &[u8]) -> Result<(), AllocError>
        ensures ok { OnOk result (self.new ≡ done (Put path.now bytes.now) self.old) }
        ensures err { OnErr result (self.new ≡ self.old) }
    {
        let bytes = Vec::from_slice(alloc, bytes)?;
        self.set(path, Held::File(bytes))
    }

    fn write(
        &mut self,
        alloc: Global,
        path: &VaultPath,
        at: u64,
        bytes: &[u8],
    ) -> Result<(), AllocError>
        requires { CanDo (Write path.now at bytes.now) self.old }
        ensures ok { OnOk result (self.new ≡ done (Write path.now at bytes.now) self.old) }
        ensures err { OnErr result (self.new ≡ self.old) }
    {
        match self.bytes_at(path) {
            None => Ok(()),
            Some(old) => {
                let new = overwritten(alloc, old, at as usize, bytes)?;
                self.set(path, Held::File(new))
            }
        }
    }

    fn set_len(&mut self, alloc: Global, path: &VaultPath, len: u64) -> Result<(), AllocError>
        requires { CanDo (SetLen path.now len) self.old }
        ensures ok { OnOk result (self.new ≡ done (SetLen path.now len) self.old) }
        ensures err { OnErr result (self.new ≡ self.old) }
    {
        match self.bytes_at(path) {
            None => Ok(()),
            Some(old) => {
                let front = Vec::from_slice(alloc, &old[..len as usize])?;
                self.set(path, Held::File(front))
            }
        }
    }

    fn move_file(
        &mut self,
        alloc: Global,
        from: &VaultPath,
        to: &VaultPath,
    ) -> Result<(), AllocError>
        requires { CanDo (Move from.now to.now) self.old }
        ensures ok { OnOk result (self.new ≡ done (Move from.now to.now) self.old) }
        ensures err { OnErr result (self.new ≡ self.old) }
    {
        if from == to {
            return Ok(());
        }
        match self.bytes_at(from) {
            None => Ok(()),
            Some(bytes) => {
                let bytes = Vec::from_slice(alloc, bytes)?;
                self.set(to, Held::File(bytes))?;
                self.unset(from);
                Ok(())
            }
        }
    }
}

// The bytes with others written over them from an index on.
fn overwritten(alloc: Global, old: &[u8], at: usize, bytes: &[u8]) -> Result<Vec<u8>, AllocError>
    requires { at ≤ length old.now }
    ensures { IfOk result (λ new. new.items ≡ overwritten old.now at bytes.now) }
{
    let mut new = Vec::from_slice(alloc, &old[..at])?;
    new.extend_from_slice(bytes)?;
    let behind = old.len().min(at + bytes.len());
    new.extend_from_slice(&old[behind..])?;
    Ok(new)
}
