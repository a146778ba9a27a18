ghost use Rattle.std.specs.Prelude.{◌≡◌, IfOk};
ghost use Rattle.outside_mem.specs.Kept.{change_of, own_bytes, with_bytes, halved, filled};

use std::alloc::{AllocError, Global};
use vault_path::VaultPath;

// The byte that an image has where bytes were written.
const FILL: u8 = 0xA5;

/// A change of a folder. Clauses see it by `change_of`.
#[derive(Drop)]
pub enum MemChange {
    MakeDir(VaultPath),
    Put(VaultPath, Vec<u8>),
    Write(VaultPath, u64, Vec<u8>),
    SetLen(VaultPath, u64),
    Move(VaultPath, VaultPath),
    RemoveFile(VaultPath),
    RemoveDir(VaultPath),
}

/// A call that a folder keeps: a change that was done, one that broke off after a part, or a sync.
#[derive(Drop)]
pub enum MemCall {
    Did(MemChange),
    Broke(MemChange),
    Synced,
}

impl MemChange {
    /// The bytes that it puts or writes.
    pub fn bytes(&self) -> &[u8]
        ensures { result.now ≡ own_bytes (change_of self.now) }
    {
        match self {
            MemChange::Put(_, bytes) => bytes,
            MemChange::Write(_, _, bytes) => bytes,
            _ => &[],
        }
    }

    /// The same change once more.
    pub fn copied(&self, alloc: Global) -> Result<MemChange, AllocError>
        ensures { IfOk result (λ change. change_of change ≡ change_of self.now) }
    {
        let bytes = Vec::from_slice(alloc, self.bytes())?;
        Ok(self.with_bytes(bytes))
    }

    /// The part of it that is done by a call that breaks off: half of its bytes, or all of it.
    pub fn halved(&self, alloc: Global) -> Result<MemChange, AllocError>
        ensures { IfOk result (λ change. change_of change ≡ halved (change_of self.now)) }
    {
        let bytes = self.bytes();
        let front = Vec::from_slice(alloc, &bytes[..bytes.len() / 2])?;
        Ok(self.with_bytes(front))
    }

    /// The same change with 0xA5 in place of each of its bytes.
    pub fn filled(&self, alloc: Global) -> Result<MemChange, AllocError>
        ensures { IfOk result (λ change. change_of change ≡ filled (change_of self.now)) }
    {
        let fills = vec![in alloc; FILL; self.bytes().len()]?;
        Ok(self.with_bytes(fills))
    }

    // The same change with these bytes in place of its own, if it has any.
    fn with_bytes(&self, bytes: Vec<u8>) -> MemChange
        ensures { change_of result ≡ with_bytes (change_of self.now) bytes.items }
    {
        match self {
            MemChange::MakeDir(path) => MemChange::MakeDir(path.copied()),
            MemChange::Put(path, _) => MemChange::Put(path.copied(), bytes),
            MemChange::Write(path, at, _) => MemChange::Write(path.copied(), *at, bytes),
            MemChange::SetLen(path, len) => MemChange::SetLen(path.copied(), *len),
            MemChange::Move(from, to) => MemChange::Move(from.copied(), to.copied()),
            MemChange::RemoveFile(path) => MemChange::RemoveFile(path.copied()),
            MemChange::RemoveDir(path) => MemChange::RemoveDir(path.copied()),
        }
    }
}
