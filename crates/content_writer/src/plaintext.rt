ghost use Rattle.std.specs.Prelude.{◌≡◌, ◌≤◌, ◌<◌, ◌+◌, ◌-◌, ◌*◌, ◌^◌, ◌++◌, ℕ, List, [], length, take, drop, replicate, max, Some, None, OnOk, IsErrOf};
ghost use Rattle.outside.specs.Calls.{Told};
ghost use Rattle.outside.specs.Disk.{node_at, file};
ghost use Rattle.outside.specs.Images.{disk_in};
ghost use Rattle.file_chunks.specs.Chunk.{chunk_opens};
ghost use Rattle.file_chunks.specs.File.{sealed_at};
ghost use Rattle.content_laws.specs.Laws.{patched};
ghost use Rattle.content_writer.specs.Sealing.{HasFaulted, IsOpenedChunk};

use crate::error::WriteErr;
use file_chunks::{CHUNK_LENGTH, HEADER_LENGTH, Header, SEALED_LENGTH, open_chunk};
use outside::Reads;
use std::alloc::{AllocError, Global};
use std::marker::Model;
use vault_path::VaultPath;

/// Room for a chunk, sealed and clear. Clauses see its plaintext.
#[derive(Drop)]
pub(crate) struct Plaintext {
    sealed: Vec<u8>,
    clear: Vec<u8>,
    count: usize,
}

impl Model for Plaintext {
    ghost use Rattle.std.specs.Prelude.{◌≡◌, ◌≤◌, ℕ, List, take, vec_len};
    ghost use Rattle.file_chunks.specs.declared.size.TheConstants.{CHUNK_LENGTH, SEALED_LENGTH};

    ghost Value = { List ℕ };

    ghost view = { λ p. take p.count p.clear.items };

    ghost invariant = { λ p. (vec_len p.sealed ≡ SEALED_LENGTH) × (vec_len p.clear ≡ CHUNK_LENGTH) × (p.count ≤ CHUNK_LENGTH) };
}

impl Plaintext {
    /// Takes the room, for a chunk that is empty.
    pub(crate) fn new(alloc: Global) -> Result<Plaintext, AllocError> {
        Ok(Plaintext {
            sealed: vec![in alloc; 0u8; SEALED_LENGTH]?,
            clear: vec![in alloc; 0u8; CHUNK_LENGTH]?,
            count: 0,
        })
    }

    /// The plaintext.
    pub(crate) fn bytes(&self) -> &[u8]
        ensures bytes { result.now ≡ self.now }
        ensures few { length self.now ≤ CHUNK_LENGTH }
    {
        &self.clear[..self.count]
    }

    /// Makes it empty.
    pub(crate) fn clear(&mut self)
        ensures { self.new ≡ [] }
    {
        self.count = 0;
    }

    /// Opens the chunk of an index of a host file. `Damaged` is returned if it doesn't open; it may hold anything after an
    /// error.
    pub(crate) fn open<R: Reads>(
        &mut self,
        folder: &mut R,
        path: &VaultPath,
        header: &Header,
        index: u64,
    ) -> Result<(), WriteErr>
        requires place { HEADER_LENGTH + SEALED_LENGTH * index < 2 ^ 64 }
        ensures opened { OnOk result (Told (disk_in (R.log folder.old)) (λ d. (bytes : List ℕ) → node_at d path.now ≡ Some (file bytes)
            → IsOpenedChunk header.now index bytes self.new)) }
        ensures damaged { IsErrOf result WriteErr.Damaged → Told (disk_in (R.log folder.old)) (λ d. (bytes : List ℕ) → node_at d path.now ≡ Some (file bytes)
            → chunk_opens header.now index (sealed_at bytes index) ≡ None) }
        ensures device { IsErrOf result WriteErr.Device → HasFaulted (disk_in (R.log folder.old)) path.now (R.faults folder.old) (R.faults folder.new) }
        ensures nothing_drawn { IsErrOf result WriteErr.Random → ⊥ }
        ensures log { R.log folder.new ≡ R.log folder.old }
        ensures changes { R.changes folder.new ≡ R.changes folder.old }
        ensures later { R.faults folder.old ≤ R.faults folder.new }
    {
        let place = HEADER_LENGTH as u64 + SEALED_LENGTH as u64 * index;
        let count = folder.read(path, place, &mut self.sealed)?;
        self.count = open_chunk(header, index, &self.sealed[..count], &mut self.clear)?;
        Ok(())
    }

    /// Writes bytes over it from an offset on, a gap before them being filled with zeros; what would be past a full chunk is left out.
    pub(crate) fn patch(&mut self, at: u64, bytes: &[u8])
        ensures { self.new ≡ patched self.old at bytes.now }
    {
        let from = at.min(CHUNK_LENGTH as u64) as usize;
        let part = &bytes[..bytes.len().min(CHUNK_LENGTH - from)];
        fill_gap(&mut self.clear, self.count, from);
        put(&mut self.clear, from, part);
        self.count = self.count.max(from + part.len());
    }

    /// Cuts it to at most `count` bytes.
    pub(crate) fn truncate(&mut self, count: usize)
        ensures { self.new ≡ take count self.old }
    {
        self.count = self.count.min(count);
    }
}

// Fills the bytes from an index up to another with zeros, if there are any.
fn fill_gap(bytes: &mut [u8], from: usize, to: usize)
    requires { (from ≤ length bytes.old) × (to ≤ length bytes.old) }
    ensures { bytes.new ≡ take from bytes.old ++ replicate (to - from) 0 ++ drop (max from to) bytes.old }
{
    if from < to {
        bytes[from..to].fill(0);
    }
}

// Puts bytes into others from an index on.
fn put(into: &mut [u8], from: usize, bytes: &[u8])
    requires { from + length bytes.now ≤ length into.old }
    ensures { into.new ≡ take from into.old ++ bytes.now ++ drop (from + length bytes.now) into.old }
{
    into[from..from + bytes.len()].copy_from_slice(bytes);
}
