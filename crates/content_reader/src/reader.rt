ghost use Rattle.std.specs.Prelude.{◌≡◌, ◌≤◌, ◌-◌, ℕ, List, length, take, min, IfOk, OnErr, IsErrOf};
ghost use Rattle.std.specs.Result.{result_map_both};
ghost use Rattle.outside.specs.Calls.{Told, KeepsFrom};
ghost use Rattle.outside.specs.Images.{disk_in};
ghost use Rattle.tree_model.specs.Asked.{count_limit};
ghost use Rattle.file_chunks.specs.File.{content_of};
ghost use Rattle.content_reader.specs.Reading.{Ends, RoseUntold, IsFileOf, read_of};

use crate::error::ReadErr;
use crate::fetching::fill;
use file_chunks::{CHUNK_LENGTH, SEALED_LENGTH, clear_len, reads_are_slices};
use outside::Reads;
use std::alloc::{AllocError, Global};
use std::marker::Model;
use vault_keys::VaultKeys;
use vault_path::VaultPath;

// The most bytes of a read, and the most chunks that it meets.
const COUNT_LIMIT: usize = 65536;

const SPAN_LIMIT: usize = 3;

/// A slice that is asked for: from byte `at` on, at most `count` bytes.
#[derive(Clone, Copy, Debug, PartialEq, Eq)]
pub struct Slice {
    pub at: u64,
    pub count: u32,
}

/// Where a content file's sealed bytes are, and how many they are.
#[derive(Debug, Drop)]
pub struct SealedFile {
    pub path: VaultPath,
    pub size: u64,
}

/// Buffers for sealed chunks, for the clear bytes of one and for those of a slice, 192 KiB in all, which are taken once, so that
/// no read takes memory. Clauses see nothing of them.
#[derive(Drop)]
pub struct ContentReader {
    sealed: Vec<u8>,
    clear: Vec<u8>,
    gathered: Vec<u8>,
}

impl Model for ContentReader {
    ghost use Rattle.std.specs.Prelude.{◌≡◌, ◌*◌, vec_len};
    ghost use Rattle.file_chunks.specs.declared.size.TheConstants.{CHUNK_LENGTH, SEALED_LENGTH};
    ghost use Rattle.content_reader.specs.declared.reader.TheConstants.{COUNT_LIMIT, SPAN_LIMIT};

    ghost Value = { Unit {0} };

    ghost view = { λ r. tt };

    ghost invariant = { λ r. (vec_len r.sealed ≡ SPAN_LIMIT * SEALED_LENGTH) × (vec_len r.clear ≡ CHUNK_LENGTH) × (vec_len r.gathered ≡ COUNT_LIMIT) };
}

impl ContentReader {
    /// Takes the buffers.
    pub fn new(alloc: Global) -> Result<ContentReader, AllocError> {
        Ok(ContentReader {
            sealed: vec![in alloc; 0u8; SPAN_LIMIT * SEALED_LENGTH]?,
            clear: vec![in alloc; 0u8; CHUNK_LENGTH]?,
            gathered: vec![in alloc; 0u8; COUNT_LIMIT]?,
        })
    }

    /// Reads a slice of at most 65,536 bytes of a content file into the front of `buffer`, and returns the number of its bytes.
    /// `buffer` keeps the rest, and all after an error. Only the header and the chunks that the slice meets are read; a slice
    /// without a byte of the content needs neither. It takes no memory.
    ///
    /// It fails with `Damaged` if and only if no content has the file's size, or the header or a chunk of the slice doesn't open;
    /// with `Device` only if the folder failed.
    pub fn read<R: Reads>(
        &mut self,
        folder: &mut R,
        keys: &VaultKeys,
        file: &SealedFile,
        slice: Slice,
        buffer: &mut [u8],
    ) -> Result<u32, ReadErr>
        requires few { slice.count ≤ count_limit }
        requires room { slice.count ≤ length buffer.old }
        ensures bytes { Told (disk_in (R.log folder.old)) (λ d. (bytes : List ℕ) → IsFileOf d file.now.path file.now.size bytes →
            Ends (read_of (content_of keys.now bytes) slice.at slice.count) (R.faults folder.old) (R.faults folder.new)
            (result_map_both (λ n. take n buffer.new) (λ e. e) result)) }
        ensures count { IfOk result (λ n. n ≤ slice.count) }
        ensures rest { IfOk result (λ n. KeepsFrom n buffer.old buffer.new) }
        ensures refused { OnErr result (buffer.new ≡ buffer.old) }
        ensures log { R.log folder.new ≡ R.log folder.old }
        ensures changes { R.changes folder.new ≡ R.changes folder.old }
        ensures later { R.faults folder.old ≤ R.faults folder.new }
        ensures device { IsErrOf result ReadErr.Device → RoseUntold (disk_in (R.log folder.old)) (R.faults folder.old) (R.faults folder.new) }
    {
        reads_are_slices();
        keys.have_32_bytes();
        let Some(length) = clear_len(file.size) else {
            return Err(ReadErr::Damaged);
        };
        let count = bytes_within(length, slice);
        if count == 0 {
            return Ok(0);
        }
        let within = Slice {
            at: slice.at,
            count,
        };
        fill(
            folder,
            keys,
            &file.path,
            within,
            &mut self.sealed,
            &mut self.clear,
            &mut self.gathered,
        )?;
        buffer[..count as usize].copy_from_slice(&self.gathered[..count as usize]);
        Ok(count)
    }
}

// How many bytes of a content of this length a slice has.
fn bytes_within(length: u64, slice: Slice) -> u32
    ensures { result ≡ min (length - slice.at) slice.count }
{
    length.saturating_sub(slice.at).min(u64::from(slice.count)) as u32
}
