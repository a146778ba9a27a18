ghost use Rattle.std.specs.Prelude.{◌≡◌, ◌≤◌, ◌<◌, ◌+◌, ◌^◌, ℕ, List, length, Some, None, OnOk, OnErr, IsErrOf};
ghost use Rattle.outside.specs.Calls.{Rose, Told, Changes, Extends};
ghost use Rattle.outside.specs.Images.{disk_in};
ghost use Rattle.tree_model.specs.Asked.{write_limit};
ghost use Rattle.tree_model.specs.Contents.{written, resized};
ghost use Rattle.tree_model.specs.Step.{file_limit, gap_limit};
ghost use Rattle.file_chunks.specs.File.{clear_length, content_of};
ghost use Rattle.content_laws.specs.Rewriting.{sealed_size};
ghost use Rattle.content_laws.specs.Laws.{IsRewritten};
ghost use Rattle.content_reader.specs.Reading.{IsFileOf};
ghost use Rattle.content_writer.specs.Sealed.{IsPuttable, chunks_of, nonces_of};
ghost use Rattle.content_writer.specs.Sealing.{HasFaulted, GoesOn, OfOpen};

use crate::cutting::seal_cut;
use crate::error::WriteErr;
use crate::opening::{OpenFile, open_file};
use crate::plaintext::Plaintext;
use crate::sealed::SealedChunks;
use crate::writing::{Write, seal_written};
use content_laws::{resized_content, unopened_content, written_content};
use content_reader::SealedFile;
use file_chunks::{CHUNK_LENGTH, HEADER_LENGTH, SEALED_LENGTH, SEALING_LENGTH, reads_are_slices};
use outside::{Entropy, Reads};
use std::alloc::{AllocError, Global};
use std::marker::Model;
use vault_keys::VaultKeys;

/// The sealed chunks of one change of a content file, in room for 36 of them, which is taken once. Clauses see a `Rewriting`: which
/// chunks are put into the host file, and how many bytes it has then.
#[derive(Drop)]
pub struct ContentWriter {
    first: u64,
    size: u64,
    plaintext: Plaintext,
    sealed: SealedChunks,
}

impl Model for ContentWriter {
    ghost use Rattle.content_laws.specs.Rewriting.{Rewriting};

    ghost Value = { Rewriting };

    ghost view = { λ w. record { first = w.first; sealed = w.sealed; size = w.size } };
}

impl ContentWriter {
    /// Takes the room, 1.2 MiB, for a change without a chunk.
    pub fn new(alloc: Global) -> Result<ContentWriter, AllocError> {
        Ok(ContentWriter {
            first: 0,
            size: 0,
            plaintext: Plaintext::new(alloc)?,
            sealed: SealedChunks::new(alloc)?,
        })
    }

    /// The index of the first chunk that is put into the host file.
    pub fn first(&self) -> u64
        ensures { result ≡ self.now.first }
    {
        self.first
    }

    /// The sealed chunks, one after the other, each of 32,796 bytes but the last, which may be shorter.
    pub fn sealed(&self) -> &[u8]
        ensures { chunks_of SEALED_LENGTH result.now ≡ self.now.sealed }
    {
        self.sealed.bytes()
    }

    /// How many bytes the host file has after the change.
    pub fn size(&self) -> u64
        ensures { result ≡ self.now.size }
    {
        self.size
    }

    /// Seals the chunks that a write meets, of 1 to 65,537 bytes from byte `at` of a file's content on; a gap of at most 1,048,576
    /// bytes before them is filled with zeros. Only the header and the chunks that keep a byte are read, and nothing of the folder
    /// changes. A nonce is drawn for each chunk. It takes no memory. After an error the writer may hold anything.
    ///
    /// `Damaged` is returned if the header or a chunk that keeps a byte doesn't open; `Device` if the folder failed; `Random` if a
    /// draw did.
    pub fn seal_write<R: Reads, E: Entropy>(
        &mut self,
        folder: &mut R,
        keys: &VaultKeys,
        file: &SealedFile,
        at: u64,
        input: &[u8],
        entropy: &mut E,
    ) -> Result<(), WriteErr>
        requires some { 0 < length input.now }
        requires few { length input.now ≤ write_limit }
        requires sized { (n : ℕ) × (clear_length file.now.size ≡ Some n) × (at ≤ n + gap_limit) }
        requires limit { at + length input.now ≤ file_limit }
        ensures written { OnOk result (Told (disk_in (R.log folder.old)) (λ d. (bytes : List ℕ) → IsFileOf d file.now.path file.now.size bytes
            → IsRewritten keys.now bytes self.new (written (content_of keys.now bytes) at input.now))) }
        ensures damaged { IsErrOf result WriteErr.Damaged → Told (disk_in (R.log folder.old)) (λ d. (bytes : List ℕ) → IsFileOf d file.now.path file.now.size bytes
            → written (content_of keys.now bytes) at input.now ≡ None) }
        ensures puttable { OnOk result (IsPuttable file.now.size self.new) }
        ensures drawn { OnOk result (Extends (E.drawn entropy.old) (E.drawn entropy.new) (nonces_of self.new.sealed)) }
        ensures partly { OnErr result (Changes (E.drawn entropy.old) (E.drawn entropy.new) GoesOn) }
        ensures device { IsErrOf result WriteErr.Device → HasFaulted (disk_in (R.log folder.old)) file.now.path (R.faults folder.old) (R.faults folder.new) }
        ensures random { IsErrOf result WriteErr.Random → Rose (E.faults entropy.old) (E.faults entropy.new) }
        ensures log { R.log folder.new ≡ R.log folder.old }
        ensures changes { R.changes folder.new ≡ R.changes folder.old }
        ensures later { R.faults folder.old ≤ R.faults folder.new }
        ensures entropy { E.faults entropy.old ≤ E.faults entropy.new }
    {
        unopened_content();
        let content = open_file(folder, keys, file)?;
        let write = Write { at, input };
        self.seal(folder, file, &content, &write, entropy)
    }

    /// Seals what another length of a file's content needs, in bytes: at a border of chunks nothing, else the chunk that a cut goes
    /// through; for growth, by at most 1,048,576 bytes, the chunks that its zeros meet. Reads, draws and errors are those of
    /// `seal_write`.
    pub fn seal_length<R: Reads, E: Entropy>(
        &mut self,
        folder: &mut R,
        keys: &VaultKeys,
        file: &SealedFile,
        len: u64,
        entropy: &mut E,
    ) -> Result<(), WriteErr>
        requires sized { (n : ℕ) × (clear_length file.now.size ≡ Some n) × (len ≤ n + gap_limit) }
        requires limit { len ≤ file_limit }
        ensures resized { OnOk result (Told (disk_in (R.log folder.old)) (λ d. (bytes : List ℕ) → IsFileOf d file.now.path file.now.size bytes
            → IsRewritten keys.now bytes self.new (resized (content_of keys.now bytes) len))) }
        ensures damaged { IsErrOf result WriteErr.Damaged → Told (disk_in (R.log folder.old)) (λ d. (bytes : List ℕ) → IsFileOf d file.now.path file.now.size bytes
            → resized (content_of keys.now bytes) len ≡ None) }
        ensures puttable { OnOk result (IsPuttable file.now.size self.new) }
        ensures drawn { OnOk result (Extends (E.drawn entropy.old) (E.drawn entropy.new) (nonces_of self.new.sealed)) }
        ensures partly { OnErr result (Changes (E.drawn entropy.old) (E.drawn entropy.new) GoesOn) }
        ensures device { IsErrOf result WriteErr.Device → HasFaulted (disk_in (R.log folder.old)) file.now.path (R.faults folder.old) (R.faults folder.new) }
        ensures random { IsErrOf result WriteErr.Random → Rose (E.faults entropy.old) (E.faults entropy.new) }
        ensures log { R.log folder.new ≡ R.log folder.old }
        ensures changes { R.changes folder.new ≡ R.changes folder.old }
        ensures later { R.faults folder.old ≤ R.faults folder.new }
        ensures entropy { E.faults entropy.old ≤ E.faults entropy.new }
    {
        unopened_content();
        resized_content();
        reads_are_slices();
        let content = open_file(folder, keys, file)?;
        if content.length < len {
            // Growth is a write of its last zero, after a gap.
            let write = Write {
                at: len - 1,
                input: &[0],
            };
            return self.seal(folder, file, &content, &write, entropy);
        }
        seal_cut(
            folder,
            &file.path,
            &content,
            len,
            &mut self.plaintext,
            entropy,
            &mut self.sealed,
        )?;
        self.first = len / CHUNK_LENGTH as u64;
        self.size = sealed_len(len);
        Ok(())
    }

    // Seals the chunks that a write into an open file meets.
    fn seal<R: Reads, E: Entropy>(
        &mut self,
        folder: &mut R,
        file: &SealedFile,
        content: &OpenFile,
        write: &Write<'_>,
        entropy: &mut E,
    ) -> Result<(), WriteErr>
        requires some { 0 < length write.now.input.now }
        requires few { length write.now.input.now ≤ write_limit }
        requires sized { clear_length file.now.size ≡ Some content.now.length }
        requires near { write.now.at ≤ content.now.length + gap_limit }
        requires limit { write.now.at + length write.now.input.now ≤ file_limit }
        ensures written { OnOk result (OfOpen (disk_in (R.log folder.old)) file.now.path content.now.header content.now.length (λ keys bytes. length bytes ≡ file.now.size
            → IsRewritten keys bytes self.new (written (content_of keys bytes) write.now.at write.now.input.now))) }
        ensures damaged { IsErrOf result WriteErr.Damaged → OfOpen (disk_in (R.log folder.old)) file.now.path content.now.header content.now.length
            (λ keys bytes. written (content_of keys bytes) write.now.at write.now.input.now ≡ None) }
        ensures puttable { OnOk result (IsPuttable file.now.size self.new) }
        ensures drawn { OnOk result (Extends (E.drawn entropy.old) (E.drawn entropy.new) (nonces_of self.new.sealed)) }
        ensures partly { OnErr result (Changes (E.drawn entropy.old) (E.drawn entropy.new) GoesOn) }
        ensures device { IsErrOf result WriteErr.Device → HasFaulted (disk_in (R.log folder.old)) file.now.path (R.faults folder.old) (R.faults folder.new) }
        ensures random { IsErrOf result WriteErr.Random → Rose (E.faults entropy.old) (E.faults entropy.new) }
        ensures log { R.log folder.new ≡ R.log folder.old }
        ensures changes { R.changes folder.new ≡ R.changes folder.old }
        ensures later { R.faults folder.old ≤ R.faults folder.new }
        ensures entropy { E.faults entropy.old ≤ E.faults entropy.new }
    {
        written_content();
        seal_written(
            folder,
            &file.path,
            content,
            write,
            &mut self.plaintext,
            entropy,
            &mut self.sealed,
        )?;
        self.first = write.at.min(content.length) / CHUNK_LENGTH as u64;
        let end = write.at + write.input.len() as u64;
        self.size = file.size.max(sealed_len(end));
        Ok(())
    }
}

// The size of the host file of a content of this length, both in bytes, whose last chunk isn't empty.
fn sealed_len(length: u64) -> u64
    requires { length < 2 ^ 63 }
    ensures { result ≡ sealed_size length }
{
    let chunks = length.div_ceil(CHUNK_LENGTH as u64);
    HEADER_LENGTH as u64 + length + SEALING_LENGTH as u64 * chunks
}
