ghost use Rattle.std.specs.Prelude.{◌≡◌, ◌≤◌, ◌<◌, ◌+◌, ◌/◌, ◌*◌, length, min, OnOk, OnErr, IsErrOf};
ghost use Rattle.std.specs.Int.{div_ceil};
ghost use Rattle.outside.specs.Calls.{Rose, Changes, Extends};
ghost use Rattle.outside.specs.Images.{disk_in};
ghost use Rattle.tree_model.specs.Step.{file_limit};
ghost use Rattle.content_laws.specs.Laws.{IsMet};
ghost use Rattle.content_writer.specs.Sealed.{AreFull, nonces_of};
ghost use Rattle.content_writer.specs.Sealing.{HasFaulted, GoesOn, writing_of, HasSealed, AreSealedTo, IsLostChunk, IsLost};

use crate::error::WriteErr;
use crate::opening::{OpenFile, fetch};
use crate::plaintext::Plaintext;
use crate::sealed::{CHUNK_LIMIT, SealedChunks};
use content_laws::written_chunk;
use file_chunks::CHUNK_LENGTH;
use outside::{Entropy, Reads};
use vault_path::VaultPath;

/// Bytes that are written into a content from an offset on.
#[derive(Clone, Copy)]
pub(crate) struct Write<'a> {
    pub(crate) at: u64,
    pub(crate) input: &'a [u8],
}

/// Seals the chunks that a write meets. After an error `plaintext` and `sealed` may hold anything.
pub(crate) fn seal_written<R: Reads, E: Entropy>(
    folder: &mut R,
    path: &VaultPath,
    content: &OpenFile,
    write: &Write<'_>,
    plaintext: &mut Plaintext,
    entropy: &mut E,
    sealed: &mut SealedChunks,
) -> Result<(), WriteErr>
    requires some { 0 < length write.now.input.now }
    requires limit { write.now.at + length write.now.input.now ≤ file_limit }
    requires few { div_ceil (write.now.at + length write.now.input.now) CHUNK_LENGTH ≤ min write.now.at content.now.length / CHUNK_LENGTH + CHUNK_LIMIT }
    ensures sealed { OnOk result (AreSealedTo (writing_of (disk_in (R.log folder.old)) path.now content.now write.now)
        (div_ceil (write.now.at + length write.now.input.now) CHUNK_LENGTH) sealed.new) }
    ensures drawn { OnOk result (Extends (E.drawn entropy.old) (E.drawn entropy.new) (nonces_of sealed.new)) }
    ensures damaged { IsErrOf result WriteErr.Damaged → IsLost (writing_of (disk_in (R.log folder.old)) path.now content.now write.now) }
    ensures partly { OnErr result (Changes (E.drawn entropy.old) (E.drawn entropy.new) GoesOn) }
    ensures device { IsErrOf result WriteErr.Device → HasFaulted (disk_in (R.log folder.old)) path.now (R.faults folder.old) (R.faults folder.new) }
    ensures random { IsErrOf result WriteErr.Random → Rose (E.faults entropy.old) (E.faults entropy.new) }
    ensures log { R.log folder.new ≡ R.log folder.old }
    ensures changes { R.changes folder.new ≡ R.changes folder.old }
    ensures later { R.faults folder.old ≤ R.faults folder.new }
    ensures entropy { E.faults entropy.old ≤ E.faults entropy.new }
{
    let first = write.at.min(content.length) / CHUNK_LENGTH as u64;
    let end = (write.at + write.input.len() as u64).div_ceil(CHUNK_LENGTH as u64);
    sealed.clear();
    for index in first..end {
        seal_one(
            folder, path, content, write, index, plaintext, entropy, sealed,
        )?;
    }
    Ok(())
}

// Seals the chunk of an index that a write meets after the others. If the write replaces it whole, the old one isn't read.
fn seal_one<R: Reads, E: Entropy>(
    folder: &mut R,
    path: &VaultPath,
    content: &OpenFile,
    write: &Write<'_>,
    index: u64,
    plaintext: &mut Plaintext,
    entropy: &mut E,
    sealed: &mut SealedChunks,
) -> Result<(), WriteErr>
    requires limit { write.now.at + length write.now.input.now ≤ file_limit }
    requires met { IsMet content.now.length write.now.at (length write.now.input.now) index }
    requires full { AreFull sealed.old }
    requires room { length sealed.old < CHUNK_LIMIT }
    ensures sealed { OnOk result (HasSealed (writing_of (disk_in (R.log folder.old)) path.now content.now write.now) index
        sealed.old sealed.new (E.drawn entropy.old) (E.drawn entropy.new)) }
    ensures damaged { IsErrOf result WriteErr.Damaged → IsLostChunk (writing_of (disk_in (R.log folder.old)) path.now content.now write.now) index }
    ensures unspent { OnErr result (E.drawn entropy.new ≡ E.drawn entropy.old) }
    ensures device { IsErrOf result WriteErr.Device → HasFaulted (disk_in (R.log folder.old)) path.now (R.faults folder.old) (R.faults folder.new) }
    ensures random { IsErrOf result WriteErr.Random → Rose (E.faults entropy.old) (E.faults entropy.new) }
    ensures log { R.log folder.new ≡ R.log folder.old }
    ensures changes { R.changes folder.new ≡ R.changes folder.old }
    ensures later { R.faults folder.old ≤ R.faults folder.new }
    ensures entropy { E.faults entropy.old ≤ E.faults entropy.new }
{
    written_chunk();
    let start = CHUNK_LENGTH as u64 * index;
    let next = start + CHUNK_LENGTH as u64;
    let skipped = &write.input[start.saturating_sub(write.at) as usize..];
    if write.at <= start && content.length.min(next) <= write.at + write.input.len() as u64 {
        let whole = &skipped[..skipped.len().min(CHUNK_LENGTH)];
        sealed.push(&content.header, index, whole, entropy)?;
        return Ok(());
    }
    fetch(folder, path, content, index, plaintext)?;
    plaintext.patch(write.at.saturating_sub(start), skipped);
    sealed.push(&content.header, index, plaintext.bytes(), entropy)?;
    Ok(())
}
