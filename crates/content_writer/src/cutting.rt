ghost use Rattle.std.specs.Prelude.{◌≡◌, ◌≤◌, ℕ, Some, None, OnOk, OnErr, IsErrOf};
ghost use Rattle.outside.specs.Calls.{Rose, Extends};
ghost use Rattle.outside.specs.Images.{disk_in};
ghost use Rattle.tree_model.specs.Contents.{resized};
ghost use Rattle.tree_model.specs.Step.{file_limit};
ghost use Rattle.file_chunks.specs.File.{clear_length, content_of};
ghost use Rattle.content_laws.specs.Laws.{IsRewritten, cut_by};
ghost use Rattle.content_writer.specs.Sealed.{IsPuttable, nonces_of};
ghost use Rattle.content_writer.specs.Sealing.{HasFaulted, OfOpen};

use crate::error::WriteErr;
use crate::opening::{OpenFile, fetch};
use crate::plaintext::Plaintext;
use crate::sealed::SealedChunks;
use content_laws::{cut_chunk, resized_content};
use file_chunks::CHUNK_LENGTH;
use outside::{Entropy, Reads};
use vault_path::VaultPath;

/// Seals the chunk that a cut of a content to `len` bytes goes through, if it goes through one. After an error `plaintext` and
/// `sealed` may hold anything.
pub(crate) fn seal_cut<R: Reads, E: Entropy>(
    folder: &mut R,
    path: &VaultPath,
    content: &OpenFile,
    len: u64,
    plaintext: &mut Plaintext,
    entropy: &mut E,
    sealed: &mut SealedChunks,
) -> Result<(), WriteErr>
    requires shorter { len ≤ content.now.length }
    requires limit { len ≤ file_limit }
    ensures cut { OnOk result (OfOpen (disk_in (R.log folder.old)) path.now content.now.header content.now.length
        (λ keys bytes. IsRewritten keys bytes (cut_by len sealed.new) (resized (content_of keys bytes) len))) }
    ensures puttable { OnOk result ((size : ℕ) → clear_length size ≡ Some content.now.length → IsPuttable size (cut_by len sealed.new)) }
    ensures drawn { OnOk result (Extends (E.drawn entropy.old) (E.drawn entropy.new) (nonces_of sealed.new)) }
    ensures damaged { IsErrOf result WriteErr.Damaged → OfOpen (disk_in (R.log folder.old)) path.now content.now.header content.now.length
        (λ keys bytes. resized (content_of keys bytes) len ≡ None) }
    ensures unspent { OnErr result (E.drawn entropy.new ≡ E.drawn entropy.old) }
    ensures device { IsErrOf result WriteErr.Device → HasFaulted (disk_in (R.log folder.old)) path.now (R.faults folder.old) (R.faults folder.new) }
    ensures random { IsErrOf result WriteErr.Random → Rose (E.faults entropy.old) (E.faults entropy.new) }
    ensures log { R.log folder.new ≡ R.log folder.old }
    ensures changes { R.changes folder.new ≡ R.changes folder.old }
    ensures later { R.faults folder.old ≤ R.faults folder.new }
    ensures entropy { E.faults entropy.old ≤ E.faults entropy.new }
{
    cut_chunk();
    resized_content();
    sealed.clear();
    let index = len / CHUNK_LENGTH as u64;
    let kept = (len % CHUNK_LENGTH as u64) as usize;
    if kept == 0 {
        return Ok(());
    }
    fetch(folder, path, content, index, plaintext)?;
    plaintext.truncate(kept);
    sealed.push(&content.header, index, plaintext.bytes(), entropy)?;
    Ok(())
}
