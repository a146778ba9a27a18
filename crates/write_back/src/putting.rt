ghost use Rattle.std.specs.Prelude.{◌≡◌, ◌≤◌, ◌<◌, ◌^◌, ℕ, [], length};
ghost use Rattle.content_laws.specs.Rewriting.{CanPutChunks, place_of_chunk};
ghost use Rattle.pending_files.specs.Pending.{IsInside};
ghost use Rattle.write_back.specs.Deeds.{deeds_of};
ghost use Rattle.write_back.specs.Sealed.{rewriting_of};

use file_chunks::{HEADER_LENGTH, SEALED_LENGTH};
use pending_files::Pending;
use vault_path::VaultPath;

/// Sealed chunks of one content file that follow one another, and the size of its host file once they are put there.
#[derive(Clone, Copy, Debug)]
pub struct SealedChunks<'a> {
    /// The index of the first chunk.
    pub first: u64,
    /// The chunks, one after the other: each full (32,796 bytes) but the last, which may be shorter.
    pub sealed: &'a [u8],
    /// The size of the host file afterwards, in bytes.
    pub size: u64,
}

/// Puts the sealed chunks of a change, at most 64, into what waits, which is nothing yet: one reshaping of the file, which
/// writes each chunk at its place and cuts the file to the size. If there are no chunks it only cuts. It takes no memory.
pub fn put_chunks(pending: &mut Pending, path: &VaultPath, change: &SealedChunks<'_>)
    requires none { pending.old ≡ [] }
    requires inside { IsInside path.now }
    requires few { length (rewriting_of change.now).sealed ≤ 64 }
    requires can { (old_size : ℕ)
        × CanPutChunks change.now.size old_size change.now.first (rewriting_of change.now).sealed }
    ensures deeds { pending.new ≡ deeds_of path.now (rewriting_of change.now) }
{
    // Alone it is a change without chunks. Those put after it are within the size, so none is cut.
    pending.cut(path, change.size);
    for (index, sealed) in change.sealed.chunks(SEALED_LENGTH).enumerate() {
        let place = place_of(change.first + index as u64);
        pending.put_chunk(path, change.size, place, sealed);
    }
}

/// Where the chunk of an index is in its host file, in bytes from its beginning.
pub(crate) fn place_of(index: u64) -> u64
    requires { place_of_chunk index < 2 ^ 64 }
    ensures { result ≡ place_of_chunk index }
{
    HEADER_LENGTH as u64 + SEALED_LENGTH as u64 * index
}
