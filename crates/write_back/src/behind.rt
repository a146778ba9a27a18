ghost use Rattle.std.specs.Prelude.{◌≡◌, length};
ghost use Rattle.content_laws.specs.Rewriting.{CanPutChunks};
ghost use Rattle.pending_files.specs.Pending.{HasRoom, ArePending};
ghost use Rattle.write_back.specs.Deeds.{rewriting_in};
ghost use Rattle.write_back.specs.Sealed.{rewriting_of};

use crate::putting::{SealedChunks, place_of};
use file_chunks::SEALED_LENGTH;
use pending_files::Pending;
use vault_path::VaultPath;

/// Puts the sealed chunks of a change after what waits, as many as there is room for. `len` is how many bytes the host file has
/// once what waits is done. If there are no chunks it only cuts. It takes no memory.
pub fn put_behind(pending: &mut Pending, path: &VaultPath, len: u64, change: &SealedChunks<'_>)
    requires room { HasRoom pending.old path.now (length (rewriting_of change.now).sealed) }
    requires can { CanPutChunks change.now.size len change.now.first (rewriting_of change.now).sealed }
    ensures deeds { pending.new ≡ rewriting_in path.now len (rewriting_of change.now) pending.old }
    ensures pending { ArePending pending.new }
{
    if change.sealed.is_empty() {
        pending.cut(path, change.size);
        return;
    }
    let mut reached = len;
    for (index, sealed) in change.sealed.chunks(SEALED_LENGTH).enumerate() {
        let place = place_of(change.first + index as u64);
        reached = reached.max(place + sealed.len() as u64);
        pending.put_chunk(path, change.size.min(reached), place, sealed);
    }
}
