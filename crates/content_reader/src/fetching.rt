ghost use Rattle.std.specs.Prelude.{◌≡◌, ◌≤◌, ◌<◌, ◌+◌, ◌*◌, ◌/◌, ◌^◌, ℕ, List, length, take, IsErrOf};
ghost use Rattle.std.specs.Result.{result_map_both};
ghost use Rattle.tree_model.specs.Asked.{count_limit};
ghost use Rattle.tree_model.specs.Rows.{slice_of};
ghost use Rattle.file_chunks.specs.File.{content_of};
ghost use Rattle.outside.specs.Calls.{Told};
ghost use Rattle.outside.specs.Images.{disk_in};
ghost use Rattle.file_chunks.specs.Header.{header_opens};
ghost use Rattle.file_chunks.specs.declared.size.TheConstants.{CHUNK_LENGTH, HEADER_LENGTH, SEALED_LENGTH};
ghost use Rattle.content_reader.specs.declared.reader.TheConstants.{SPAN_LIMIT};
ghost use Rattle.content_reader.specs.Reading.{Ends, RoseUntold, HasHeader, Meets, IsWithin};

use crate::error::ReadErr;
use crate::gathering::gather;
use crate::reader::Slice;
use file_chunks::{HEADER_LENGTH, Header, SEALED_LENGTH, open_header, reads_are_slices, span};
use outside::Reads;
use vault_keys::VaultKeys;
use vault_path::VaultPath;

/// The header of a host file.
pub(crate) fn header_of<R: Reads>(
    folder: &mut R,
    keys: &VaultKeys,
    path: &VaultPath,
) -> Result<Header, ReadErr>
    ensures opened { Told (disk_in (R.log folder.old)) (λ d. (bytes : List ℕ) → HasHeader d path.now bytes →
        Ends (header_opens keys.now (take HEADER_LENGTH bytes)) (R.faults folder.old) (R.faults folder.new) result) }
    ensures log { R.log folder.new ≡ R.log folder.old }
    ensures changes { R.changes folder.new ≡ R.changes folder.old }
    ensures later { R.faults folder.old ≤ R.faults folder.new }
    ensures device { IsErrOf result ReadErr.Device → RoseUntold (disk_in (R.log folder.old)) (R.faults folder.old) (R.faults folder.new) }
{
    let mut bytes = [0; HEADER_LENGTH];
    let count = folder.read(path, 0, &mut bytes)?;
    if count < HEADER_LENGTH {
        return Err(ReadErr::Damaged);
    }
    Ok(open_header(keys, &bytes)?)
}

/// The index of the first chunk that a slice of at most 65,536 bytes meets, and how many chunks it meets.
pub(crate) fn few_chunks(at: u64, count: u64) -> (u64, u64)
    requires few { count ≤ count_limit }
    requires small { at + count < 2 ^ 64 }
    ensures chunks { Meets at count result.0 result.1 }
    ensures first { result.0 ≡ at / CHUNK_LENGTH }
    ensures few { result.1 ≤ SPAN_LIMIT }
{
    span(at, count)
}

/// Puts a slice of a content file, 1 to 65,536 bytes that are all within its content, into the front of `out`, by way of `sealed`,
/// room for three sealed chunks, and `clear`, room for the clear bytes of one. After an error `out` may hold anything.
pub(crate) fn fill<R: Reads>(
    folder: &mut R,
    keys: &VaultKeys,
    path: &VaultPath,
    slice: Slice,
    sealed: &mut [u8],
    clear: &mut [u8],
    out: &mut [u8],
) -> Result<(), ReadErr>
    requires some { 0 < slice.count }
    requires few { slice.count ≤ count_limit }
    requires small { slice.at + slice.count < 2 ^ 64 }
    requires place { HEADER_LENGTH + SEALED_LENGTH * (slice.at / CHUNK_LENGTH) < 2 ^ 64 }
    requires sealed { length sealed.old ≡ SPAN_LIMIT * SEALED_LENGTH }
    requires clear { length clear.old ≡ CHUNK_LENGTH }
    requires room { slice.count ≤ length out.old }
    ensures bytes { Told (disk_in (R.log folder.old)) (λ d. (bytes : List ℕ) → IsWithin d path.now slice.at slice.count bytes →
        Ends (slice_of (content_of keys.now bytes) slice.at slice.count) (R.faults folder.old) (R.faults folder.new)
        (result_map_both (λ _. take slice.count out.new) (λ e. e) result)) }
    ensures log { R.log folder.new ≡ R.log folder.old }
    ensures changes { R.changes folder.new ≡ R.changes folder.old }
    ensures later { R.faults folder.old ≤ R.faults folder.new }
    ensures device { IsErrOf result ReadErr.Device → RoseUntold (disk_in (R.log folder.old)) (R.faults folder.old) (R.faults folder.new) }
{
    reads_are_slices();
    keys.have_32_bytes();
    let header = header_of(folder, keys, path)?;
    let (first, chunks) = few_chunks(slice.at, u64::from(slice.count));
    let room = &mut sealed[..SEALED_LENGTH * chunks as usize];
    let place = HEADER_LENGTH as u64 + SEALED_LENGTH as u64 * first;
    let read = folder.read(path, place, room)?;
    let front = &mut out[..slice.count as usize];
    gather(&header, slice.at, &room[..read], clear, front)?;
    Ok(())
}
