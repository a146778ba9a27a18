ghost use Rattle.std.specs.Prelude.{◌≡◌, ◌≤◌, ◌<◌, ◌+◌, ◌*◌, ◌^◌, ◌++◌, ℕ, List, length, take, drop, Some, None, OnOk, OnErr, IfErr};
ghost use Rattle.vault_keys.specs.Keys.{KeyPair};
ghost use Rattle.tree_model.specs.Asked.{count_limit};
ghost use Rattle.tree_model.specs.Rows.{slice_of};
ghost use Rattle.file_chunks.specs.File.{content_of};
ghost use Rattle.file_chunks.specs.declared.size.TheConstants.{CHUNK_LENGTH, SEALED_LENGTH};
ghost use Rattle.content_reader.specs.Reading.{IsSpan};

use crate::error::ReadErr;
use file_chunks::{CHUNK_LENGTH, Header, SEALED_LENGTH, open_chunk, reads_are_slices};

/// Opens the slice from byte `at` on that fills `out`, at most 65,536 bytes, out of the sealed chunks that it meets. `clear` is
/// room for one chunk's clear bytes. It fails if and only if a chunk doesn't open; `out` may hold anything then.
pub(crate) fn gather(
    header: &Header,
    at: u64,
    sealed: &[u8],
    clear: &mut [u8],
    out: &mut [u8],
) -> Result<(), ReadErr>
    requires small { at + length out.old < 2 ^ 64 }
    requires few { length out.old ≤ count_limit }
    requires clear { length clear.old ≡ CHUNK_LENGTH }
    ensures opened { (keys : KeyPair) (bytes : List ℕ) → IsSpan keys header.now at (length out.old) sealed.now bytes
        → OnOk result (slice_of (content_of keys bytes) at (length out.old) ≡ Some out.new) }
    ensures damaged { (keys : KeyPair) (bytes : List ℕ) → IsSpan keys header.now at (length out.old) sealed.now bytes
        → OnErr result (slice_of (content_of keys bytes) at (length out.old) ≡ None) }
    ensures error { IfErr result (λ e. e ≡ ReadErr.Damaged) }
{
    reads_are_slices();
    let first = at / CHUNK_LENGTH as u64;
    let count = out.len();
    let mut done = 0;
    while done < count {
        let next = at + done as u64;
        let index = next / CHUNK_LENGTH as u64;
        let offset = (next % CHUNK_LENGTH as u64) as usize;
        let more = (count - done).min(CHUNK_LENGTH - offset);
        let chunk = chunk_in(sealed, (index - first) as usize);
        let opened = open_chunk(header, index, chunk, clear)?;
        if opened < offset + more {
            return Err(ReadErr::Damaged);
        }
        put(out, done, &clear[offset..offset + more]);
        done += more;
    }
    Ok(())
}

// The sealed chunk of an index among sealed bytes, of which the last may be short, or there may be none.
fn chunk_in(sealed: &[u8], index: usize) -> &[u8]
    requires { index < 2 ^ 32 }
    ensures { result.now ≡ take SEALED_LENGTH (drop (SEALED_LENGTH * index) sealed.now) }
{
    let start = (SEALED_LENGTH * index).min(sealed.len());
    let end = (start + SEALED_LENGTH).min(sealed.len());
    &sealed[start..end]
}

// Puts bytes into `out` from an index on.
fn put(out: &mut [u8], start: usize, bytes: &[u8])
    requires { start + length bytes.now ≤ length out.old }
    ensures { out.new ≡ take start out.old ++ bytes.now ++ drop (start + length bytes.now) out.old }
{
    out[start..start + bytes.len()].copy_from_slice(bytes);
}
