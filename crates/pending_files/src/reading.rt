//! Reads of a file whose ranges are still to be written.

ghost use Rattle.std.specs.Prelude.{◌≡◌, ◌≤◌, ◌<◌, ◌-◌, ◌+◌, ℕ, List, Some, length, take, drop, min, IfOk, IsErrOf, IsTrue};
ghost use Rattle.outside.specs.Disk.{node_at, file, IsFile};
ghost use Rattle.outside.specs.Calls.{HasCause, Told, IsUnfit, KeepsFrom};
ghost use Rattle.outside.specs.Changes.{overwritten};
ghost use Rattle.outside.specs.Images.{disk_in};
ghost use Rattle.deeds.specs.Plain.{plain_ranges};
ghost use Rattle.deeds.specs.Reshape.{written, CanWrite, IsUncovered};
ghost use Rattle.deeds.specs.Deeds.{reshaped};
ghost use Rattle.pending_files.specs.Later.{Shows};

use deeds::Range;
use outside::{FolderErr, Reads};
use vault_path::VaultPath;

/// Reads a file from byte `at` on as it will be once its ranges are written and it is cut to a length. The folder is read
/// only if the ranges leave a gap in what is shown.
pub(crate) fn read_reshaped<R: Reads>(
    folder: &mut R,
    path: &VaultPath,
    len: u64,
    ranges: &[Range],
    at: u64,
    out: &mut [u8],
) -> Result<usize, FolderErr>
    ensures count { IfOk result (λ n. n ≤ length out.old) }
    ensures rest { IfOk result (λ n. KeepsFrom n out.old out.new) }
    ensures bytes { IfOk result (λ n. Told (disk_in (R.log folder.old)) (λ d. (was : List ℕ)
        → node_at d path.now ≡ Some (file was) → CanWrite (plain_ranges ranges.now) was → len ≤ length (written (plain_ranges ranges.now) was)
        → (n ≡ min (length out.old) (len - at)) × (take n out.new ≡ take n (drop at (reshaped len (plain_ranges ranges.now) was))))) }
    ensures unfit { IsErrOf result FolderErr.Unfit
        → IsUnfit (disk_in (R.log folder.old)) (R.faults folder.old) (R.faults folder.new) (λ d. IsFile d path.now) }
    ensures no_memory { IsErrOf result FolderErr.Memory → ⊥ }
    ensures log { R.log folder.new ≡ R.log folder.old }
    ensures changes { R.changes folder.new ≡ R.changes folder.old }
    ensures cause { HasCause (R.faults folder.old) (R.faults folder.new) (IsErrOf result FolderErr.Failed) }
{
    let count = shown_count(len, at, out.len());
    let shown = &mut out[..count];
    if !covers(ranges, at, count) {
        folder.read(path, at, shown)?;
    }
    overlay(ranges, at, shown);
    Ok(count)
}

// How many bytes a file of this length has from byte `at` on, at most as many as there is room for.
fn shown_count(len: u64, at: u64, room: usize) -> usize
    ensures { result ≡ min room (len - at) }
{
    let left = len.saturating_sub(at);
    if left < room as u64 {
        left as usize
    } else {
        room
    }
}

// Whether ranges cover a window of this length that begins at byte `at`. Ranges that don't rise may be missed.
fn covers(ranges: &[Range], at: u64, count: usize) -> bool
    ensures { IsTrue result → (i : ℕ) → at ≤ i → i < at + count → IsUncovered (plain_ranges ranges.now) i → ⊥ }
{
    let mut end = at;
    for Range { at: start, bytes } in ranges {
        if *start <= end {
            end = end.max(start.saturating_add(bytes.len() as u64));
        }
    }
    end - at >= count as u64
}

// Lays ranges of a file in their order over a window of it that begins at byte `at`.
fn overlay(ranges: &[Range], at: u64, window: &mut [u8])
    ensures long { length window.new ≡ length window.old }
    ensures shown { (was : List ℕ) → CanWrite (plain_ranges ranges.now) was → Shows at was window.old
        → Shows at (written (plain_ranges ranges.now) was) window.new }
{
    for range in ranges {
        lay(range.at, &range.bytes, at, window);
    }
}

// Lays bytes that begin at byte `start` of a file over a window of it that begins at byte `at`.
fn lay(start: u64, bytes: &[u8], at: u64, window: &mut [u8])
    ensures long { length window.new ≡ length window.old }
    ensures shown { (was : List ℕ) → start ≤ length was → Shows at was window.old → Shows at (overwritten was start bytes.now) window.new }
{
    let skip = at.saturating_sub(start);
    let shift = start.saturating_sub(at);
    if skip >= bytes.len() as u64 || shift >= window.len() as u64 {
        return;
    }
    let skip = skip as usize;
    let shift = shift as usize;
    let count = (bytes.len() - skip).min(window.len() - shift);
    window[shift..shift + count].copy_from_slice(&bytes[skip..skip + count]);
}
