ghost use Rattle.std.specs.Prelude.{◌≡◌, ◌↔◌, ◌+◌, ◌&&◌, nat_le, length, IfOk, IsErr, IsTrue};
ghost use Rattle.outside.specs.Calls.{HasCause, Told};
ghost use Rattle.outside.specs.Images.{now};
ghost use Rattle.deeds.specs.Deeds.{Reshapes, CanDeed};
ghost use Rattle.deeds.specs.Reshape.{EndWithin};
ghost use Rattle.deeds.specs.Plain.{plain_ranges};
ghost use Rattle.journal_mending.specs.Lengths.{fits_len};

use chunk_journal::Device;
use deeds::Range;
use outside::{Kind, Reads};
use vault_path::VaultPath;

// Whether a range begins within a file of this length, and ends within the length that it is to have.
fn fits_range(range: &Range, have: u64, len: u64) -> bool
    ensures { result ≡ (nat_le range.now.at have && nat_le (range.now.at + length range.now.bytes.items) len) }
{
    match range.at.checked_add(range.bytes.len() as u64) {
        Some(end) => range.at <= have && end <= len,
        None => false,
    }
}

// Whether ranges within `len` can be written in order to a file of this length, which then has so many bytes.
fn fits_len(ranges: &[Range], have: u64, len: u64) -> bool
    ensures { result ≡ fits_len len (plain_ranges ranges.now) have }
{
    let mut by_then = have;
    for range in ranges {
        if !fits_range(range, by_then, len) {
            return false;
        }
        let end = range.at + range.bytes.as_slice().len() as u64;
        by_then = by_then.max(end);
    }
    len <= by_then
}

/// Whether a file can be reshaped.
pub(crate) fn can_reshape<R: Reads>(
    folder: &mut R,
    path: &VaultPath,
    len: u64,
    ranges: &[Range],
) -> Result<bool, Device>
    ensures exact { IfOk result (λ can. Told (R.log folder.old) (λ log. IsTrue can ↔ CanDeed (Reshapes path.now len (plain_ranges ranges.now)) (now log))) }
    ensures within { IfOk result (λ can. IsTrue can → EndWithin len (plain_ranges ranges.now)) }
    ensures log { R.log folder.new ≡ R.log folder.old }
    ensures changes { R.changes folder.new ≡ R.changes folder.old }
    ensures cause { HasCause (R.faults folder.old) (R.faults folder.new) (IsErr result) }
{
    match folder.kind(path)? {
        Some(Kind::File(have)) => Ok(fits_len(ranges, have, len)),
        Some(Kind::Dir) => Ok(false),
        None => Ok(false),
    }
}
