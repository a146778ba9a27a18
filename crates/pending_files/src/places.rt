//! Where the changes of a file are among those that wait, and a chunk among a file's.

ghost use Rattle.std.specs.Prelude.{◌≡◌, Some, None, MatchOption};
ghost use Rattle.deeds.specs.Plain.{plains, plain_ranges};
ghost use Rattle.pending_files.specs.Pending.{file_of};
ghost use Rattle.pending_files.specs.Kept.{IsIndexOf, IsGap};

use deeds::{Deed, Range};
use vault_path::VaultPath;

/// What waits for a file: its length in bytes, and the ranges that will be written.
pub(crate) fn file_in<'a>(deeds: &'a [Deed], path: &VaultPath) -> Option<(u64, &'a [Range])>
    ensures { MatchOption result (file_of path.now (plains deeds.now) ≡ None)
        (λ found. file_of path.now (plains deeds.now) ≡ Some (found.0, plain_ranges found.1.now)) }
{
    for deed in deeds {
        if let Deed::Reshape(named, len, ranges) = deed {
            if named == path {
                return Some((*len, ranges));
            }
        }
    }
    None
}

/// The index of the deed of a file.
pub(crate) fn index_of(deeds: &[Deed], path: &VaultPath) -> Option<usize>
    ensures { MatchOption result (file_of path.now (plains deeds.now) ≡ None) (IsIndexOf path.now (plains deeds.now)) }
{
    for (index, deed) in deeds.iter().enumerate() {
        if let Deed::Reshape(named, _, _) = deed {
            if named == path {
                return Some(index);
            }
        }
    }
    None
}

/// How many of a file's ranges, from the first on, begin before a place.
pub(crate) fn count_before(ranges: &[Range], at: u64) -> usize
    ensures { IsGap at (plain_ranges ranges.now) result }
{
    for (index, range) in ranges.iter().enumerate() {
        if at <= range.at {
            return index;
        }
    }
    ranges.len()
}
