ghost use Rattle.std.specs.Prelude.{◌≡◌, ◌≤◌, ◌+◌, ◌&&◌, nat_le, length};
ghost use Rattle.std.specs.Int.{w32, w64};
ghost use Rattle.deeds.specs.Plain.{plain, plain_ranges};
ghost use Rattle.deeds.specs.Grammar.{rise_within};
ghost use Rattle.deeds.specs.Reading.{Gives, byte_at, number_at, bytes_at, short_at, part_at, path_at, string_at, range_at, ranges_at, items_at, make_dir_at, put_at, rename_at, remove_at, remove_dir_at, reshape_at, deed_by, deed_at};

use crate::deed::Deed;
use crate::writes::Range;
use std::alloc::{AllocError, AllocFailed, Global};
use vault_path::{BadPart, VaultPath};

/// Why no deed was read.
#[derive(Clone, Copy, Debug, PartialEq, Eq)]
pub enum ReadErr {
    /// The bytes aren't in the grammar.
    Bad,
    /// Memory ran out.
    Memory,
}

impl From<AllocError> for ReadErr {
    ghost use Rattle.std.specs.Prelude.{◌≡◌};
    ghost use Rattle.deeds.specs.declared.reading.ReadErr.TheVariants.{Memory};

    ghost from_gives = { λ _ e. e ≡ Memory };

    fn from(_error: AllocError) -> ReadErr {
        ReadErr::Memory
    }
}

impl From<BadPart> for ReadErr {
    ghost use Rattle.std.specs.Prelude.{◌≡◌};
    ghost use Rattle.deeds.specs.declared.reading.ReadErr.TheVariants.{Bad};

    ghost from_gives = { λ _ e. e ≡ Bad };

    fn from(_error: BadPart) -> ReadErr {
        ReadErr::Bad
    }
}

impl<T: Drop> From<AllocFailed<T>> for ReadErr {
    ghost use Rattle.std.specs.Prelude.{◌≡◌};
    ghost use Rattle.deeds.specs.declared.reading.ReadErr.TheVariants.{Memory};

    ghost from_gives = { λ _ e. e ≡ Memory };

    fn from(_error: AllocFailed<T>) -> ReadErr {
        ReadErr::Memory
    }
}

fn byte_of(bytes: &[u8]) -> Result<(u8, &[u8]), ReadErr>
    ensures { Gives (λ x. (x.0, x.1.now)) result (byte_at bytes.now) }
{
    match bytes {
        [] => Err(ReadErr::Bad),
        [byte, rest @ ..] => Ok((*byte, rest)),
    }
}

pub fn u32_of(bytes: &[u8]) -> Result<(u32, &[u8]), ReadErr>
    ensures { Gives (λ x. (x.0, x.1.now)) result (number_at w32 bytes.now) }
{
    if bytes.len() < 4 {
        return Err(ReadErr::Bad);
    }
    let (front, rest) = bytes.split_at(4);
    let number = u32::from_be_bytes([front[0], front[1], front[2], front[3]]);
    Ok((number, rest))
}

fn u64_of(bytes: &[u8]) -> Result<(u64, &[u8]), ReadErr>
    ensures { Gives (λ x. (x.0, x.1.now)) result (number_at w64 bytes.now) }
{
    if bytes.len() < 8 {
        return Err(ReadErr::Bad);
    }
    let (front, rest) = bytes.split_at(8);
    let number = u64::from_be_bytes([
        front[0], front[1], front[2], front[3], front[4], front[5], front[6], front[7],
    ]);
    Ok((number, rest))
}

fn bytes_of(bytes: &[u8], len: usize) -> Result<(&[u8], &[u8]), ReadErr>
    ensures { Gives (λ x. (x.0.now, x.1.now)) result (bytes_at len bytes.now) }
{
    if bytes.len() < len {
        return Err(ReadErr::Bad);
    }
    let (text, rest) = bytes.split_at(len);
    Ok((text, rest))
}

#[tactic(auto, unfolding(crate::specs::Reading::short_at))]
fn short_of(bytes: &[u8]) -> Result<(&[u8], &[u8]), ReadErr>
    ensures { Gives (λ x. (x.0.now, x.1.now)) result (short_at bytes.now) }
{
    let (len, rest) = byte_of(bytes)?;
    bytes_of(rest, len as usize)
}

// The path of this many parts, at most 6.
fn parts_of(count: u8, bytes: &[u8]) -> Result<(VaultPath, &[u8]), ReadErr>
    requires { count ≤ 6 }
    ensures { Gives (λ x. (x.0, x.1.now)) result (items_at part_at count bytes.now) }
{
    let mut path = VaultPath::root();
    let mut rest = bytes;
    for _ in 0..count {
        let (part, after) = short_of(rest)?;
        path = path.join(part)?;
        rest = after;
    }
    Ok((path, rest))
}

#[tactic(auto, unfolding(crate::specs::Reading::path_at))]
fn path_of(bytes: &[u8]) -> Result<(VaultPath, &[u8]), ReadErr>
    ensures { Gives (λ x. (x.0, x.1.now)) result (path_at bytes.now) }
{
    let (count, rest) = byte_of(bytes)?;
    if 1 <= count && count <= 6 {
        parts_of(count, rest)
    } else {
        Err(ReadErr::Bad)
    }
}

#[tactic(auto, unfolding(crate::specs::Reading::string_at))]
fn string_of(alloc: Global, bytes: &[u8]) -> Result<(Vec<u8>, &[u8]), ReadErr>
    ensures { Gives (λ x. (x.0.items, x.1.now)) result (string_at bytes.now) }
{
    let (len, rest) = u32_of(bytes)?;
    let (text, rest) = bytes_of(rest, len as usize)?;
    Ok((Vec::from_slice(alloc, text)?, rest))
}

#[tactic(auto, unfolding(crate::specs::Reading::range_at))]
fn range_of(alloc: Global, bytes: &[u8]) -> Result<(Range, &[u8]), ReadErr>
    ensures { Gives (λ x. ((x.0.at, x.0.bytes.items), x.1.now)) result (range_at bytes.now) }
{
    let (at, rest) = u64_of(bytes)?;
    let (text, rest) = string_of(alloc, rest)?;
    Ok((Range { at, bytes: text }, rest))
}

fn some_ranges_of(alloc: Global, count: u32, bytes: &[u8]) -> Result<(Vec<Range>, &[u8]), ReadErr>
    ensures { Gives (λ x. (plain_ranges x.0.items, x.1.now)) result (items_at range_at count bytes.now) }
{
    let mut ranges = Vec::new(alloc);
    let mut rest = bytes;
    for _ in 0..count {
        let (range, after) = range_of(alloc, rest)?;
        ranges.push(range)?;
        rest = after;
    }
    Ok((ranges, rest))
}

#[tactic(auto, unfolding(crate::specs::Reading::ranges_at))]
fn ranges_of(alloc: Global, bytes: &[u8]) -> Result<(Vec<Range>, &[u8]), ReadErr>
    ensures { Gives (λ x. (plain_ranges x.0.items, x.1.now)) result (ranges_at bytes.now) }
{
    let (count, rest) = u32_of(bytes)?;
    some_ranges_of(alloc, count, rest)
}

// Whether the range begins at `from` or later, and ends within the length.
fn is_next(range: &Range, from: u64, len: u64) -> bool
    ensures { result ≡ (nat_le from range.now.at && nat_le (range.now.at + length range.now.bytes.items) len) }
{
    match range.at.checked_add(range.bytes.len() as u64) {
        Some(end) => from <= range.at && end <= len,
        None => false,
    }
}

/// Whether the ranges rise, don't overlap and end within the length.
pub fn are_rising(ranges: &[Range], len: u64) -> bool
    ensures { result ≡ rise_within 0 len (plain_ranges ranges.now) }
{
    let mut from = 0;
    for range in ranges {
        if !is_next(range, from, len) {
            return false;
        }
        from = range.at + range.bytes.as_slice().len() as u64;
    }
    true
}

#[tactic(auto, unfolding(crate::specs::Reading::make_dir_at))]
fn make_dir_of(bytes: &[u8]) -> Result<(Deed, &[u8]), ReadErr>
    ensures { Gives (λ x. (plain x.0, x.1.now)) result (make_dir_at bytes.now) }
{
    let (path, rest) = path_of(bytes)?;
    Ok((Deed::MakeDir(path), rest))
}

#[tactic(auto, unfolding(crate::specs::Reading::put_at))]
fn put_of(alloc: Global, bytes: &[u8]) -> Result<(Deed, &[u8]), ReadErr>
    ensures { Gives (λ x. (plain x.0, x.1.now)) result (put_at bytes.now) }
{
    let (path, rest) = path_of(bytes)?;
    let (text, rest) = string_of(alloc, rest)?;
    Ok((Deed::Put(path, text), rest))
}

#[tactic(auto, unfolding(crate::specs::Reading::rename_at))]
fn rename_of(bytes: &[u8]) -> Result<(Deed, &[u8]), ReadErr>
    ensures { Gives (λ x. (plain x.0, x.1.now)) result (rename_at bytes.now) }
{
    let (from, rest) = path_of(bytes)?;
    let (to, rest) = path_of(rest)?;
    Ok((Deed::Rename(from, to), rest))
}

#[tactic(auto, unfolding(crate::specs::Reading::remove_at))]
fn remove_of(bytes: &[u8]) -> Result<(Deed, &[u8]), ReadErr>
    ensures { Gives (λ x. (plain x.0, x.1.now)) result (remove_at bytes.now) }
{
    let (path, rest) = path_of(bytes)?;
    Ok((Deed::Remove(path), rest))
}

#[tactic(auto, unfolding(crate::specs::Reading::remove_dir_at))]
fn remove_dir_of(bytes: &[u8]) -> Result<(Deed, &[u8]), ReadErr>
    ensures { Gives (λ x. (plain x.0, x.1.now)) result (remove_dir_at bytes.now) }
{
    let (path, rest) = path_of(bytes)?;
    Ok((Deed::RemoveDir(path), rest))
}

#[tactic(auto, unfolding(crate::specs::Reading::reshape_at))]
fn reshape_of(alloc: Global, bytes: &[u8]) -> Result<(Deed, &[u8]), ReadErr>
    ensures { Gives (λ x. (plain x.0, x.1.now)) result (reshape_at bytes.now) }
{
    let (path, rest) = path_of(bytes)?;
    let (len, rest) = u64_of(rest)?;
    let (ranges, rest) = ranges_of(alloc, rest)?;
    if are_rising(&ranges, len) {
        Ok((Deed::Reshape(path, len, ranges), rest))
    } else {
        Err(ReadErr::Bad)
    }
}

#[tactic(auto, unfolding(crate::specs::Reading::deed_by))]
fn deed_by_kind(alloc: Global, kind: u8, bytes: &[u8]) -> Result<(Deed, &[u8]), ReadErr>
    ensures { Gives (λ x. (plain x.0, x.1.now)) result (deed_by kind bytes.now) }
{
    match kind {
        1 => make_dir_of(bytes),
        2 => put_of(alloc, bytes),
        3 => rename_of(bytes),
        4 => remove_of(bytes),
        5 => remove_dir_of(bytes),
        6 => reshape_of(alloc, bytes),
        _ => Err(ReadErr::Bad),
    }
}

/// The deed at the front, and the bytes after it.
#[tactic(auto, unfolding(crate::specs::Reading::deed_at))]
pub fn deed_of(alloc: Global, bytes: &[u8]) -> Result<(Deed, &[u8]), ReadErr>
    ensures { Gives (λ x. (plain x.0, x.1.now)) result (deed_at bytes.now) }
{
    let (kind, rest) = byte_of(bytes)?;
    deed_by_kind(alloc, kind, rest)
}
