//! The room for what waits: lists and buffers that are reserved once and handed round.

ghost use Rattle.std.specs.Prelude.{◌≡◌, ◌+◌, ◌-◌, ◌≤◌, ◌<◌, ◌++◌, ◌∷◌, [], ℕ, List, None, length, take, insert, IfOk, vec_len};
ghost use Rattle.deeds.specs.Plain.{plain, plains, plain_ranges};
ghost use Rattle.pending_files.specs.Pending.{file_of, its_ranges, ranges_of, without, cut_to, with_chunk, sealed_length, IsWaiting, AreChunks};
ghost use Rattle.pending_files.specs.Kept.{IsBuffer, IsList, IsEmptyList, AreBuffers, AreLists, AreLent, IsGap, InList};

use crate::places::{count_before, index_of};
use deeds::{Deed, Range};
use std::alloc::{AllocError, Global};
use vault_path::VaultPath;

// The bytes of a full sealed chunk.
const SEALED_LENGTH: usize = 32_796;

/// The most chunks that wait, and the most files.
pub(crate) const MOST: usize = 64;

/// Buffers for as many chunks as can wait.
pub(crate) fn new_buffers(alloc: Global) -> Result<Vec<Vec<u8>>, AllocError>
    ensures { IfOk result (λ buffers. AreBuffers buffers × (vec_len buffers ≡ MOST)) }
{
    let mut buffers = Vec::with_capacity(alloc, MOST)?;
    for _ in 0..MOST {
        buffers.push(Vec::with_capacity(alloc, SEALED_LENGTH)?)?;
    }
    Ok(buffers)
}

/// Lists for the ranges of as many files as can wait, each with room for all of them.
pub(crate) fn new_lists(alloc: Global) -> Result<Vec<Vec<Range>>, AllocError>
    ensures { IfOk result (λ lists. AreLists lists × (vec_len lists ≡ MOST)) }
{
    let mut lists = Vec::with_capacity(alloc, MOST)?;
    for _ in 0..MOST {
        lists.push(Vec::with_capacity(alloc, MOST)?)?;
    }
    Ok(lists)
}

/// Takes a file's ranges out of what waits, or a spare list if none wait.
pub(crate) fn take_ranges(
    deeds: &mut Vec<Deed>,
    lists: &mut Vec<Vec<Range>>,
    path: &VaultPath,
) -> Vec<Range>
    requires lent { AreLent deeds.old }
    requires lists { AreLists lists.old }
    requires spare { file_of path.now (plains deeds.old.items) ≡ None → 0 < vec_len lists.old }
    ensures others { plains deeds.new.items ≡ without path.now (plains deeds.old.items) }
    ensures ranges { plain_ranges result.items ≡ ranges_of path.now (plains deeds.old.items) }
    ensures lent { AreLent deeds.new }
    ensures lists { AreLists lists.new }
    ensures list { IsList result }
    ensures all { vec_len deeds.new + vec_len lists.new + 1 ≡ vec_len deeds.old + vec_len lists.old }
{
    match index_of(deeds, path) {
        Some(index) => ranges_in(deeds.remove(index)),
        None => match lists.pop() {
            Some(list) => list,
            None => unreachable!(),
        },
    }
}

// The ranges of a file's deed.
fn ranges_in(deed: Deed) -> Vec<Range>
    requires { InList deed }
    ensures ranges { plain_ranges result.items ≡ its_ranges (plain deed) }
    ensures list { IsList result }
{
    match deed {
        Deed::Reshape(_, _, ranges) => ranges,
        _ => unreachable!(),
    }
}

/// Puts a deed after the others.
pub(crate) fn add(deeds: &mut Vec<Deed>, deed: Deed)
    requires lent { AreLent deeds.old }
    requires list { InList deed }
    requires room { vec_len deeds.old < MOST }
    ensures deeds { plains deeds.new.items ≡ plains deeds.old.items ++ plain deed ∷ [] }
    ensures lent { AreLent deeds.new }
    ensures count { vec_len deeds.new ≡ vec_len deeds.old + 1 }
{
    if deeds.push(deed).is_err() {
        unreachable!();
    }
}

/// Cuts ranges that rise to a length; the buffers of those past it are spare again.
pub(crate) fn cut_ranges(ranges: &mut Vec<Range>, len: u64, buffers: &mut Vec<Vec<u8>>)
    requires list { IsList ranges.old }
    requires chunks { (most : ℕ) × AreChunks 0 most (plain_ranges ranges.old.items) }
    requires buffers { AreBuffers buffers.old }
    requires room { vec_len ranges.old + vec_len buffers.old ≤ MOST }
    ensures cut { plain_ranges ranges.new.items ≡ cut_to len (plain_ranges ranges.old.items) }
    ensures list { IsList ranges.new }
    ensures buffers { AreBuffers buffers.new }
    ensures all { vec_len ranges.new + vec_len buffers.new ≡ vec_len ranges.old + vec_len buffers.old }
{
    while let Some(range) = ranges.pop() {
        if range.at < len {
            push_range(ranges, cut_range(range, len));
            return;
        }
        give_back(buffers, range.bytes);
    }
}

// The part of a range before a length.
fn cut_range(mut range: Range, len: u64) -> Range
    requires { range.at < len }
    ensures at { result.at ≡ range.at }
    ensures bytes { result.bytes.items ≡ take (len - range.at) range.bytes.items }
    ensures buffer { IsBuffer range.bytes → IsBuffer result.bytes }
{
    let left = len - range.at;
    if left < range.bytes.len() as u64 {
        range.bytes.truncate(left as usize);
    }
    range
}

// Puts a range after the others.
fn push_range(ranges: &mut Vec<Range>, range: Range)
    requires list { IsList ranges.old }
    requires buffer { IsBuffer range.bytes }
    requires room { vec_len ranges.old < MOST }
    ensures ranges { ranges.new.items ≡ ranges.old.items ++ range ∷ [] }
    ensures list { IsList ranges.new }
    ensures count { vec_len ranges.new ≡ vec_len ranges.old + 1 }
{
    if ranges.push(range).is_err() {
        unreachable!();
    }
}

// Takes a buffer back.
fn give_back(buffers: &mut Vec<Vec<u8>>, buffer: Vec<u8>)
    requires buffers { AreBuffers buffers.old }
    requires buffer { IsBuffer buffer }
    requires room { vec_len buffers.old < MOST }
    ensures buffers { AreBuffers buffers.new }
    ensures count { vec_len buffers.new ≡ vec_len buffers.old + 1 }
{
    if buffers.push(buffer).is_err() {
        unreachable!();
    }
}

/// Forgets a deed; its list and its buffers are spare again.
pub(crate) fn forget(deed: Deed, lists: &mut Vec<Vec<Range>>, buffers: &mut Vec<Vec<u8>>)
    requires list { InList deed }
    requires waits { IsWaiting (plain deed) }
    requires lists { AreLists lists.old }
    requires buffers { AreBuffers buffers.old }
    requires room { vec_len lists.old < MOST }
    requires all { length (its_ranges (plain deed)) + vec_len buffers.old ≤ MOST }
    ensures lists { AreLists lists.new }
    ensures buffers { AreBuffers buffers.new }
    ensures count { vec_len lists.new ≡ vec_len lists.old + 1 }
    ensures all { vec_len buffers.new ≡ length (its_ranges (plain deed)) + vec_len buffers.old }
{
    let mut ranges = ranges_in(deed);
    cut_ranges(&mut ranges, 0, buffers);
    give_list_back(lists, ranges);
}

// Takes a list back whose ranges are gone.
fn give_list_back(lists: &mut Vec<Vec<Range>>, list: Vec<Range>)
    requires lists { AreLists lists.old }
    requires list { IsEmptyList list }
    requires room { vec_len lists.old < MOST }
    ensures lists { AreLists lists.new }
    ensures count { vec_len lists.new ≡ vec_len lists.old + 1 }
{
    if lists.push(list).is_err() {
        unreachable!();
    }
}

/// Puts a sealed chunk at a place among ranges that rise, in place of one that begins there.
pub(crate) fn put_range(ranges: &mut Vec<Range>, at: u64, sealed: &[u8], buffers: &mut Vec<Vec<u8>>)
    requires list { IsList ranges.old }
    requires buffers { AreBuffers buffers.old }
    requires short { length sealed.now ≤ sealed_length }
    requires room { vec_len ranges.old < MOST }
    requires spare { 0 < vec_len buffers.old }
    ensures put { plain_ranges ranges.new.items ≡ with_chunk at sealed.now (plain_ranges ranges.old.items) }
    ensures list { IsList ranges.new }
    ensures buffers { AreBuffers buffers.new }
    ensures all { vec_len ranges.new + vec_len buffers.new ≡ vec_len ranges.old + vec_len buffers.old }
{
    let index = count_before(ranges, at);
    let bytes = buffer_for(ranges, index, at, buffers);
    let bytes = filled(bytes, sealed);
    if ranges.insert(index, Range { at, bytes }).is_err() {
        unreachable!();
    }
}

// A buffer for a chunk at a place: that of the range that begins there, which goes, or a spare one.
fn buffer_for(ranges: &mut Vec<Range>, index: usize, at: u64, buffers: &mut Vec<Vec<u8>>) -> Vec<u8>
    requires gap { IsGap at (plain_ranges ranges.old.items) index }
    requires list { IsList ranges.old }
    requires buffers { AreBuffers buffers.old }
    requires room { vec_len ranges.old < MOST }
    requires spare { 0 < vec_len buffers.old }
    ensures others { (bytes : List ℕ)
        → with_chunk at bytes (plain_ranges ranges.old.items) ≡ insert (plain_ranges ranges.new.items) index (at, bytes) }
    ensures within { index ≤ vec_len ranges.new }
    ensures list { IsList ranges.new }
    ensures buffers { AreBuffers buffers.new }
    ensures buffer { IsBuffer result }
    ensures room { vec_len ranges.new < MOST }
    ensures all { vec_len ranges.new + vec_len buffers.new + 1 ≡ vec_len ranges.old + vec_len buffers.old }
{
    if index < ranges.len() && ranges[index].at == at {
        return ranges.remove(index).bytes;
    }
    match buffers.pop() {
        Some(buffer) => buffer,
        None => unreachable!(),
    }
}

// A buffer with these bytes in place of its own.
fn filled(mut buffer: Vec<u8>, bytes: &[u8]) -> Vec<u8>
    requires buffer { IsBuffer buffer }
    requires short { length bytes.now ≤ sealed_length }
    ensures bytes { result.items ≡ bytes.now }
    ensures buffer { IsBuffer result }
{
    buffer.clear();
    if buffer.extend_from_slice(bytes).is_err() {
        unreachable!();
    }
    buffer
}
