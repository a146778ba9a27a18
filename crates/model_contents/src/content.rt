ghost use Rattle.std.specs.Prelude.{◌≡◌, ◌≤◌, ◌+◌, ◌-◌, ◌*◌, IfOk, length, min, option_map};
ghost use Rattle.file_chunks.specs.Chunk.{associated_data, chunk_opens};
ghost use Rattle.file_chunks.specs.File.{cell_of, chunk_count, content_of, is_bad_size, sealed_at};
ghost use Rattle.model_contents.specs.Seen.{cell_seen, content_seen, head_seen};

use crate::gcm::gcm_opened;
use crate::header::{Head, array_at, header_opens};
use file_chunks::{HEADER_LENGTH, NONCE_LENGTH, SEALED_LENGTH, SEALING_LENGTH, TAG_LENGTH};
use std::alloc::{AllocError, Global};
use vault_keys::VaultKeys;

// The length of a chunk's index in bytes.
const INDEX_LENGTH: usize = 8;

const ASSOCIATED_LENGTH: usize = INDEX_LENGTH + NONCE_LENGTH;

/// A chunk of a file: its plaintext, or, if it doesn't open, how long that would be.
#[derive(Debug, Drop, PartialEq, Eq)]
pub enum Cell {
    Good(Vec<u8>),
    Damaged(usize),
}

/// The content of a file.
#[derive(Debug, Drop, PartialEq, Eq)]
pub enum Content {
    /// No content has this size.
    BadSize,
    /// Whether the header opens, and the chunks.
    Chunks(bool, Vec<Cell>),
}

// The associated data of the chunk of this index.
fn associated_data(head: &Head, index: u64) -> [u8; ASSOCIATED_LENGTH]
    ensures { result ≡ associated_data (head_seen head.now) index }
{
    let mut data = [0; ASSOCIATED_LENGTH];
    data[..INDEX_LENGTH].copy_from_slice(&index.to_be_bytes());
    data[INDEX_LENGTH..].copy_from_slice(&head.nonce);
    data
}

/// The plaintext of the sealed chunk of an index, and None if and only if it is below 28 bytes or
/// doesn't open under this header and at this index (vault format 8, file content).
#[tactic(auto, unfolding(file_chunks::specs::Chunk::chunk_opens))]
pub fn chunk_opens(
    alloc: Global,
    head: &Head,
    index: u64,
    sealed: &[u8],
) -> Result<Option<Vec<u8>>, AllocError>
    ensures { IfOk result (λ plaintext. option_map (λ text. text.items) plaintext
        ≡ chunk_opens (head_seen head.now) index sealed.now) }
{
    if sealed.len() < SEALING_LENGTH {
        return Ok(None);
    }
    let end = sealed.len() - TAG_LENGTH;
    gcm_opened(
        alloc,
        &head.key,
        array_at(sealed, 0),
        &associated_data(head, index),
        &sealed[NONCE_LENGTH..end],
        array_at(sealed, end),
    )
}

// Whether no content has this size: it is shorter than a header, or its last chunk shorter than an empty one.
fn is_bad_size(size: usize) -> bool
    ensures { result ≡ is_bad_size size }
{
    if size < HEADER_LENGTH {
        return true;
    }
    let last = (size - HEADER_LENGTH) % SEALED_LENGTH;
    0 < last && last < SEALING_LENGTH
}

// How many sealed chunks are in a file of this size.
fn chunk_count(size: usize) -> usize
    requires { HEADER_LENGTH ≤ size }
    ensures { result ≡ chunk_count size }
{
    (size - HEADER_LENGTH).div_ceil(SEALED_LENGTH)
}

// The sealed chunk of an index.
fn sealed_at(bytes: &[u8], index: usize) -> &[u8]
    requires { HEADER_LENGTH + SEALED_LENGTH * index ≤ length bytes.now }
    ensures chunk { result.now ≡ sealed_at bytes.now index }
    ensures len { length result.now ≡ min SEALED_LENGTH (length bytes.now - (HEADER_LENGTH + SEALED_LENGTH * index)) }
{
    let start = HEADER_LENGTH + SEALED_LENGTH * index;
    let end = bytes.len().min(start + SEALED_LENGTH);
    &bytes[start..end]
}

// A sealed chunk as a cell: what it opens to, or, if it or the header doesn't open, the length of
// its plaintext.
fn cell_of(alloc: Global, head: Option<Head>, index: u64, sealed: &[u8]) -> Result<Cell, AllocError>
    requires { SEALING_LENGTH ≤ length sealed.now }
    ensures { IfOk result (λ cell. cell_seen cell ≡ cell_of (option_map head_seen head) index sealed.now) }
{
    if let Some(head) = head {
        if let Some(plaintext) = chunk_opens(alloc, &head, index, sealed)? {
            return Ok(Cell::Good(plaintext));
        }
    }
    Ok(Cell::Damaged(sealed.len() - SEALING_LENGTH))
}

/// The content of a host file's bytes (vault format 8, file content).
#[tactic(auto, unfolding(file_chunks::specs::File::content_of))]
pub fn content_of(alloc: Global, keys: &VaultKeys, bytes: &[u8]) -> Result<Content, AllocError>
    ensures { IfOk result (λ content. content_seen content ≡ content_of keys.now bytes.now) }
{
    if is_bad_size(bytes.len()) {
        return Ok(Content::BadSize);
    }
    let head = header_opens(alloc, keys, &array_at(bytes, 0))?;
    let mut cells = Vec::new(alloc);
    for i in 0..chunk_count(bytes.len()) {
        cells.push(cell_of(alloc, head, i as u64, sealed_at(bytes, i))?)?;
    }
    Ok(Content::Chunks(head.is_some(), cells))
}
