ghost use Rattle.std.specs.Prelude.{◌≡◌, ◌≤◌, ◌+◌, ◌*◌, length, true, slice_get, IfOk, option_map, if◌then◌else◌};
ghost use Rattle.tree_model.specs.Contents.{chunks_after, cut_cells, is_met, resized, resized_cells, sealed_chunk, spliced, written, written_cells};
ghost use Rattle.tree_model.specs.Rows.{chunks, joined_cells};
ghost use Rattle.tree_model.specs.Step.{file_limit};
ghost use Rattle.model_step.specs.SeenContents.{cell_seen, cells_seen, content_seen};

use crate::content::{Cell, Content, all_there, copied_cell, copied_cells, joined_cells, there};
use std::alloc::{AllocError, Global};

// The clear bytes of a full chunk.
const CHUNK_LENGTH: usize = 32768;

// The bytes of a file after others are written over them from place `at` on, after zeros if that is past the end.
fn spliced(
    alloc: Global,
    old: &[Option<u8>],
    at: usize,
    bytes: &[u8],
) -> Result<Vec<Option<u8>>, AllocError>
    ensures { IfOk result (λ new. new.items ≡ spliced old.now at bytes.now) }
{
    let mut new = Vec::from_slice(alloc, old)?;
    let zeros = vec![in alloc; Some(0); at.saturating_sub(old.len())]?;
    new.extend_from_slice(&zeros)?;
    new.truncate(at);
    let written = there(alloc, bytes)?;
    new.extend_from_slice(&written)?;
    let end = at.saturating_add(bytes.len()).min(old.len());
    new.extend_from_slice(&old[end..])?;
    Ok(new)
}

// Whether chunk i has a byte from `low` on and before `high`.
fn is_met(low: usize, high: usize, i: usize) -> bool
    requires { high ≤ file_limit }
    ensures { result ≡ is_met low high i }
{
    match i.checked_mul(CHUNK_LENGTH) {
        Some(start) => start < high && low < start + CHUNK_LENGTH,
        None => false,
    }
}

// Chunk i of these bytes, if each of its bytes is there.
fn sealed_chunk(alloc: Global, bytes: &[Option<u8>], i: usize) -> Result<Option<Cell>, AllocError>
    requires { i * CHUNK_LENGTH ≤ file_limit }
    ensures { IfOk result (λ cell. option_map cell_seen cell ≡ sealed_chunk bytes.now i) }
{
    let start = (i * CHUNK_LENGTH).min(bytes.len());
    let end = (start + CHUNK_LENGTH).min(bytes.len());
    match all_there(alloc, &bytes[start..end])? {
        Some(clear) => Ok(Some(Cell::Good(clear))),
        None => Ok(None),
    }
}

// Chunk i after the bytes from `low` on and before `high` were changed to these.
fn chunk_after(
    alloc: Global,
    old: &[Cell],
    bytes: &[Option<u8>],
    low: usize,
    high: usize,
    i: usize,
) -> Result<Option<Cell>, AllocError>
    requires { high ≤ file_limit }
    ensures { IfOk result (λ cell. option_map cell_seen cell ≡ (if is_met low high i then sealed_chunk bytes.now i else slice_get (cells_seen old.now) i)) }
{
    if is_met(low, high, i) {
        sealed_chunk(alloc, bytes, i)
    } else {
        match old.get(i) {
            Some(cell) => Ok(Some(copied_cell(alloc, cell)?)),
            None => Ok(None),
        }
    }
}

// The first n chunks after the bytes from `low` on and before `high` were changed to these.
fn chunks_after(
    alloc: Global,
    old: &[Cell],
    bytes: &[Option<u8>],
    low: usize,
    high: usize,
    n: usize,
) -> Result<Option<Vec<Cell>>, AllocError>
    requires { high ≤ file_limit }
    ensures { IfOk result (λ cells. option_map (λ cells. cells_seen cells.items) cells ≡ chunks_after (cells_seen old.now) bytes.now low high n) }
{
    let mut cells = Vec::new(alloc);
    for i in 0..n {
        match chunk_after(alloc, old, bytes, low, high, i)? {
            Some(cell) => cells.push(cell)?,
            None => return Ok(None),
        }
    }
    Ok(Some(cells))
}

// The chunks after a write.
fn written_cells(
    alloc: Global,
    old: &[Cell],
    at: usize,
    bytes: &[u8],
) -> Result<Option<Vec<Cell>>, AllocError>
    requires { at + length bytes.now ≤ file_limit }
    ensures { IfOk result (λ cells. option_map (λ cells. cells_seen cells.items) cells ≡ written_cells (cells_seen old.now) at bytes.now) }
{
    let joined = joined_cells(alloc, old)?;
    let new = spliced(alloc, &joined, at, bytes)?;
    let end = at + bytes.len();
    let count = old.len().max(end.div_ceil(CHUNK_LENGTH));
    chunks_after(alloc, old, &new, at.min(joined.len()), end, count)
}

// The chunks after a cut to n bytes, of which there are enough.
fn cut_cells(
    alloc: Global,
    old: &[Cell],
    joined: &[Option<u8>],
    n: usize,
) -> Result<Option<Vec<Cell>>, AllocError>
    requires joined { joined.now ≡ joined_cells (cells_seen old.now) }
    requires limit { n ≤ file_limit }
    ensures { IfOk result (λ cells. option_map (λ cells. cells_seen cells.items) cells ≡ cut_cells (cells_seen old.now) n) }
{
    let mut cells = copied_cells(alloc, old)?;
    cells.truncate(n / CHUNK_LENGTH);
    if n % CHUNK_LENGTH == 0 {
        return Ok(Some(cells));
    }
    match sealed_chunk(alloc, &joined[..n.min(joined.len())], n / CHUNK_LENGTH)? {
        Some(last) => {
            cells.push(last)?;
            Ok(Some(cells))
        }
        None => Ok(None),
    }
}

// The chunks after a change of the length to n bytes.
fn resized_cells(alloc: Global, old: &[Cell], n: usize) -> Result<Option<Vec<Cell>>, AllocError>
    requires { n ≤ file_limit }
    ensures { IfOk result (λ cells. option_map (λ cells. cells_seen cells.items) cells ≡ resized_cells (cells_seen old.now) n) }
{
    let joined = joined_cells(alloc, old)?;
    if n <= joined.len() {
        cut_cells(alloc, old, &joined, n)
    } else {
        let zeros = vec![in alloc; 0; n - joined.len()]?;
        written_cells(alloc, old, joined.len(), &zeros)
    }
}

// A content whose header opens, of these chunks if there are any.
fn with_cells(cells: Option<Vec<Cell>>) -> Option<Content>
    ensures { option_map content_seen result ≡ option_map (λ cells. chunks true (cells_seen cells.items)) cells }
{
    match cells {
        Some(cells) => Some(Content::Chunks { opens: true, cells }),
        None => None,
    }
}

/// The content after bytes, at least one, are written from place `at` on, after zeros if that is past the end; None if what would
/// be kept of a chunk, or the header, doesn't open.
#[tactic(auto, unfolding(tree_model::specs::Contents::written))]
pub fn written(
    alloc: Global,
    content: &Content,
    at: usize,
    bytes: &[u8],
) -> Result<Option<Content>, AllocError>
    requires { at + length bytes.now ≤ file_limit }
    ensures { IfOk result (λ new. option_map content_seen new ≡ written (content_seen content.now) at bytes.now) }
{
    match content {
        Content::BadSize => Ok(None),
        Content::Chunks { opens, cells } => {
            if !*opens {
                return Ok(None);
            }
            let cells = written_cells(alloc, cells, at, bytes)?;
            Ok(with_cells(cells))
        }
    }
}

/// The content after its length becomes n bytes; None if what would be kept of a chunk, or the header, doesn't open.
#[tactic(auto, unfolding(tree_model::specs::Contents::resized))]
pub fn resized(alloc: Global, content: &Content, n: usize) -> Result<Option<Content>, AllocError>
    requires { n ≤ file_limit }
    ensures { IfOk result (λ new. option_map content_seen new ≡ resized (content_seen content.now) n) }
{
    match content {
        Content::BadSize => Ok(None),
        Content::Chunks { opens, cells } => {
            if !*opens {
                return Ok(None);
            }
            let cells = resized_cells(alloc, cells, n)?;
            Ok(with_cells(cells))
        }
    }
}
