ghost use Rattle.std.specs.Prelude.{◌≡◌, IfOk, map, option_map};
ghost use Rattle.tree_model.specs.Rows.{all_there, cell_bytes, content_length, joined, joined_cells, slice_of};
ghost use Rattle.model_step.specs.SeenContents.{cell_seen, cells_seen, content_seen};

use std::alloc::{AllocError, Global};

/// A chunk of a file.
#[derive(Debug, Drop, PartialEq, Eq)]
pub enum Cell {
    /// Its clear bytes.
    Good(Vec<u8>),
    /// It doesn't open: how many clear bytes there would be.
    Damaged(usize),
}

/// The content of a file.
#[derive(Debug, Drop, PartialEq, Eq)]
pub enum Content {
    /// No content has the size of the file.
    BadSize,
    /// Whether the header opens, and the chunks.
    Chunks { opens: bool, cells: Vec<Cell> },
}

/// A chunk of its own that is the same.
pub(crate) fn copied_cell(alloc: Global, cell: &Cell) -> Result<Cell, AllocError>
    ensures { IfOk result (λ copy. cell_seen copy ≡ cell_seen cell.now) }
{
    match cell {
        Cell::Good(clear) => Ok(Cell::Good(Vec::from_slice(alloc, clear)?)),
        Cell::Damaged(len) => Ok(Cell::Damaged(*len)),
    }
}

/// Chunks of their own that are the same.
pub(crate) fn copied_cells(alloc: Global, cells: &[Cell]) -> Result<Vec<Cell>, AllocError>
    ensures { IfOk result (λ copies. cells_seen copies.items ≡ cells_seen cells.now) }
{
    let mut copies = Vec::new(alloc);
    for cell in cells {
        copies.push(copied_cell(alloc, cell)?)?;
    }
    Ok(copies)
}

/// A content of its own that is the same.
pub fn copied(alloc: Global, content: &Content) -> Result<Content, AllocError>
    ensures { IfOk result (λ copy. content_seen copy ≡ content_seen content.now) }
{
    match content {
        Content::BadSize => Ok(Content::BadSize),
        Content::Chunks { opens, cells } => Ok(Content::Chunks {
            opens: *opens,
            cells: copied_cells(alloc, cells)?,
        }),
    }
}

/// Bytes that are there.
pub(crate) fn there(alloc: Global, bytes: &[u8]) -> Result<Vec<Option<u8>>, AllocError>
    ensures { IfOk result (λ all. all.items ≡ map (λ b. Some b) bytes.now) }
{
    bytes.iter().map(|byte| Some(*byte)).collect(alloc)
}

// The bytes of a chunk, each of them None if it doesn't open.
fn cell_bytes(alloc: Global, cell: &Cell) -> Result<Vec<Option<u8>>, AllocError>
    ensures { IfOk result (λ bytes. bytes.items ≡ cell_bytes (cell_seen cell.now)) }
{
    match cell {
        Cell::Good(clear) => there(alloc, clear),
        Cell::Damaged(len) => vec![in alloc; None; *len],
    }
}

/// The joined bytes of chunks.
pub(crate) fn joined_cells(alloc: Global, cells: &[Cell]) -> Result<Vec<Option<u8>>, AllocError>
    ensures { IfOk result (λ bytes. bytes.items ≡ joined_cells (cells_seen cells.now)) }
{
    let mut bytes = Vec::new(alloc);
    for cell in cells {
        let more = cell_bytes(alloc, cell)?;
        bytes.extend_from_slice(&more)?;
    }
    Ok(bytes)
}

// The joined bytes of a content.
fn joined(alloc: Global, content: &Content) -> Result<Vec<Option<u8>>, AllocError>
    ensures { IfOk result (λ bytes. bytes.items ≡ joined (content_seen content.now)) }
{
    match content {
        Content::BadSize => Ok(Vec::new(alloc)),
        Content::Chunks { cells, .. } => joined_cells(alloc, cells),
    }
}

/// All the bytes, if each of them is there.
pub(crate) fn all_there(alloc: Global, bytes: &[Option<u8>]) -> Result<Option<Vec<u8>>, AllocError>
    ensures { IfOk result (λ all. option_map (λ all. all.items) all ≡ all_there bytes.now) }
{
    let mut all = Vec::new(alloc);
    for byte in bytes {
        match byte {
            Some(byte) => all.push(*byte)?,
            None => return Ok(None),
        }
    }
    Ok(Some(all))
}

/// The clear length of a content in bytes.
pub fn content_length(alloc: Global, content: &Content) -> Result<usize, AllocError>
    ensures { IfOk result (λ len. len ≡ content_length (content_seen content.now)) }
{
    let bytes = joined(alloc, content)?;
    Ok(bytes.len())
}

/// The bytes from place `at` on, at most `most`, if each of them opens.
pub fn slice_of(
    alloc: Global,
    content: &Content,
    at: usize,
    most: usize,
) -> Result<Option<Vec<u8>>, AllocError>
    ensures { IfOk result (λ all. option_map (λ all. all.items) all ≡ slice_of (content_seen content.now) at most) }
{
    let bytes = joined(alloc, content)?;
    let start = at.min(bytes.len());
    let end = start + most.min(bytes.len() - start);
    all_there(alloc, &bytes[start..end])
}
