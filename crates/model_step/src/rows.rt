ghost use Rattle.std.specs.Prelude.{◌≡◌, ◌==◌, ◌&&◌, not, IfOk, option_map};
ghost use Rattle.std.specs.Str.{bytes_eq};
ghost use Rattle.tree_model.specs.Rows.{child_of, children_of, is_child, is_dir, row_of};
ghost use Rattle.tree_model.specs.Step.{has_children};
ghost use Rattle.model_step.specs.SeenRows.{kind_seen, nodes_seen, row_seen, rows_seen};

use crate::content::{Content, copied};
use std::alloc::{AllocError, Global};

/// What a node is.
#[derive(Clone, Copy, Debug, PartialEq, Eq)]
pub enum Kind {
    Dir,
    File,
    Link,
    /// Its identifier names no folder of its own.
    Bad,
}

/// A node.
#[derive(Debug, Drop, PartialEq, Eq)]
pub struct Row {
    /// The root's is 0.
    pub number: u64,
    /// The number of its directory. The root is in none.
    pub parent: u64,
    pub name: Vec<u8>,
    pub kind: Kind,
    /// Of a file or a link.
    pub content: Content,
    /// Its folder has entries that aren't the vault's.
    pub foreign: bool,
    /// Another entry stands for the same name, or its own folder has further entries.
    pub shadowed: bool,
    /// How often it changed.
    pub version: u64,
    /// When it last changed, a second since 1970-01-01.
    pub modified: u32,
}

/// All nodes.
#[derive(Debug, Drop, PartialEq, Eq)]
pub struct Rows {
    pub nodes: Vec<Row>,
    /// The next number.
    pub next: u64,
    /// Whether an identifier is named twice.
    pub named_twice: bool,
}

/// The number of the root.
pub(crate) const ROOT: u64 = 0;

/// Whether it is a directory.
pub(crate) fn is_dir(kind: Kind) -> bool
    ensures { result ≡ is_dir (kind_seen kind) }
{
    matches!(kind, Kind::Dir)
}

/// A row of its own that is the same.
pub(crate) fn copied_row(alloc: Global, row: &Row) -> Result<Row, AllocError>
    ensures { IfOk result (λ copy. row_seen copy ≡ row_seen row.now) }
{
    Ok(Row {
        number: row.number,
        parent: row.parent,
        name: Vec::from_slice(alloc, &row.name)?,
        kind: row.kind,
        content: copied(alloc, &row.content)?,
        foreign: row.foreign,
        shadowed: row.shadowed,
        version: row.version,
        modified: row.modified,
    })
}

/// The row of a number.
pub(crate) fn row_of(alloc: Global, rows: &Rows, number: u64) -> Result<Option<Row>, AllocError>
    ensures { IfOk result (λ row. option_map row_seen row ≡ row_of (rows_seen rows.now) number) }
{
    for row in &rows.nodes {
        if row.number == number {
            return Ok(Some(copied_row(alloc, row)?));
        }
    }
    Ok(None)
}

// Whether it is the node of this name in a directory.
fn is_named(row: &Row, parent: u64, name: &[u8]) -> bool
    ensures { result ≡ ((row.now.parent == parent) && bytes_eq row.now.name.items name.now && not (row.now.number == ROOT)) }
{
    row.parent == parent && row.name.as_slice() == name && row.number != ROOT
}

/// The node of a name in a directory.
pub(crate) fn child_of(
    alloc: Global,
    rows: &Rows,
    parent: u64,
    name: &[u8],
) -> Result<Option<Row>, AllocError>
    ensures { IfOk result (λ row. option_map row_seen row ≡ child_of (rows_seen rows.now) parent name.now) }
{
    for row in &rows.nodes {
        if is_named(row, parent, name) {
            return Ok(Some(copied_row(alloc, row)?));
        }
    }
    Ok(None)
}

// Whether it is a node of a directory.
fn is_child(row: &Row, parent: u64) -> bool
    ensures { result ≡ is_child parent (row_seen row.now) }
{
    row.parent == parent && row.number != ROOT
}

/// The nodes of a directory.
pub(crate) fn children_of(alloc: Global, rows: &Rows, parent: u64) -> Result<Vec<Row>, AllocError>
    ensures { IfOk result (λ children. nodes_seen children.items ≡ children_of (rows_seen rows.now) parent) }
{
    let mut children = Vec::new(alloc);
    for row in &rows.nodes {
        if is_child(row, parent) {
            children.push(copied_row(alloc, row)?)?;
        }
    }
    Ok(children)
}

/// Whether a directory has nodes.
pub(crate) fn has_children(rows: &Rows, number: u64) -> bool
    ensures { result ≡ has_children (rows_seen rows.now) number }
{
    for row in &rows.nodes {
        if is_child(row, number) {
            return true;
        }
    }
    false
}
