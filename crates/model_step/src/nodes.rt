ghost use Rattle.std.specs.Prelude.{◌≡◌, ◌<◌, ◌-◌, ◌^◌, IfOk, IfErr};
ghost use Rattle.tree_model.specs.Step.{change_dir, changed_at, new_row, set_row, with_content, with_new, without_row};
ghost use Rattle.model_step.specs.SeenRows.{row_seen, rows_seen};
ghost use Rattle.model_step.specs.Ends.{IsEnd, has_last, is_last};
ghost use Rattle.model_step.specs.SeenContents.{content_seen};

use crate::content::Content;
use crate::ends::StepErr;
use crate::rows::{Kind, Row, Rows, copied_row};
use std::alloc::{AllocError, Global};

/// The rows with this in place of the row of its number.
pub(crate) fn set_row(alloc: Global, rows: &Rows, new: &Row) -> Result<Rows, AllocError>
    ensures { IfOk result (λ all. rows_seen all ≡ set_row (rows_seen rows.now) (row_seen new.now)) }
{
    let mut nodes = Vec::new(alloc);
    for row in &rows.nodes {
        if row.number == new.number {
            nodes.push(copied_row(alloc, new)?)?;
        } else {
            nodes.push(copied_row(alloc, row)?)?;
        }
    }
    Ok(Rows {
        nodes,
        next: rows.next,
        named_twice: rows.named_twice,
    })
}

/// The node after it changed at a second.
pub(crate) fn changed_at(now: u32, row: Row) -> Result<Row, StepErr>
    ensures row { IfOk result (λ new. row_seen new ≡ changed_at now (row_seen row)) }
    ensures end { IfErr result (λ e. IsEnd e (is_last (row_seen row))) }
{
    match row.version.checked_add(1) {
        Some(version) => Ok(Row {
            version,
            modified: now,
            ..row
        }),
        None => Err(StepErr::Versions),
    }
}

/// The rows after a directory changed at a second.
pub(crate) fn change_dir(alloc: Global, rows: &Rows, number: u64, now: u32) -> Result<Rows, StepErr>
    ensures rows { IfOk result (λ all. rows_seen all ≡ change_dir (rows_seen rows.now) number now) }
    ensures end { IfErr result (λ e. IsEnd e (has_last (rows_seen rows.now))) }
{
    let mut nodes = Vec::new(alloc);
    for row in &rows.nodes {
        let copy = copied_row(alloc, row)?;
        if row.number == number {
            let changed = changed_at(now, copy)?;
            nodes.push(changed)?;
        } else {
            nodes.push(copy)?;
        }
    }
    Ok(Rows {
        nodes,
        next: rows.next,
        named_twice: rows.named_twice,
    })
}

/// The file after its content became another at a second.
pub(crate) fn with_content(row: Row, content: Content, now: u32) -> Result<Row, StepErr>
    ensures row { IfOk result (λ new. row_seen new ≡ with_content (row_seen row) (content_seen content) now) }
    ensures end { IfErr result (λ e. IsEnd e (is_last (row_seen row))) }
{
    changed_at(now, Row { content, ..row })
}

/// A new node: an empty file, or a directory without entries.
pub(crate) fn new_row(
    alloc: Global,
    rows: &Rows,
    parent: &Row,
    name: &[u8],
    is_dir: bool,
    now: u32,
) -> Result<Row, AllocError>
    ensures { IfOk result (λ row. row_seen row ≡ new_row (rows_seen rows.now) (row_seen parent.now) name.now is_dir now) }
{
    Ok(Row {
        number: rows.next,
        parent: parent.number,
        name: Vec::from_slice(alloc, name)?,
        kind: if is_dir { Kind::Dir } else { Kind::File },
        content: Content::Chunks {
            opens: true,
            cells: Vec::new(alloc),
        },
        foreign: false,
        shadowed: false,
        version: 0,
        modified: now,
    })
}

/// The rows after a node was made at a second.
pub(crate) fn with_new(alloc: Global, rows: &Rows, new: Row, now: u32) -> Result<Rows, StepErr>
    requires { rows.now.next < 2 ^ 64 - 1 }
    ensures rows { IfOk result (λ all. rows_seen all ≡ with_new (rows_seen rows.now) (row_seen new) now) }
    ensures end { IfErr result (λ e. IsEnd e (has_last (rows_seen rows.now))) }
{
    let mut all = change_dir(alloc, rows, new.parent, now)?;
    all.nodes.push(new)?;
    all.next = rows.next + 1;
    Ok(all)
}

/// The rows after a node was removed at a second.
pub(crate) fn without_row(alloc: Global, rows: &Rows, old: &Row, now: u32) -> Result<Rows, StepErr>
    ensures rows { IfOk result (λ all. rows_seen all ≡ without_row (rows_seen rows.now) (row_seen old.now) now) }
    ensures end { IfErr result (λ e. IsEnd e (has_last (rows_seen rows.now))) }
{
    let changed = change_dir(alloc, rows, old.parent, now)?;
    let mut nodes = Vec::new(alloc);
    for row in &changed.nodes {
        if row.number != old.number {
            nodes.push(copied_row(alloc, row)?)?;
        }
    }
    Ok(Rows {
        nodes,
        next: changed.next,
        named_twice: changed.named_twice,
    })
}
