ghost use Rattle.std.specs.Prelude.{◌≡◌, length, None, IfOk, IfErr};
ghost use Rattle.tree_model.specs.Step.{create_named, is_full, open_step, write_refusal, write_step};
ghost use Rattle.model_step.specs.SeenRows.{kind_seen, name_seen, row_seen, rows_seen, stepped_seen};
ghost use Rattle.model_step.specs.Ends.{IsEndOf};
ghost use Rattle.model_step.specs.SeenContents.{content_seen};

use crate::answer::{Reply, Stepped, refuses, says};
use crate::content_changing::{resized, written};
use crate::early::truncates;
use crate::ends::StepErr;
use crate::names::{NameFault, name_refusal};
use crate::nodes::{new_row, set_row, with_content, with_new};
use crate::rows::{Row, Rows, child_of, copied_row};
use crate::stats::qid_of;
use std::alloc::Global;
use tree_model::Refusal;

// The most nodes that a tree has.
const NODE_LIMIT: usize = 1_048_576;

/// Opens a node at a second.
pub(crate) fn open_step(
    alloc: Global,
    rows: Rows,
    row: &Row,
    mode: u8,
    now: u32,
) -> Result<Stepped, StepErr>
    ensures step { IfOk result (λ to. stepped_seen to ≡ open_step (rows_seen rows) (row_seen row.now) mode now) }
    ensures end { IfErr result (λ e. IsEndOf e (rows_seen rows) (row_seen row.now)) }
{
    if !truncates(mode) {
        return Ok(says(alloc, rows, Reply::Qid(qid_of(row))));
    }
    match resized(alloc, &row.content, 0)? {
        Some(content) => {
            let new = with_content(copied_row(alloc, row)?, content, now)?;
            let all = set_row(alloc, &rows, &new)?;
            Ok(says(alloc, all, Reply::Qid(qid_of(&new))))
        }
        None => Ok(refuses(alloc, rows, Refusal::Damaged)),
    }
}

// Whether no more nodes can be made.
fn is_full(rows: &Rows) -> bool
    ensures { result ≡ is_full (rows_seen rows.now) }
{
    rows.nodes.len() >= NODE_LIMIT || rows.next == u64::MAX
}

/// Makes a node of a name at a second.
pub(crate) fn create_named(
    alloc: Global,
    rows: Rows,
    parent: &Row,
    name: Result<Vec<u8>, NameFault>,
    is_dir: bool,
    now: u32,
) -> Result<Stepped, StepErr>
    ensures step { IfOk result (λ to. stepped_seen to ≡ create_named (rows_seen rows) (row_seen parent.now) (name_seen name) is_dir now) }
    ensures end { IfErr result (λ e. IsEndOf e (rows_seen rows) (row_seen parent.now)) }
{
    match name {
        Err(fault) => Ok(refuses(alloc, rows, name_refusal(fault))),
        Ok(name) => {
            if child_of(alloc, &rows, parent.number, &name)?.is_some() {
                return Ok(refuses(alloc, rows, Refusal::FileExists));
            }
            if is_full(&rows) {
                return Ok(refuses(alloc, rows, Refusal::VaultFull));
            }
            let new = new_row(alloc, &rows, parent, &name, is_dir, now)?;
            let qid = qid_of(&new);
            let all = with_new(alloc, &rows, new, now)?;
            Ok(says(alloc, all, Reply::Qid(qid)))
        }
    }
}

/// Writes bytes at a place of a file at a second.
pub(crate) fn write_step(
    alloc: Global,
    rows: Rows,
    row: &Row,
    at: u64,
    bytes: &[u8],
    now: u32,
) -> Result<Stepped, StepErr>
    requires { write_refusal (kind_seen row.now.kind) (content_seen row.now.content) at (length bytes.now) ≡ None }
    ensures step { IfOk result (λ to. stepped_seen to ≡ write_step (rows_seen rows) (row_seen row.now) at bytes.now now) }
    ensures end { IfErr result (λ e. IsEndOf e (rows_seen rows) (row_seen row.now)) }
{
    if bytes.is_empty() {
        return Ok(says(alloc, rows, Reply::Count(0)));
    }
    match written(alloc, &row.content, at as usize, bytes)? {
        Some(content) => {
            let new = with_content(copied_row(alloc, row)?, content, now)?;
            let all = set_row(alloc, &rows, &new)?;
            Ok(says(alloc, all, Reply::Count(bytes.len())))
        }
        None => Ok(refuses(alloc, rows, Refusal::Damaged)),
    }
}
