ghost use Rattle.std.specs.Prelude.{◌≡◌, None, IfOk, IfErr};
ghost use Rattle.tree_model.specs.Asked.{plain_request};
ghost use Rattle.tree_model.specs.Step.{early, node_of, step, work};
ghost use Rattle.model_step.specs.SeenRows.{row_seen, rows_seen, stepped_seen};
ghost use Rattle.model_step.specs.Ends.{IsEnd, IsEndOf, has_last};

use crate::answer::{Answer, Reply, Stepped, bytes_answer, refuses, says};
use crate::content::slice_of;
use crate::early::early;
use crate::ends::StepErr;
use crate::listing::{fitting, stats_behind};
use crate::names::clear_name;
use crate::nodes::without_row;
use crate::rows::{Row, Rows, row_of};
use crate::stat_changing::change_step;
use crate::stats::{qid_of, spelled_stat};
use crate::walking::{names_in, walk_answer, walk_from};
use crate::writing::{create_named, open_step, write_step};
use std::alloc::Global;
use tree_model::{Refusal, Request};

// The node that a request names.
fn node_of(request: &Request<'_>) -> u64
    ensures { result ≡ node_of (plain_request request.now) }
{
    match request {
        Request::Look { node }
        | Request::Walk { node, .. }
        | Request::OpenNode { node, .. }
        | Request::Create { node, .. }
        | Request::Read { node, .. }
        | Request::List { node, .. }
        | Request::Write { node, .. }
        | Request::Remove { node }
        | Request::StatOf { node }
        | Request::Change { node, .. }
        | Request::Sync { node } => *node,
    }
}

// What a request leads to if no refusal comes before the work.
fn work(
    alloc: Global,
    rows: Rows,
    row: &Row,
    request: &Request<'_>,
    now: u32,
) -> Result<Stepped, StepErr>
    requires { early (rows_seen rows) (row_seen row.now) (plain_request request.now) ≡ None }
    ensures step { IfOk result (λ to. stepped_seen to ≡ work (rows_seen rows) (row_seen row.now) (plain_request request.now) now) }
    ensures end { IfErr result (λ e. IsEndOf e (rows_seen rows) (row_seen row.now)) }
{
    match request {
        Request::Look { .. } => Ok(says(alloc, rows, Reply::Qid(qid_of(row)))),
        Request::Walk { names, .. } => {
            let names = names_in(alloc, names)?;
            let walk = walk_from(alloc, &rows, row, &names)?;
            Ok(walk_answer(alloc, rows, walk))
        }
        Request::OpenNode { mode, .. } => open_step(alloc, rows, row, *mode, now),
        Request::Create { name, is_dir, .. } => {
            let name = clear_name(alloc, name.as_bytes())?;
            create_named(alloc, rows, row, name, *is_dir, now)
        }
        Request::Read { at, count, .. } => {
            let bytes = slice_of(alloc, &row.content, *at as usize, *count as usize)?;
            Ok(bytes_answer(alloc, rows, bytes))
        }
        Request::List { after, count, .. } => {
            let stats = stats_behind(alloc, &rows, row.number, *after)?;
            let bytes = fitting(alloc, *count as usize, &stats)?;
            Ok(bytes_answer(alloc, rows, Some(bytes)))
        }
        Request::Write { at, bytes, .. } => write_step(alloc, rows, row, *at, bytes, now),
        Request::Remove { .. } => {
            let all = without_row(alloc, &rows, row, now)?;
            Ok(says(alloc, all, Reply::Done))
        }
        Request::StatOf { .. } => {
            let bytes = spelled_stat(alloc, row)?;
            Ok(Stepped {
                rows,
                answer: Answer {
                    reply: Reply::Stat(bytes.len()),
                    bytes,
                },
            })
        }
        Request::Change { change, .. } => change_step(alloc, rows, row, change, now),
        Request::Sync { .. } => Ok(says(alloc, rows, Reply::Done)),
    }
}

/// What a request leads to, which is made at a second since 1970-01-01: the rows after it, and the answer. A refusal leaves the rows.
/// A step that would count a version past 2^64 - 1 isn't made.
pub fn step(alloc: Global, rows: Rows, request: &Request<'_>, now: u32) -> Result<Stepped, StepErr>
    ensures step { IfOk result (λ to. stepped_seen to ≡ step (rows_seen rows) (plain_request request.now) now) }
    ensures end { IfErr result (λ e. IsEnd e (has_last (rows_seen rows))) }
{
    let Some(row) = row_of(alloc, &rows, node_of(request))? else {
        return Ok(refuses(alloc, rows, Refusal::Removed));
    };
    if let Some(refusal) = early(alloc, &rows, &row, request)? {
        return Ok(refuses(alloc, rows, refusal));
    }
    work(alloc, rows, &row, request, now)
}
