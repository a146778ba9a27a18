ghost use Rattle.std.specs.Prelude.{◌≡◌, ◌==◌, not, Some, None, IfOk, IfErr, if◌then◌else◌};
ghost use Rattle.tree_model.specs.Rows.{owner, shown_length};
ghost use Rattle.std.specs.Option.{option_copied, option_map_or};
ghost use Rattle.std.specs.Str.{bytes_eq};
ghost use Rattle.nfc_text.specs.Nfc.{nfc_of};
ghost use Rattle.tree_model.specs.Asked.{done, plain_change};
ghost use Rattle.tree_model.specs.Step.{change_refusal, change_step, is_other, is_other_qid, is_other_text, length_refusal, place_refusal, place_step, rename_refusal, rename_step, resize_step, says, set_row, stepped, touches_fixed, with_mtime};
ghost use Rattle.model_step.specs.SeenRows.{kind_seen, name_seen, row_seen, rows_seen, stepped_seen};
ghost use Rattle.model_step.specs.Ends.{IsEndOf};
ghost use Rattle.model_step.specs.SeenContents.{content_seen};

use crate::answer::{Reply, Stepped, refuses, says};
use crate::content_changing::resized;
use crate::early::{growth_refusal, is_held};
use crate::ends::StepErr;
use crate::names::{NameFault, clear_name, name_refusal, raw_name_refusal};
use crate::nodes::{change_dir, set_row, with_content};
use crate::rows::{Kind, ROOT, Row, Rows, child_of, copied_row};
use crate::stats::{OWNER, mode_of, qid_of, shown_length};
use nfc_text::nfc;
use std::alloc::{AllocError, Global};
use tree_model::{Qid, Refusal, StatChange};

// Whether the kernel's type is touched and isn't 0.
fn is_other_kind(field: Option<u16>) -> bool
    ensures { result ≡ is_other field 0 }
{
    match field {
        Some(kind) => kind != 0,
        None => false,
    }
}

// Whether a field is touched and isn't as it is.
fn is_other(field: Option<u32>, is: u32) -> bool
    ensures { result ≡ is_other field is }
{
    match field {
        Some(value) => value != is,
        None => false,
    }
}

// Whether a text is touched and isn't the owner's name.
fn is_other_owner(field: Option<&str>) -> bool
    ensures { result ≡ is_other_text (option_copied field.entry) owner }
{
    match field {
        Some(text) => text != OWNER,
        None => false,
    }
}

// Whether the qid is touched and isn't as it is.
fn is_other_qid(field: Option<Qid>, is: &Qid) -> bool
    ensures { result ≡ is_other_qid field is.now }
{
    match field {
        Some(qid) => !(qid.kind == is.kind && qid.version == is.version && qid.path == is.path),
        None => false,
    }
}

// Whether a field other than name, length and mtime is touched and isn't as it is.
fn touches_fixed(row: &Row, change: &StatChange<'_>) -> bool
    ensures { result ≡ touches_fixed (row_seen row.now) (plain_change change.now) }
{
    is_other_kind(change.kind)
        || is_other(change.device, 0)
        || is_other_qid(change.qid, &qid_of(row))
        || is_other(change.mode, mode_of(row.kind))
        || is_other(change.accessed, row.modified)
        || is_other_owner(change.owner)
        || is_other_owner(change.group)
        || is_other_owner(change.modifier)
}

// Whether the form NFC of a name isn't the node's own name.
fn is_new_name(alloc: Global, row: &Row, name: &str) -> Result<bool, AllocError>
    ensures { IfOk result (λ is. is ≡ not (bytes_eq (nfc_of name.now) row.now.name.items)) }
{
    let form = nfc(alloc, name)?;
    Ok(form.as_bytes() != row.name.as_slice())
}

// The length that is asked for, if it isn't the node's own.
fn new_length(alloc: Global, row: &Row, length: Option<u64>) -> Result<Option<u64>, AllocError>
    ensures { IfOk result (λ new. new ≡ option_map_or (λ n. if n == shown_length (row_seen row.now) then None else Some n) length None) }
{
    match length {
        Some(n) if n == shown_length(alloc, row)? as u64 => Ok(None),
        Some(n) => Ok(Some(n)),
        None => Ok(None),
    }
}

// What keeps a node from having another length.
fn length_refusal(alloc: Global, row: &Row, n: u64) -> Result<Option<Refusal>, AllocError>
    ensures { IfOk result (λ refusal. refusal ≡ length_refusal (kind_seen row.now.kind) (content_seen row.now.content) n) }
{
    match row.kind {
        Kind::Dir => Ok(Some(Refusal::IsADirectory)),
        Kind::Bad => Ok(Some(Refusal::Damaged)),
        Kind::Link => Ok(Some(Refusal::NotPermitted)),
        Kind::File => growth_refusal(alloc, &row.content, n, n),
    }
}

// What keeps a node from having another name.
fn rename_refusal(row: &Row, name: &str) -> Option<Refusal>
    ensures { result ≡ rename_refusal (row_seen row.now) name.now }
{
    if row.number == ROOT {
        None
    } else {
        raw_name_refusal(name.as_bytes())
    }
}

// What keeps name and length from being changed.
fn place_refusal(
    alloc: Global,
    row: &Row,
    name: Option<&str>,
    length: Option<u64>,
) -> Result<Option<Refusal>, AllocError>
    ensures { IfOk result (λ refusal. refusal ≡ place_refusal (row_seen row.now) (option_copied name.entry) length) }
{
    match (name, length) {
        (None, Some(n)) => length_refusal(alloc, row, n),
        (Some(name), None) => Ok(rename_refusal(row, name)),
        _ => Ok(None),
    }
}

/// What keeps a node from being changed.
pub(crate) fn change_refusal(
    alloc: Global,
    row: &Row,
    change: &StatChange<'_>,
) -> Result<Option<Refusal>, AllocError>
    ensures { IfOk result (λ refusal. refusal ≡ change_refusal (row_seen row.now) (plain_change change.now)) }
{
    if row.kind == Kind::Bad {
        return Ok(Some(Refusal::Damaged));
    }
    if touches_fixed(row, change) {
        return Ok(Some(Refusal::NotPermitted));
    }
    let length = new_length(alloc, row, change.length)?;
    place_refusal(alloc, row, change.name, length)
}

// The node with the mtime that is asked for.
fn with_mtime(change: &StatChange<'_>, row: Row) -> Row
    ensures { row_seen result ≡ with_mtime (plain_change change.now) (row_seen row) }
{
    Row {
        modified: change.modified.unwrap_or(row.modified),
        ..row
    }
}

// Gives a node another name at a second.
fn rename_step(
    alloc: Global,
    rows: Rows,
    row: &Row,
    change: &StatChange<'_>,
    name: Result<Vec<u8>, NameFault>,
    now: u32,
) -> Result<Stepped, StepErr>
    ensures step { IfOk result (λ to. stepped_seen to ≡ rename_step (rows_seen rows) (row_seen row.now) (plain_change change.now) (name_seen name) now) }
    ensures end { IfErr result (λ e. IsEndOf e (rows_seen rows) (row_seen row.now)) }
{
    match name {
        Err(fault) => Ok(refuses(alloc, rows, name_refusal(fault))),
        Ok(name) => {
            if child_of(alloc, &rows, row.parent, &name)?.is_some() {
                return Ok(refuses(alloc, rows, Refusal::FileExists));
            }
            if is_held(&rows, row) {
                return Ok(refuses(alloc, rows, Refusal::Foreign));
            }
            let new = with_mtime(
                change,
                Row {
                    name,
                    ..copied_row(alloc, row)?
                },
            );
            let changed = change_dir(alloc, &rows, row.parent, now)?;
            let all = set_row(alloc, &changed, &new)?;
            Ok(says(alloc, all, Reply::Done))
        }
    }
}

// Gives a node another length at a second.
fn resize_step(
    alloc: Global,
    rows: Rows,
    row: &Row,
    change: &StatChange<'_>,
    n: u64,
    now: u32,
) -> Result<Stepped, StepErr>
    ensures step { IfOk result (λ to. stepped_seen to ≡ resize_step (rows_seen rows) (row_seen row.now) (plain_change change.now) n now) }
    ensures end { IfErr result (λ e. IsEndOf e (rows_seen rows) (row_seen row.now)) }
{
    if let Some(refusal) = length_refusal(alloc, row, n)? {
        return Ok(refuses(alloc, rows, refusal));
    }
    match resized(alloc, &row.content, n as usize)? {
        Some(content) => {
            let new = with_mtime(change, with_content(copied_row(alloc, row)?, content, now)?);
            let all = set_row(alloc, &rows, &new)?;
            Ok(says(alloc, all, Reply::Done))
        }
        None => Ok(refuses(alloc, rows, Refusal::Damaged)),
    }
}

// Gives a node another name that isn't its own, if it isn't the root.
fn named_step(
    alloc: Global,
    rows: Rows,
    row: &Row,
    change: &StatChange<'_>,
    name: &str,
    now: u32,
) -> Result<Stepped, StepErr>
    ensures step { IfOk result (λ to. stepped_seen to ≡ place_step (rows_seen rows) (row_seen row.now) (plain_change change.now) (Some name.now) None now) }
    ensures end { IfErr result (λ e. IsEndOf e (rows_seen rows) (row_seen row.now)) }
{
    if row.number == ROOT {
        return Ok(refuses(alloc, rows, Refusal::NotPermitted));
    }
    let clear = clear_name(alloc, name.as_bytes())?;
    rename_step(alloc, rows, row, change, clear, now)
}

// Changes nothing but the mtime.
fn dated_step(
    alloc: Global,
    rows: Rows,
    row: &Row,
    change: &StatChange<'_>,
) -> Result<Stepped, StepErr>
    ensures step { IfOk result (λ to. stepped_seen to ≡ stepped (set_row (rows_seen rows) (with_mtime (plain_change change.now) (row_seen row.now))) (says done)) }
    ensures end { IfErr result (λ e. IsEndOf e (rows_seen rows) (row_seen row.now)) }
{
    let new = with_mtime(change, copied_row(alloc, row)?);
    let all = set_row(alloc, &rows, &new)?;
    Ok(says(alloc, all, Reply::Done))
}

// The name that is asked for, if its form NFC isn't the node's own.
fn new_name<'a>(
    alloc: Global,
    row: &Row,
    name: Option<&'a str>,
) -> Result<Option<&'a str>, AllocError>
    ensures { IfOk result (λ new. option_copied new ≡ option_map_or (λ name. if bytes_eq (nfc_of name) row.now.name.items then None else Some name) (option_copied name.entry) None) }
{
    match name {
        Some(name) => {
            if is_new_name(alloc, row, name)? {
                Ok(Some(name))
            } else {
                Ok(None)
            }
        }
        None => Ok(None),
    }
}

/// Changes a node at a second.
pub(crate) fn change_step(
    alloc: Global,
    rows: Rows,
    row: &Row,
    change: &StatChange<'_>,
    now: u32,
) -> Result<Stepped, StepErr>
    ensures step { IfOk result (λ to. stepped_seen to ≡ change_step (rows_seen rows) (row_seen row.now) (plain_change change.now) now) }
    ensures end { IfErr result (λ e. IsEndOf e (rows_seen rows) (row_seen row.now)) }
{
    let length = new_length(alloc, row, change.length)?;
    let name = new_name(alloc, row, change.name)?;
    match (name, length) {
        (None, None) => dated_step(alloc, rows, row, change),
        (None, Some(n)) => resize_step(alloc, rows, row, change, n, now),
        (Some(name), None) => named_step(alloc, rows, row, change, name, now),
        (Some(_), Some(_)) => Ok(refuses(alloc, rows, Refusal::OneChangeAtATime)),
    }
}
