ghost use Rattle.std.specs.Prelude.{◌≡◌, IfOk};
ghost use Rattle.std.specs.Option.{option_copied};
ghost use Rattle.tree_model.specs.Asked.{plain_request};
ghost use Rattle.tree_model.specs.Step.{create_refusal, early, growth_refusal, is_bad_size, is_held, list_refusal, open_refusal, read_refusal, removal_refusal, remove_refusal, truncates, write_refusal, writes};
ghost use Rattle.model_step.specs.SeenRows.{kind_seen, row_seen, rows_seen};
ghost use Rattle.model_step.specs.Walks.{first_refusal};
ghost use Rattle.model_step.specs.SeenContents.{content_seen};
ghost use Rattle.tree_model.specs.Names.{names_in};

use crate::content::{Content, content_length};
use crate::listing::{is_too_small, stats_behind};
use crate::names::raw_name_refusal;
use crate::rows::{Kind, ROOT, Row, Rows, has_children, is_dir};
use crate::stat_changing::change_refusal;
use crate::walking::{DOT_DOT, names_in};
use std::alloc::{AllocError, Global};
use tree_model::{Names, Refusal, Request};

// The largest file in bytes.
const FILE_LIMIT: u64 = 0x100_0000_0000;

// The largest gap past a file's end in bytes.
const GAP_LIMIT: u64 = 1_048_576;

// What keeps a node from being walked from by the first of these names.
fn walk_refusal(
    alloc: Global,
    kind: Kind,
    spelled: &Names<'_>,
) -> Result<Option<Refusal>, AllocError>
    ensures { IfOk result (λ refusal. refusal ≡ first_refusal (kind_seen kind) (names_in spelled.now.count spelled.now.bytes.now)) }
{
    let names = names_in(alloc, spelled)?;
    match names.first() {
        None => Ok(None),
        Some(_) if !is_dir(kind) => Ok(Some(Refusal::NotADirectory)),
        Some(name) if name.as_slice() == DOT_DOT => Ok(None),
        Some(name) => Ok(raw_name_refusal(name)),
    }
}

// Whether an open mode writes.
fn writes(mode: u8) -> bool
    ensures { result ≡ writes mode }
{
    mode % 4 == 1 || mode % 4 == 2
}

/// Whether an open mode truncates.
pub(crate) fn truncates(mode: u8) -> bool
    ensures { result ≡ truncates mode }
{
    mode / 16 % 2 == 1
}

// Whether no content has the file's size.
fn is_bad_size(content: &Content) -> bool
    ensures { result ≡ is_bad_size (content_seen content.now) }
{
    matches!(content, Content::BadSize)
}

// What keeps a node from being opened.
fn open_refusal(kind: Kind, content: &Content, mode: u8) -> Option<Refusal>
    ensures { result ≡ open_refusal (kind_seen kind) (content_seen content.now) mode }
{
    match kind {
        Kind::Bad => Some(Refusal::Damaged),
        Kind::Dir if mode != 0 => Some(Refusal::IsADirectory),
        Kind::Link if writes(mode) || truncates(mode) => Some(Refusal::NotPermitted),
        Kind::File if truncates(mode) && is_bad_size(content) => Some(Refusal::Damaged),
        _ => None,
    }
}

// What keeps a node from being made in a node.
fn create_refusal(kind: Kind, name: &str) -> Option<Refusal>
    ensures { result ≡ create_refusal (kind_seen kind) name.now }
{
    if is_dir(kind) {
        raw_name_refusal(name.as_bytes())
    } else {
        Some(Refusal::NotADirectory)
    }
}

// What keeps a node from being read.
fn read_refusal(kind: Kind, content: &Content) -> Option<Refusal>
    ensures { result ≡ read_refusal (kind_seen kind) (content_seen content.now) }
{
    match kind {
        Kind::Dir => Some(Refusal::IsADirectory),
        Kind::Bad => Some(Refusal::Damaged),
        Kind::File | Kind::Link if is_bad_size(content) => Some(Refusal::Damaged),
        Kind::File | Kind::Link => None,
    }
}

// What keeps a node from being listed.
fn list_refusal(
    alloc: Global,
    rows: &Rows,
    row: &Row,
    after: Option<&str>,
    most: usize,
) -> Result<Option<Refusal>, AllocError>
    ensures { IfOk result (λ refusal. refusal ≡ list_refusal (rows_seen rows.now) (row_seen row.now) (option_copied after.entry) most) }
{
    if !is_dir(row.kind) {
        return Ok(Some(Refusal::NotADirectory));
    }
    let stats = stats_behind(alloc, rows, row.number, after)?;
    if is_too_small(most, &stats) {
        return Ok(Some(Refusal::CountTooSmall));
    }
    Ok(None)
}

/// What keeps a content from being changed up to an end, after a gap up to `at`.
pub(crate) fn growth_refusal(
    alloc: Global,
    content: &Content,
    at: u64,
    end: u64,
) -> Result<Option<Refusal>, AllocError>
    ensures { IfOk result (λ refusal. refusal ≡ growth_refusal (content_seen content.now) at end) }
{
    if is_bad_size(content) {
        return Ok(Some(Refusal::Damaged));
    }
    if end > FILE_LIMIT {
        return Ok(Some(Refusal::FileTooLarge));
    }
    let len = content_length(alloc, content)?;
    if at.saturating_sub(len as u64) > GAP_LIMIT {
        return Ok(Some(Refusal::GapTooLarge));
    }
    Ok(None)
}

// What keeps a node from being written.
fn write_refusal(
    alloc: Global,
    kind: Kind,
    content: &Content,
    at: u64,
    len: usize,
) -> Result<Option<Refusal>, AllocError>
    ensures { IfOk result (λ refusal. refusal ≡ write_refusal (kind_seen kind) (content_seen content.now) at len) }
{
    match kind {
        Kind::Dir => Ok(Some(Refusal::IsADirectory)),
        Kind::Bad => Ok(Some(Refusal::Damaged)),
        Kind::Link => Ok(Some(Refusal::NotPermitted)),
        Kind::File if len == 0 => Ok(None),
        Kind::File => growth_refusal(alloc, content, at, at.saturating_add(len as u64)),
    }
}

/// Whether a node can't be moved away.
pub(crate) fn is_held(rows: &Rows, row: &Row) -> bool
    ensures { result ≡ is_held (rows_seen rows.now) (row_seen row.now) }
{
    row.shadowed || is_dir(row.kind) && rows.named_twice
}

// What keeps a node below the root from being removed.
fn removal_refusal(rows: &Rows, row: &Row) -> Option<Refusal>
    ensures { result ≡ removal_refusal (rows_seen rows.now) (row_seen row.now) (kind_seen row.now.kind) }
{
    match row.kind {
        Kind::Bad => Some(Refusal::Damaged),
        Kind::Dir if has_children(rows, row.number) => Some(Refusal::DirectoryNotEmpty),
        Kind::Dir if row.foreign || is_held(rows, row) => Some(Refusal::Foreign),
        Kind::File | Kind::Link if is_held(rows, row) => Some(Refusal::Foreign),
        _ => None,
    }
}

// What keeps a node from being removed.
fn remove_refusal(rows: &Rows, row: &Row) -> Option<Refusal>
    ensures { result ≡ remove_refusal (rows_seen rows.now) (row_seen row.now) }
{
    if row.number == ROOT {
        Some(Refusal::NotPermitted)
    } else {
        removal_refusal(rows, row)
    }
}

/// The refusals that come before the work on a request begins.
pub(crate) fn early(
    alloc: Global,
    rows: &Rows,
    row: &Row,
    request: &Request<'_>,
) -> Result<Option<Refusal>, AllocError>
    ensures { IfOk result (λ refusal. refusal ≡ early (rows_seen rows.now) (row_seen row.now) (plain_request request.now)) }
{
    match request {
        Request::Walk { names, .. } => walk_refusal(alloc, row.kind, names),
        Request::OpenNode { mode, .. } => Ok(open_refusal(row.kind, &row.content, *mode)),
        Request::Create { name, .. } => Ok(create_refusal(row.kind, name)),
        Request::Read { .. } => Ok(read_refusal(row.kind, &row.content)),
        Request::List { after, count, .. } => list_refusal(
            alloc,
            rows,
            row,
            *after,
            *count as usize,
        ),
        Request::Write { at, bytes, .. } => write_refusal(
            alloc,
            row.kind,
            &row.content,
            *at,
            bytes.len(),
        ),
        Request::Remove { .. } => Ok(remove_refusal(rows, row)),
        Request::Change { change, .. } => change_refusal(alloc, row, change),
        Request::Look { .. } | Request::StatOf { .. } | Request::Sync { .. } => Ok(None),
    }
}
