ghost use Rattle.std.specs.Prelude.{◌≡◌, ◌<◌, take, drop, IfOk, option_map, slice_index};
ghost use Rattle.tree_model.specs.Names.{names_in};
ghost use Rattle.tree_model.specs.Step.{found, found_by_name, walk_answer, walk_from, walked_by, stepped};
ghost use Rattle.model_step.specs.SeenRows.{bytes_seen, name_seen, row_seen, rows_seen, stepped_seen, walk_seen, walked_seen};

use crate::answer::{Reply, Stepped, refuses, says};
use crate::names::{NameFault, clear_name, name_refusal};
use crate::rows::{Row, Rows, child_of, copied_row, is_dir, row_of};
use crate::stats::qid_of;
use std::alloc::{AllocError, Global};
use tree_model::{Names, Qid, Refusal};

/// The name that leads to the parent.
pub(crate) const DOT_DOT: &[u8] = b"..";

/// The nodes on the way along names, and what refused the next one.
#[derive(Drop)]
pub(crate) struct Walk {
    qids: Vec<Qid>,
    refusal: Option<Refusal>,
}

// The byte at a place, 0 if there is none.
fn byte_at(bytes: &[u8], index: usize) -> usize
    ensures byte { result ≡ slice_index bytes.now index }
    ensures small { result < 256 }
{
    match bytes.get(index) {
        Some(byte) => *byte as usize,
        None => 0,
    }
}

// The bytes from a place on.
fn behind(bytes: &[u8], index: usize) -> &[u8]
    ensures { result.now ≡ drop index bytes.now }
{
    &bytes[index.min(bytes.len())..]
}

// At most `most` bytes.
fn front(bytes: &[u8], most: usize) -> &[u8]
    ensures { result.now ≡ take most bytes.now }
{
    &bytes[..most.min(bytes.len())]
}

/// The names of a walk.
pub(crate) fn names_in(alloc: Global, spelled: &Names<'_>) -> Result<Vec<Vec<u8>>, AllocError>
    ensures { IfOk result (λ names. bytes_seen names.items ≡ names_in spelled.now.count spelled.now.bytes.now) }
{
    let mut names = Vec::new(alloc);
    let mut rest = spelled.bytes;
    let mut left = spelled.count;
    while left > 0 {
        let len = byte_at(rest, 0) + 256 * byte_at(rest, 1);
        names.push(Vec::from_slice(alloc, front(behind(rest, 2), len))?)?;
        rest = behind(rest, 2 + len);
        left -= 1;
    }
    Ok(names)
}

// A row that was looked for.
fn found(row: Option<Row>) -> Result<Row, Refusal>
    ensures { walked_seen result ≡ found (option_map row_seen row) }
{
    row.ok_or(Refusal::FileDoesNotExist)
}

// The node of a name in a directory.
fn found_by_name(
    alloc: Global,
    rows: &Rows,
    number: u64,
    name: Result<Vec<u8>, NameFault>,
) -> Result<Result<Row, Refusal>, AllocError>
    ensures { IfOk result (λ to. walked_seen to ≡ found_by_name (rows_seen rows.now) number (name_seen name)) }
{
    match name {
        Ok(name) => Ok(found(child_of(alloc, rows, number, &name)?)),
        Err(fault) => Ok(Err(name_refusal(fault))),
    }
}

// From a node by one name.
fn walked_by(
    alloc: Global,
    rows: &Rows,
    from: &Row,
    name: &[u8],
) -> Result<Result<Row, Refusal>, AllocError>
    ensures { IfOk result (λ to. walked_seen to ≡ walked_by (rows_seen rows.now) (row_seen from.now) name.now) }
{
    if !is_dir(from.kind) {
        Ok(Err(Refusal::NotADirectory))
    } else if name == DOT_DOT {
        Ok(found(row_of(alloc, rows, from.parent)?))
    } else {
        let name = clear_name(alloc, name)?;
        found_by_name(alloc, rows, from.number, name)
    }
}

/// The qids of the nodes on the way along names, up to the first that is refused, and that refusal.
pub(crate) fn walk_from(
    alloc: Global,
    rows: &Rows,
    from: &Row,
    names: &[Vec<u8>],
) -> Result<Walk, AllocError>
    ensures { IfOk result (λ walk. walk_seen walk ≡ walk_from (rows_seen rows.now) (row_seen from.now) (bytes_seen names.now)) }
{
    let mut qids = Vec::new(alloc);
    let mut at = copied_row(alloc, from)?;
    for name in names {
        match walked_by(alloc, rows, &at, name)? {
            Ok(row) => {
                qids.push(qid_of(&row))?;
                at = row;
            }
            Err(refusal) => {
                return Ok(Walk {
                    qids,
                    refusal: Some(refusal),
                });
            }
        }
    }
    Ok(Walk {
        qids,
        refusal: None,
    })
}

/// A refusal at the first name is the answer, at a later one the qids so far.
pub(crate) fn walk_answer(alloc: Global, rows: Rows, walk: Walk) -> Stepped
    ensures { stepped_seen result ≡ stepped (rows_seen rows) (walk_answer (walk_seen walk)) }
{
    let Walk { qids, refusal } = walk;
    match refusal {
        Some(refusal) if qids.is_empty() => refuses(alloc, rows, refusal),
        _ => says(alloc, rows, Reply::Walked(qids)),
    }
}
