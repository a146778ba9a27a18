// A directory whose list is read in pieces.

use crate::row::{FieldErr, RowErr, text};
use model_step::{Content, Kind, Reply, Row, Rows, step};
use std::alloc::Global;
use tree_model::Request;

// The bytes of the stat of a name of three bytes, and where the name is in it.
const STAT_SIZE: usize = 67;

const NAME_START: usize = 43;

const NAME_END: usize = 46;

fn row(alloc: Global, number: u64, name: Vec<u8>, kind: Kind) -> Row {
    Row {
        number,
        parent: 0,
        name,
        kind,
        content: Content::Chunks {
            opens: true,
            cells: Vec::new(alloc),
        },
        foreign: false,
        shadowed: false,
        version: 0,
        modified: 0,
    }
}

// The name of three digits.
fn digits(alloc: Global, index: u64) -> Result<Vec<u8>, FieldErr> {
    let name = format!(in alloc; "{:03}", index % 1000)?;
    Ok(Vec::from_slice(alloc, name.as_bytes())?)
}

// A root of `count` files, whose names are in another order than the rows.
fn directory(alloc: Global, count: u64) -> Result<Rows, FieldErr> {
    let mut nodes = Vec::new(alloc);
    nodes.push(row(alloc, 0, Vec::from_slice(alloc, b"/")?, Kind::Dir))?;
    for index in 0..count.min(1000) {
        let name = digits(alloc, index * 7 % count.max(1))?;
        nodes.push(row(alloc, index + 1, name, Kind::File))?;
    }
    Ok(Rows {
        nodes,
        next: 1001,
        named_twice: false,
    })
}

// Whether a stat is that of a name.
fn is_stat_of(alloc: Global, stat: &[u8], index: u64) -> Result<bool, FieldErr> {
    let name = digits(alloc, index)?;
    Ok(stat.len() == STAT_SIZE && stat.get(NAME_START..NAME_END) == Some(name.as_slice()))
}

// Whether the list in pieces of `size` bytes gives each of `count` names once and in order.
fn lists_all(alloc: Global, count: u64, size: u32) -> Result<bool, FieldErr> {
    let mut rows = directory(alloc, count)?;
    let mut last: Option<Vec<u8>> = None;
    let mut seen = 0u64;
    for _ in 0..=count {
        let after = match &last {
            Some(name) => Some(text(name)?),
            None => None,
        };
        let request = Request::List {
            node: 0,
            after,
            count: size,
        };
        let stepped = step(alloc, rows, &request, 0)?;
        rows = stepped.rows;
        if stepped.answer.reply == Reply::Count(0) {
            return Ok(seen == count);
        }
        for stat in stepped.answer.bytes.chunks(STAT_SIZE) {
            if !is_stat_of(alloc, stat, seen)? {
                return Ok(false);
            }
            seen = seen.saturating_add(1);
        }
        last = Some(digits(alloc, seen.saturating_sub(1))?);
    }
    Ok(false)
}

/// Lists directories in pieces of many sizes, and returns how many there are: 100 names by each size from one stat to three, and 1,000
/// names by some large ones.
pub(crate) fn check_all(alloc: Global) -> Result<u64, RowErr> {
    let mut sizes = 0u64;
    for size in 67..=201 {
        if !lists_all(alloc, 100, size).map_err(RowErr::Unlisted)? {
            return Err(RowErr::Pieces(size));
        }
        sizes = sizes.saturating_add(1);
    }
    for size in [4096, 4100, 8192, 65535, 65536] {
        if !lists_all(alloc, 1000, size).map_err(RowErr::Unlisted)? {
            return Err(RowErr::Pieces(size));
        }
        sizes = sizes.saturating_add(1);
    }
    Ok(sizes)
}
