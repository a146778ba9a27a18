// Trees, as rows of a table give them.

use crate::row::{FieldErr, bytes, flag, length, number, small, word};
use model_step::{Cell, Content, Kind, Row, Rows};
use std::alloc::Global;

fn kind(word: &str) -> Result<Kind, FieldErr> {
    match word {
        "dir" => Ok(Kind::Dir),
        "file" => Ok(Kind::File),
        "link" => Ok(Kind::Link),
        "bad" => Ok(Kind::Bad),
        _ => Err(FieldErr::Word),
    }
}

fn cell(alloc: Global, word: &str) -> Result<Cell, FieldErr> {
    match word.strip_prefix('?') {
        Some(len) => Ok(Cell::Damaged(length(Some(len))?)),
        None => Ok(Cell::Good(bytes(alloc, word)?)),
    }
}

fn content(alloc: Global, field: &str) -> Result<Content, FieldErr> {
    let mut parts = field.split(':');
    let opens = match word(parts.next())? {
        "none" => return Ok(Content::BadSize),
        "opens" => true,
        "shut" => false,
        _ => return Err(FieldErr::Word),
    };
    let mut cells = Vec::new(alloc);
    for part in parts {
        cells.push(cell(alloc, part)?)?;
    }
    Ok(Content::Chunks { opens, cells })
}

/// A row: its number, its parent's, its name, kind and content, whether it is foreign and shadowed, its version, and its second.
pub(crate) fn row(alloc: Global, line: &str) -> Result<Row, FieldErr> {
    let mut fields = line.split(' ');
    let number_of = number(fields.next())?;
    let parent = number(fields.next())?;
    let name = bytes(alloc, word(fields.next())?)?;
    let kind = kind(word(fields.next())?)?;
    let content = content(alloc, word(fields.next())?)?;
    let foreign = flag(fields.next())?;
    let shadowed = flag(fields.next())?;
    let version = number(fields.next())?;
    let modified = small(fields.next())?;
    Ok(Row {
        number: number_of,
        parent,
        name,
        kind,
        content,
        foreign,
        shadowed,
        version,
        modified,
    })
}

/// A tree without rows: the next number, and whether an identifier is named twice.
pub(crate) fn tree(alloc: Global, line: &str) -> Result<Rows, FieldErr> {
    let mut fields = line.split(' ');
    let next = number(fields.next())?;
    let named_twice = flag(fields.next())?;
    Ok(Rows {
        nodes: Vec::new(alloc),
        next,
        named_twice,
    })
}

/// The rows with a row in the place of its number's, or after all.
pub(crate) fn put(mut rows: Rows, new: Row) -> Result<Rows, FieldErr> {
    for row in rows.nodes.iter_mut() {
        if row.number == new.number {
            *row = new;
            return Ok(rows);
        }
    }
    if rows.next <= new.number {
        rows.next = new.number.saturating_add(1);
    }
    rows.nodes.push(new)?;
    Ok(rows)
}

/// The rows without the row of a number.
pub(crate) fn without(mut rows: Rows, number: u64) -> Rows {
    rows.nodes.retain(|row| row.number != number);
    rows
}
