// Requests, as rows of a table give them, and the steps that they are.

use crate::change::change;
use crate::row::{FieldErr, bytes, number, small, text, word};
use model_step::{Rows, Stepped, step};
use std::alloc::Global;
use tree_model::{Names, Request};

// Appends a name as a message has it.
fn put_name(spelled: &mut Vec<u8>, name: &[u8]) -> Result<(), FieldErr> {
    let len = u16::try_from(name.len()).map_err(|_| FieldErr::Number)?;
    spelled.extend_from_slice(&len.to_le_bytes())?;
    spelled.extend_from_slice(name)?;
    Ok(())
}

fn walk(
    alloc: Global,
    rows: Rows,
    node: u64,
    field: Option<&str>,
    second: u32,
) -> Result<Stepped, FieldErr> {
    let line = word(field)?;
    let mut spelled = Vec::new(alloc);
    let mut count = 0u16;
    if line != "none" {
        for part in line.split(',') {
            put_name(&mut spelled, &bytes(alloc, part)?)?;
            count = count.saturating_add(1);
        }
    }
    let names = Names {
        count,
        bytes: &spelled,
    };
    Ok(step(alloc, rows, &Request::Walk { node, names }, second)?)
}

fn mode_of(field: Option<&str>) -> Result<u8, FieldErr> {
    word(field)?.parse::<u8>().map_err(|_| FieldErr::Number)
}

fn create(
    alloc: Global,
    rows: Rows,
    node: u64,
    name: Option<&str>,
    kind: Option<&str>,
    mode: Option<&str>,
    second: u32,
) -> Result<Stepped, FieldErr> {
    let name = bytes(alloc, word(name)?)?;
    let is_dir = word(kind)? == "dir";
    let mode = mode_of(mode)?;
    let name = text(&name)?;
    Ok(step(
        alloc,
        rows,
        &Request::Create {
            node,
            name,
            is_dir,
            mode,
        },
        second,
    )?)
}

fn list(
    alloc: Global,
    rows: Rows,
    node: u64,
    after: Option<&str>,
    count: u32,
    second: u32,
) -> Result<Stepped, FieldErr> {
    let field = word(after)?;
    if field == "none" {
        let request = Request::List {
            node,
            after: None,
            count,
        };
        return Ok(step(alloc, rows, &request, second)?);
    }
    let name = bytes(alloc, field)?;
    let after = Some(text(&name)?);
    Ok(step(alloc, rows, &Request::List { node, after, count }, second)?)
}

fn write(
    alloc: Global,
    rows: Rows,
    node: u64,
    at: u64,
    field: Option<&str>,
    second: u32,
) -> Result<Stepped, FieldErr> {
    let given = bytes(alloc, word(field)?)?;
    let request = Request::Write {
        node,
        at,
        bytes: &given,
    };
    Ok(step(alloc, rows, &request, second)?)
}

/// Asks what a line says: the second, the request's word, its node, and what else it has.
pub(crate) fn ask(alloc: Global, rows: Rows, line: &str) -> Result<Stepped, FieldErr> {
    let mut fields = line.split(' ');
    let second = small(fields.next())?;
    let what = word(fields.next())?;
    let node = number(fields.next())?;
    let first = fields.next();
    let last = fields.next();
    let request = match what {
        "look" => Request::Look { node },
        "open" => Request::OpenNode {
            node,
            mode: mode_of(first)?,
        },
        "read" => Request::Read {
            node,
            at: number(first)?,
            count: small(last)?,
        },
        "remove" => Request::Remove { node },
        "stat" => Request::StatOf { node },
        "sync" => Request::Sync { node },
        "walk" => return walk(alloc, rows, node, first, second),
        "create" => return create(alloc, rows, node, first, last, fields.next(), second),
        "list" => return list(alloc, rows, node, first, small(last)?, second),
        "write" => return write(alloc, rows, node, number(first)?, last, second),
        "change" => return change(alloc, rows, node, first, second),
        _ => return Err(FieldErr::Word),
    };
    Ok(step(alloc, rows, &request, second)?)
}
