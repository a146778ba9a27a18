// Changes of attributes, as rows of a table give them.

use crate::reply::qid;
use crate::row::{FieldErr, bytes, number, small, text, word};
use model_step::{Rows, Stepped, step};
use std::alloc::Global;
use tree_model::{Qid, Request, StatChange};

// The fields that are touched.
#[derive(Drop)]
struct Touched {
    kind: Option<u16>,
    device: Option<u32>,
    qid: Option<Qid>,
    mode: Option<u32>,
    accessed: Option<u32>,
    modified: Option<u32>,
    length: Option<u64>,
    name: Option<Vec<u8>>,
    owner: Option<Vec<u8>>,
    group: Option<Vec<u8>>,
    modifier: Option<Vec<u8>>,
}

fn untouched() -> Touched {
    Touched {
        kind: None,
        device: None,
        qid: None,
        mode: None,
        accessed: None,
        modified: None,
        length: None,
        name: None,
        owner: None,
        group: None,
        modifier: None,
    }
}

// Touches the number of a field.
fn touch_number(touched: &mut Touched, field: &str, value: &str) -> Result<(), FieldErr> {
    match field {
        "type" => touched.kind = Some(value.parse::<u16>().map_err(|_| FieldErr::Number)?),
        "dev" => touched.device = Some(small(Some(value))?),
        "mode" => touched.mode = Some(small(Some(value))?),
        "atime" => touched.accessed = Some(small(Some(value))?),
        "mtime" => touched.modified = Some(small(Some(value))?),
        "length" => touched.length = Some(number(Some(value))?),
        "qid" => touched.qid = Some(qid(value)?),
        _ => return Err(FieldErr::Word),
    }
    Ok(())
}

// Touches a field.
fn touch(alloc: Global, touched: &mut Touched, field: &str, value: &str) -> Result<(), FieldErr> {
    match field {
        "name" => touched.name = Some(bytes(alloc, value)?),
        "uid" => touched.owner = Some(bytes(alloc, value)?),
        "gid" => touched.group = Some(bytes(alloc, value)?),
        "muid" => touched.modifier = Some(bytes(alloc, value)?),
        _ => touch_number(touched, field, value)?,
    }
    Ok(())
}

// The fields that a line touches.
fn touched_by(alloc: Global, line: &str) -> Result<Touched, FieldErr> {
    let mut all = untouched();
    if line == "none" {
        return Ok(all);
    }
    for part in line.split(',') {
        match part.split_once('=') {
            Some((field, value)) => touch(alloc, &mut all, field, value)?,
            None => return Err(FieldErr::Word),
        }
    }
    Ok(all)
}

// A text that is touched.
fn text_of(field: &Option<Vec<u8>>) -> Result<Option<&str>, FieldErr> {
    match field {
        Some(bytes) => Ok(Some(text(bytes)?)),
        None => Ok(None),
    }
}

/// Changes a node: its number, and the fields that are touched.
pub(crate) fn change(
    alloc: Global,
    rows: Rows,
    node: u64,
    line: Option<&str>,
    second: u32,
) -> Result<Stepped, FieldErr> {
    let touched = touched_by(alloc, word(line)?)?;
    let change = StatChange {
        kind: touched.kind,
        device: touched.device,
        qid: touched.qid,
        mode: touched.mode,
        accessed: touched.accessed,
        modified: touched.modified,
        length: touched.length,
        name: text_of(&touched.name)?,
        owner: text_of(&touched.owner)?,
        group: text_of(&touched.group)?,
        modifier: text_of(&touched.modifier)?,
    };
    Ok(step(alloc, rows, &Request::Change { node, change }, second)?)
}
