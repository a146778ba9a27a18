ghost use Rattle.std.specs.Prelude.{◌≡◌, ◌≤◌, ◌++◌, IfOk, OnOk};
ghost use Rattle.tree_model.specs.Wire.{number, qid, spelled_stat, stat_fields, string};
ghost use Rattle.tree_model.specs.Rows.{mode_of, qid_of, shown_length, stat_at};
ghost use Rattle.model_step.specs.SeenRows.{kind_seen, row_seen};

use crate::content::content_length;
use crate::rows::{Kind, Row, is_dir};
use std::alloc::{AllocError, Global};
use tree_model::Qid;

/// Who owns each node.
pub(crate) const OWNER: &str = "vault";

/// What a client sees of a node as a qid.
pub(crate) fn qid_of(row: &Row) -> Qid
    ensures { result ≡ qid_of (row_seen row.now) }
{
    Qid {
        kind: if is_dir(row.kind) { 0x80 } else { 0 },
        version: (row.version % 0x1_0000_0000) as u32,
        path: row.number,
    }
}

/// The mode of a node.
pub(crate) fn mode_of(kind: Kind) -> u32
    ensures { result ≡ mode_of (kind_seen kind) }
{
    match kind {
        Kind::Dir => 0x8000_01ED,
        Kind::File => 0x1A4,
        Kind::Link | Kind::Bad => 0x124,
    }
}

/// The length that is shown of a node.
pub(crate) fn shown_length(alloc: Global, row: &Row) -> Result<usize, AllocError>
    ensures { IfOk result (λ len. len ≡ shown_length (row_seen row.now)) }
{
    match row.kind {
        Kind::Dir | Kind::Bad => Ok(0),
        Kind::File | Kind::Link => content_length(alloc, &row.content),
    }
}

// Appends a number of `size` bytes, the least significant first.
fn put_number(out: &mut Vec<u8>, size: usize, value: u64) -> Result<(), AllocError>
    requires { size ≤ 8 }
    ensures { OnOk result (out.new.items ≡ out.old.items ++ number size value) }
{
    out.extend_from_slice(&value.to_le_bytes()[..size])
}

// Appends a string.
fn put_string(out: &mut Vec<u8>, text: &[u8]) -> Result<(), AllocError>
    ensures { OnOk result (out.new.items ≡ out.old.items ++ string text.now) }
{
    put_number(out, 2, text.len() as u64)?;
    out.extend_from_slice(text)
}

// Appends a qid.
fn put_qid(out: &mut Vec<u8>, id: &Qid) -> Result<(), AllocError>
    ensures { OnOk result (out.new.items ≡ out.old.items ++ qid id.now) }
{
    put_number(out, 1, id.kind as u64)?;
    put_number(out, 4, id.version as u64)?;
    put_number(out, 8, id.path)
}

// The fields of a node's stat before its names.
fn stat_numbers(alloc: Global, row: &Row) -> Result<Vec<u8>, AllocError>
    ensures { IfOk result (λ out. let s = stat_at (row_seen row.now) in out.items ≡
        number 2 s.kind ++ number 4 s.device ++ qid s.qid ++ number 4 s.mode ++ number 4 s.accessed ++ number 4 s.modified ++ number 8 s.length) }
{
    let mut out = Vec::new(alloc);
    put_number(&mut out, 2, 0)?;
    put_number(&mut out, 4, 0)?;
    put_qid(&mut out, &qid_of(row))?;
    put_number(&mut out, 4, mode_of(row.kind) as u64)?;
    put_number(&mut out, 4, row.modified as u64)?;
    put_number(&mut out, 4, row.modified as u64)?;
    put_number(&mut out, 8, shown_length(alloc, row)? as u64)?;
    Ok(out)
}

// The fields of a node's stat.
fn stat_fields(alloc: Global, row: &Row) -> Result<Vec<u8>, AllocError>
    ensures { IfOk result (λ out. out.items ≡ stat_fields (stat_at (row_seen row.now))) }
{
    let mut out = stat_numbers(alloc, row)?;
    put_string(&mut out, &row.name)?;
    put_string(&mut out, OWNER.as_bytes())?;
    put_string(&mut out, OWNER.as_bytes())?;
    put_string(&mut out, OWNER.as_bytes())?;
    Ok(out)
}

/// A node's stat as it is spelled in a message.
pub(crate) fn spelled_stat(alloc: Global, row: &Row) -> Result<Vec<u8>, AllocError>
    ensures { IfOk result (λ out. out.items ≡ spelled_stat (stat_at (row_seen row.now))) }
{
    let fields = stat_fields(alloc, row)?;
    let mut out = Vec::new(alloc);
    put_string(&mut out, &fields)?;
    Ok(out)
}
