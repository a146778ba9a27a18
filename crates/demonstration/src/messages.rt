//! Writers of the messages that scripts have: each appends one.
#![tactic(auto, unfolding(crate::specs::Script::sent))]

ghost use Rattle.std.specs.Prelude.{◌≡◌, ◌+◌, ◌<◌, ◌^◌, [], ◌∷◌, ◌++◌, length, codes, OnOk};
ghost use Rattle.tree_model.specs.Wire.{number, string};
ghost use Rattle.ninep_wire.specs.TMessage.{attach, clunk, create, open_fid, read, remove, version, walk, write, wstat, spelled_t};
ghost use Rattle.demonstration.specs.Script.{tagged, sent, untouched};

use ninep_wire::kinds;
use std::alloc::AllocError;

// The tag of Tversion (version(5)).
const NO_TAG: u16 = 0xFFFF;

// The tag of all other messages: a client waits for each answer.
const TAG: u16 = 1;

// The afid if no other fid serves as a ticket (attach(5)).
const NO_FID: u32 = 0xFFFF_FFFF;

// The fid of the root, which a client attaches and walks from.
const ROOT: u32 = 0;

// The bytes of a message before its fields: size[4] type[1] tag[2].
const HEADER: usize = 7;

fn push_u16(out: &mut Vec<u8>, value: u16) -> Result<(), AllocError>
    ensures { OnOk result (out.new.items ≡ out.old.items ++ number 2 value) }
{
    out.extend_from_slice(&value.to_le_bytes())
}

fn push_u32(out: &mut Vec<u8>, value: u32) -> Result<(), AllocError>
    ensures { OnOk result (out.new.items ≡ out.old.items ++ number 4 value) }
{
    out.extend_from_slice(&value.to_le_bytes())
}

fn push_u64(out: &mut Vec<u8>, value: u64) -> Result<(), AllocError>
    ensures { OnOk result (out.new.items ≡ out.old.items ++ number 8 value) }
{
    out.extend_from_slice(&value.to_le_bytes())
}

fn push_string(out: &mut Vec<u8>, text: &[u8]) -> Result<(), AllocError>
    requires { length text.now < 2 ^ 16 }
    ensures { OnOk result (out.new.items ≡ out.old.items ++ string text.now) }
{
    push_u16(out, text.len() as u16)?;
    out.extend_from_slice(text)
}

// A count of four bytes, and so many bytes.
fn push_data(out: &mut Vec<u8>, bytes: &[u8]) -> Result<(), AllocError>
    requires { length bytes.now < 2 ^ 32 }
    ensures { OnOk result (out.new.items ≡ out.old.items ++ (number 4 (length bytes.now) ++ bytes.now)) }
{
    push_u32(out, bytes.len() as u32)?;
    out.extend_from_slice(bytes)
}

// What a message of so many bytes of fields opens with.
fn push_header(out: &mut Vec<u8>, kind: u8, tag: u16, fields: usize) -> Result<(), AllocError>
    requires { fields < 2 ^ 16 }
    ensures { OnOk result (out.new.items ≡ out.old.items ++ (number 4 (fields + 7) ++ number 1 kind ++ number 2 tag)) }
{
    push_u32(out, (HEADER + fields) as u32)?;
    out.push(kind)?;
    push_u16(out, tag)
}

// What a message opens with that names a fid and has so many bytes of fields after it.
fn push_call(out: &mut Vec<u8>, kind: u8, fid: u32, more: usize) -> Result<(), AllocError>
    requires { more < 2 ^ 15 }
    ensures { OnOk result (out.new.items ≡ out.old.items ++ (number 4 (4 + more + 7) ++ number 1 kind ++ number 2 1 ++ number 4 fid)) }
{
    push_header(out, kind, TAG, 4 + more)?;
    push_u32(out, fid)
}

pub(crate) fn push_version(out: &mut Vec<u8>, msize: u32) -> Result<(), AllocError>
    ensures { OnOk result (out.new.items ≡ out.old.items ++ spelled_t (tagged 0xFFFF (version msize (codes "9P2000")))) }
{
    push_header(out, kinds::T_VERSION, NO_TAG, 12)?;
    push_u32(out, msize)?;
    push_string(out, b"9P2000")
}

pub(crate) fn push_attach(out: &mut Vec<u8>) -> Result<(), AllocError>
    ensures { OnOk result (out.new.items ≡ out.old.items ++ sent (attach 0 0xFFFFFFFF (codes "demo") [])) }
{
    push_call(out, kinds::T_ATTACH, ROOT, 12)?;
    push_u32(out, NO_FID)?;
    push_string(out, b"demo")?;
    push_string(out, b"")
}

// What a walk from the root opens with: so many names, whose strings have so many bytes, follow.
fn push_walk(out: &mut Vec<u8>, newfid: u32, names: u16, size: usize) -> Result<(), AllocError>
    requires { size < 2 ^ 14 }
    ensures { OnOk result (out.new.items ≡ out.old.items
        ++ (number 4 (10 + size + 7) ++ number 1 110 ++ number 2 1 ++ number 4 0 ++ number 4 newfid ++ number 2 names)) }
{
    push_call(out, kinds::T_WALK, ROOT, 6 + size)?;
    push_u32(out, newfid)?;
    push_u16(out, names)
}

/// Makes `newfid` the root, as the fid of the root is (walk(5)).
pub(crate) fn push_clone(out: &mut Vec<u8>, newfid: u32) -> Result<(), AllocError>
    ensures { OnOk result (out.new.items ≡ out.old.items ++ sent (walk 0 newfid [])) }
{
    push_walk(out, newfid, 0, 0)
}

pub(crate) fn push_walk_to_directory(
    out: &mut Vec<u8>,
    newfid: u32,
    directory: &[u8; 3],
) -> Result<(), AllocError>
    ensures { OnOk result (out.new.items ≡ out.old.items ++ sent (walk 0 newfid (directory.now ∷ []))) }
{
    push_walk(out, newfid, 1, 5)?;
    push_string(out, directory)
}

pub(crate) fn push_walk_to_file(
    out: &mut Vec<u8>,
    newfid: u32,
    directory: &[u8; 3],
    file: &[u8; 2],
) -> Result<(), AllocError>
    ensures { OnOk result (out.new.items ≡ out.old.items ++ sent (walk 0 newfid (directory.now ∷ file.now ∷ []))) }
{
    push_walk(out, newfid, 2, 9)?;
    push_string(out, directory)?;
    push_string(out, file)
}

pub(crate) fn push_open(out: &mut Vec<u8>, fid: u32, mode: u8) -> Result<(), AllocError>
    ensures { OnOk result (out.new.items ≡ out.old.items ++ sent (open_fid fid mode)) }
{
    push_call(out, kinds::T_OPEN, fid, 1)?;
    out.push(mode)?;
    Ok(())
}

pub(crate) fn push_create(
    out: &mut Vec<u8>,
    fid: u32,
    name: &[u8],
    perm: u32,
    mode: u8,
) -> Result<(), AllocError>
    requires { length name.now < 2 ^ 10 }
    ensures { OnOk result (out.new.items ≡ out.old.items ++ sent (create fid name.now perm mode)) }
{
    push_call(out, kinds::T_CREATE, fid, 7 + name.len())?;
    push_string(out, name)?;
    push_u32(out, perm)?;
    out.push(mode)?;
    Ok(())
}

pub(crate) fn push_read(
    out: &mut Vec<u8>,
    fid: u32,
    offset: u64,
    count: u32,
) -> Result<(), AllocError>
    ensures { OnOk result (out.new.items ≡ out.old.items ++ sent (read fid offset count)) }
{
    push_call(out, kinds::T_READ, fid, 12)?;
    push_u64(out, offset)?;
    push_u32(out, count)
}

pub(crate) fn push_write(
    out: &mut Vec<u8>,
    fid: u32,
    offset: u64,
    bytes: &[u8],
) -> Result<(), AllocError>
    requires { length bytes.now < 2 ^ 14 }
    ensures { OnOk result (out.new.items ≡ out.old.items ++ sent (write fid offset bytes.now)) }
{
    push_call(out, kinds::T_WRITE, fid, 12 + bytes.len())?;
    push_u64(out, offset)?;
    push_data(out, bytes)
}

pub(crate) fn push_clunk(out: &mut Vec<u8>, fid: u32) -> Result<(), AllocError>
    ensures { OnOk result (out.new.items ≡ out.old.items ++ sent (clunk fid)) }
{
    push_call(out, kinds::T_CLUNK, fid, 0)
}

pub(crate) fn push_remove(out: &mut Vec<u8>, fid: u32) -> Result<(), AllocError>
    ensures { OnOk result (out.new.items ≡ out.old.items ++ sent (remove fid)) }
{
    push_call(out, kinds::T_REMOVE, fid, 0)
}

/// A change that touches nothing: each number is all ones and each name is empty (stat(5)).
pub(crate) fn push_untouched(out: &mut Vec<u8>, fid: u32) -> Result<(), AllocError>
    ensures { OnOk result (out.new.items ≡ out.old.items ++ sent (wstat fid untouched)) }
{
    push_call(out, kinds::T_WSTAT, fid, 51)?;
    // n[2] and size[2]: of a stat, and of the fields in it
    out.extend_from_slice(&[49, 0, 47, 0])?;
    out.extend_from_slice(&[0xff; 39])?;
    out.extend_from_slice(&[0; 8])
}
