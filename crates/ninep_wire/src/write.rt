//! Writing R-messages and stats into a buffer.

ghost use Rattle.std.specs.Prelude.{◌≡◌, ℕ, ◌+◌, ◌*◌, ◌<◌, ◌≤◌, ◌^◌, List, ◌++◌, length, take, drop};
ghost use Rattle.std.specs.List.{flat_map, AllByRecursion};
ghost use Rattle.tree_model.specs.Names.{walk_limit};
ghost use Rattle.tree_model.specs.Wire.{number, string, IsString, qid, IsQid, plain_stat, stat_fields, spelled_stat};
ghost use Rattle.ninep_wire.specs.RMessage.{r_kind, r_fields, spelled_r, HasRFields, IsRMessage};
ghost use Rattle.ninep_wire.specs.Stat.{IsStat};
ghost use Rattle.ninep_wire.specs.Plain.{plain_r};
ghost use Rattle.ninep_wire.specs.Writing.{HasForm, r_size, stat_size, Wrote};

use crate::kinds;
use crate::put::{put_qid, put_qids, put_string, put_u8, put_u16, put_u32, put_u64};
use crate::r_message::RMessage;
use tree_model::{Qid, Stat};

// The bytes of a message before its fields: size[4] type[1] tag[2].
const HEADER: usize = 7;

fn kind_of(reply: &RMessage<'_>) -> u8
    ensures { (old : List ℕ) → result ≡ r_kind (plain_r reply.now old) }
{
    match reply {
        RMessage::Version { .. } => kinds::R_VERSION,
        RMessage::Attach { .. } => kinds::R_ATTACH,
        RMessage::Error { .. } => kinds::R_ERROR,
        RMessage::Flush => kinds::R_FLUSH,
        RMessage::Walk { .. } => kinds::R_WALK,
        RMessage::Open { .. } => kinds::R_OPEN,
        RMessage::Create { .. } => kinds::R_CREATE,
        RMessage::Read { .. } => kinds::R_READ,
        RMessage::Write { .. } => kinds::R_WRITE,
        RMessage::Clunk => kinds::R_CLUNK,
        RMessage::Remove => kinds::R_REMOVE,
        RMessage::Stat { .. } => kinds::R_STAT,
        RMessage::Wstat => kinds::R_WSTAT,
    }
}

fn put_version(out: &mut [u8], msize: u32, version: &str) -> usize
    requires text { length version.now < 2 ^ 16 }
    requires room { 13 + length version.now ≤ length out.old }
    ensures bytes { Wrote out.old out.new HEADER result (number 4 msize ++ string version.now) }
    ensures formed { (msize < 2 ^ 32) × IsString version.now }
{
    let at = put_u32(out, HEADER, msize);
    put_string(out, at, version)
}

fn put_walk(out: &mut [u8], qids: &[Qid]) -> usize
    requires count { length qids.now ≤ walk_limit }
    requires room { 9 + 13 * length qids.now ≤ length out.old }
    ensures bytes { Wrote out.old out.new HEADER result (number 2 (length qids.now) ++ flat_map qid qids.now) }
    ensures count { result ≡ 9 + 13 * length qids.now }
    ensures formed { AllByRecursion IsQid qids.now }
{
    let at = put_u16(out, HEADER, qids.len() as u16);
    put_qids(out, at, qids)
}

fn put_open(out: &mut [u8], opened: &Qid, iounit: u32) -> usize
    requires { 24 ≤ length out.old }
    ensures bytes { Wrote out.old out.new HEADER result (qid opened.now ++ number 4 iounit) }
    ensures formed { IsQid opened.now × (iounit < 2 ^ 32) }
{
    let at = put_qid(out, HEADER, opened);
    put_u32(out, at, iounit)
}

// The count of a read's bytes, which follow it already.
fn put_read(out: &mut [u8], count: u32) -> usize
    requires { 11 + count ≤ length out.old }
    ensures bytes { Wrote out.old out.new HEADER result (number 4 count ++ take count (drop 11 out.old)) }
    ensures count { result ≡ 11 + count }
    ensures formed { count < 2 ^ 32 }
{
    let at = put_u32(out, HEADER, count);
    at + count as usize
}

// The count of a stat's bytes, which follow it already.
fn put_stat(out: &mut [u8], count: u16) -> usize
    requires { 9 + count ≤ length out.old }
    ensures bytes { Wrote out.old out.new HEADER result (number 2 count ++ take count (drop 9 out.old)) }
    ensures count { result ≡ 9 + count }
    ensures formed { count < 2 ^ 16 }
{
    let at = put_u16(out, HEADER, count);
    at + usize::from(count)
}

// The fields of an R-message, after its header.
fn put_fields(reply: &RMessage<'_>, out: &mut [u8]) -> usize
    requires form { HasForm reply.now }
    requires room { r_size reply.now ≤ length out.old }
    ensures bytes { Wrote out.old out.new HEADER result (r_fields (plain_r reply.now out.old)) }
    ensures count { result ≡ r_size reply.now }
    ensures formed { HasRFields (plain_r reply.now out.old) }
    ensures small { result < 2 ^ 32 }
{
    match reply {
        RMessage::Version { msize, version } => put_version(out, *msize, version),
        RMessage::Attach { qid } => put_qid(out, HEADER, qid),
        RMessage::Error { ename } => put_string(out, HEADER, ename),
        RMessage::Flush => HEADER,
        RMessage::Walk { count, qids } => put_walk(out, &qids[..*count]),
        RMessage::Open { qid, iounit } => put_open(out, qid, *iounit),
        RMessage::Create { qid, iounit } => put_open(out, qid, *iounit),
        RMessage::Read { count } => put_read(out, *count),
        RMessage::Write { count } => put_u32(out, HEADER, *count),
        RMessage::Clunk => HEADER,
        RMessage::Remove => HEADER,
        RMessage::Stat { count } => put_stat(out, *count),
        RMessage::Wstat => HEADER,
    }
}

fn put_header(out: &mut [u8], size: u32, kind: u8, tag: u16) -> usize
    requires { HEADER ≤ length out.old }
    ensures { Wrote out.old out.new 0 result (number 4 size ++ number 1 kind ++ number 2 tag) }
{
    let at = put_u32(out, 0, size);
    let at = put_u8(out, at, kind);
    put_u16(out, at, tag)
}

/// Writes an R-message with its tag at the front of `out`, and returns how many bytes it has. No memory is taken.
pub fn write_reply(reply: &RMessage<'_>, tag: u16, out: &mut [u8]) -> usize
    requires form { HasForm reply.now }
    requires room { r_size reply.now ≤ length out.old }
    ensures size { result ≡ r_size reply.now }
    ensures bytes { out.new ≡ spelled_r tag (plain_r reply.now out.old) ++ drop result out.old }
    ensures formed { IsRMessage tag (plain_r reply.now out.old) }
{
    let size = put_fields(reply, out);
    put_header(out, size as u32, kind_of(reply), tag);
    size
}

// The fields of a stat before its names.
fn put_numbers(stat: &Stat<'_>, out: &mut [u8], at: usize) -> usize
    requires { at + 39 ≤ length out.old }
    ensures kind { stat.now.kind < 2 ^ 16 }
    ensures device { stat.now.device < 2 ^ 32 }
    ensures qid { IsQid stat.now.qid }
    ensures mode { stat.now.mode < 2 ^ 32 }
    ensures accessed { stat.now.accessed < 2 ^ 32 }
    ensures modified { stat.now.modified < 2 ^ 32 }
    ensures long { stat.now.length < 2 ^ 64 }
    ensures bytes { Wrote out.old out.new at result (number 2 stat.now.kind ++ number 4 stat.now.device ++ qid stat.now.qid ++ number 4 stat.now.mode ++ number 4 stat.now.accessed ++ number 4 stat.now.modified ++ number 8 stat.now.length) }
{
    let at = put_u16(out, at, stat.kind);
    let at = put_u32(out, at, stat.device);
    let at = put_qid(out, at, &stat.qid);
    let at = put_u32(out, at, stat.mode);
    let at = put_u32(out, at, stat.accessed);
    let at = put_u32(out, at, stat.modified);
    put_u64(out, at, stat.length)
}

// The fields of a stat, after its size.
fn put_stat_fields(stat: &Stat<'_>, out: &mut [u8]) -> usize
    requires fits { stat_size stat.now < 2 ^ 16 }
    requires room { stat_size stat.now + 2 ≤ length out.old }
    ensures bytes { Wrote out.old out.new 2 result (stat_fields (plain_stat stat.now)) }
    ensures count { result ≡ stat_size stat.now + 2 }
    ensures formed { IsStat (plain_stat stat.now) }
{
    let at = put_numbers(stat, out, 2);
    let at = put_string(out, at, stat.name);
    let at = put_string(out, at, stat.owner);
    let at = put_string(out, at, stat.group);
    put_string(out, at, stat.modifier)
}

/// Writes a stat at the front of `out`, and returns how many bytes it has. No memory is taken.
pub fn write_stat(stat: &Stat<'_>, out: &mut [u8]) -> usize
    requires fits { stat_size stat.now < 2 ^ 16 }
    requires room { stat_size stat.now + 2 ≤ length out.old }
    ensures size { result ≡ stat_size stat.now + 2 }
    ensures bytes { out.new ≡ spelled_stat (plain_stat stat.now) ++ drop result out.old }
    ensures formed { IsStat (plain_stat stat.now) }
{
    let end = put_stat_fields(stat, out);
    put_u16(out, 0, (end - 2) as u16);
    end
}
