//! Readers of each message's fields (section 5 of the Plan 9 manual).

ghost use Rattle.std.specs.Prelude.{IfOk};
ghost use Rattle.ninep_wire.specs.Plain.{plain_t, HasNames};
ghost use Rattle.ninep_wire.specs.Reading.{Gives, version_at, auth_at, attach_at, flush_at, walk_at, open_at, create_at, read_at, write_at, clunk_at, remove_at, fstat_at, wstat_at};

use crate::change::stat_of;
use crate::fault::WireErr;
use crate::fields::{data_of, names_of, string_of, u8_of, u16_of, u32_of, u64_of};
use crate::t_message::TMessage;

#[tactic(auto, unfolding(crate::specs::Reading::version_at))]
pub fn version_of(fields: &[u8]) -> Result<(TMessage<'_>, &[u8]), WireErr>
    ensures given { Gives (λ x. (plain_t x.0, x.1.now)) result (version_at fields.now) }
    ensures names { IfOk result (λ x. HasNames x.0) }
{
    let (msize, rest) = u32_of(fields)?;
    let (version, rest) = string_of(rest)?;
    Ok((TMessage::Version { msize, version }, rest))
}

#[tactic(auto, unfolding(crate::specs::Reading::auth_at))]
pub fn auth_of(fields: &[u8]) -> Result<(TMessage<'_>, &[u8]), WireErr>
    ensures given { Gives (λ x. (plain_t x.0, x.1.now)) result (auth_at fields.now) }
    ensures names { IfOk result (λ x. HasNames x.0) }
{
    let (afid, rest) = u32_of(fields)?;
    let (uname, rest) = string_of(rest)?;
    let (aname, rest) = string_of(rest)?;
    Ok((TMessage::Auth { afid, uname, aname }, rest))
}

#[tactic(auto, unfolding(crate::specs::Reading::attach_at))]
pub fn attach_of(fields: &[u8]) -> Result<(TMessage<'_>, &[u8]), WireErr>
    ensures given { Gives (λ x. (plain_t x.0, x.1.now)) result (attach_at fields.now) }
    ensures names { IfOk result (λ x. HasNames x.0) }
{
    let (fid, rest) = u32_of(fields)?;
    let (afid, rest) = u32_of(rest)?;
    let (uname, rest) = string_of(rest)?;
    let (aname, rest) = string_of(rest)?;
    let call = TMessage::Attach {
        fid,
        afid,
        uname,
        aname,
    };
    Ok((call, rest))
}

#[tactic(auto, unfolding(crate::specs::Reading::flush_at))]
pub fn flush_of(fields: &[u8]) -> Result<(TMessage<'_>, &[u8]), WireErr>
    ensures given { Gives (λ x. (plain_t x.0, x.1.now)) result (flush_at fields.now) }
    ensures names { IfOk result (λ x. HasNames x.0) }
{
    let (oldtag, rest) = u16_of(fields)?;
    Ok((TMessage::Flush { oldtag }, rest))
}

#[tactic(auto, unfolding(crate::specs::Reading::walk_at))]
pub fn walk_of(fields: &[u8]) -> Result<(TMessage<'_>, &[u8]), WireErr>
    ensures given { Gives (λ x. (plain_t x.0, x.1.now)) result (walk_at fields.now) }
    ensures names { IfOk result (λ x. HasNames x.0) }
{
    let (fid, rest) = u32_of(fields)?;
    let (newfid, rest) = u32_of(rest)?;
    let (names, rest) = names_of(rest)?;
    Ok((TMessage::Walk { fid, newfid, names }, rest))
}

#[tactic(auto, unfolding(crate::specs::Reading::open_at))]
pub fn open_of(fields: &[u8]) -> Result<(TMessage<'_>, &[u8]), WireErr>
    ensures given { Gives (λ x. (plain_t x.0, x.1.now)) result (open_at fields.now) }
    ensures names { IfOk result (λ x. HasNames x.0) }
{
    let (fid, rest) = u32_of(fields)?;
    let (mode, rest) = u8_of(rest)?;
    Ok((TMessage::Open { fid, mode }, rest))
}

#[tactic(auto, unfolding(crate::specs::Reading::create_at))]
pub fn create_of(fields: &[u8]) -> Result<(TMessage<'_>, &[u8]), WireErr>
    ensures given { Gives (λ x. (plain_t x.0, x.1.now)) result (create_at fields.now) }
    ensures names { IfOk result (λ x. HasNames x.0) }
{
    let (fid, rest) = u32_of(fields)?;
    let (name, rest) = string_of(rest)?;
    let (perm, rest) = u32_of(rest)?;
    let (mode, rest) = u8_of(rest)?;
    let call = TMessage::Create {
        fid,
        name,
        perm,
        mode,
    };
    Ok((call, rest))
}

#[tactic(auto, unfolding(crate::specs::Reading::read_at))]
pub fn read_of(fields: &[u8]) -> Result<(TMessage<'_>, &[u8]), WireErr>
    ensures given { Gives (λ x. (plain_t x.0, x.1.now)) result (read_at fields.now) }
    ensures names { IfOk result (λ x. HasNames x.0) }
{
    let (fid, rest) = u32_of(fields)?;
    let (offset, rest) = u64_of(rest)?;
    let (count, rest) = u32_of(rest)?;
    Ok((TMessage::Read { fid, offset, count }, rest))
}

#[tactic(auto, unfolding(crate::specs::Reading::write_at))]
pub fn write_of(fields: &[u8]) -> Result<(TMessage<'_>, &[u8]), WireErr>
    ensures given { Gives (λ x. (plain_t x.0, x.1.now)) result (write_at fields.now) }
    ensures names { IfOk result (λ x. HasNames x.0) }
{
    let (fid, rest) = u32_of(fields)?;
    let (offset, rest) = u64_of(rest)?;
    let (bytes, rest) = data_of(rest)?;
    Ok((TMessage::Write { fid, offset, bytes }, rest))
}

#[tactic(auto, unfolding(crate::specs::Reading::clunk_at))]
pub fn clunk_of(fields: &[u8]) -> Result<(TMessage<'_>, &[u8]), WireErr>
    ensures given { Gives (λ x. (plain_t x.0, x.1.now)) result (clunk_at fields.now) }
    ensures names { IfOk result (λ x. HasNames x.0) }
{
    let (fid, rest) = u32_of(fields)?;
    Ok((TMessage::Clunk { fid }, rest))
}

#[tactic(auto, unfolding(crate::specs::Reading::remove_at))]
pub fn remove_of(fields: &[u8]) -> Result<(TMessage<'_>, &[u8]), WireErr>
    ensures given { Gives (λ x. (plain_t x.0, x.1.now)) result (remove_at fields.now) }
    ensures names { IfOk result (λ x. HasNames x.0) }
{
    let (fid, rest) = u32_of(fields)?;
    Ok((TMessage::Remove { fid }, rest))
}

#[tactic(auto, unfolding(crate::specs::Reading::fstat_at))]
pub fn fstat_of(fields: &[u8]) -> Result<(TMessage<'_>, &[u8]), WireErr>
    ensures given { Gives (λ x. (plain_t x.0, x.1.now)) result (fstat_at fields.now) }
    ensures names { IfOk result (λ x. HasNames x.0) }
{
    let (fid, rest) = u32_of(fields)?;
    Ok((TMessage::Stat { fid }, rest))
}

#[tactic(auto, unfolding(crate::specs::Reading::wstat_at))]
pub fn wstat_of(fields: &[u8]) -> Result<(TMessage<'_>, &[u8]), WireErr>
    ensures given { Gives (λ x. (plain_t x.0, x.1.now)) result (wstat_at fields.now) }
    ensures names { IfOk result (λ x. HasNames x.0) }
{
    let (fid, rest) = u32_of(fields)?;
    let (change, rest) = stat_of(rest)?;
    Ok((TMessage::Wstat { fid, change }, rest))
}
