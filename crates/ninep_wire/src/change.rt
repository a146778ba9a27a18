//! Reading the stat of a Twstat, in which a field of ones or an empty string isn't touched
//! (stat(5)).

ghost use Rattle.std.specs.Option.{option_copied};
ghost use Rattle.tree_model.specs.Asked.{plain_change};
ghost use Rattle.ninep_wire.specs.Reading.{Gives, optional_number_at, optional_qid_at, optional_string_at, change_at, stat_in, stat_at};

use crate::fault::WireErr;
use crate::fields::{bytes_of, qid_of, string_of, u16_of, u32_of, u64_of};
use tree_model::{Qid, StatChange};

#[tactic(auto, unfolding(crate::specs::Reading::optional_number_at))]
fn optional_u16_of(bytes: &[u8]) -> Result<(Option<u16>, &[u8]), WireErr>
    ensures { Gives (λ x. (x.0, x.1.now)) result (optional_number_at 2 bytes.now) }
{
    let (number, rest) = u16_of(bytes)?;
    let touched = if number == u16::MAX {
        None
    } else {
        Some(number)
    };
    Ok((touched, rest))
}

#[tactic(auto, unfolding(crate::specs::Reading::optional_number_at))]
fn optional_u32_of(bytes: &[u8]) -> Result<(Option<u32>, &[u8]), WireErr>
    ensures { Gives (λ x. (x.0, x.1.now)) result (optional_number_at 4 bytes.now) }
{
    let (number, rest) = u32_of(bytes)?;
    let touched = if number == u32::MAX {
        None
    } else {
        Some(number)
    };
    Ok((touched, rest))
}

#[tactic(auto, unfolding(crate::specs::Reading::optional_number_at))]
fn optional_u64_of(bytes: &[u8]) -> Result<(Option<u64>, &[u8]), WireErr>
    ensures { Gives (λ x. (x.0, x.1.now)) result (optional_number_at 8 bytes.now) }
{
    let (number, rest) = u64_of(bytes)?;
    let touched = if number == u64::MAX {
        None
    } else {
        Some(number)
    };
    Ok((touched, rest))
}

#[tactic(auto, unfolding(crate::specs::Reading::optional_qid_at))]
fn optional_qid_of(bytes: &[u8]) -> Result<(Option<Qid>, &[u8]), WireErr>
    ensures { Gives (λ x. (x.0, x.1.now)) result (optional_qid_at bytes.now) }
{
    let (qid, rest) = qid_of(bytes)?;
    let all_ones = qid.kind == u8::MAX && qid.version == u32::MAX && qid.path == u64::MAX;
    let touched = if all_ones { None } else { Some(qid) };
    Ok((touched, rest))
}

#[tactic(auto, unfolding(crate::specs::Reading::optional_string_at))]
fn optional_string_of(bytes: &[u8]) -> Result<(Option<&str>, &[u8]), WireErr>
    ensures { Gives (λ x. (option_copied x.0, x.1.now)) result (optional_string_at bytes.now) }
{
    let (text, rest) = string_of(bytes)?;
    let touched = if text.is_empty() { None } else { Some(text) };
    Ok((touched, rest))
}

#[tactic(auto, unfolding(crate::specs::Reading::change_at))]
fn change_of(bytes: &[u8]) -> Result<(StatChange<'_>, &[u8]), WireErr>
    ensures { Gives (λ x. (plain_change x.0, x.1.now)) result (change_at bytes.now) }
{
    let (kind, rest) = optional_u16_of(bytes)?;
    let (device, rest) = optional_u32_of(rest)?;
    let (qid, rest) = optional_qid_of(rest)?;
    let (mode, rest) = optional_u32_of(rest)?;
    let (accessed, rest) = optional_u32_of(rest)?;
    let (modified, rest) = optional_u32_of(rest)?;
    let (length, rest) = optional_u64_of(rest)?;
    let (name, rest) = optional_string_of(rest)?;
    let (owner, rest) = optional_string_of(rest)?;
    let (group, rest) = optional_string_of(rest)?;
    let (modifier, rest) = optional_string_of(rest)?;
    let change = StatChange {
        kind,
        device,
        qid,
        mode,
        accessed,
        modified,
        length,
        name,
        owner,
        group,
        modifier,
    };
    Ok((change, rest))
}

// What all of a stat's bytes say: its size, and fields of that size.
#[tactic(auto, unfolding(crate::specs::Reading::stat_in))]
fn stat_in_all(bytes: &[u8]) -> Result<StatChange<'_>, WireErr>
    ensures { Gives plain_change result (stat_in bytes.now) }
{
    let (size, rest) = u16_of(bytes)?;
    let (fields, after) = bytes_of(usize::from(size), rest)?;
    let (change, left) = change_of(fields)?;
    if !left.is_empty() || !after.is_empty() {
        return Err(WireErr::Long);
    }
    Ok(change)
}

/// A stat after the number of its bytes.
#[tactic(auto, unfolding(crate::specs::Reading::stat_at))]
pub fn stat_of(bytes: &[u8]) -> Result<(StatChange<'_>, &[u8]), WireErr>
    ensures { Gives (λ x. (plain_change x.0, x.1.now)) result (stat_at bytes.now) }
{
    let (size, rest) = u16_of(bytes)?;
    let (stat, rest) = bytes_of(usize::from(size), rest)?;
    let change = stat_in_all(stat)?;
    Ok((change, rest))
}
