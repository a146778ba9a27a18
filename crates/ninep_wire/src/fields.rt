//! Readers of fields: each returns a value and the bytes after it.

ghost use Rattle.std.specs.Prelude.{◌≡◌, length, IfOk};
ghost use Rattle.tree_model.specs.Names.{names_in, AreNames, IsWalk};
ghost use Rattle.ninep_wire.specs.Reading.{Gives, rest_of, bytes_at, number_at, string_at, data_at, qid_at, strings_at, names_at};

use crate::fault::WireErr;
use byteorder::{ByteOrder, LittleEndian};
use tree_model::{Names, Qid};

// The most names that a walk may have (walk(5)).
const NAMES_LIMIT: u16 = 16;

/// So many bytes.
#[tactic(auto, unfolding(crate::specs::Reading::bytes_at))]
pub fn bytes_of(count: usize, bytes: &[u8]) -> Result<(&[u8], &[u8]), WireErr>
    ensures given { Gives (λ x. (x.0.now, x.1.now)) result (bytes_at count bytes.now) }
    ensures length { IfOk result (λ x. length x.0.now ≡ count) }
{
    if bytes.len() < count {
        return Err(WireErr::Short);
    }
    Ok(bytes.split_at(count))
}

#[tactic(auto, unfolding(crate::specs::Reading::number_at))]
pub fn u8_of(bytes: &[u8]) -> Result<(u8, &[u8]), WireErr>
    ensures { Gives (λ x. (x.0, x.1.now)) result (number_at 1 bytes.now) }
{
    let (field, rest) = bytes_of(1, bytes)?;
    Ok((field[0], rest))
}

#[tactic(auto, unfolding(crate::specs::Reading::number_at))]
pub fn u16_of(bytes: &[u8]) -> Result<(u16, &[u8]), WireErr>
    ensures { Gives (λ x. (x.0, x.1.now)) result (number_at 2 bytes.now) }
{
    let (field, rest) = bytes_of(2, bytes)?;
    Ok((LittleEndian::read_u16(field), rest))
}

#[tactic(auto, unfolding(crate::specs::Reading::number_at))]
pub fn u32_of(bytes: &[u8]) -> Result<(u32, &[u8]), WireErr>
    ensures { Gives (λ x. (x.0, x.1.now)) result (number_at 4 bytes.now) }
{
    let (field, rest) = bytes_of(4, bytes)?;
    Ok((LittleEndian::read_u32(field), rest))
}

#[tactic(auto, unfolding(crate::specs::Reading::number_at))]
pub fn u64_of(bytes: &[u8]) -> Result<(u64, &[u8]), WireErr>
    ensures { Gives (λ x. (x.0, x.1.now)) result (number_at 8 bytes.now) }
{
    let (field, rest) = bytes_of(8, bytes)?;
    Ok((LittleEndian::read_u64(field), rest))
}

/// A string s: its length in two bytes, and its UTF-8.
#[tactic(auto, unfolding(crate::specs::Reading::string_at))]
pub fn string_of(bytes: &[u8]) -> Result<(&str, &[u8]), WireErr>
    ensures { Gives (λ x. (x.0.now, x.1.now)) result (string_at bytes.now) }
{
    let (length, rest) = u16_of(bytes)?;
    let (text, rest) = bytes_of(usize::from(length), rest)?;
    match str::from_utf8(text) {
        Ok(text) => Ok((text, rest)),
        Err(_) => Err(WireErr::Text),
    }
}

/// The bytes of a write: their number in four bytes, and so many bytes.
#[tactic(auto, unfolding(crate::specs::Reading::data_at))]
pub fn data_of(bytes: &[u8]) -> Result<(&[u8], &[u8]), WireErr>
    ensures { Gives (λ x. (x.0.now, x.1.now)) result (data_at bytes.now) }
{
    let (count, rest) = u32_of(bytes)?;
    bytes_of(count as usize, rest)
}

#[tactic(auto, unfolding(crate::specs::Reading::qid_at))]
pub fn qid_of(bytes: &[u8]) -> Result<(Qid, &[u8]), WireErr>
    ensures { Gives (λ x. (x.0, x.1.now)) result (qid_at bytes.now) }
{
    let (kind, rest) = u8_of(bytes)?;
    let (version, rest) = u32_of(rest)?;
    let (path, rest) = u64_of(rest)?;
    Ok((
        Qid {
            kind,
            version,
            path,
        },
        rest,
    ))
}

// What follows so many strings.
fn after_strings(count: u16, bytes: &[u8]) -> Result<&[u8], WireErr>
    ensures { Gives (λ rest. rest.now) result (rest_of (strings_at count bytes.now)) }
{
    let mut rest = bytes;
    for _ in 0..count {
        (_, rest) = string_of(rest)?;
    }
    Ok(rest)
}

// So many strings.
fn strings_of(count: u16, bytes: &[u8]) -> Result<(Names<'_>, &[u8]), WireErr>
    ensures given { Gives (λ x. (names_in x.0.count x.0.bytes.now, x.1.now)) result (strings_at count bytes.now) }
    ensures form { IfOk result (λ x. (x.0.count ≡ count) × AreNames x.0.count x.0.bytes.now) }
{
    let rest = after_strings(count, bytes)?;
    let (names, _) = bytes.split_at(bytes.len() - rest.len());
    Ok((
        Names {
            count,
            bytes: names,
        },
        rest,
    ))
}

/// The names of a walk: a count, at most 16, and so many strings.
#[tactic(auto, unfolding(crate::specs::Reading::names_at))]
pub fn names_of(bytes: &[u8]) -> Result<(Names<'_>, &[u8]), WireErr>
    ensures given { Gives (λ x. (names_in x.0.count x.0.bytes.now, x.1.now)) result (names_at bytes.now) }
    ensures form { IfOk result (λ x. IsWalk x.0.count x.0.bytes.now) }
{
    let (count, rest) = u16_of(bytes)?;
    if count > NAMES_LIMIT {
        return Err(WireErr::Names(count));
    }
    strings_of(count, rest)
}
