// The fields of a line: words, numbers, and bytes in hexadecimal digits.

use hex::FromHexError;
use model_step::StepErr;
use std::alloc::{AllocError, AllocFailed, Global};
use thiserror::Error;

/// Why a table doesn't pass.
#[derive(Debug, Drop, Error)]
pub(crate) enum RowErr {
    #[error("line {0}: the answer differs")]
    Answer(u64),
    #[error("line {0}: the rows before it differ")]
    Rows(u64),
    #[error("line {0}: {1}")]
    Unread(u64, FieldErr),
    #[error("a list in pieces of {0} bytes doesn't give each name once and in order")]
    Pieces(u32),
    #[error("a list in pieces: {0}")]
    Unlisted(FieldErr),
}

/// Why a line can't be read or its step isn't made.
#[derive(Debug, Drop, Error)]
pub(crate) enum FieldErr {
    #[error("fields are missing")]
    Short,
    #[error("a word is none that stands there")]
    Word,
    #[error("a number is bad")]
    Number,
    #[error("a field isn't in hexadecimal digits: {0}")]
    Hex(#[from] FromHexError),
    #[error("a text isn't UTF-8")]
    Text,
    #[error("a step isn't made")]
    Step,
    #[error("out of memory")]
    Alloc(#[from] AllocError),
}

impl<T: Drop> From<AllocFailed<T>> for FieldErr {
    fn from(_: AllocFailed<T>) -> FieldErr {
        FieldErr::Alloc(AllocError)
    }
}

impl From<StepErr> for FieldErr {
    fn from(_: StepErr) -> FieldErr {
        FieldErr::Step
    }
}

/// The next field as it stands.
pub(crate) fn word<'a>(field: Option<&'a str>) -> Result<&'a str, FieldErr> {
    field.ok_or(FieldErr::Short)
}

/// A field as a number.
pub(crate) fn number(field: Option<&str>) -> Result<u64, FieldErr> {
    word(field)?.parse::<u64>().map_err(|_| FieldErr::Number)
}

/// A field as a number of 32 bits.
pub(crate) fn small(field: Option<&str>) -> Result<u32, FieldErr> {
    word(field)?.parse::<u32>().map_err(|_| FieldErr::Number)
}

/// A field as a length.
pub(crate) fn length(field: Option<&str>) -> Result<usize, FieldErr> {
    word(field)?.parse::<usize>().map_err(|_| FieldErr::Number)
}

/// A field that is 0 or 1.
pub(crate) fn flag(field: Option<&str>) -> Result<bool, FieldErr> {
    match word(field)? {
        "0" => Ok(false),
        "1" => Ok(true),
        _ => Err(FieldErr::Number),
    }
}

// Bytes: digits, or one byte and how often it occurs.
fn part(alloc: Global, text: &str) -> Result<Vec<u8>, FieldErr> {
    match text.split_once('*') {
        None => Ok(hex::decode(alloc, text)?),
        Some((byte, count)) => {
            let byte = hex::decode(alloc, byte)?;
            let count = length(Some(count))?;
            match byte.first() {
                Some(byte) => Ok(vec![in alloc; *byte; count]?),
                None => Err(FieldErr::Short),
            }
        }
    }
}

/// A field as bytes.
pub(crate) fn bytes(alloc: Global, field: &str) -> Result<Vec<u8>, FieldErr> {
    let mut all = Vec::new(alloc);
    if field == "-" {
        return Ok(all);
    }
    for text in field.split('+') {
        let more = part(alloc, text)?;
        all.extend_from_slice(&more)?;
    }
    Ok(all)
}

/// Bytes as a text.
pub(crate) fn text(bytes: &[u8]) -> Result<&str, FieldErr> {
    str::from_utf8(bytes).map_err(|_| FieldErr::Text)
}
