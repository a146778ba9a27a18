// The fields of a row: words in hexadecimal digits, `-` for no byte, and numbers.

use file_chunks::Damaged;
use hex::{FromHex, FromHexError};
use outside::Failed;
use std::alloc::{AllocError, Global};
use thiserror::Error;
use vault_keys::VaultKeys;
use vault_names::BadName;

/// What was compared with a row.
#[derive(Clone, Copy, Debug)]
pub(crate) enum Call {
    Encrypt,
    Decrypt,
    Encrypt8,
    EncryptedFour,
    EncryptedEight,
    LaneBlocks,
    BitBlocks,
    RoundKey,
    PlainAes,
    PlainProduct,
    PlainSubstituted,
    Cmac,
    PlainCmac,
    Hmac256,
    Hmac256OfPieces,
    Hmac384,
    Hmac512,
    Seal,
    Open,
    OpenChanged,
    LeftByOpen,
    PlainSealed,
    PlainOpened,
    PlainOpenedChanged,
    Tag,
    Counted,
    Wrap,
    Unwrap,
    UnwrapChanged,
    Pbkdf2,
    Scrypt,
    ScryptAnswer,
    LeftByScrypt,
    Chunk,
    ChunkElsewhere,
    ChunkChanged,
    LeftByChunk,
    PlainContent,
    PlainContentChanged,
    Size,
    Span,
    SealedText,
    OpenedName,
    LongFolder,
    FolderOfText,
    FolderOfAnother,
    Place,
    Name,
    NameText,
    Fault,
    Parts,
    Digits,
}

/// Why a row doesn't pass.
#[derive(Debug, Drop, Error)]
pub(crate) enum RowErr {
    #[error("{0:?} differs")]
    Differs(Call),
    #[error("fields are missing")]
    Short,
    #[error("fields are left over")]
    Long,
    #[error("a field has another length")]
    Length,
    #[error("a field isn't in hexadecimal digits: {0}")]
    Hex(#[from] FromHexError),
    #[error("a field isn't a number")]
    Number,
    #[error("a field isn't a word that is known")]
    Word,
    #[error("{0}")]
    Name(#[from] BadName),
    #[error("{0}")]
    Failed(#[from] Failed),
    #[error("{0}")]
    Damaged(#[from] Damaged),
    #[error("out of memory")]
    Alloc(#[from] AllocError),
}

const ENCRYPTION_KEY: [u8; 32] = [
    0x08, 0xbb, 0x0a, 0x3a, 0x70, 0x92, 0x40, 0x55, 0x4c, 0xec, 0xd3, 0x15, 0xf7, 0x7b, 0xd3, 0x56,
    0x6a, 0x8c, 0xa1, 0xe9, 0x26, 0xb7, 0x1a, 0x20, 0xde, 0x99, 0xd1, 0x8a, 0x7a, 0xe2, 0xd6, 0xe1,
];

const MAC_KEY: [u8; 32] = [
    0xf4, 0xbd, 0xab, 0xec, 0x57, 0x2c, 0xce, 0x1f, 0x1d, 0x77, 0xa7, 0x3b, 0x4b, 0xc1, 0x7e, 0x81,
    0x93, 0x31, 0x20, 0x2a, 0x52, 0x58, 0x88, 0x50, 0xa2, 0x46, 0x5f, 0x7b, 0x1c, 0xe1, 0x9e, 0x84,
];

/// The keys of the vault whose names, folders and contents the rows have.
pub(crate) fn keys() -> VaultKeys {
    VaultKeys::new(&ENCRYPTION_KEY, &MAC_KEY)
}

/// The next field as it stands.
pub(crate) fn word<'a>(field: Option<&'a str>) -> Result<&'a str, RowErr> {
    field.ok_or(RowErr::Short)
}

/// The next field as bytes.
pub(crate) fn bytes(alloc: Global, field: Option<&str>) -> Result<Vec<u8>, RowErr> {
    let digits = word(field)?;
    Ok(hex::decode(alloc, if digits == "-" { "" } else { digits })?)
}

/// The next field as a block, or as a key of 128 bits.
pub(crate) fn block(field: Option<&str>) -> Result<[u8; 16], RowErr> {
    Ok(<[u8; 16] as FromHex>::from_hex(word(field)?)?)
}

/// The next field as a key of 256 bits.
pub(crate) fn key(field: Option<&str>) -> Result<[u8; 32], RowErr> {
    Ok(<[u8; 32] as FromHex>::from_hex(word(field)?)?)
}

/// The next field as a number.
pub(crate) fn number(field: Option<&str>) -> Result<u64, RowErr> {
    word(field)?.parse::<u64>().map_err(|_| RowErr::Number)
}

/// What follows the last field: nothing.
pub(crate) fn end(field: Option<&str>) -> Result<(), RowErr> {
    match field {
        Some(_) => Err(RowErr::Long),
        None => Ok(()),
    }
}

/// Whether what was asked of a row holds.
pub(crate) fn holds(call: Call, is: bool) -> Result<(), RowErr> {
    if is {
        Ok(())
    } else {
        Err(RowErr::Differs(call))
    }
}

/// Compares what was made with what the row has.
pub(crate) fn same(call: Call, made: &[u8], wanted: &[u8]) -> Result<(), RowErr> {
    holds(call, made == wanted)
}
