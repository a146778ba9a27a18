// The fields of a row: words, and bytes in hexadecimal digits with `-` for no byte.

use chunk_journal::JournalErr;
use deeds::BatchErr;
use hex::FromHexError;
use outside::FolderErr;
use std::alloc::{AllocError, AllocFailed, Global};
use thiserror::Error;
use vault_path::VaultPath;

/// Why a row doesn't pass.
#[derive(Debug, Drop, Error)]
pub(crate) enum RowErr {
    #[error("row {0} differs")]
    Differs(u64),
    #[error("an image of a stopped run recovers to no state that it may have")]
    Image,
    #[error("fields are missing")]
    Short,
    #[error("a field isn't in hexadecimal digits: {0}")]
    Hex(#[from] FromHexError),
    #[error("a path is bad")]
    Path,
    #[error("{0}")]
    Batch(#[from] BatchErr),
    #[error("a batch can't be done again")]
    Unrepeatable,
    #[error("{0}")]
    Journal(#[from] JournalErr),
    #[error("{0}")]
    Folder(#[from] FolderErr),
    #[error("out of memory")]
    Alloc(#[from] AllocError),
}

impl<T: Drop> From<AllocFailed<T>> for RowErr {
    fn from(_: AllocFailed<T>) -> RowErr {
        RowErr::Alloc(AllocError)
    }
}

/// The next field as it stands.
pub(crate) fn word<'a>(field: Option<&'a str>) -> Result<&'a str, RowErr> {
    field.ok_or(RowErr::Short)
}

/// A field as bytes.
pub(crate) fn bytes(alloc: Global, digits: &str) -> Result<Vec<u8>, RowErr> {
    Ok(hex::decode(alloc, if digits == "-" { "" } else { digits })?)
}

/// The path of a name in the folder itself.
pub(crate) fn at(name: &[u8]) -> Result<VaultPath, RowErr> {
    VaultPath::root().join(name).map_err(|_| RowErr::Path)
}
