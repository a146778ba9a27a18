// The fields of a row: words, and bytes in hexadecimal digits.

use hex::FromHexError;
use outside::FolderErr;
use std::alloc::{AllocError, AllocFailed, Global};
use thiserror::Error;
use vault_path::VaultPath;

// Most times that digits stand for.
const MOST_TIMES: u64 = 1 << 17;

/// Why a row doesn't pass.
#[derive(Debug, Drop, Error)]
pub(crate) enum RowErr {
    #[error("the {0} differs")]
    Differs(&'static str),
    #[error("where call {0} fails, the outcome is neither a device fault nor the one without it")]
    Fault(u64),
    #[error("a line can't be read")]
    Line,
    #[error("a field isn't in hexadecimal digits: {0}")]
    Hex(#[from] FromHexError),
    #[error("a path is bad")]
    Path,
    #[error("a file beside the tables can't be read")]
    File,
    #[error("{0}")]
    Folder(#[from] FolderErr),
    #[error("out of memory")]
    Alloc(#[from] AllocError),
}

impl<T: Drop> From<AllocFailed<T>> for RowErr {
    fn from(_: AllocFailed<T>) -> RowErr {
        RowErr::Alloc(AllocError)
    }
}

/// Puts the bytes of a field, which has spaces between some of its digits, after others. Between spaces, digits with `*` and a number after
/// them stand for so many times their bytes.
pub(crate) fn push_bytes(alloc: Global, bytes: &mut Vec<u8>, field: &str) -> Result<(), RowErr> {
    for part in field.split(' ') {
        let (digits, times) = part.split_once('*').unwrap_or((part, "1"));
        let part = hex::decode(alloc, digits)?;
        for _ in 0..number(times)?.min(MOST_TIMES) {
            bytes.extend_from_slice(&part)?;
        }
    }
    Ok(())
}

/// A field as a number.
pub(crate) fn number(field: &str) -> Result<u64, RowErr> {
    field.parse::<u64>().map_err(|_| RowErr::Line)
}

/// A path whose names have a `/` between each two; `.` is the folder itself.
pub(crate) fn path(field: &str) -> Result<VaultPath, RowErr> {
    let mut path = VaultPath::root();
    if field == "." {
        return Ok(path);
    }
    for name in field.split('/') {
        path = path.join(name.as_bytes()).map_err(|_| RowErr::Path)?;
    }
    Ok(path)
}
