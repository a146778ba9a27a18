use outside::FolderErr;
use std::alloc::{AllocError, AllocFailed};
use thiserror::Error;
use vault_store::OpenErr;

/// Why a script can't be run, or what it came to in place of what its table says.
#[derive(Debug, Drop, Error)]
pub(crate) enum RunErr {
    #[error("{0}")]
    Wrong(String),
    #[error("a line of the table can't be read")]
    Line,
    #[error("a list isn't of whole stats")]
    Stats,
    #[error("{0}")]
    Folder(#[from] FolderErr),
    #[error("{0}")]
    Open(#[from] OpenErr),
    #[error("out of memory")]
    Alloc(#[from] AllocError),
}

impl<T: Drop> From<AllocFailed<T>> for RunErr {
    fn from(_: AllocFailed<T>) -> RunErr {
        RunErr::Alloc(AllocError)
    }
}
