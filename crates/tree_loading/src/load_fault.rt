use crate::scan_fault::ScanErr;
use outside::FolderErr;
use std::alloc::{AllocError, AllocFailed};
use thiserror::Error;

/// Why a vault's tree can't be loaded.
#[derive(Clone, Copy, Debug, PartialEq, Eq, Error)]
pub enum LoadErr {
    /// The vault's folder failed: its count of faults rose in this call.
    #[error("the vault's folder failed")]
    Device,
    /// The vault has more than 1,048,576 nodes: at least this many.
    #[error("the vault has {0} nodes or more")]
    TooMany(u64),
    /// The root's folder is absent.
    #[error("the vault has no folder for its root")]
    NoRoot,
    /// Memory ran out.
    #[error("out of memory")]
    Memory,
}

impl From<FolderErr> for LoadErr {
    ghost use Rattle.std.specs.Prelude.{◌≡◌};
    ghost use Rattle.tree_loading.specs.LoadFaults.{load_err_of};

    ghost from_gives = { λ fault e. e ≡ load_err_of fault };

    fn from(fault: FolderErr) -> LoadErr {
        match fault {
            FolderErr::Failed | FolderErr::Unfit => LoadErr::Device,
            FolderErr::Memory => LoadErr::Memory,
        }
    }
}

impl From<ScanErr> for LoadErr {
    ghost use Rattle.std.specs.Prelude.{◌≡◌};
    ghost use Rattle.tree_loading.specs.LoadFaults.{load_err_from};

    ghost from_gives = { λ fault e. e ≡ load_err_from fault };

    fn from(fault: ScanErr) -> LoadErr {
        match fault {
            ScanErr::Device => LoadErr::Device,
            ScanErr::Memory => LoadErr::Memory,
        }
    }
}

impl From<AllocError> for LoadErr {
    ghost use Rattle.std.specs.Prelude.{◌≡◌};
    ghost use Rattle.tree_loading.specs.declared.load_fault.LoadErr.TheVariants.{Memory};

    ghost from_gives = { λ _ e. e ≡ Memory };

    fn from(_: AllocError) -> LoadErr {
        LoadErr::Memory
    }
}

impl<T: Drop> From<AllocFailed<T>> for LoadErr {
    ghost use Rattle.std.specs.Prelude.{◌≡◌};
    ghost use Rattle.tree_loading.specs.declared.load_fault.LoadErr.TheVariants.{Memory};

    ghost from_gives = { λ _ e. e ≡ Memory };

    fn from(_: AllocFailed<T>) -> LoadErr {
        LoadErr::Memory
    }
}
