use outside::FolderErr;
use std::alloc::{AllocError, AllocFailed};
use thiserror::Error;

/// Why a directory's folder can't be scanned.
#[derive(Clone, Copy, Debug, PartialEq, Eq, Error)]
pub enum ScanErr {
    /// The vault's folder failed: its count of faults rose in this call.
    #[error("the vault's folder failed")]
    Device,
    /// Memory ran out.
    #[error("out of memory")]
    Memory,
}

impl From<FolderErr> for ScanErr {
    ghost use Rattle.std.specs.Prelude.{◌≡◌};
    ghost use Rattle.tree_loading.specs.ScanFaults.{scan_err_of};

    ghost from_gives = { λ fault e. e ≡ scan_err_of fault };

    fn from(fault: FolderErr) -> ScanErr {
        match fault {
            FolderErr::Failed | FolderErr::Unfit => ScanErr::Device,
            FolderErr::Memory => ScanErr::Memory,
        }
    }
}

impl From<AllocError> for ScanErr {
    ghost use Rattle.std.specs.Prelude.{◌≡◌};
    ghost use Rattle.tree_loading.specs.declared.scan_fault.ScanErr.TheVariants.{Memory};

    ghost from_gives = { λ _ e. e ≡ Memory };

    fn from(_: AllocError) -> ScanErr {
        ScanErr::Memory
    }
}

impl<T: Drop> From<AllocFailed<T>> for ScanErr {
    ghost use Rattle.std.specs.Prelude.{◌≡◌};
    ghost use Rattle.tree_loading.specs.declared.scan_fault.ScanErr.TheVariants.{Memory};

    ghost from_gives = { λ _ e. e ≡ Memory };

    fn from(_: AllocFailed<T>) -> ScanErr {
        ScanErr::Memory
    }
}
