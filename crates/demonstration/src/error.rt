use content_reader::ReadErr;
use std::alloc::{AllocError, AllocFailed};
use thiserror::Error;

/// Why the nodes of a vault's tree can't be listed.
#[derive(Clone, Copy, Debug, PartialEq, Eq, Error)]
pub enum LeftErr {
    /// The vault's folder failed: its count of faults rose in this call.
    #[error("the vault's folder failed")]
    Device,
    /// A content file is damaged, or the tree has two nodes at one path.
    #[error("the vault's tree is damaged")]
    Damaged,
    /// Memory ran out.
    #[error("out of memory")]
    Memory,
}

impl From<ReadErr> for LeftErr {
    ghost use Rattle.std.specs.Prelude.{◌≡◌};
    ghost use Rattle.demonstration.specs.Errors.{of_reading};

    ghost from_gives = { λ fault e. e ≡ of_reading fault };

    fn from(fault: ReadErr) -> LeftErr {
        match fault {
            ReadErr::Device => LeftErr::Device,
            ReadErr::Damaged => LeftErr::Damaged,
        }
    }
}

impl From<AllocError> for LeftErr {
    ghost use Rattle.std.specs.Prelude.{◌≡◌};
    ghost use Rattle.demonstration.specs.declared.error.LeftErr.TheVariants.{Memory};

    ghost from_gives = { λ _ e. e ≡ Memory };

    fn from(_: AllocError) -> LeftErr {
        LeftErr::Memory
    }
}

impl<T: Drop> From<AllocFailed<T>> for LeftErr {
    ghost use Rattle.std.specs.Prelude.{◌≡◌};
    ghost use Rattle.demonstration.specs.declared.error.LeftErr.TheVariants.{Memory};

    ghost from_gives = { λ _ e. e ≡ Memory };

    fn from(_: AllocFailed<T>) -> LeftErr {
        LeftErr::Memory
    }
}
