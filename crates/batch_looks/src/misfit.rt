use std::alloc::AllocError;
use thiserror::Error;

/// Why a folder doesn't fit a batch.
#[derive(Clone, Copy, Debug, PartialEq, Eq, Error)]
pub enum Misfit {
    /// The folder failed, or what a deed needs isn't there, which was reported to it: its count of faults rose.
    #[error("the folder failed, or another program changed it")]
    Device,
    /// A folder that is to be removed has an entry that no deed names.
    #[error("a folder that is to be removed has a foreign entry")]
    Foreign,
    /// Memory ran out.
    #[error("out of memory")]
    Memory,
}

impl From<AllocError> for Misfit {
    ghost use Rattle.std.specs.Prelude.{◌≡◌};
    ghost use Rattle.batch_looks.specs.declared.misfit.Misfit.TheVariants.{Memory};

    ghost from_gives = { λ _ e. e ≡ Memory };

    fn from(_error: AllocError) -> Misfit {
        Misfit::Memory
    }
}
