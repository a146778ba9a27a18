use std::alloc::{AllocError, AllocFailed};

/// Why a step isn't made.
#[derive(Debug, PartialEq, Eq, Drop)]
pub enum StepErr {
    /// A row's version is 2^64 - 1, the last that there is.
    Versions,
    /// Memory ran out, which says nothing of rows and request.
    Memory,
}

impl From<AllocError> for StepErr {
    ghost use Rattle.std.specs.Prelude.{◌≡◌};
    ghost use Rattle.model_step.specs.declared.ends.StepErr.TheVariants.{Memory};

    ghost from_gives = { λ _ e. e ≡ Memory };

    fn from(_: AllocError) -> StepErr {
        StepErr::Memory
    }
}

impl<T: Drop> From<AllocFailed<T>> for StepErr {
    ghost use Rattle.std.specs.Prelude.{◌≡◌};
    ghost use Rattle.model_step.specs.declared.ends.StepErr.TheVariants.{Memory};

    ghost from_gives = { λ _ e. e ≡ Memory };

    fn from(_: AllocFailed<T>) -> StepErr {
        StepErr::Memory
    }
}
