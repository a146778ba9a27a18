use std::alloc::AllocFailed;
use thiserror::Error;

/// Why bytes are no batch.
#[derive(Clone, Copy, Debug, PartialEq, Eq, Error)]
pub enum BatchErr {
    /// The offset of the first deed that isn't in the grammar, or of the first byte after the last deed; 0 if the count
    /// doesn't fit.
    #[error("no batch from byte {0} on")]
    Bad(usize),
    /// Memory ran out.
    #[error("out of memory")]
    Memory,
}

impl<T: Drop> From<AllocFailed<T>> for BatchErr {
    ghost use Rattle.std.specs.Prelude.{◌≡◌};
    ghost use Rattle.deeds.specs.declared.fault.BatchErr.TheVariants.{Memory};

    ghost from_gives = { λ _ e. e ≡ Memory };

    fn from(_error: AllocFailed<T>) -> BatchErr {
        BatchErr::Memory
    }
}
