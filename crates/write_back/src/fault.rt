use chunk_journal::Device;
use outside::FolderErr;
use thiserror::Error;

/// Why a flush wasn't done, or not of all that waited.
#[derive(Clone, Copy, Debug, PartialEq, Eq, Error)]
pub enum FlushErr {
    /// The folder's count of faults rose: the folder is to be opened again.
    #[error("the folder failed")]
    Device,
    /// Another program took away, cut or replaced a file whose changes waited: they are dropped and reported as a fault of the
    /// folder; what waited for other files is committed.
    #[error("a file was changed by another program")]
    Dropped,
}

impl From<Device> for FlushErr {
    ghost use Rattle.std.specs.Prelude.{◌≡◌};
    ghost use Rattle.write_back.specs.declared.fault.FlushErr.TheVariants.{Device};

    ghost from_gives = { λ _ e. e ≡ Device };

    fn from(_error: Device) -> FlushErr {
        FlushErr::Device
    }
}

impl From<FolderErr> for FlushErr {
    ghost use Rattle.std.specs.Prelude.{◌≡◌};
    ghost use Rattle.write_back.specs.declared.fault.FlushErr.TheVariants.{Device};

    ghost from_gives = { λ _ e. e ≡ Device };

    fn from(_error: FolderErr) -> FlushErr {
        FlushErr::Device
    }
}
