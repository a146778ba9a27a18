use file_chunks::Damaged;
use outside::FolderErr;

/// Why a file can't be read.
#[derive(Clone, Copy, Debug, PartialEq, Eq)]
pub enum ReadErr {
    /// The vault's folder failed.
    Device,
    /// No content has the file's size, or its header or a chunk of the slice doesn't open, or isn't there whole.
    Damaged,
}

impl From<FolderErr> for ReadErr {
    ghost use Rattle.std.specs.Prelude.{◌≡◌};
    ghost use Rattle.content_reader.specs.declared.error.ReadErr.TheVariants.{Device};

    ghost from_gives = { λ _ e. e ≡ Device };

    fn from(_: FolderErr) -> ReadErr {
        ReadErr::Device
    }
}

impl From<Damaged> for ReadErr {
    ghost use Rattle.std.specs.Prelude.{◌≡◌};
    ghost use Rattle.content_reader.specs.declared.error.ReadErr.TheVariants as read_errs;

    ghost from_gives = { λ _ e. e ≡ read_errs.Damaged };

    fn from(_: Damaged) -> ReadErr {
        ReadErr::Damaged
    }
}
