use file_chunks::Damaged;
use outside::{Failed, FolderErr};
use thiserror::Error;

/// Why the chunks of a change aren't sealed.
#[derive(Clone, Copy, Debug, PartialEq, Eq, Error)]
pub enum WriteErr {
    /// The file's header, or a chunk that the change keeps bytes of, doesn't open, or isn't there whole.
    #[error("the file is damaged")]
    Damaged,
    /// The vault's folder failed.
    #[error("the folder failed")]
    Device,
    /// The source of random bytes failed.
    #[error("no random bytes")]
    Random,
}

impl From<FolderErr> for WriteErr {
    ghost use Rattle.std.specs.Prelude.{◌≡◌};
    ghost use Rattle.content_writer.specs.declared.error.WriteErr.TheVariants.{Device};

    ghost from_gives = { λ _ e. e ≡ Device };

    fn from(_: FolderErr) -> WriteErr {
        WriteErr::Device
    }
}

impl From<Damaged> for WriteErr {
    ghost use Rattle.std.specs.Prelude.{◌≡◌};
    ghost use Rattle.content_writer.specs.declared.error.WriteErr.TheVariants as write_errs;

    ghost from_gives = { λ _ e. e ≡ write_errs.Damaged };

    fn from(_: Damaged) -> WriteErr {
        WriteErr::Damaged
    }
}

impl From<Failed> for WriteErr {
    ghost use Rattle.std.specs.Prelude.{◌≡◌};
    ghost use Rattle.content_writer.specs.declared.error.WriteErr.TheVariants.{Random};

    ghost from_gives = { λ _ e. e ≡ Random };

    fn from(_: Failed) -> WriteErr {
        WriteErr::Random
    }
}
