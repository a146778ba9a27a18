ghost use Rattle.std.specs.Prelude.{◌≡◌};
ghost use Rattle.vault_make.specs.Errors.{of_folder};

use outside::{Failed, FolderErr};
use std::alloc::AllocError;
use vault_path::Text;

/// Why no vault is made.
#[derive(Debug, Drop)]
pub enum MakeErr {
    /// The folder isn't empty: this is its first entry, by the order of the names' bytes. Nothing was drawn or written.
    NotEmpty(Text),
    /// The folder's count of faults rose. A part of a vault may have been written, but a stop leaves no vault file, or the whole vault.
    Device,
    /// The random source's count of faults rose. Nothing was written.
    Entropy,
    /// Memory ran out. Nothing was written.
    Memory,
}

impl From<FolderErr> for MakeErr {
    ghost from_gives = { λ error gives. gives ≡ of_folder error };

    fn from(error: FolderErr) -> MakeErr {
        match error {
            FolderErr::Failed | FolderErr::Unfit => MakeErr::Device,
            FolderErr::Memory => MakeErr::Memory,
        }
    }
}

impl From<Failed> for MakeErr {
    ghost use Rattle.std.specs.Prelude.{◌≡◌};
    ghost use Rattle.vault_make.specs.declared.error.MakeErr.TheVariants.{Entropy};

    ghost from_gives = { λ _ gives. gives ≡ Entropy };

    fn from(_: Failed) -> MakeErr {
        MakeErr::Entropy
    }
}

impl From<AllocError> for MakeErr {
    ghost use Rattle.std.specs.Prelude.{◌≡◌};
    ghost use Rattle.vault_make.specs.declared.error.MakeErr.TheVariants.{Memory};

    ghost from_gives = { λ _ gives. gives ≡ Memory };

    fn from(_: AllocError) -> MakeErr {
        MakeErr::Memory
    }
}
