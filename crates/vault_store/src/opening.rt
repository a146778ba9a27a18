use chunk_journal::JournalErr;
use std::alloc::AllocError;
use thiserror::Error;
use tree_loading::LoadErr;

/// Why a vault can't be opened.
#[derive(Clone, Copy, Debug, PartialEq, Eq, Error)]
pub enum OpenErr {
    /// The vault's folder failed: its count of faults rose in this call.
    #[error("the vault's folder failed")]
    Device,
    /// The journal that was found is damaged, at this place of its file in bytes.
    #[error("the journal is damaged at byte {0}")]
    JournalDamaged(u64),
    /// The vault has more than 1,048,576 nodes: at least this many.
    #[error("the vault has {0} nodes or more")]
    TooMany(u64),
    /// The root's folder is absent.
    #[error("the vault has no folder for its root")]
    NoRoot,
    /// Memory ran out.
    #[error("out of memory")]
    Memory,
}

impl From<LoadErr> for OpenErr {
    ghost use Rattle.std.specs.Prelude.{◌≡◌};
    ghost use Rattle.vault_store.specs.Causes.{of_loading};

    ghost from_gives = { λ cause e. e ≡ of_loading cause };

    fn from(cause: LoadErr) -> OpenErr {
        match cause {
            LoadErr::Device => OpenErr::Device,
            LoadErr::TooMany(count) => OpenErr::TooMany(count),
            LoadErr::NoRoot => OpenErr::NoRoot,
            LoadErr::Memory => OpenErr::Memory,
        }
    }
}

impl From<JournalErr> for OpenErr {
    ghost use Rattle.std.specs.Prelude.{◌≡◌};
    ghost use Rattle.vault_store.specs.Causes.{of_journal};

    ghost from_gives = { λ cause e. e ≡ of_journal cause };

    fn from(cause: JournalErr) -> OpenErr {
        match cause {
            JournalErr::Device => OpenErr::Device,
            JournalErr::JournalDamaged(at) => OpenErr::JournalDamaged(at),
            JournalErr::Memory => OpenErr::Memory,
        }
    }
}

impl From<AllocError> for OpenErr {
    ghost use Rattle.std.specs.Prelude.{◌≡◌};
    ghost use Rattle.vault_store.specs.declared.opening.OpenErr.TheVariants.{Memory};

    ghost from_gives = { λ _ e. e ≡ Memory };

    fn from(_: AllocError) -> OpenErr {
        OpenErr::Memory
    }
}
