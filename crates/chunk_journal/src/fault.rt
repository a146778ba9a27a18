use outside::FolderErr;
use std::alloc::AllocError;
use thiserror::Error;

/// The folder's count of faults rose: the folder is to be opened again.
#[derive(Clone, Copy, Debug, PartialEq, Eq, Error)]
#[error("the folder failed")]
pub struct Device;

impl From<FolderErr> for Device {
    ghost from_gives = { λ _ _. Unit {0} };

    fn from(_error: FolderErr) -> Device {
        Device
    }
}

/// Why a journal wasn't opened.
#[derive(Clone, Copy, Debug, PartialEq, Eq, Error)]
pub enum JournalErr {
    /// The folder failed, or a file that the batch reshapes has another header by now, so that another program saved it anew:
    /// each such path is reported as changed, and nothing is done. The folder's count of faults rose in this call.
    #[error("the folder failed")]
    Device,
    /// The journal is damaged at this offset in its file: 0 if a folder is at `served.journal` or `served.journal.new`,
    /// before or after the batch; else the first of these: the file's length if it ends before its batch does, 9 if the
    /// count of deeds doesn't fit, the first deed outside the grammar, the first byte after the last deed, the letters of a
    /// sum that is another's, the first deed in the order of doing that the folder doesn't fit, as a `Put` where a longer
    /// file is, or a `Rename` to a name where another file is.
    #[error("the journal is damaged at byte {0}")]
    JournalDamaged(u64),
    /// Memory ran out.
    #[error("out of memory")]
    Memory,
}

impl From<FolderErr> for JournalErr {
    ghost use Rattle.std.specs.Prelude.{◌≡◌};
    ghost use Rattle.chunk_journal.specs.declared.fault.JournalErr.TheVariants.{Device};

    ghost from_gives = { λ _ e. e ≡ Device };

    fn from(_error: FolderErr) -> JournalErr {
        JournalErr::Device
    }
}

impl From<Device> for JournalErr {
    ghost use Rattle.std.specs.Prelude.{◌≡◌};
    ghost use Rattle.chunk_journal.specs.declared.fault.JournalErr.TheVariants.{Device};

    ghost from_gives = { λ _ e. e ≡ Device };

    fn from(_error: Device) -> JournalErr {
        JournalErr::Device
    }
}

impl From<AllocError> for JournalErr {
    ghost use Rattle.std.specs.Prelude.{◌≡◌};
    ghost use Rattle.chunk_journal.specs.declared.fault.JournalErr.TheVariants.{Memory};

    ghost from_gives = { λ _ e. e ≡ Memory };

    fn from(_error: AllocError) -> JournalErr {
        JournalErr::Memory
    }
}
