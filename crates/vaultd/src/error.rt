ghost use Rattle.std.specs.Prelude.{◌≡◌, ◌↔◌};
ghost use Rattle.std.specs.declared.io.ErrorKind.TheVariants.{InvalidData};
ghost use Rattle.std.specs.IoError.{error_kind};
ghost use Rattle.vault_top.specs.Ending.{report_of, status_of};
ghost use Rattle.vaultd.specs.Starting.{ending_of};

use std::alloc::AllocError;
use std::io;
use std::io::ErrorKind;

/// Why the program doesn't start its job.
#[derive(Clone, Copy, Debug, PartialEq, Eq)]
pub enum StartErr {
    /// A word isn't UTF-8.
    Words,
    /// Memory ran out.
    Memory,
}

impl StartErr {
    /// The exit status.
    pub fn status(self) -> u8
        ensures { result ≡ status_of (ending_of self) }
    {
        match self {
            StartErr::Words => 1,
            StartErr::Memory => 5,
        }
    }

    /// Why the words couldn't be read.
    pub fn of_words(error: &io::Error) -> StartErr
        ensures words { (error_kind error.now ≡ InvalidData) ↔ (result ≡ StartErr.Words) }
    {
        if error.kind() == ErrorKind::InvalidData {
            StartErr::Words
        } else {
            StartErr::Memory
        }
    }

    /// The line that is reported.
    pub fn line(self) -> &'static str
        ensures { result.now ≡ report_of (ending_of self) }
    {
        match self {
            StartErr::Words => "bad words\n",
            StartErr::Memory => "out of memory\n",
        }
    }
}

impl From<AllocError> for StartErr {
    ghost use Rattle.std.specs.Prelude.{◌≡◌};
    ghost use Rattle.vaultd.specs.declared.error.StartErr.TheVariants.{Memory};

    ghost from_gives = { λ _ cause. cause ≡ Memory };

    fn from(_: AllocError) -> StartErr {
        StartErr::Memory
    }
}
