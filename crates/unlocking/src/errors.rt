ghost use Rattle.std.specs.Prelude.{◌≡◌};
ghost use Rattle.unlocking.specs.Errors.{of_config, of_key_file, of_password, status_of};

use masterkey_file::{KeyFileErr, PasswordErr};
use std::error::Error;
use std::fmt;
use vault_config::ConfigErr;

/// Why a vault isn't unlocked. The tests are made in this order. It is shown as the line of the report, without the LF.
#[derive(Clone, Copy, Debug, PartialEq, Eq)]
pub enum UnlockErr {
    /// The secret's first line is empty, has more than 1,024 bytes, or isn't UTF-8.
    BadSecret,
    /// The masterkey file isn't a file.
    NoMasterkeyFile,
    /// No keys are read from the masterkey file, for this cause, or the password is another. It isn't `Memory`.
    MasterkeyFile(KeyFileErr),
    /// The vault file isn't a file.
    NoVaultFile,
    /// The configuration isn't accepted, for this cause. It isn't `Memory`.
    VaultFile(ConfigErr),
    /// Memory ran out, which says nothing of the secret and the files.
    Memory,
}

impl From<PasswordErr> for UnlockErr {
    ghost from_gives = { λ e gives. gives ≡ of_password e };

    fn from(error: PasswordErr) -> UnlockErr {
        match error {
            PasswordErr::BadSecret => UnlockErr::BadSecret,
            PasswordErr::Memory => UnlockErr::Memory,
        }
    }
}

impl From<KeyFileErr> for UnlockErr {
    ghost from_gives = { λ e gives. gives ≡ of_key_file e };

    fn from(error: KeyFileErr) -> UnlockErr {
        match error {
            KeyFileErr::Memory => UnlockErr::Memory,
            error => UnlockErr::MasterkeyFile(error),
        }
    }
}

impl From<ConfigErr> for UnlockErr {
    ghost from_gives = { λ e gives. gives ≡ of_config e };

    fn from(error: ConfigErr) -> UnlockErr {
        match error {
            ConfigErr::Memory => UnlockErr::Memory,
            error => UnlockErr::VaultFile(error),
        }
    }
}

impl UnlockErr {
    /// The program's status: 2 if the secret is at fault, 3 if a file is, and 5 for memory.
    pub fn status(self) -> u8
        ensures { result ≡ status_of self }
    {
        match self {
            UnlockErr::BadSecret | UnlockErr::MasterkeyFile(KeyFileErr::WrongPassword) => 2,
            UnlockErr::Memory => 5,
            _ => 3,
        }
    }
}

impl fmt::Display for UnlockErr {
    ghost use Rattle.std.specs.Prelude.{Some};
    ghost use Rattle.unlocking.specs.Errors.{error_text};

    ghost output = { λ e. Some (error_text e) };

    fn fmt<W: fmt::Write>(&self, f: &mut fmt::Formatter<W>) -> fmt::Result {
        match self {
            UnlockErr::BadSecret => f.write_str("bad secret"),
            UnlockErr::NoMasterkeyFile => f.write_str("vault refused: no masterkey file"),
            UnlockErr::MasterkeyFile(KeyFileErr::WrongPassword) => f.write_str("wrong password"),
            UnlockErr::MasterkeyFile(error) => write!(f, "vault refused: masterkey file: {error}"),
            UnlockErr::NoVaultFile => f.write_str("vault refused: no vault file"),
            UnlockErr::VaultFile(error) => write!(f, "vault refused: vault file: {error}"),
            UnlockErr::Memory => f.write_str("out of memory"),
        }
    }
}

impl Error for UnlockErr {}
