ghost use Rattle.std.specs.Prelude.{◌≡◌};
ghost use Rattle.vault_top.specs.Causes.{of_make, of_refusal, of_secret, of_unlock, status_of, text_of};
ghost use Rattle.vault_top.specs.Lines.{line_text};

use crate::file_lines::key_files_line;
use crate::line::{Line, whole};
use itoa::Buffer;
use unlocking::{Refusal, SecretErr, UnlockErr};
use vault_make::MakeErr;
use vault_path::Text;

/// Why a job isn't done.
#[derive(Debug, Drop)]
pub enum Cause {
    /// The words after the program's name ask for no job.
    Words,
    /// The secret's first line is no password, or isn't two keys if keys are wanted.
    Secret,
    /// The vault's key files, or its password. It is neither `BadSecret` nor `Memory`.
    KeyFiles(UnlockErr),
    /// The vault has more than 1,048,576 nodes.
    TooManyNodes,
    /// The folder of the vault's root is absent.
    NoRoot,
    /// The journal that a stop left in the folder is damaged, at this place of its file in bytes.
    JournalDamaged(u64),
    /// The journal holds a batch that a stop left and that is to be done, and the vault was only to be read.
    JournalOpen,
    /// The folder isn't empty, in which a vault was to be made: this is its first entry, by the order of the names' bytes.
    NotEmpty(Text),
    /// The folder's count of faults rose.
    FolderFault,
    /// The secret's count of faults rose.
    SecretFault,
    /// The random source's count of faults rose.
    RandomFault,
    /// Memory ran out, which says nothing of words, secret and folder.
    Memory,
}

impl From<UnlockErr> for Cause {
    ghost from_gives = { λ error cause. cause ≡ of_unlock error };

    fn from(error: UnlockErr) -> Cause {
        match error {
            UnlockErr::BadSecret => Cause::Secret,
            UnlockErr::Memory => Cause::Memory,
            error => Cause::KeyFiles(error),
        }
    }
}

impl From<Refusal> for Cause {
    ghost from_gives = { λ refusal cause. cause ≡ of_refusal refusal };

    fn from(refusal: Refusal) -> Cause {
        match refusal {
            Refusal::Cause(error) => Cause::from(error),
            Refusal::SecretFault => Cause::SecretFault,
            Refusal::FolderFault => Cause::FolderFault,
        }
    }
}

impl From<SecretErr> for Cause {
    ghost from_gives = { λ error cause. cause ≡ of_secret error };

    fn from(error: SecretErr) -> Cause {
        match error {
            SecretErr::Device => Cause::SecretFault,
            SecretErr::Bad => Cause::Secret,
            SecretErr::Memory => Cause::Memory,
        }
    }
}

impl From<MakeErr> for Cause {
    ghost from_gives = { λ error cause. cause ≡ of_make error };

    fn from(error: MakeErr) -> Cause {
        match error {
            MakeErr::NotEmpty(name) => Cause::NotEmpty(name),
            MakeErr::Device => Cause::FolderFault,
            MakeErr::Entropy => Cause::RandomFault,
            MakeErr::Memory => Cause::Memory,
        }
    }
}

impl Cause {
    /// The program's exit status: 1 for the words, 2 for the secret and the password, 3 for the vault, 4 for a fault, 5 for memory,
    /// 6 for a damaged journal, 8 for a folder that isn't empty, and 15 for a journal that is open.
    pub fn status(&self) -> u8
        ensures { result ≡ status_of self.now }
    {
        match self {
            Cause::Words => 1,
            Cause::Secret => 2,
            Cause::KeyFiles(error) => error.status(),
            Cause::TooManyNodes | Cause::NoRoot => 3,
            Cause::FolderFault | Cause::SecretFault | Cause::RandomFault => 4,
            Cause::Memory => 5,
            Cause::JournalDamaged(_) => 6,
            Cause::NotEmpty(_) => 8,
            Cause::JournalOpen => 15,
        }
    }

    /// The line of the report. Its number, if it has one, is spelled in `digits`.
    pub fn line<'a>(&'a self, digits: &'a mut Buffer) -> Line<'a>
        ensures { line_text result ≡ text_of self.now }
    {
        match self {
            Cause::Words => whole("bad words"),
            Cause::Secret => whole("bad secret"),
            Cause::KeyFiles(error) => key_files_line(*error, digits),
            Cause::TooManyNodes => whole("vault refused: too many nodes"),
            Cause::NoRoot => whole("vault refused: no root"),
            Cause::JournalDamaged(at) => Line {
                head: "journal damaged at ",
                detail: digits.format(*at).as_bytes(),
            },
            Cause::JournalOpen => whole("journal open"),
            Cause::NotEmpty(name) => Line {
                head: "not empty: ",
                detail: name.as_bytes(),
            },
            Cause::FolderFault => whole("device fault: folder"),
            Cause::SecretFault => whole("device fault: secret"),
            Cause::RandomFault => whole("device fault: random"),
            Cause::Memory => whole("out of memory"),
        }
    }
}
