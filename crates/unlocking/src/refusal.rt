ghost use Rattle.std.specs.Prelude.{◌≡◌};
ghost use Rattle.unlocking.specs.Refusals.{of_find, of_secret};

use crate::errors::UnlockErr;
use crate::finding::FindErr;
use crate::secret::SecretErr;

/// Why a vault isn't unlocked.
#[derive(Clone, Copy, Debug, PartialEq, Eq)]
pub enum Refusal {
    /// By the secret's line or the key files, or because memory ran out.
    Cause(UnlockErr),
    /// The secret's count of faults rose.
    SecretFault,
    /// The folder's count of faults rose.
    FolderFault,
}

impl From<SecretErr> for Refusal {
    ghost from_gives = { λ error gives. gives ≡ of_secret error };

    fn from(error: SecretErr) -> Refusal {
        match error {
            SecretErr::Device => Refusal::SecretFault,
            SecretErr::Bad => Refusal::Cause(UnlockErr::BadSecret),
            SecretErr::Memory => Refusal::Cause(UnlockErr::Memory),
        }
    }
}

impl From<FindErr> for Refusal {
    ghost from_gives = { λ error gives. gives ≡ of_find error };

    fn from(error: FindErr) -> Refusal {
        match error {
            FindErr::Device => Refusal::FolderFault,
            FindErr::Memory => Refusal::Cause(UnlockErr::Memory),
        }
    }
}

impl From<UnlockErr> for Refusal {
    ghost use Rattle.std.specs.Prelude.{◌≡◌};
    ghost use Rattle.unlocking.specs.declared.refusal.Refusal.TheVariants.{Cause};

    ghost from_gives = { λ error gives. gives ≡ Cause error };

    fn from(error: UnlockErr) -> Refusal {
        Refusal::Cause(error)
    }
}
