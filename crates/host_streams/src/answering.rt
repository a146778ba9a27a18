ghost use Rattle.std.specs.Prelude.{◌≡◌, ◌≢◌, IfOk, IfErr, IsOk, IsOkUnless, IsErrOf, Ok, Err};
ghost use Rattle.std.specs.IoError.{error_kind};
ghost use Rattle.std.specs.declared.io.ErrorKind.TheVariants.{OutOfMemory, PermissionDenied};
ghost use Rattle.host_streams.specs.Errors.{IsMisfit};

use crate::errors::is_misfit;
use crate::telling::told;
use log::Log;
use outside::FolderErr;
use std::fmt::Display;
use std::io;
use std::io::ErrorKind;

/// The answer of a folder's call that changes nothing. Why it failed is told to a logger.
pub fn looked<T, L: Log, D: Display + Drop>(
    log: &L,
    call: &str,
    at: D,
    answer: io::Result<T>,
) -> Result<T, FolderErr>
    ensures done { IsOk answer → IsOk result }
    ensures value { IfOk result (λ value. answer ≡ Ok value) }
    ensures failed { IsOkUnless result FolderErr.Failed }
{
    told(log, format_args!("{call} of {at}"), answer).map_err(|_| FolderErr::Failed)
}

/// The answer of a listing. A folder that may not be listed is as none, and a list for which memory ran out is no fault of the
/// folder; why it failed is told all the same.
pub fn listed<T, L: Log, D: Display + Drop>(
    log: &L,
    at: D,
    answer: io::Result<T>,
) -> Result<T, FolderErr>
    ensures done { IsOk answer → IsOk result }
    ensures value { IfOk result (λ value. answer ≡ Ok value) }
    ensures unfit { IfErr answer (λ cause. error_kind cause ≡ PermissionDenied → result ≡ Err FolderErr.Unfit) }
    ensures memory { IfErr answer (λ cause. error_kind cause ≡ OutOfMemory → result ≡ Err FolderErr.Memory) }
    ensures failed { IfErr answer (λ cause. error_kind cause ≢ PermissionDenied → error_kind cause ≢ OutOfMemory → result ≡ Err FolderErr.Failed) }
{
    match told(log, format_args!("list of {at}"), answer) {
        Ok(value) => Ok(value),
        Err(cause) => Err(match cause.kind() {
            ErrorKind::PermissionDenied => FolderErr::Unfit,
            ErrorKind::OutOfMemory => FolderErr::Memory,
            _ => FolderErr::Failed,
        }),
    }
}

/// The answer of a change: the path isn't what it needs, or the host failed, which is told to a logger.
pub fn changed<L: Log, D: Display + Drop>(
    log: &L,
    call: &str,
    at: D,
    answer: io::Result<()>,
) -> Result<(), FolderErr>
    ensures done { IsOk answer → IsOk result }
    ensures unfit { IfErr answer (λ cause. IsMisfit cause → result ≡ Err FolderErr.Unfit) }
    ensures failed { IfErr answer (λ cause. ¬ IsMisfit cause → result ≡ Err FolderErr.Failed) }
    ensures no_memory { IsErrOf result FolderErr.Memory → ⊥ }
{
    match answer {
        Err(cause) if is_misfit(&cause) => Err(FolderErr::Unfit),
        answer => looked(log, call, at, answer),
    }
}
