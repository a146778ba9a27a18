ghost use Rattle.std.specs.Prelude.{◌≡◌, ◌≤◌, IfOk, IsErr, is_ok, Ok};
ghost use Rattle.outside.specs.Calls.{HasCause, Rose};

use outside::Failed;
use std::io;

/// The count after one more fault. Saturates.
pub fn raised(faults: u64) -> u64
    ensures later { faults ≤ result }
    ensures rose { Rose faults result }
{
    faults.saturating_add(1)
}

/// Passes the host's answer on, and counts a failure.
pub fn counted<T>(faults: &mut u64, answer: io::Result<T>) -> Result<T, Failed>
    ensures variant { is_ok result ≡ is_ok answer }
    ensures value { IfOk result (λ value. answer ≡ Ok value) }
    ensures cause { HasCause faults.old faults.new (IsErr result) }
{
    match answer {
        Ok(value) => Ok(value),
        Err(_) => {
            *faults = raised(*faults);
            Err(Failed)
        }
    }
}
