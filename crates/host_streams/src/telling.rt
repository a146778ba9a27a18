ghost use Rattle.std.specs.Prelude.{◌≡◌};

use log::{Log, error};
use std::fmt::Display;

/// The target that the program's lines name.
pub const TARGET: &str = "vaultd";

/// Passes the answer to a call of the host on. A fault is told to a logger: the call, and why it failed, in the host's own words.
pub fn told<T, E: Display, L: Log, C: Display + Drop>(
    log: &L,
    call: C,
    answer: Result<T, E>,
) -> Result<T, E>
    ensures { result ≡ answer }
{
    if let Err(cause) = &answer {
        error!(log; target: TARGET, "{call}: {cause}");
    }
    answer
}
