ghost use Rattle.std.specs.Prelude.{◌≡◌, None};
ghost use Rattle.outside_real.specs.Behind.{clock_of};

use outside::Clock;
use std::rt::Clock as SystemClock;
use std::time::{SystemTime, UNIX_EPOCH};

/// The system's clock.
#[derive(Drop)]
pub struct HostClock<R> {
    rt: R,
}

impl<R: SystemClock> HostClock<R> {
    /// The runtime's clock.
    pub fn new(rt: R) -> HostClock<R>
        ensures { clock_of result ≡ rt }
    {
        HostClock { rt }
    }

    fn since_1970(&self) -> Option<u64> {
        let now = SystemTime::now(&self.rt).ok()?;
        Some(now.duration_since(UNIX_EPOCH).ok()?.as_secs())
    }
}

impl<R: SystemClock> Clock for HostClock<R> {
    ghost to_give = { λ _. None };

    // The low 32 bits of the seconds since 1970, and 0 if the clock fails or is before 1970.
    fn now(&mut self) -> u32 {
        (self.since_1970().unwrap_or(0) % (1 << 32)) as u32
    }
}
