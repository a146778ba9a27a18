ghost use Rattle.std.specs.Prelude.{◌≡◌, IfSome, IsErr, None, Some, OnOk};
ghost use Rattle.std.specs.Io.KnownBytes.{Consumes};
ghost use Rattle.outside.specs.Calls.{HasCause};
ghost use Rattle.outside_real.specs.Behind.{device_of};

use host_streams::{counted, told};
use log::Log;
use outside::{Entropy, Failed};
use std::fs::File;
use std::io;
use std::io::Read;
use std::rt::Files;

/// The system's random bytes, from `/dev/urandom`, which is opened by the first draw.
#[derive(Drop)]
pub struct OsEntropy<R: Files, L> {
    rt: R,
    log: L,
    device: Option<R::File>,
    faults: u64,
}

impl<R: Files, L: Log> OsEntropy<R, L> {
    /// The system's random bytes, whose faults are told to a logger. Nothing is drawn yet.
    pub fn new(rt: R, log: L) -> OsEntropy<R, L>
    where
        R: Drop,
        ensures { ⟦<OsEntropy<R, L> as Entropy>⟧.faults result ≡ 0 }
    {
        OsEntropy {
            rt,
            log,
            device: None,
            faults: 0,
        }
    }

    // Fills a buffer from the device.
    fn draw(&mut self, out: &mut [u8]) -> io::Result<()>
        ensures device { OnOk result ((before : R.File) × (after : R.File) × IfSome self.old.device (λ device. device ≡ before)
            × (self.new.device ≡ Some after) × Consumes (R.File.remaining before) (R.File.remaining after) out.new) }
        ensures faults { self.new.faults ≡ self.old.faults }
    {
        let mut device = match self.device.take() {
            Some(device) => device,
            None => File::open(&self.rt, "/dev/urandom")?,
        };
        let answer = device.read_exact(out);
        self.device = Some(device);
        answer
    }
}

impl<R: Files, L: Log> Entropy for OsEntropy<R, L> {
    ghost drawn = { λ _. None };

    ghost faults = { λ entropy. entropy.faults };

    fn fill(&mut self, out: &mut [u8]) -> Result<(), Failed>
        ensures cause { HasCause (⟦<OsEntropy<R, L> as Entropy>⟧.faults self.old) (⟦<OsEntropy<R, L> as Entropy>⟧.faults self.new) (IsErr result) }

        // All that is drawn comes from the device, which stays open from the first draw on.
        ensures device { OnOk result ((before : R.File) × (after : R.File) × IfSome (device_of self.old) (λ device. device ≡ before)
            × (device_of self.new ≡ Some after) × Consumes (R.File.remaining before) (R.File.remaining after) out.new) }
    {
        let answer = self.draw(out);
        let answer = told(&self.log, "read of /dev/urandom", answer);
        counted(&mut self.faults, answer)
    }
}
