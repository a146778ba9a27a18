ghost use Rattle.std.specs.Prelude.{◌≡◌, ◌≤◌, ◌<◌, length, take, IfOk, IsErr, None, Ok};
ghost use Rattle.std.specs.Io.KnownBytes.{Consumes, IsAtEnd};
ghost use Rattle.outside.specs.Calls.{HasCause, KeepsFrom};
ghost use Rattle.host_links.specs.Secrets.{secret_faults, secret_left, IsSourceOf, IsUnopened};

use crate::ends::Untold;
use crate::stream::StdSource;
use host_streams::{raised, told};
use log::Log;
use outside::{Failed, Source};
use outside_real::{SecretFileErr, secret_file};
use std::io::{Input, Read};
use std::rt::Files;

/// Where a secret is read from, of which nothing is told: standard input, or a file.
#[derive(Drop)]
pub enum SecretSource<I, F, L> {
    /// The standard input.
    Input(StdSource<Untold<I>, L>),
    /// A file that its owner alone can read.
    File(StdSource<Untold<F>, L>),
    /// A file that isn't read, since others can read it or since it is none: it is at its end.
    Refused,
    /// A file that couldn't be opened, and how often it was to be read since.
    Unopened(u64),
}

impl<I: Read, F: Read, L: Log + Drop> SecretSource<I, F, L> {
    /// The runtime's standard input.
    pub fn input<R: Input<Reader = I>>(rt: &R, log: L) -> SecretSource<I, F, L>
        ensures { ⟦<SecretSource<I, F, L> as Source>⟧.faults result ≡ 0 }
    {
        SecretSource::Input(StdSource::new(rt, log))
    }

    /// The file at a path. Why it isn't read is told to the logger.
    pub fn file<R: Files<File = F>>(rt: &R, log: L, path: &str) -> SecretSource<I, F, L>
        ensures { ⟦<SecretSource<I, F, L> as Source>⟧.faults result ≡ 0 }
    {
        let call = format_args!("secret file {path}");
        let opened = told(&log, call, secret_file(rt, path));
        SecretSource::of(opened, log)
    }

    fn of(opened: Result<F, SecretFileErr>, log: L) -> SecretSource<I, F, L>
        ensures source { IsSourceOf opened result }
        ensures faults { secret_faults result ≡ 0 }
    {
        match opened {
            Ok(file) => SecretSource::File(StdSource::over(Untold::new(file), log)),
            Err(SecretFileErr::Exposed | SecretFileErr::NotAFile) => SecretSource::Refused,
            Err(SecretFileErr::Failed(_)) => SecretSource::Unopened(0),
        }
    }
}

impl<I: Read, F: Read, L: Log> Source for SecretSource<I, F, L> {
    ghost left = { λ _. None };

    ghost faults = { secret_faults };

    fn read(&mut self, out: &mut [u8]) -> Result<usize, Failed>
        ensures count { IfOk result (λ n. n ≤ length out.old) }
        ensures rest { IfOk result (λ n. KeepsFrom n out.old out.new) }
        ensures cause { HasCause (secret_faults self.old) (secret_faults self.new) (IsErr result) }

        // What is read, and nothing else, comes from the standard input or the file.
        ensures reader { IfOk result (λ n. Consumes (secret_left I.remaining F.remaining self.old) (secret_left I.remaining F.remaining self.new) (take n out.new)) }
        ensures reader_end { result ≡ Ok 0 → 0 < length out.old → IsAtEnd (secret_left I.remaining F.remaining self.new) }
        ensures unopened { IsUnopened self.old → IsErr result }
    {
        match self {
            SecretSource::Input(source) => source.read(out),
            SecretSource::File(source) => source.read(out),
            SecretSource::Refused => Ok(0),
            SecretSource::Unopened(faults) => {
                *faults = raised(*faults);
                Err(Failed)
            }
        }
    }
}
