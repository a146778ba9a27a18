//! A password as people type it into files.

use crate::host::Host;
use host_links::SecretSource;
use log::{Log, warn};
use outside::{Failed, Source};
use std::fs::File;
use std::io::{Input, Read};
use std::rt::Files;

// What some editors put before a text: U+FEFF in UTF-8.
const MARK: [u8; 3] = [0xef, 0xbb, 0xbf];

/// Where the secret comes from: the first line of a file, or of standard input.
pub(crate) fn secret_of<'a, R: Input + Files<File = File>, L: Log>(
    host: Host<'a, R, L>,
    passfile: Option<&str>,
) -> SecretSource<R::Reader, File, &'a L> {
    match passfile {
        Some(path) => SecretSource::file(host.rt, host.log, path),
        None => SecretSource::input(host.rt, host.log),
    }
}

// How the line of a secret begins and ends.
#[derive(Drop)]
struct Ends {
    head: [u8; 3],
    count: usize,
    last: u8,
}

impl Ends {
    // The bytes that come next: of the line, and at last its LF.
    fn note(&mut self, bytes: &[u8]) {
        for byte in bytes {
            if *byte != b'\n' {
                if self.count < self.head.len() {
                    self.head[self.count] = *byte;
                    self.count += 1;
                }
                self.last = *byte;
            }
        }
    }
}

/// A source of a secret's line that notes how this begins and ends.
#[derive(Drop)]
pub(crate) struct NotedSource<S> {
    source: S,
    ends: Ends,
}

impl<S> NotedSource<S> {
    /// One of which nothing is read yet.
    pub(crate) fn new(source: S) -> NotedSource<S> {
        NotedSource {
            source,
            ends: Ends {
                head: [0; 3],
                count: 0,
                last: 0,
            },
        }
    }

    /// Tells what of a password may be there unseen. It is part of it all the same.
    pub(crate) fn tell_unseen<L: Log>(&self, log: &L) {
        if self.ends.head == MARK {
            warn!(log; target: "vaultd", "the password begins with a byte order mark");
        }
        if self.ends.last == b'\r' {
            warn!(log; target: "vaultd", "the password ends with a carriage return");
        }
    }
}

impl<S: Source> Source for NotedSource<S> {
    ghost left = { λ noted. S.left noted.source };

    ghost faults = { λ noted. S.faults noted.source };

    fn read(&mut self, out: &mut [u8]) -> Result<usize, Failed> {
        let count = self.source.read(out)?;
        self.ends.note(&out[..count]);
        Ok(count)
    }
}
