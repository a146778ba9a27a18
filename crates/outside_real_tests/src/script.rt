//! A runtime for tests: its standard input is given bytes, and its standard output takes a few bytes of each piece, or fails.

use std::alloc::Allocator;
use std::fmt::Display;
use std::io;
use std::io::{BufRead, ErrorKind, Input, Lines};

// How many bytes the output takes at a time.
const TAKEN: usize = 2;

#[derive(Drop)]
pub(crate) struct Script {
    pub input: &'static [u8],
    pub output_fails: bool,
}

impl Input for Script {
    type Reader = &'static [u8];

    fn read_line<A: Allocator + Clone>(&self, _text: &mut String<A>) -> io::Result<usize> {
        Ok(0)
    }

    fn lines<A: Allocator>(&self, alloc: A) -> Lines<&'static [u8], A> {
        self.input.lines(alloc)
    }

    fn reader(&self) -> &'static [u8] {
        self.input
    }
}

impl Print for Script {
    fn print<D: Display + Drop>(&self, _value: D) -> io::Result<()> {
        Ok(())
    }

    fn println<D: Display + Drop>(&self, _value: D) -> io::Result<()> {
        Ok(())
    }

    fn write_all(&self, _bytes: &[u8]) -> io::Result<()> {
        Ok(())
    }

    fn write_some(&self, bytes: &[u8]) -> io::Result<usize> {
        if self.output_fails {
            return Err(io::Error::from(ErrorKind::BrokenPipe));
        }
        Ok(bytes.len().min(TAKEN))
    }
}
