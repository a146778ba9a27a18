//! The readers and writers that links, sources and sinks are over. By its type such an end tells its bytes, as bytes in memory do,
//! or it doesn't: a reader of which nothing is known may be known later, which a link must not.

ghost use Rattle.std.specs.Prelude.{◌≡◌, IsSome, IsTrue, Bool, true, false, refl};
ghost use Rattle.host_links.specs.Untold.{never};

use host_sockets::Output;
use std::io;
use std::io::{Read, Write};

/// A reader that tells what is left of it, or doesn't.
pub trait Incoming: Read {
    ghost tells: { Bool };

    /// One that tells always does.
    ghost told: { IsTrue tells → (reader : Self) → IsSome (Self.remaining reader) };
}

/// A writer that tells what it has taken, or doesn't. It has no buffer of its own: what it takes leaves at once.
pub trait Outgoing: Write {
    ghost tells: { Bool };

    /// One that tells always does.
    ghost told: { IsTrue tells → (writer : Self) → IsSome (Self.contents writer) };
}

impl Incoming for &[u8] {
    ghost tells = { true };

    ghost told = { λ _ _. refl };
}

impl Outgoing for Vec<u8> {
    ghost tells = { true };

    ghost told = { λ _ _. refl };
}

/// A reader of the host, which doesn't tell.
#[derive(Drop)]
pub struct Untold<I> {
    reader: I,
}

impl<I> Untold<I> {
    ghost use Rattle.host_links.specs.Behind.{untold_reader};

    pub(crate) fn new(reader: I) -> Untold<I>
        ensures { untold_reader result ≡ reader }
    {
        Untold { reader }
    }
}

impl<I: Read> Read for Untold<I> {
    ghost remaining = { λ untold. I.remaining untold.reader };

    fn read(&mut self, buf: &mut [u8]) -> io::Result<usize> {
        self.reader.read(buf)
    }
}

impl<I: Read> Incoming for Untold<I> {
    ghost tells = { false };

    ghost told = { λ tells _. never tells };
}

impl<R: Print> Outgoing for Output<R> {
    ghost tells = { false };

    ghost told = { λ tells _. never tells };
}
