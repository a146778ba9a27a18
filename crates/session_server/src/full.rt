//! Whole reads and writes over a link that may read and write less than it is asked to.

ghost use Rattle.std.specs.Prelude.{◌≡◌, ℕ, ◌<◌, length, take, OnOk, OnErr, IsErr};
ghost use Rattle.outside.specs.Calls.{HasCause};
ghost use Rattle.session_server.specs.Steps.{Reads, Writes, count_of, IsShort, IsFault};

use outside::{Failed, Link};

/// How the reading of a buffer's bytes went.
#[derive(Clone, Copy)]
pub(crate) enum Filled {
    Whole,
    /// The input ended after so many.
    Ended(usize),
    /// The link failed after so many.
    Fault(usize),
}

/// Reads as many bytes as `out` has room for.
pub(crate) fn read_full<L: Link>(link: &mut L, out: &mut [u8]) -> Filled
    ensures bytes { Reads (L.left link.old) (L.left link.new) (take (count_of (length out.old) result) out.new) }
    ensures short { IsShort (length out.old) (L.left link.new) result }
    ensures cause { HasCause (L.read_faults link.old) (L.read_faults link.new) (IsFault result) }
    ensures taken { L.taken link.new ≡ L.taken link.old }
    ensures writes { L.write_faults link.new ≡ L.write_faults link.old }
{
    let mut count = 0;
    while count < out.len() {
        match link.read(&mut out[count..]) {
            Ok(0) => return Filled::Ended(count),
            Ok(more) => count += more,
            Err(Failed) => return Filled::Fault(count),
        }
    }
    Filled::Whole
}

/// Writes all bytes of a piece.
pub(crate) fn write_full<L: Link>(link: &mut L, piece: &[u8]) -> Result<(), Failed>
    ensures whole { OnOk result (Writes (L.taken link.old) (L.taken link.new) piece.now) }
    ensures part { OnErr result ((n : ℕ) × (n < length piece.now) × Writes (L.taken link.old) (L.taken link.new) (take n piece.now)) }
    ensures cause { HasCause (L.write_faults link.old) (L.write_faults link.new) (IsErr result) }
    ensures left { L.left link.new ≡ L.left link.old }
    ensures reads { L.read_faults link.new ≡ L.read_faults link.old }
{
    let mut count = 0;
    while count < piece.len() {
        let more = link.write(&piece[count..])?;
        count += more;
    }
    Ok(())
}
