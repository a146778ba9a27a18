ghost use Rattle.std.specs.Prelude.{◌≡◌, ◌≤◌, ◌<◌, length, take, min, IfOk, Ok, OnErr};
ghost use Rattle.std.specs.Io.KnownBytes.{Consumes, Appends, IsAtEnd, Keeps};
ghost use Rattle.outside.specs.Calls.{KeepsFrom};

use std::io;
use std::io::{Error, ErrorKind, Read, Write};

// How many bytes go through the stack at a time.
const CHUNK: usize = 8192;

// The same of a short read, for which no more are zeroed.
const SMALL: usize = 256;

// One read, tried again if a signal cuts it short.
fn read_once<I: Read>(input: &mut I, out: &mut [u8]) -> io::Result<usize>
    ensures count { IfOk result (λ n. n ≤ length out.old) }
    ensures bytes { IfOk result (λ n. Consumes (I.remaining input.old) (I.remaining input.new) (take n out.new)) }
    ensures end { result ≡ Ok 0 → 0 < length out.old → IsAtEnd (I.remaining input.new) }
    ensures failed { OnErr result (Keeps (I.remaining input.old) (I.remaining input.new)) }
{
    for _ in 0..u64::MAX {
        match input.read(out) {
            Err(e) if e.kind() == ErrorKind::Interrupted => {}
            answer => return answer,
        }
    }
    Err(Error::from(ErrorKind::TimedOut))
}

// Reads some bytes by way of N bytes of the stack, as a reader may write past those that it counts.
fn read_through<const N: usize, I: Read>(input: &mut I, out: &mut [u8]) -> io::Result<usize>
    requires some { 0 < N }
    requires few { N ≤ 8192 }
    ensures count { IfOk result (λ n. n ≤ length out.old) }
    ensures rest { IfOk result (λ n. KeepsFrom n out.old out.new) }
    ensures bytes { IfOk result (λ n. Consumes (I.remaining input.old) (I.remaining input.new) (take n out.new)) }
    ensures end { result ≡ Ok 0 → 0 < length out.old → IsAtEnd (I.remaining input.new) }
    ensures failed { OnErr result (Keeps (I.remaining input.old) (I.remaining input.new)) }
    ensures kept { OnErr result (out.new ≡ out.old) }
{
    let mut chunk = [0u8; N];
    let most = out.len().min(N);
    let count = read_once(input, &mut chunk[..most])?;
    out[..count].copy_from_slice(&chunk[..count]);
    Ok(count)
}

/// Reads some bytes, at most `out` has room for, and says how many. The rest of `out` is as it was, and all of it after a failure.
pub fn read_some<I: Read>(input: &mut I, out: &mut [u8]) -> io::Result<usize>
    ensures count { IfOk result (λ n. n ≤ length out.old) }
    ensures rest { IfOk result (λ n. KeepsFrom n out.old out.new) }
    ensures bytes { IfOk result (λ n. Consumes (I.remaining input.old) (I.remaining input.new) (take n out.new)) }
    ensures end { result ≡ Ok 0 → 0 < length out.old → IsAtEnd (I.remaining input.new) }
    ensures failed { OnErr result (Keeps (I.remaining input.old) (I.remaining input.new)) }
    ensures kept { OnErr result (out.new ≡ out.old) }
{
    if out.len() <= SMALL {
        read_through::<SMALL, I>(input, out)
    } else {
        read_through::<CHUNK, I>(input, out)
    }
}

/// Reads one byte, if `out` has room for it, and says how many it read. The rest of `out` is as it was.
pub fn read_one<I: Read>(input: &mut I, out: &mut [u8]) -> io::Result<usize>
    ensures count { IfOk result (λ n. n ≤ min 1 (length out.old)) }
    ensures rest { IfOk result (λ n. KeepsFrom n out.old out.new) }
    ensures bytes { IfOk result (λ n. Consumes (I.remaining input.old) (I.remaining input.new) (take n out.new)) }
    ensures end { result ≡ Ok 0 → 0 < length out.old → IsAtEnd (I.remaining input.new) }
    ensures failed { OnErr result (Keeps (I.remaining input.old) (I.remaining input.new)) }
{
    if out.is_empty() {
        return Ok(0);
    }
    let mut byte = [0u8; 1];
    let count = read_once(input, &mut byte)?;
    if count == 1 {
        out[0] = byte[0];
    }
    Ok(count)
}

/// Writes some bytes from the front of a piece, at least one unless it is empty, and says how many. The writer has no buffer, so
/// nothing is flushed: a flush could fail after the bytes were taken.
pub fn write_some<O: Write>(output: &mut O, piece: &[u8]) -> io::Result<usize>
    ensures count { IfOk result (λ n. n ≤ length piece.now) }
    ensures some { IfOk result (λ n. 0 < length piece.now → 0 < n) }
    ensures bytes { IfOk result (λ n. Appends (O.contents output.old) (O.contents output.new) (take n piece.now)) }
    ensures failed { OnErr result (Keeps (O.contents output.old) (O.contents output.new)) }
{
    for _ in 0..u64::MAX {
        match output.write(piece) {
            Err(e) if e.kind() == ErrorKind::Interrupted => {}
            Err(e) => return Err(e),
            Ok(0) if !piece.is_empty() => return Err(Error::from(ErrorKind::WriteZero)),
            Ok(count) => return Ok(count),
        }
    }
    Err(Error::from(ErrorKind::TimedOut))
}
