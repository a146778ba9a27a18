//! Reading one message from a link.

ghost use Rattle.std.specs.Prelude.{◌≡◌, ◌≤◌, [], length, take, IfOk, OnOk, IfErr, IsErrOf};
ghost use Rattle.outside.specs.Calls.{HasCause};
ghost use Rattle.ninep_wire.specs.Reading.{IsFrame};
ghost use Rattle.session_core.specs.State.{State, limit, most_message};
ghost use Rattle.session_server.specs.Steps.{Reads, StopsAt, Completes};
ghost use Rattle.session_server.specs.Talk.{size_of, IsSize};

use crate::ending::SessionEnd;
use crate::full::{Filled, read_full};
use byteorder::{ByteOrder, LittleEndian};
use outside::Link;
use session_core::Session;

// The bytes of a message's size, and those of its header (intro(5)).
const SIZE_LEN: usize = 4;

const HEADER_LEN: u32 = 7;

// Reads a message's size into the front of `frame`.
fn read_size<L: Link>(link: &mut L, frame: &mut [u8]) -> Result<u32, SessionEnd>
    requires { 4 ≤ length frame.old }
    ensures size { IfOk result (λ size. size ≡ size_of frame.new) }
    ensures bytes { IfOk result (λ size. Reads (L.left link.old) (L.left link.new) (take 4 frame.new)) }
    ensures stops { IfErr result (λ end. (s : State) → StopsAt [] s (L.left link.old) (L.left link.new) end) }
    ensures cause { HasCause (L.read_faults link.old) (L.read_faults link.new) (IsErrOf result SessionEnd.ReadFault) }
    ensures taken { L.taken link.new ≡ L.taken link.old }
    ensures writes { L.write_faults link.new ≡ L.write_faults link.old }
{
    match read_full(link, &mut frame[..SIZE_LEN]) {
        Filled::Whole => Ok(LittleEndian::read_u32(frame)),
        Filled::Ended(0) => Err(SessionEnd::Done),
        Filled::Ended(had) => Err(SessionEnd::Cut {
            had: had as u32,
            wanted: SIZE_LEN as u32,
        }),
        Filled::Fault(_) => Err(SessionEnd::ReadFault),
    }
}

// Reads the rest of a message after its size.
fn read_rest<L: Link>(link: &mut L, size: u32, frame: &mut [u8]) -> Result<(), SessionEnd>
    requires low { 7 ≤ size }
    requires high { size ≤ length frame.old }
    requires size { size ≡ size_of frame.old }
    ensures frame { OnOk result (IsFrame (take size frame.new)) }
    ensures bytes { OnOk result (Completes (take 4 frame.old) (L.left link.old) (L.left link.new) (take size frame.new)) }
    ensures stops { IfErr result (λ end. (s : State) → IsSize s size → StopsAt (take 4 frame.old) s (L.left link.old) (L.left link.new) end) }
    ensures cause { HasCause (L.read_faults link.old) (L.read_faults link.new) (IsErrOf result SessionEnd.ReadFault) }
    ensures taken { L.taken link.new ≡ L.taken link.old }
    ensures writes { L.write_faults link.new ≡ L.write_faults link.old }
{
    match read_full(link, &mut frame[SIZE_LEN..size as usize]) {
        Filled::Whole => Ok(()),
        Filled::Ended(had) => Err(SessionEnd::Cut {
            had: (SIZE_LEN + had) as u32,
            wanted: size,
        }),
        Filled::Fault(_) => Err(SessionEnd::ReadFault),
    }
}

/// Reads one message into the front of `frame`, and returns its size in bytes.
pub(crate) fn read_frame<L: Link>(
    session: &Session,
    link: &mut L,
    frame: &mut [u8],
) -> Result<usize, SessionEnd>
    requires { most_message ≤ length frame.old }
    ensures frame { IfOk result (λ size. IsFrame (take size frame.new)) }
    ensures size { IfOk result (λ size. (size ≤ limit session.now) × (size ≤ most_message)) }
    ensures bytes { IfOk result (λ size. Reads (L.left link.old) (L.left link.new) (take size frame.new)) }
    ensures stops { IfErr result (λ end. StopsAt [] session.now (L.left link.old) (L.left link.new) end) }
    ensures cause { HasCause (L.read_faults link.old) (L.read_faults link.new) (IsErrOf result SessionEnd.ReadFault) }
    ensures taken { L.taken link.new ≡ L.taken link.old }
    ensures writes { L.write_faults link.new ≡ L.write_faults link.old }
{
    let size = read_size(link, frame)?;
    if size < HEADER_LEN || size > session.limit() {
        return Err(SessionEnd::BadFrame(size));
    }
    read_rest(link, size, frame)?;
    Ok(size as usize)
}
