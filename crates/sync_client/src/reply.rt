//! Reading a reply, and the fields of replies.

ghost use Rattle.std.specs.Prelude.{◌≡◌, ◌≢◌, ◌↔◌, ◌≤◌, ℕ, List, [], length, take, IfOk, IfErr, IfSome, IsNone, IsTrue, IsErrOf};
ghost use Rattle.outside.specs.Calls.{HasCause, TakesFront};
ghost use Rattle.ninep_wire.specs.Header.{message};
ghost use Rattle.ninep_wire.specs.Reading.{IsFrame};
ghost use Rattle.sync_client.specs.Messages.{most_message};
ghost use Rattle.sync_client.specs.Replies.{IsAgreement, qid_size, IsText};
ghost use Rattle.sync_client.specs.Steps.{StopsReading, IsNoReply};

use crate::full::read_full;
use crate::sync_err::SyncErr;
use byteorder::{ByteOrder, LittleEndian};
use outside::Link;

// The bytes of a message's size, and those of its header (intro(5)).
const SIZE_LEN: usize = 4;

const HEADER_LEN: u32 = 7;

/// The most bytes of a message that the client takes.
pub(crate) const MOST_MESSAGE: usize = 8192;

// The bytes of the client's longest message.
const LONGEST: u32 = 62;

// The bytes of a qid (intro(5)).
const QID_LEN: usize = 13;

// The bytes of an Rversion's fields: msize[4], and the protocol as a string.
const AGREEMENT_LEN: usize = 12;

// The protocol as a string.
const PROTOCOL: &[u8] = b"\x06\09P2000";

/// Reads a reply into the front of `frame`, and returns its size in bytes.
pub(crate) fn read_reply<L: Link>(link: &mut L, frame: &mut [u8]) -> Result<usize, SyncErr>
    requires { most_message ≤ length frame.old }
    ensures frame { IfOk result (λ size. IsFrame (take size frame.new)) }
    ensures size { IfOk result (λ size. size ≤ most_message) }
    ensures bytes { IfOk result (λ size. TakesFront (L.left link.old) (L.left link.new) (take size frame.new)) }
    ensures stops { IfErr result (λ err. StopsReading IsNoReply (L.left link.old) (L.left link.new) err) }
    ensures cause { HasCause (L.read_faults link.old) (L.read_faults link.new) (IsErrOf result SyncErr.Fault) }
    ensures taken { L.taken link.new ≡ L.taken link.old }
    ensures writes { L.write_faults link.new ≡ L.write_faults link.old }
{
    read_full(link, &mut frame[..SIZE_LEN])?;
    let size = LittleEndian::read_u32(frame);
    if size < HEADER_LEN || size as usize > MOST_MESSAGE {
        return Err(SyncErr::NotNinep);
    }
    read_full(link, &mut frame[SIZE_LEN..size as usize])?;
    Ok(size as usize)
}

/// The fields of a frame, if it is a message of this type and tag.
pub(crate) fn fields_of(frame: &[u8], kind: u8, tag: u16) -> Option<&[u8]>
    requires { IsFrame frame.now }
    ensures found { IfSome result (λ fields. frame.now ≡ message kind tag fields.now) }
    ensures none { IsNone result → (fields : List ℕ) → frame.now ≢ message kind tag fields }
{
    if frame[4] != kind || LittleEndian::read_u16(&frame[5..]) != tag {
        return None;
    }
    Some(&frame[7..])
}

/// Whether fields agree to a version: the protocol, and a size that serves.
pub(crate) fn is_agreement(fields: &[u8]) -> bool
    ensures { IsTrue result ↔ IsAgreement fields.now }
{
    if fields.len() != AGREEMENT_LEN || !fields.ends_with(PROTOCOL) {
        return false;
    }
    let agreed = LittleEndian::read_u32(fields);
    LONGEST <= agreed && agreed as usize <= MOST_MESSAGE
}

/// Whether fields are one qid: any 13 bytes are.
pub(crate) fn is_qid(fields: &[u8]) -> bool
    ensures { IsTrue result ↔ (length fields.now ≡ qid_size) }
{
    fields.len() == QID_LEN
}

/// Whether there are no fields.
pub(crate) fn is_nothing(fields: &[u8]) -> bool
    ensures { IsTrue result ↔ (fields.now ≡ []) }
{
    fields.is_empty()
}

/// Whether fields are one string.
pub(crate) fn is_text(fields: &[u8]) -> bool
    ensures { IsTrue result ↔ IsText fields.now }
{
    fields.len() >= 2
        && usize::from(LittleEndian::read_u16(fields)) == fields.len() - 2
        && str::from_utf8(&fields[2..]).is_ok()
}
