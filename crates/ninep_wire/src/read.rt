//! Reading a whole message.

ghost use Rattle.std.specs.Prelude.{◌≡◌, IfOk, IsOkAnd};
ghost use Rattle.ninep_wire.specs.TMessage.{PlainMessage, IsMessage, spelled_t};
ghost use Rattle.ninep_wire.specs.Plain.{plain_t, plain_message, HasNames};
ghost use Rattle.ninep_wire.specs.Reading.{Gives, IsFrame, t_message_at, message_in};

use crate::fault::WireErr;
use crate::fields::{u8_of, u16_of, u32_of};
use crate::t_message::{Message, TMessage};
use crate::{kinds, messages};

// The fields of a message of this type.
#[tactic(auto, unfolding(crate::specs::Reading::t_message_at))]
fn t_message_of(kind: u8, fields: &[u8]) -> Result<(TMessage<'_>, &[u8]), WireErr>
    ensures given { Gives (λ x. (plain_t x.0, x.1.now)) result (t_message_at kind fields.now) }
    ensures names { IfOk result (λ x. HasNames x.0) }
{
    match kind {
        kinds::T_VERSION => messages::version_of(fields),
        kinds::T_AUTH => messages::auth_of(fields),
        kinds::T_ATTACH => messages::attach_of(fields),
        kinds::T_FLUSH => messages::flush_of(fields),
        kinds::T_WALK => messages::walk_of(fields),
        kinds::T_OPEN => messages::open_of(fields),
        kinds::T_CREATE => messages::create_of(fields),
        kinds::T_READ => messages::read_of(fields),
        kinds::T_WRITE => messages::write_of(fields),
        kinds::T_CLUNK => messages::clunk_of(fields),
        kinds::T_REMOVE => messages::remove_of(fields),
        kinds::T_STAT => messages::fstat_of(fields),
        kinds::T_WSTAT => messages::wstat_of(fields),
        kind => Err(WireErr::Kind(kind)),
    }
}

// The message in all of a frame's bytes: its size, type and tag, and its fields.
#[tactic(auto, unfolding(crate::specs::Reading::message_in))]
fn message_of(frame: &[u8]) -> Result<Message<'_>, WireErr>
    ensures given { Gives plain_message result (message_in frame.now) }
    ensures names { IfOk result (λ m. HasNames m.body) }
{
    let (_, rest) = u32_of(frame)?;
    let (kind, rest) = u8_of(rest)?;
    let (tag, rest) = u16_of(rest)?;
    let (body, rest) = t_message_of(kind, rest)?;
    if !rest.is_empty() {
        return Err(WireErr::Long);
    }
    Ok(Message { tag, body })
}

/// The message that a frame is: all bytes of one message, whose first four give their number, at least 7. Names and bytes
/// are borrowed from it, and no memory is taken.
pub fn read_message(frame: &[u8]) -> Result<Message<'_>, WireErr>
    requires { IsFrame frame.now }
    // What is read is spelled so.
    ensures read { IfOk result (λ m. IsMessage (plain_message m) × (frame.now ≡ spelled_t (plain_message m))) }
    // What is spelled so is read.
    ensures only { (m : PlainMessage) → IsMessage m → frame.now ≡ spelled_t m → IsOkAnd result (λ read. plain_message read ≡ m) }
    // Which refusal it is: the first fault from left to right.
    ensures exact { Gives plain_message result (message_in frame.now) }
    // The names of a walk have the form that a request wants.
    ensures names { IfOk result (λ m. HasNames m.body) }
{
    message_of(frame)
}
