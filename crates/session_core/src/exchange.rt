//! One message and its answer.

ghost use Rattle.std.specs.Prelude.{◌≡◌, ℕ, ◌≤◌, [], ◌∷◌, List, length, take, drop};
ghost use Rattle.tree_model.specs.Asked.{Extends, count_limit, CanAsk, IsReplyTo, HasCount, plain_request, plain_reply, asked_of, bytes_put};
ghost use Rattle.ninep_wire.specs.RMessage.{PlainRMessage, error, spelled_r, IsRMessage};
ghost use Rattle.ninep_wire.specs.Plain.{plain_t, plain_r, HasNames};
ghost use Rattle.ninep_wire.specs.Reading.{IsFrame};
ghost use Rattle.ninep_wire.specs.Writing.{HasForm, r_size};
ghost use Rattle.session_core.specs.State.{State, limit, least_message, most_message, HasGoodSize};
ghost use Rattle.session_core.specs.Denial.{denial_text};
ghost use Rattle.session_core.specs.Outcome.{outcome, outcome_of};
ghost use Rattle.session_core.specs.Action.{refuses};
ghost use Rattle.session_core.specs.Session.{action_on, tag_at, HasAnswered};
ghost use Rattle.session_core.specs.Forms.{bytes_offset, IsAnswerable};

use crate::action::{Action, action_of};
use crate::outcome::outcome_of;
use crate::session::Session;
use crate::texts::{Denial, denial_text};
use byteorder::{ByteOrder, LittleEndian};
use ninep_wire::{RMessage, TMessage, WireErr, read_message, write_reply};
use tree_model::{Reply, Request, TreeObject};

// The offset of a message's tag (intro(5)).
const TAG_OFFSET: usize = 5;

// The offsets of an Rread's bytes and of an Rstat's stat (read(5), stat(5)).
const READ_OFFSET: usize = 11;

const STAT_OFFSET: usize = 9;

fn tag_at(frame: &[u8]) -> u16
    requires { 7 ≤ length frame.now }
    ensures { result ≡ tag_at frame.now }
{
    LittleEndian::read_u16(&frame[TAG_OFFSET..])
}

// What a frame that is no message is refused with.
fn denial_of(fault: WireErr) -> Denial
    ensures { (s : State) → action_on s (Err fault) ≡ refuses (denial_text result) s }
{
    match fault {
        WireErr::Kind(_) => Denial::UnknownMessage,
        WireErr::Short => Denial::BadMessage,
        WireErr::Long => Denial::BadMessage,
        WireErr::Text => Denial::BadMessage,
        WireErr::Names(_) => Denial::BadMessage,
    }
}

fn write_message(message: &RMessage<'_>, tag: u16, out: &mut [u8]) -> usize
    requires form { HasForm message.now }
    requires room { r_size message.now ≤ length out.old }
    ensures bytes { take result out.new ≡ spelled_r tag (plain_r message.now out.old) }
    ensures formed { IsRMessage tag (plain_r message.now out.old) }
    ensures size { result ≡ r_size message.now }
{
    write_reply(message, tag, out)
}

fn write_error(denial: Denial, tag: u16, out: &mut [u8]) -> usize
    requires { most_message ≤ length out.old }
    ensures bytes { take result out.new ≡ spelled_r tag (error (denial_text denial)) }
    ensures formed { IsRMessage tag (error (denial_text denial)) }
    ensures size { (7 ≤ result) × (result ≤ least_message) }
{
    let message = RMessage::Error {
        ename: denial_text(denial),
    };
    write_message(&message, tag, out)
}

// Where the bytes of a reply have their place in the R-message.
fn bytes_offset(request: &Request<'_>) -> usize
    ensures { result ≡ bytes_offset (plain_request request.now) }
{
    match request {
        Request::Look { .. } => READ_OFFSET,
        Request::Walk { .. } => READ_OFFSET,
        Request::OpenNode { .. } => READ_OFFSET,
        Request::Create { .. } => READ_OFFSET,
        Request::Read { .. } => READ_OFFSET,
        Request::List { .. } => READ_OFFSET,
        Request::Write { .. } => READ_OFFSET,
        Request::Remove { .. } => READ_OFFSET,
        Request::StatOf { .. } => STAT_OFFSET,
        Request::Change { .. } => READ_OFFSET,
        Request::Sync { .. } => READ_OFFSET,
    }
}

// Asks the object, whose bytes go straight to their place in the R-message.
fn ask<B: TreeObject>(request: &Request<'_>, object: &mut B, now: u32, out: &mut [u8]) -> Reply
    requires can { (n : ℕ) → count_limit ≤ n → CanAsk request.now n }
    requires room { most_message ≤ length out.old }
    ensures stands { Extends B.stands object.old object.new
        (asked_of (plain_request request.now) now (plain_reply result) (drop (bytes_offset (plain_request request.now)) out.new) ∷ []) }
    ensures form { IsReplyTo (plain_request request.now) (plain_reply result)
        (bytes_put (plain_request request.now) (plain_reply result) (drop (bytes_offset (plain_request request.now)) out.new)) }
    ensures count { HasCount result }
{
    let offset = bytes_offset(request);
    object.ask(request, now, &mut out[offset..])
}

// Answers a message whose request was answered.
fn finish(
    session: &mut Session,
    message: &TMessage<'_>,
    reply: &Reply,
    tag: u16,
    out: &mut [u8],
) -> usize
    requires good { HasGoodSize session.old }
    requires count { HasCount reply.now }
    requires names { HasNames message.now }
    requires room { most_message ≤ length out.old }
    requires answerable { (bytes : List ℕ) × IsAnswerable session.old (plain_t message.now) (plain_reply reply.now) out.old bytes }
    ensures answered { (bytes : List ℕ) → IsAnswerable session.old (plain_t message.now) (plain_reply reply.now) out.old bytes
        → (answer : PlainRMessage) × IsRMessage tag answer × (take result out.new ≡ spelled_r tag answer)
        × (outcome_of session.old (plain_t message.now) (plain_reply reply.now) bytes ≡ outcome answer session.new) }
    ensures size { (7 ≤ result) × (result ≤ limit session.new) }
    ensures good { HasGoodSize session.new }
{
    let (answer, change) = outcome_of(session, message, reply);
    session.change(&change, &out[READ_OFFSET..]);
    write_message(&answer, tag, out)
}

/// Answers one whole message: the size of the R-message in bytes.
pub(crate) fn exchange<B: TreeObject>(
    session: &mut Session,
    frame: &[u8],
    object: &mut B,
    now: u32,
    out: &mut [u8],
) -> usize
    requires good { HasGoodSize session.old }
    requires frame { IsFrame frame.now }
    requires size { length frame.now ≤ most_message }
    requires room { most_message ≤ length out.old }
    ensures answered { HasAnswered B.stands session.old session.new object.old object.new frame.now now (take result out.new) }
    ensures size { (7 ≤ result) × (result ≤ limit session.new) }
    ensures good { HasGoodSize session.new }
{
    let tag = tag_at(frame);
    let message = match read_message(frame) {
        Ok(message) => message,
        Err(fault) => return write_error(denial_of(fault), tag, out),
    };
    match action_of(session, &message.body) {
        Action::Say(answer, change) => {
            session.change(&change, &[]);
            write_message(&answer, tag, out)
        }
        Action::Ask(request) => {
            let reply = ask(&request, object, now, out);
            finish(session, &message.body, &reply, tag, out)
        }
    }
}
