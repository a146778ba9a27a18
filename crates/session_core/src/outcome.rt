//! What a reply of the tree leads to.

ghost use Rattle.std.specs.Prelude.{◌≡◌, ◌≤◌, take};
ghost use Rattle.tree_model.specs.Asked as asked;
ghost use Rattle.tree_model.specs.Asked.{plain_reply, HasCount};
ghost use Rattle.tree_model.specs.Names.{walk_limit};
ghost use Rattle.ninep_wire.specs.Plain.{plain_t, HasNames};
ghost use Rattle.session_core.specs.State.{closed, open_with, HasGoodSize};
ghost use Rattle.session_core.specs.Slot.{placed};
ghost use Rattle.session_core.specs.Forms.{IsWalkChange, AnswersTo, HasSuited};

use crate::action::HEADER_ROOM;
use crate::change::Change;
use crate::session::Session;
use crate::slot::Place;
use crate::texts::refusal_text;
use ninep_wire::{RMessage, TMessage};
use tree_model::{Qid, Refusal, Reply};

// At the node that a qid names, not open.
fn closed_at(qid: &Qid) -> Place
    ensures { placed result ≡ closed qid.now }
{
    Place {
        node: qid.path,
        is_dir: qid.kind == Qid::DIRECTORY,
        mode: None,
    }
}

// At the node that a qid names, open with a mode.
fn open_at(qid: &Qid, mode: u8) -> Place
    ensures { placed result ≡ open_with mode qid.now }
{
    Place {
        node: qid.path,
        is_dir: qid.kind == Qid::DIRECTORY,
        mode: Some(mode),
    }
}

// After a refusal the session is as it was, but that a remove has freed its fid.
fn refused_outcome<'a>(
    session: &Session,
    message: &TMessage<'_>,
    refusal: &Refusal,
) -> (RMessage<'a>, Change)
    requires good { HasGoodSize session.now }
    ensures { AnswersTo session.now (plain_t message.now) (asked.refused refusal.now) result.0 result.1 }
{
    let answer = RMessage::Error {
        ename: refusal_text(refusal),
    };
    match *message {
        TMessage::Remove { fid } => (answer, Change::Free(fid)),
        _ => (answer, Change::Nothing),
    }
}

// The root is attached, or a node is open.
fn qid_outcome<'a>(session: &Session, message: &TMessage<'_>, qid: Qid) -> (RMessage<'a>, Change)
    requires good { HasGoodSize session.now }
    requires suited { HasSuited session.now (plain_t message.now) (asked.qid qid) }
    ensures { AnswersTo session.now (plain_t message.now) (asked.qid qid) result.0 result.1 }
{
    let iounit = session.limit() - HEADER_ROOM;
    match *message {
        TMessage::Attach { fid, .. } => {
            (RMessage::Attach { qid }, Change::Set(fid, closed_at(&qid)))
        }
        TMessage::Open { fid, mode } => {
            (
                RMessage::Open { qid, iounit },
                Change::Set(fid, open_at(&qid, mode)),
            )
        }
        TMessage::Create { fid, mode, .. } => {
            (
                RMessage::Create { qid, iounit },
                Change::Set(fid, open_at(&qid, mode)),
            )
        }
        _ => unreachable!(),
    }
}

// newfid is put at the last node, if all names were walked.
fn walk_change(newfid: u32, names: u16, count: usize, qids: &[Qid; 16]) -> Change
    requires count { count ≤ walk_limit }
    ensures { IsWalkChange newfid names (take count qids.now) result }
{
    if count == 0 || count != usize::from(names) {
        return Change::Nothing;
    }
    Change::Set(newfid, closed_at(&qids[count - 1]))
}

fn walked_outcome<'a>(
    session: &Session,
    message: &TMessage<'_>,
    count: usize,
    qids: &'a [Qid; 16],
) -> (RMessage<'a>, Change)
    requires good { HasGoodSize session.now }
    requires count { count ≤ walk_limit }
    requires names { HasNames message.now }
    requires suited { HasSuited session.now (plain_t message.now) (asked.walked (take count qids.now)) }
    ensures { AnswersTo session.now (plain_t message.now) (asked.walked (take count qids.entry.now)) result.0 result.1 }
{
    match *message {
        TMessage::Walk { newfid, names, .. } => {
            let change = walk_change(newfid, names.count, count, qids);
            (RMessage::Walk { count, qids }, change)
        }
        _ => unreachable!(),
    }
}

fn count_outcome<'a>(
    session: &Session,
    message: &TMessage<'_>,
    count: u32,
) -> (RMessage<'a>, Change)
    requires good { HasGoodSize session.now }
    requires suited { HasSuited session.now (plain_t message.now) (asked.count count) }
    ensures { AnswersTo session.now (plain_t message.now) (asked.count count) result.0 result.1 }
{
    match *message {
        TMessage::Read { fid, offset, .. } => {
            (
                RMessage::Read { count },
                Change::ReadOn { fid, offset, count },
            )
        }
        TMessage::Write { .. } => (RMessage::Write { count }, Change::Nothing),
        _ => unreachable!(),
    }
}

fn stat_outcome<'a>(session: &Session, message: &TMessage<'_>, count: u32) -> (RMessage<'a>, Change)
    requires good { HasGoodSize session.now }
    requires suited { HasSuited session.now (plain_t message.now) (asked.stat count) }
    ensures { AnswersTo session.now (plain_t message.now) (asked.stat count) result.0 result.1 }
{
    match *message {
        TMessage::Stat { .. } => {
            (
                RMessage::Stat {
                    count: count as u16,
                },
                Change::Nothing,
            )
        }
        _ => unreachable!(),
    }
}

fn done_outcome<'a>(session: &Session, message: &TMessage<'_>) -> (RMessage<'a>, Change)
    requires good { HasGoodSize session.now }
    requires suited { HasSuited session.now (plain_t message.now) asked.done }
    ensures { AnswersTo session.now (plain_t message.now) asked.done result.0 result.1 }
{
    match *message {
        TMessage::Remove { fid } => (RMessage::Remove, Change::Free(fid)),
        TMessage::Wstat { .. } => (RMessage::Wstat, Change::Nothing),
        _ => unreachable!(),
    }
}

/// The answer to a message whose request was answered, and what changes.
pub(crate) fn outcome_of<'a>(
    session: &Session,
    message: &TMessage<'_>,
    reply: &'a Reply,
) -> (RMessage<'a>, Change)
    requires good { HasGoodSize session.now }
    requires count { HasCount reply.now }
    requires names { HasNames message.now }
    requires suited { HasSuited session.now (plain_t message.now) (plain_reply reply.now) }
    ensures { AnswersTo session.now (plain_t message.now) (plain_reply reply.now) result.0 result.1 }
{
    match reply {
        Reply::Refused(refusal) => refused_outcome(session, message, refusal),
        Reply::Qid(qid) => qid_outcome(session, message, *qid),
        Reply::Walked { count, qids } => walked_outcome(session, message, *count, qids),
        Reply::Count(count) => count_outcome(session, message, *count),
        Reply::Stat(count) => stat_outcome(session, message, *count),
        Reply::Done => done_outcome(session, message),
    }
}
