//! Asking for one sync.

ghost use Rattle.std.specs.Prelude.{◌≤◌, length};
ghost use Rattle.outside.specs.Views.{link_in};
ghost use Rattle.sync_client.specs.Messages.{sync_messages, most_message};
ghost use Rattle.sync_client.specs.Talk.{HasTalked};
ghost use Rattle.sync_client.specs.Steps.{message_of, HasAsked};

use crate::full::write_full;
use crate::question::Question;
use crate::reply::{MOST_MESSAGE, read_reply};
use crate::sync_err::SyncErr;
use outside::{Failed, Link};

// Sends a message and reads its reply.
fn ask<L: Link>(link: &mut L, question: Question, frame: &mut [u8]) -> Result<(), SyncErr>
    requires { most_message ≤ length frame.old }
    ensures { HasAsked (message_of question) (link_in L.Link link.old) (link_in L.Link link.new) result }
{
    if let Err(Failed) = write_full(link, question.message()) {
        return Err(SyncErr::Fault);
    }
    let size = read_reply(link, frame)?;
    let reply = &frame[..size];
    if question.is_answered_by(reply) {
        Ok(())
    } else if question.is_refused_by(reply) {
        Err(SyncErr::Refused)
    } else {
        Err(SyncErr::NotNinep)
    }
}

/// Begins a session, attaches the root and asks that all that was written be on stable storage, by a wstat that touches nothing
/// (stat(5)). Each message is sent whole once the one before it is answered. `Ok` is returned once the last is answered; what comes after
/// that is not read.
pub fn sync_root<L: Link>(link: &mut L) -> Result<(), SyncErr>
    ensures { HasTalked sync_messages (link_in L.Link link.old) (link_in L.Link link.new) result }
{
    let mut frame = [0; MOST_MESSAGE];
    ask(link, Question::Version, &mut frame)?;
    ask(link, Question::Attach, &mut frame)?;
    ask(link, Question::Sync, &mut frame)
}
