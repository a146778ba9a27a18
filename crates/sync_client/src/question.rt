//! What the client asks.

ghost use Rattle.std.specs.Prelude.{◌≡◌, ◌↔◌, IsTrue};
ghost use Rattle.ninep_wire.specs.TMessage.{spelled_t, IsMessage};
ghost use Rattle.ninep_wire.specs.Reading.{IsFrame};
ghost use Rattle.sync_client.specs.Replies.{IsAnswer, IsRefusal};
ghost use Rattle.sync_client.specs.Steps.{message_of};

use crate::reply::{fields_of, is_agreement, is_nothing, is_qid, is_text};
use ninep_wire::kinds;

// size[4] Tversion tag[2] msize[4] version s (version(5)).
const VERSION: &[u8] = b"\x13\0\0\0\x64\xff\xff\0\x20\0\0\x06\09P2000";

// size[4] Tattach tag[2] fid[4] afid[4] uname s, aname s (attach(5)).
const ATTACH: &[u8] = b"\x18\0\0\0\x68\x01\0\0\0\0\0\xff\xff\xff\xff\x05\0vault\0\0";

// size[4] Twstat tag[2] fid[4] n[2] stat: all ones, and empty strings (stat(5)).
const SYNC: &[u8] =
    b"\x3e\0\0\0\x7e\x01\0\0\0\0\0\x31\0\x2f\0\xff\xff\xff\xff\xff\xff\xff\xff\xff\xff\xff\xff\xff\xff\xff\xff\xff\xff\xff\xff\xff\xff\xff\xff\xff\xff\xff\xff\xff\xff\xff\xff\xff\xff\xff\xff\xff\xff\xff\0\0\0\0\0\0\0\0";

const NO_TAG: u16 = 0xffff;

const ONE_TAG: u16 = 1;

/// A message of the client's, which waits for its reply.
#[derive(Clone, Copy)]
pub(crate) enum Question {
    /// A session begins.
    Version,
    /// The root is attached to a fid.
    Attach,
    /// The root's stat is written, and touches nothing.
    Sync,
}

impl Question {
    /// The message's bytes.
    pub(crate) fn message(self) -> &'static [u8]
        ensures spelled { result.now ≡ spelled_t (message_of self) }
        ensures formed { IsMessage (message_of self) }
    {
        match self {
            Question::Version => VERSION,
            Question::Attach => ATTACH,
            Question::Sync => SYNC,
        }
    }

    fn tag(self) -> u16
        ensures { result ≡ (message_of self).tag }
    {
        match self {
            Question::Version => NO_TAG,
            Question::Attach | Question::Sync => ONE_TAG,
        }
    }

    /// Whether a frame is the reply that the message asks for.
    pub(crate) fn is_answered_by(self, frame: &[u8]) -> bool
        requires { IsFrame frame.now }
        ensures { IsTrue result ↔ IsAnswer (message_of self) frame.now }
    {
        match self {
            Question::Version => {
                fields_of(frame, kinds::R_VERSION, NO_TAG).is_some_and(is_agreement)
            }
            Question::Attach => fields_of(frame, kinds::R_ATTACH, ONE_TAG).is_some_and(is_qid),
            Question::Sync => fields_of(frame, kinds::R_WSTAT, ONE_TAG).is_some_and(is_nothing),
        }
    }

    /// Whether a frame is an Rerror for the message.
    pub(crate) fn is_refused_by(self, frame: &[u8]) -> bool
        requires { IsFrame frame.now }
        ensures { IsTrue result ↔ IsRefusal (message_of self) frame.now }
    {
        fields_of(frame, kinds::R_ERROR, self.tag()).is_some_and(is_text)
    }
}
