//! What the definitions say of every talk.

ghost use Rattle.std.specs.Prelude.{ℕ, List, Option};
ghost use Rattle.outside.specs.Views.{LinkView};
ghost use Rattle.tree_model.specs.Asked.{Asked};
ghost use Rattle.session_server.specs.Served.{TalkedOn};
ghost use Rattle.session_server.specs.Whole.{IsWhole, IsFaultless, IsServedWhole};
ghost use Rattle.session_server.specs.Backward.{TalksLookBack};

use crate::ending::SessionEnd;
use session_core::fids_are_found_by_looking_back;

/// A session of whole messages over a link that never fails is done and answered them all, unless memory runs out, in which case
/// it read nothing. It does nothing.
pub fn a_session_of_whole_messages_is_done()
    ensures { (before after : LinkView) (clock clock' : Option (ℕ → ℕ)) (end : SessionEnd) (asked : List Asked)
        (talked : TalkedOn before after clock clock' end asked) (whole : IsWhole before.left) → IsFaultless before after
        → IsServedWhole whole.messages talked.talk.frames before after end }
{}

/// In each talk, what each fid is before a message is found by looking back over the messages before it and their answers. It
/// does nothing.
pub fn talks_look_back()
    ensures { TalksLookBack }
{
    fids_are_found_by_looking_back();
}
