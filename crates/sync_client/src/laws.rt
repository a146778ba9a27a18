//! What holds of the client's messages and of its talks.

ghost use Rattle.std.specs.List.{AllByRecursion};
ghost use Rattle.ninep_wire.specs.TMessage.{IsMessage};
ghost use Rattle.sync_client.specs.Messages.{sync_messages};
ghost use Rattle.sync_client.specs.Talk.{DoneIsAnswered};

/// Each message has a spelling, so a server reads it as itself. It does nothing.
pub fn sync_messages_are_formed()
    ensures { AllByRecursion IsMessage sync_messages }
{}

/// In a talk that is done all messages were sent and each was answered. It does nothing.
pub fn a_talk_that_is_done_is_answered()
    ensures { DoneIsAnswered }
{}
