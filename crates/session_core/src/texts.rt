//! The texts of Rerror messages.

ghost use Rattle.std.specs.Prelude.{◌≡◌, ◌<◌, length};
ghost use Rattle.session_core.specs.Texts.{refusal_text};
ghost use Rattle.session_core.specs.Denial.{denial_text};

use tree_model::Refusal;

/// What a session itself refuses.
#[derive(Clone, Copy)]
pub(crate) enum Denial {
    /// The frame's type is no client's.
    UnknownMessage,
    /// The frame is no message.
    BadMessage,
    NoVersion,
    MessageSizeTooSmall,
    AuthenticationNotRequired,
    UnknownFid,
    FidInUse,
    TooManyFids,
    FidIsOpen,
    FidIsNotOpen,
    BadOffset,
    NotPermitted,
    IsADirectory,
}

/// The text of a session's refusal.
pub(crate) fn denial_text(denial: Denial) -> &'static str
    ensures text { result.now ≡ denial_text denial }
    ensures short { length result.now < 32 }
{
    match denial {
        Denial::UnknownMessage => "unknown message",
        Denial::BadMessage => "bad message",
        Denial::NoVersion => "no version",
        Denial::MessageSizeTooSmall => "message size too small",
        Denial::AuthenticationNotRequired => "authentication not required",
        Denial::UnknownFid => "unknown fid",
        Denial::FidInUse => "fid in use",
        Denial::TooManyFids => "too many fids",
        Denial::FidIsOpen => "fid is open",
        Denial::FidIsNotOpen => "fid is not open",
        Denial::BadOffset => "bad offset",
        Denial::NotPermitted => "not permitted",
        Denial::IsADirectory => "is a directory",
    }
}

/// The text of the tree's refusal.
pub(crate) fn refusal_text(refusal: &Refusal) -> &'static str
    ensures text { result.now ≡ refusal_text refusal.now }
    ensures short { length result.now < 32 }
{
    match refusal {
        Refusal::Removed => "removed",
        Refusal::NotADirectory => "not a directory",
        Refusal::IsADirectory => "is a directory",
        Refusal::BadName => "bad name",
        Refusal::NameTooLong => "name too long",
        Refusal::FileDoesNotExist => "file does not exist",
        Refusal::FileExists => "file exists",
        Refusal::NotPermitted => "not permitted",
        Refusal::DirectoryNotEmpty => "directory not empty",
        Refusal::CountTooSmall => "count too small",
        Refusal::FileTooLarge => "file too large",
        Refusal::GapTooLarge => "gap too large",
        Refusal::OneChangeAtATime => "one change at a time",
        Refusal::VaultFull => "vault full",
        Refusal::Damaged => "damaged",
        Refusal::Foreign => "foreign",
        Refusal::PlaceTaken(_) => "place taken",
        Refusal::Stopped(_) => "stopped",
        Refusal::Exhausted(_) => "exhausted",
        Refusal::DeviceFault => "device fault",
        Refusal::RandomFault => "random fault",
        Refusal::OutOfMemory => "out of memory",
    }
}
