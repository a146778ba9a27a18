//! What the definition of a session amounts to.

ghost use Rattle.session_core.specs.LookBack.{LooksBack};

/// What each fid is before a message is found by looking back to the last message before it that set or freed the fid, and, of an open
/// directory, to the reads since; and the agreed size by looking back to the last Tversion. It does nothing.
pub fn fids_are_found_by_looking_back()
    ensures { LooksBack }
{}
