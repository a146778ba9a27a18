//! What follows of scripts.

ghost use Rattle.std.specs.Prelude.{◌≡◌, ℕ, ◌<◌};
ghost use Rattle.demonstration.specs.Script.{attaching, script_of};
ghost use Rattle.demonstration.specs.Small.{AreSmall};

/// A client without requests attaches, and that is all. It does nothing.
pub fn a_client_without_requests_attaches()
    ensures { (seed client : ℕ) → script_of seed client 0 ≡ attaching }
{}

/// Each message of a script has a spelling, and none is longer than any session takes. It does
/// nothing.
pub fn messages_of_scripts_are_small()
    ensures { (seed client requests : ℕ) → client < 64 → AreSmall requests (script_of seed client requests) }
{}
