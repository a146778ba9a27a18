ghost use Rattle.std.specs.Prelude.{◌∷◌, [], ℕ, Option};
ghost use Rattle.outside.specs.Calls.{TakesNext};

/// A clock; a real one reveals nothing to proofs.
pub trait Clock {
    /// The seconds that it is still to give, call by call, if it tells. They have no end.
    ghost to_give: { Self → Option (ℕ → ℕ) };

    /// The seconds since 1970-01-01: the next that it gives.
    fn now(&mut self) -> u32
        ensures { TakesNext (to_give self.old) (to_give self.new) (result ∷ []) };
}

/// What a session has done between two turns.
#[derive(Clone, Copy, Debug, PartialEq, Eq)]
pub enum Stage {
    /// Sealed chunks were fetched and aren't opened yet.
    Fetched,
    /// New chunks are sealed and aren't installed yet.
    Sealed,
}

/// A gate that a session passes between its turns; tests hold a session there.
pub trait Gate {
    /// Passes the gate at a stage.
    fn pass(&self, stage: Stage);
}
