//! What a value behind a lock stands for, and which entry a turn makes.
ghost use Rattle.std.specs.Prelude.{List, Option};

/// A turn that ended: the number of the seat whose turn it was, and the entry that it made, if any. No value of it is made.
pub struct Ended<E> {
    pub by: u64,
    pub entry: Option<E>,
}

/// A value that stands for a list of turns.
pub trait History {
    ghost use Rattle.turn_lock.specs.declared.history.Ended.{Ended};

    type Entry;

    ghost stands: { Self → List (Ended Self.Entry) → Type 0 };
}

/// Says which entry a turn makes, if any. It is read by contracts alone, and stored nowhere.
pub trait Note<E> {
    ghost tells: { Self → Option E → Type 0 };
}

/// The note of a turn that makes no entry.
#[derive(Drop)]
pub struct NoEntry;

impl<E> Note<E> for NoEntry {
    ghost use Rattle.std.specs.Prelude.{◌≡◌, None};

    ghost tells = { λ _ entry. entry ≡ None };
}
