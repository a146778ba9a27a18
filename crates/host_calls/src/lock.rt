/// Whether a folder's lock is taken alone, or shared with others that share it.
#[derive(Clone, Copy, Debug, PartialEq, Eq)]
pub enum Sharing {
    Alone,
    Shared,
}

/// What came of taking a folder's lock.
#[derive(Drop)]
pub enum Locking<L> {
    /// It is taken until this is dropped.
    Taken(L),
    /// Another has it; or it isn't to be shared, and others do.
    InUse,
    /// The folder can't be opened, or its file system has no locks.
    Unknown,
}
