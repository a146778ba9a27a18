use thiserror::Error;

/// The phases of a batch, in the order of doing; a sync ends each.
#[derive(Clone, Copy, Debug, PartialEq, Eq)]
pub enum Phase {
    /// Folders and files are made, and files reshaped.
    Make,
    /// Files are moved.
    Move,
    /// Files and folders are removed.
    Remove,
}

/// Why deeds weren't done to their end.
#[derive(Clone, Copy, Debug, PartialEq, Eq, Error)]
pub enum DeedErr {
    /// The folder failed: its count of faults rose in this call.
    #[error("the folder failed")]
    Failed,
    /// The folder doesn't fit the deed at this index. Those that come before it in the order of doing are done, and of a
    /// `Reshape` the writes before the refused call. A file longer than a `Put`'s bytes at its place is such a misfit, and so is
    /// another file at the name that a `Rename` goes to.
    #[error("deed {0} does not fit the folder")]
    Unfit(usize),
}
