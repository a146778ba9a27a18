use thiserror::Error;

/// Why a frame is no message: the first fault from left to right.
#[derive(Clone, Copy, Debug, PartialEq, Eq, Error)]
pub enum WireErr {
    /// A field goes past the end of the frame, or of the stat that it is in.
    #[error("a field goes past the end")]
    Short,
    /// Bytes are left after the last field, or after the last field of a stat.
    #[error("bytes are left after the last field")]
    Long,
    /// No T message has this type.
    #[error("no client's message has the type {0}")]
    Kind(u8),
    /// A string isn't UTF-8.
    #[error("a string is not UTF-8")]
    Text,
    /// A walk has this many names, more than 16.
    #[error("a walk has {0} names, more than 16")]
    Names(u16),
}
