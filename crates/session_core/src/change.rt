use crate::slot::Place;

/// What a message changes in a session.
#[derive(Clone, Copy)]
pub(crate) enum Change {
    Nothing,
    /// All fids are freed, and this size of messages is agreed, or none.
    Version(Option<u32>),
    /// A fid, which is in use or is one more, is put somewhere.
    Set(u32, Place),
    Free(u32),
    /// A fid has read so many bytes from an offset on.
    ReadOn { fid: u32, offset: u64, count: u32 },
}
