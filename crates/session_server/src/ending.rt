/// How a session ended.
#[derive(Clone, Copy, Debug, PartialEq, Eq)]
pub enum SessionEnd {
    /// The input ended between messages.
    Done,
    /// The input ended within a message: how many of its bytes had come, and how many were wanted (4 before the size is whole).
    Cut { had: u32, wanted: u32 },
    /// A message's size is below 7 or above what was agreed (65,560 before that).
    BadFrame(u32),
    /// The link failed to read; its count of failed reads rose.
    ReadFault,
    /// The link failed to write; its count of failed writes rose.
    WriteFault,
    /// 2^32 messages were answered.
    Limit,
    /// Memory ran out before the first byte was read.
    Memory,
}
