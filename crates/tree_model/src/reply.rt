use crate::{Qid, Refusal};

/// The answer to a request. Bytes that belong to it are in the caller's buffer.
#[derive(Debug, PartialEq, Eq, Drop)]
pub enum Reply {
    /// To `Look`, `OpenNode` and `Create`: the node.
    Qid(Qid),
    /// To `Walk`: the nodes walked to, `count` of them from the front.
    Walked { count: usize, qids: [Qid; 16] },
    /// To `Read`, `List` and `Write`: how many bytes were put into the buffer or written.
    Count(u32),
    /// To `StatOf`: how many bytes the stat has in the buffer.
    Stat(u32),
    /// To `Remove`, `Change` and `Sync`.
    Done,
    Refused(Refusal),
}
