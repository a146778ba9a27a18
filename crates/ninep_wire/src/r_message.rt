use tree_model::Qid;

/// What a server answers (section 5 of the Plan 9 manual). The bytes of `Read` and `Stat` are already in the buffer that the
/// message is written into, at their place in it.
#[derive(Clone, Copy)]
pub enum RMessage<'a> {
    Version { msize: u32, version: &'a str },
    Attach { qid: Qid },
    Error { ename: &'a str },
    Flush,
    /// The first `count` of the qids.
    Walk { count: usize, qids: &'a [Qid] },
    Open { qid: Qid, iounit: u32 },
    Create { qid: Qid, iounit: u32 },
    /// `count` bytes from offset 11 of the buffer on.
    Read { count: u32 },
    Write { count: u32 },
    Clunk,
    Remove,
    /// A stat of `count` bytes from offset 9 of the buffer on.
    Stat { count: u16 },
    Wstat,
}
