//! How many sessions ended in which way.
use crate::ending::SessionEnd;

/// How many sessions there were, and how many of them ended in each way.
#[derive(Clone, Copy, Debug, Default, PartialEq, Eq)]
pub struct SessionCounts {
    pub sessions: u32,
    pub done: u32,
    pub cut: u32,
    pub bad: u32,
    pub read: u32,
    pub write: u32,
    pub memory: u32,
    pub limit: u32,
}

impl SessionCounts {
    ghost use Rattle.std.specs.Prelude.{◌<◌, ◌+◌, ◌^◌, ◌∷◌, ◌++◌, [], List, length};
    ghost use Rattle.session_server.specs.declared.ending.SessionEnd as ends;
    ghost use Rattle.session_server.specs.Ends.{AreCounts, CanAdd};

    /// Counts one session more. There are fewer than 2^32 of them.
    pub fn add(&mut self, end: SessionEnd)
        requires { (before : List ends.SessionEnd) × AreCounts self.old before × (length before + 1 < 2 ^ 32) }
        ensures { (before : List ends.SessionEnd) → AreCounts self.old before → AreCounts self.new (before ++ end ∷ []) }
    {
        self.sessions += 1;
        match end {
            SessionEnd::Done => self.done += 1,
            SessionEnd::Cut { .. } => self.cut += 1,
            SessionEnd::BadFrame(_) => self.bad += 1,
            SessionEnd::ReadFault => self.read += 1,
            SessionEnd::WriteFault => self.write += 1,
            SessionEnd::Memory => self.memory += 1,
            SessionEnd::Limit => self.limit += 1,
        }
    }

    /// Counts those that others counted. Together there are fewer than 2^32 of them.
    pub fn add_all(&mut self, others: &SessionCounts)
        requires { CanAdd self.old others.now }
        ensures { (before : List ends.SessionEnd) (more : List ends.SessionEnd) → AreCounts self.old before → AreCounts others.now more
            → AreCounts self.new (before ++ more) }
    {
        self.sessions += others.sessions;
        self.done += others.done;
        self.cut += others.cut;
        self.bad += others.bad;
        self.read += others.read;
        self.write += others.write;
        self.memory += others.memory;
        self.limit += others.limit;
    }
}
