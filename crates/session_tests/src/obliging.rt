//! A tree for tests that does whatever it is asked.

ghost use Rattle.std.specs.Prelude.{◌≡◌, ◌≤◌, length, take};
ghost use Rattle.outside.specs.Calls.{KeepsFrom};
ghost use Rattle.tree_model.specs.Wire.{stat_limit};
ghost use Rattle.tree_model.specs.Asked.{IsOneStat};

use crate::one_file::{FILE, ROOT, STAT};
use ninep_wire::write_stat;
use tree_model::{Qid, Reply, Request, TreeObject};

const MADE_FILE: Qid = Qid {
    kind: Qid::FILE,
    version: 1,
    path: 2,
};

const MADE_DIRECTORY: Qid = Qid {
    kind: Qid::DIRECTORY,
    version: 1,
    path: 2,
};

// The stat of `a`, at the front of a buffer.
fn put_stat(buffer: &mut [u8]) -> u32
    requires { stat_limit ≤ length buffer.old }
    ensures stat { IsOneStat (take result buffer.new) × (length (take result buffer.new) ≡ result) }
    ensures rest { KeepsFrom result buffer.old buffer.new }
{
    write_stat(&STAT, buffer) as u32
}

/// A tree in which each name is a file that holds as many `x` as are read, and each change is done. Its directories list nothing.
/// It notes where it was last read.
#[derive(Drop)]
pub struct Obliging {
    pub at: u64,
}

impl Obliging {
    pub fn new() -> Obliging {
        Obliging { at: 0 }
    }
}

impl TreeObject for Obliging {
    ghost stands = { λ object origin before. Unit {0} };

    fn ask(&mut self, request: &Request<'_>, _now: u32, buffer: &mut [u8]) -> Reply {
        match request {
            Request::Look { .. } => Reply::Qid(ROOT),
            Request::Walk { names, .. } => Reply::Walked {
                count: usize::from(names.count),
                qids: [FILE; 16],
            },
            Request::OpenNode { node, .. } => Reply::Qid(if *node == 0 { ROOT } else { FILE }),
            Request::Create { is_dir, .. } => {
                Reply::Qid(if *is_dir { MADE_DIRECTORY } else { MADE_FILE })
            }
            Request::Read { at, count, .. } => {
                self.at = *at;
                buffer[..*count as usize].fill(b'x');
                Reply::Count(*count)
            }
            Request::List { .. } => Reply::Count(0),
            Request::Write { bytes, .. } => Reply::Count(bytes.len() as u32),
            Request::StatOf { .. } => Reply::Stat(put_stat(buffer)),
            Request::Remove { .. } | Request::Change { .. } | Request::Sync { .. } => Reply::Done,
        }
    }
}
