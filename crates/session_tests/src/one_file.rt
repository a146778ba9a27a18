//! A tree for tests: a root with one file `a`, which holds `hello`.

ghost use Rattle.std.specs.Prelude.{◌≡◌, ◌≤◌, length, take, IfOk, OnErr};
ghost use Rattle.outside.specs.Calls.{KeepsFrom};
ghost use Rattle.tree_model.specs.Asked.{AreStats};

use ninep_wire::write_stat;
use tree_model::{Qid, Refusal, Reply, Request, Stat, TreeObject};

const CONTENTS: &[u8] = b"hello";

pub const ROOT: Qid = Qid {
    kind: Qid::DIRECTORY,
    version: 0,
    path: 0,
};

pub const FILE: Qid = Qid {
    kind: Qid::FILE,
    version: 0,
    path: 1,
};

pub const STAT: Stat<'static> = Stat {
    kind: 0,
    device: 0,
    qid: FILE,
    mode: 420,
    accessed: 100,
    modified: 100,
    length: 5,
    name: "a",
    owner: "vault",
    group: "vault",
    modifier: "vault",
};

// The bytes of the stat.
const STAT_LEN: u32 = 65;

// The stats after a name: the one of `a`, or none.
fn put_stats(after: Option<&str>, count: u32, buffer: &mut [u8]) -> Result<u32, Refusal>
    requires { count ≤ length buffer.old }
    ensures stats { IfOk result (λ n. AreStats count (take n buffer.new) × (length (take n buffer.new) ≡ n)) }
    ensures rest { IfOk result (λ n. KeepsFrom n buffer.old buffer.new) }
    ensures refused { OnErr result (buffer.new ≡ buffer.old) }
{
    if after.is_some() {
        return Ok(0);
    }
    if count < STAT_LEN {
        return Err(Refusal::CountTooSmall);
    }
    Ok(write_stat(&STAT, buffer) as u32)
}

/// The tree, which refuses what would change it. It notes how often it was synced and the count that was last read.
#[derive(Drop)]
pub struct OneFile {
    pub syncs: u32,
    pub count: u32,
}

impl OneFile {
    pub fn new() -> OneFile {
        OneFile { syncs: 0, count: 0 }
    }
}

impl TreeObject for OneFile {
    ghost stands = { λ object origin before. Unit {0} };

    fn ask(&mut self, request: &Request<'_>, _now: u32, buffer: &mut [u8]) -> Reply {
        match request {
            Request::Look { .. } => Reply::Qid(ROOT),
            Request::Walk { names, .. } => {
                if names.count >= 1 && names.bytes.starts_with(b"\x01\0a") {
                    Reply::Walked {
                        count: 1,
                        qids: [FILE; 16],
                    }
                } else {
                    Reply::Refused(Refusal::FileDoesNotExist)
                }
            }
            Request::OpenNode { node, .. } => Reply::Qid(if *node == 0 { ROOT } else { FILE }),
            Request::Read { at, count, .. } => {
                self.count = *count;
                let start = CONTENTS.len().min(*at as usize);
                let bytes = &CONTENTS[start..];
                let size = bytes.len().min(*count as usize);
                buffer[..size].copy_from_slice(&bytes[..size]);
                Reply::Count(size as u32)
            }
            Request::List { after, count, .. } => {
                match put_stats(*after, *count, buffer) {
                    Ok(size) => Reply::Count(size),
                    Err(refusal) => Reply::Refused(refusal),
                }
            }
            Request::Sync { .. } => {
                self.syncs = self.syncs.saturating_add(1);
                Reply::Done
            }
            _ => Reply::Refused(Refusal::NotPermitted),
        }
    }
}

/// A tree that answers its first request by this refusal.
#[derive(Drop)]
pub struct Refusing {
    pub refusal: Option<Refusal>,
}

impl TreeObject for Refusing {
    ghost stands = { λ object origin before. Unit {0} };

    fn ask(&mut self, _request: &Request<'_>, _now: u32, _buffer: &mut [u8]) -> Reply {
        Reply::Refused(self.refusal.take().unwrap_or(Refusal::NotPermitted))
    }
}
