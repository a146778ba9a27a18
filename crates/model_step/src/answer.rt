ghost use Rattle.std.specs.Prelude.{◌≡◌, option_map};
ghost use Rattle.tree_model.specs.Step.{bytes_answer, refuses, says, stepped};
ghost use Rattle.model_step.specs.SeenRows.{reply_seen, rows_seen, stepped_seen};

use crate::rows::Rows;
use std::alloc::Global;
use tree_model::{Qid, Refusal};

/// The reply to a request.
#[derive(Debug, Drop, PartialEq, Eq)]
pub enum Reply {
    /// To `Look`, `OpenNode` and `Create`: the node.
    Qid(Qid),
    /// To `Walk`: the nodes walked to.
    Walked(Vec<Qid>),
    /// To `Read`, `List` and `Write`: how many bytes there are, or were written.
    Count(usize),
    /// To `StatOf`: how many bytes the stat has.
    Stat(usize),
    /// To `Remove`, `Change` and `Sync`.
    Done,
    Refused(Refusal),
}

/// A reply with its bytes.
#[derive(Debug, Drop, PartialEq, Eq)]
pub struct Answer {
    pub reply: Reply,
    pub bytes: Vec<u8>,
}

/// What a request leads to.
#[derive(Debug, Drop, PartialEq, Eq)]
pub struct Stepped {
    pub rows: Rows,
    pub answer: Answer,
}

/// An answer without bytes.
pub(crate) fn says(alloc: Global, rows: Rows, reply: Reply) -> Stepped
    ensures { stepped_seen result ≡ stepped (rows_seen rows) (says (reply_seen reply)) }
{
    Stepped {
        rows,
        answer: Answer {
            reply,
            bytes: Vec::new(alloc),
        },
    }
}

/// A refusal, which leaves the rows.
pub(crate) fn refuses(alloc: Global, rows: Rows, refusal: Refusal) -> Stepped
    ensures { stepped_seen result ≡ stepped (rows_seen rows) (refuses refusal) }
{
    says(alloc, rows, Reply::Refused(refusal))
}

/// Bytes, or that what is needed doesn't open.
pub(crate) fn bytes_answer(alloc: Global, rows: Rows, bytes: Option<Vec<u8>>) -> Stepped
    ensures { stepped_seen result ≡ stepped (rows_seen rows) (bytes_answer (option_map (λ bytes. bytes.items) bytes)) }
{
    match bytes {
        Some(bytes) => Stepped {
            rows,
            answer: Answer {
                reply: Reply::Count(bytes.len()),
                bytes,
            },
        },
        None => refuses(alloc, rows, Refusal::Damaged),
    }
}
