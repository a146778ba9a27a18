//! A tree that counts what it was asked.
ghost use Rattle.std.specs.Prelude.{◌≡◌, ℕ, List, false, length};
ghost use Rattle.tree_model.specs.Asked.{HasCount, IsReplyTo, bytes_put, is_exhausted, plain_reply, plain_request};

use outside::Entropy;
use shared_tree::{SharedTree, Start};
use tree_model::{Qid, Refusal, Reply, Request};

/// How many requests it was asked. Its root is all that it has.
#[derive(Drop)]
pub struct Counting {
    pub asked: u64,
}

/// A history that begins with no faults.
pub struct FromNothing;

impl Start for FromNothing {
    ghost use Rattle.std.specs.Prelude.{◌≡◌, ℕ};

    ghost is = { λ _ origin. (j : ℕ) → origin.entropy_faults j ≡ 0 };
}

fn answer(request: &Request<'_>) -> Reply
    ensures form { (bytes : List ℕ) → IsReplyTo (plain_request request.now) (plain_reply result) bytes }
    ensures bytes { (buffer : List ℕ) → length (bytes_put (plain_request request.now) (plain_reply result) buffer) ≡ 0 }
    ensures enters { is_exhausted (plain_reply result) ≡ false }
    ensures count { HasCount result }
{
    match request {
        Request::Look { node: _ } => Reply::Qid(Qid {
            kind: 0x80,
            version: 0,
            path: 0,
        }),
        _ => Reply::Refused(Refusal::Removed),
    }
}

impl SharedTree for Counting {
    ghost use Rattle.std.specs.Prelude.{◌≡◌, ◌-◌, ◌^◌, length, min};

    ghost stands = { λ tree _ _ entries. tree.asked ≡ min (length entries) (2 ^ 64 - 1) };

    ghost draws = { λ before after _. after ≡ before };

    fn serve<E: Entropy>(
        &mut self,
        request: &Request<'_>,
        now: u32,
        entropy: &mut E,
        buffer: &mut [u8],
    ) -> Reply {
        let _ = now;
        let _ = entropy;
        let _ = buffer;
        self.asked = self.asked.saturating_add(1);
        answer(request)
    }
}
