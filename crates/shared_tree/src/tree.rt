//! A tree that keeps a history, whoever asks.
ghost use Rattle.std.specs.Prelude.{◌≡◌, ◌≤◌, ℕ, List, Option, false, length};
ghost use Rattle.outside.specs.Views.{entropy_in};
ghost use Rattle.tree_model.specs.Asked.{CanAsk, HasCount, IsReplyTo, KeepsRest, asked_of, bytes_put, is_exhausted, plain_reply, plain_request};
ghost use Rattle.tree_model.specs.Rows.{Rows};
ghost use Rattle.tree_model.specs.History.{Entry, Made, Origin};
ghost use Rattle.shared_tree.specs.Trees.{AddsEntry};

use outside::Entropy;
use tree_model::{Reply, Request};

/// A tree that stands for a history of what callers asked.
pub trait SharedTree {
    /// The history for which it stands: the rows and the counts from which it begins, and its entries.
    ghost stands: { Self → Rows → Origin → List Entry → Type 0 };

    /// What a random source has given before and after an entry was made, if it tells.
    ghost draws: { Option (List ℕ) → Option (List ℕ) → Made → Type 0 };

    /// Answers a caller's request, which is made at a second since 1970-01-01: one entry of the history. `entropy` is the caller's. Bytes of
    /// the reply are put into `buffer`, from its front on; the rest of it is as it was.
    ///
    /// A walk has at most 16 names; the count of a read or a list is at most 65,536 and the buffer's length; a write has at most 65,537 bytes;
    /// for a stat the buffer has at least 1,088 bytes.
    fn serve<E: Entropy>(
        &mut self,
        request: &Request<'_>,
        now: u32,
        entropy: &mut E,
        buffer: &mut [u8],
    ) -> Reply
        requires form { CanAsk request.now (length buffer.old) }
        ensures entry { AddsEntry stands draws self.old self.new (asked_of (plain_request request.now) now (plain_reply result) buffer.new)
            (entropy_in E.Entropy entropy.old) (entropy_in E.Entropy entropy.new) }
        ensures enters { is_exhausted (plain_reply result) ≡ false }
        ensures form { IsReplyTo (plain_request request.now) (plain_reply result)
            (bytes_put (plain_request request.now) (plain_reply result) buffer.new) }
        ensures count { HasCount result }
        ensures rest { KeepsRest (plain_request request.now) (plain_reply result) buffer.old buffer.new }
        ensures faults { E.faults entropy.old ≤ E.faults entropy.new };
}
