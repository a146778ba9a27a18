ghost use Rattle.std.specs.Prelude.{[], ◌∷◌, List, length};
ghost use Rattle.tree_model.specs.Asked.{Asked, Extends, KeepsRest, CanAsk, IsReplyTo, HasCount, plain_request, plain_reply, asked_of, bytes_put};

use crate::{Reply, Request};

/// An object that answers requests for a file tree.
pub trait TreeObject {
    /// `stands now start asked`: since it was `start`, the object has answered exactly `asked`, in this order.
    ghost stands: { Self → Self → List Asked → Type 0 };

    /// Answers a request that is made at a second since 1970-01-01. Bytes of the reply are put into `buffer`, from its
    /// front on; the rest of it is as it was.
    ///
    /// A walk has at most 16 names; the count of a read or a list is at most 65,536 and the buffer's length; a write has
    /// at most 65,537 bytes; for a stat the buffer has at least 1,088 bytes.
    fn ask(&mut self, request: &Request<'_>, now: u32, buffer: &mut [u8]) -> Reply
        requires form { CanAsk request.now (length buffer.old) }
        ensures stands { Extends stands self.old self.new
            (asked_of (plain_request request.now) now (plain_reply result) buffer.new ∷ []) }
        ensures form { IsReplyTo (plain_request request.now) (plain_reply result)
            (bytes_put (plain_request request.now) (plain_reply result) buffer.new) }
        ensures count { HasCount result }
        ensures rest { KeepsRest (plain_request request.now) (plain_reply result) buffer.old buffer.new };
}
