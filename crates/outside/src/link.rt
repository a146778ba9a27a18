ghost use Rattle.std.specs.Prelude.{◌≡◌, ◌≤◌, ◌<◌, [], ◌∷◌, ℕ, List, Option, Ok, length, take, IfOk, OnErr, IsErr, MatchOption};
ghost use Rattle.outside.specs.Calls.{HasCause, Told, Changes, Extends, TakesFront, KeepsFrom};

use crate::stream::Failed;

/// A connection to a client: bytes to read and a place to write.
pub trait Link {
    /// The bytes that are left to read, if it tells.
    ghost left: { Self → Option (List ℕ) };

    /// The bytes that it has taken, if it tells.
    ghost taken: { Self → Option (List ℕ) };

    /// How many reads have failed.
    ghost read_faults: { Self → ℕ };

    /// How many writes have failed.
    ghost write_faults: { Self → ℕ };

    /// Reads some of the bytes that are left, at most `out` has room for, and says how many. 0 for a nonempty `out` is the
    /// end. The rest of `out` is as it was. A call that failed took nothing.
    fn read(&mut self, out: &mut [u8]) -> Result<usize, Failed>
        ensures count { IfOk result (λ n. n ≤ length out.old) }
        ensures rest { IfOk result (λ n. KeepsFrom n out.old out.new) }
        ensures bytes { IfOk result (λ n. TakesFront (left self.old) (left self.new) (take n out.new)) }
        ensures end { result ≡ Ok 0 → 0 < length out.old → Told (left self.old) (λ bytes. bytes ≡ []) }
        ensures failed { OnErr result (left self.new ≡ left self.old) }
        ensures cause { HasCause (read_faults self.old) (read_faults self.new) (IsErr result) }
        ensures taken { taken self.new ≡ taken self.old }
        ensures writes { write_faults self.new ≡ write_faults self.old };

    /// Takes some bytes from the front of a piece, at least one unless it is empty, and says how many. A call that failed
    /// took nothing.
    fn write(&mut self, piece: &[u8]) -> Result<usize, Failed>
        ensures count { IfOk result (λ n. n ≤ length piece.now) }
        ensures some { IfOk result (λ n. 0 < length piece.now → 0 < n) }
        ensures bytes { IfOk result (λ n. Extends (taken self.old) (taken self.new) (take n piece.now)) }
        ensures failed { OnErr result (taken self.new ≡ taken self.old) }
        ensures cause { HasCause (write_faults self.old) (write_faults self.new) (IsErr result) }
        ensures left { left self.new ≡ left self.old }
        ensures reads { read_faults self.new ≡ read_faults self.old };
}

/// Incoming connections, which are given back once they have been served.
pub trait Listener {
    type Conn: Link;

    /// The links that are to come, in order, if it tells.
    ghost to_come: { Self → Option (List Self.Conn) };

    /// The links that were given back, in order, if it tells.
    ghost given_back: { Self → Option (List Self.Conn) };

    /// How often it has failed.
    ghost faults: { Self → ℕ };

    /// The next link, or None if no more come. A call that failed took none.
    fn next(&mut self) -> Result<Option<Self::Conn>, Failed>
        ensures link { IfOk result (λ link. Changes (to_come self.old) (to_come self.new)
            (λ old new. MatchOption link ((old ≡ []) × (new ≡ [])) (λ conn. old ≡ conn ∷ new))) }
        ensures failed { OnErr result (to_come self.new ≡ to_come self.old) }
        ensures given { given_back self.new ≡ given_back self.old }
        ensures cause { HasCause (faults self.old) (faults self.new) (IsErr result) };

    /// Gives back a link that `next` gave.
    fn back(&mut self, link: Self::Conn)
        ensures given { Extends (given_back self.old) (given_back self.new) (link ∷ []) }
        ensures to_come { to_come self.new ≡ to_come self.old }
        ensures faults { faults self.new ≡ faults self.old };
}
