ghost use Rattle.std.specs.Prelude.{◌≡◌, ◌≤◌, ◌<◌, [], ℕ, List, Option, Ok, length, take, IfOk, OnErr, IsErr};
ghost use Rattle.outside.specs.Calls.{HasCause, Told, Extends, TakesFront, KeepsFrom};

use thiserror::Error;

/// A call of the outside failed; the count of faults of its object rose in that call.
#[derive(Clone, Copy, Debug, PartialEq, Eq, Error)]
#[error("the outside failed")]
pub struct Failed;

/// Bytes to read.
pub trait Source {
    /// The bytes that are left, if it tells.
    ghost left: { Self → Option (List ℕ) };

    /// How often it has failed.
    ghost faults: { Self → ℕ };

    /// Reads some of the bytes that are left, at most `out` has room for, and says how many. 0 for a nonempty `out` is the
    /// end. The rest of `out` is as it was. A call that failed took nothing.
    fn read(&mut self, out: &mut [u8]) -> Result<usize, Failed>
        ensures count { IfOk result (λ n. n ≤ length out.old) }
        ensures rest { IfOk result (λ n. KeepsFrom n out.old out.new) }
        ensures bytes { IfOk result (λ n. TakesFront (left self.old) (left self.new) (take n out.new)) }
        ensures end { result ≡ Ok 0 → 0 < length out.old → Told (left self.old) (λ bytes. bytes ≡ []) }
        ensures failed { OnErr result (left self.new ≡ left self.old) }
        ensures cause { HasCause (faults self.old) (faults self.new) (IsErr result) };
}

/// A place to write bytes to.
pub trait Sink {
    /// The bytes that it has taken, if it tells.
    ghost taken: { Self → Option (List ℕ) };

    /// How often it has failed.
    ghost faults: { Self → ℕ };

    /// Takes some bytes from the front of a piece, at least one unless it is empty, and says how many. A call that failed
    /// took nothing.
    fn write(&mut self, piece: &[u8]) -> Result<usize, Failed>
        ensures count { IfOk result (λ n. n ≤ length piece.now) }
        ensures some { IfOk result (λ n. 0 < length piece.now → 0 < n) }
        ensures bytes { IfOk result (λ n. Extends (taken self.old) (taken self.new) (take n piece.now)) }
        ensures failed { OnErr result (taken self.new ≡ taken self.old) }
        ensures cause { HasCause (faults self.old) (faults self.new) (IsErr result) };
}
