ghost use Rattle.std.specs.Prelude.{◌≡◌, ◌%◌, ℕ, List, Option, length, OnOk, OnErr, IsErr};
ghost use Rattle.outside.specs.Calls.{HasCause, Extends};

use crate::stream::Failed;

/// A source of random bytes.
pub trait Entropy {
    /// All bytes that were drawn, in order, if it tells.
    ghost drawn: { Self → Option (List ℕ) };

    /// How often it has failed.
    ghost faults: { Self → ℕ };

    /// Draws as many bytes as `out` has, a multiple of 4. A call that failed drew nothing, and `out` may hold anything.
    fn fill(&mut self, out: &mut [u8]) -> Result<(), Failed>
        requires { length out.old % 4 ≡ 0 }
        ensures drawn { OnOk result (Extends (drawn self.old) (drawn self.new) out.new) }
        ensures failed { OnErr result (drawn self.new ≡ drawn self.old) }
        ensures cause { HasCause (faults self.old) (faults self.new) (IsErr result) };
}
