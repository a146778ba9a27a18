ghost use Rattle.std.specs.Prelude.{◌≡◌, ℕ, List, ◌++◌};
ghost use Rattle.tree_model.specs.Wire.{PlainStat, spelled_stat};
ghost use Rattle.ninep_wire.specs.TMessage.{PlainMessage, IsMessage, spelled_t};
ghost use Rattle.ninep_wire.specs.RMessage.{PlainRMessage, IsRMessage, spelled_r};
ghost use Rattle.ninep_wire.specs.Stat.{IsStat};

/// No spelling of a T-message begins another, so what was written is read again as itself, whatever follows it. It does
/// nothing.
pub fn t_spellings_are_apart()
    ensures { (m n : PlainMessage) (x y : List ℕ) → IsMessage m → IsMessage n → spelled_t m ++ x ≡ spelled_t n ++ y → (m ≡ n) × (x ≡ y) }
{}

/// No spelling of an R-message begins another, so its bytes determine its tag and what it says, whatever follows them. It does
/// nothing.
pub fn r_spellings_are_apart()
    ensures { (s t : ℕ) (m n : PlainRMessage) (x y : List ℕ) → IsRMessage s m → IsRMessage t n
        → spelled_r s m ++ x ≡ spelled_r t n ++ y → (s ≡ t) × (m ≡ n) × (x ≡ y) }
{}

/// No spelling of a stat begins another, so the bytes of a directory are those of one list of stats. It does nothing.
pub fn stats_are_apart()
    ensures { (s t : PlainStat) (x y : List ℕ) → IsStat s → IsStat t → spelled_stat s ++ x ≡ spelled_stat t ++ y → (s ≡ t) × (x ≡ y) }
{}
