//! What the definitions say of every history.

ghost use Rattle.std.specs.Prelude.{List};
ghost use Rattle.tree_model.specs.Rows.{Rows};
ghost use Rattle.tree_model.specs.History.{Entry, Origin, IsLegal};
ghost use Rattle.tree_model.specs.Laws.{AreFaultless, AreStepped};

/// In a legal history in which no count of faults rose, every request is answered as the step says, unless a place is
/// taken or memory runs out where it may; no commit failed, and the store never stops. It does nothing.
pub fn a_faultless_history_is_the_steps()
    ensures { (rows : Rows) (origin : Origin) (entries : List Entry) → IsLegal rows origin entries → AreFaultless entries
        → AreStepped rows origin entries }
{}
