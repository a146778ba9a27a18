ghost use Rattle.std.specs.Prelude.{◌≡◌, ◌++◌, IfOk, OnOk};
ghost use Rattle.deeds.specs.Deeds.{in_order};
ghost use Rattle.deeds.specs.Plain.{plains};

use deeds::{Deed, Phase};
use std::alloc::{AllocError, Global};

// Adds deeds at the end.
fn add_all(to: &mut Vec<Deed>, deeds: Vec<Deed>) -> Result<(), AllocError>
    ensures { OnOk result (to.new.items ≡ to.old.items ++ deeds.items) }
{
    for deed in deeds {
        to.push(deed)?;
    }
    Ok(())
}

/// The deeds of a batch in the order of doing.
pub(crate) fn in_order(alloc: Global, deeds: Vec<Deed>) -> Result<Vec<Deed>, AllocError>
    ensures { IfOk result (λ ordered. plains ordered.items ≡ in_order (plains deeds.items)) }
{
    let mut makes = Vec::new(alloc);
    let mut moves = Vec::new(alloc);
    let mut removes = Vec::new(alloc);
    for deed in deeds {
        if deed.is_of(Phase::Make) {
            makes.push(deed)?;
        } else if deed.is_of(Phase::Move) {
            moves.push(deed)?;
        } else {
            removes.push(deed)?;
        }
    }
    add_all(&mut makes, moves)?;
    add_all(&mut makes, removes)?;
    Ok(makes)
}
