ghost use Rattle.std.specs.Prelude.{◌≡◌};
ghost use Rattle.node_changes.specs.Causes.{misfit_refusal};

use batch_looks::Misfit;
use tree_model::Refusal;

/// What refuses deeds that the folder doesn't fit.
pub(crate) fn refusal_of(misfit: Misfit) -> Refusal
    ensures { result ≡ misfit_refusal misfit }
{
    match misfit {
        Misfit::Device => Refusal::DeviceFault,
        Misfit::Foreign => Refusal::Foreign,
        Misfit::Memory => Refusal::OutOfMemory,
    }
}
