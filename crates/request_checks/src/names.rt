ghost use Rattle.std.specs.Prelude.{◌≡◌, IfOk};
ghost use Rattle.tree_model.specs.Names.{clear_name};
ghost use Rattle.tree_model.specs.Step.{raw_name_refusal};
ghost use Rattle.request_checks.specs.Deciding.{has_name, name_or_refusal};

use live_tree::LiveNode;
use nfc_text::nfc;
use std::alloc::{AllocError, Global};
use tree_answers::name_refusal;
use tree_model::Refusal;
use vault_names::{Name, check_form, clear_name};

/// Whether the form NFC of a name is the node's own name.
pub(crate) fn has_name(alloc: Global, node: &LiveNode, name: &str) -> Result<bool, AllocError>
    ensures { IfOk result (λ has. has ≡ has_name node.now name.now) }
{
    let form = nfc(alloc, name)?;
    Ok(form.as_bytes() == node.name().as_bytes())
}

/// What keeps a text from being a name before its form NFC is needed.
pub(crate) fn raw_name_refusal(name: &str) -> Option<Refusal>
    ensures { result ≡ raw_name_refusal name.now }
{
    match check_form(name) {
        Ok(()) => None,
        Err(_) => Some(Refusal::BadName),
    }
}

/// The clear name that a text stands for, or what refuses the text.
pub(crate) fn checked_name(alloc: Global, name: &str) -> Result<Result<Name, Refusal>, AllocError>
    ensures { IfOk result (λ checked. checked ≡ name_or_refusal (clear_name name.now)) }
{
    match clear_name(alloc, name.as_bytes()) {
        Ok(name) => Ok(Ok(name)),
        Err(fault) => match name_refusal(fault) {
            Some(refusal) => Ok(Err(refusal)),
            None => Err(AllocError),
        },
    }
}
