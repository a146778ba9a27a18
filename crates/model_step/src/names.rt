ghost use Rattle.std.specs.Prelude.{◌≡◌, ◌==◌, ◌||◌, IfOk, option_map};
ghost use Rattle.std.specs.List.{list_any};
ghost use Rattle.std.specs.Option.{option_map_or};
ghost use Rattle.tree_model.specs.Names.{checked_name, clear_name, form_fault};
ghost use Rattle.tree_model.specs.Step.{name_refusal, raw_name_refusal};
ghost use Rattle.model_step.specs.SeenRows.{fault_seen, name_seen};

use nfc_text::nfc;
use std::alloc::{AllocError, Global};
use tree_model::Refusal;

// The longest name in bytes.
const NAME_LIMIT: usize = 1024;

/// What keeps bytes from being a clear name.
#[derive(Clone, Copy, Debug, PartialEq, Eq)]
pub(crate) enum NameFault {
    NotUtf8,
    Empty,
    Dots,
    Forbidden,
    /// The length of the name's form NFC.
    TooLong(usize),
}

// Whether a name holds `/` or NUL.
fn holds_forbidden(name: &str) -> bool
    ensures { result ≡ list_any (λ b. (b == 47) || (b == 0)) name.now }
{
    name.bytes().any(|byte| byte == b'/' || byte == 0)
}

// What keeps a text from being a name whatever its length is.
fn form_fault(name: &str) -> Option<NameFault>
    ensures { option_map fault_seen result ≡ form_fault name.now }
{
    if name.is_empty() {
        Some(NameFault::Empty)
    } else if name == "." || name == ".." {
        Some(NameFault::Dots)
    } else if holds_forbidden(name) {
        Some(NameFault::Forbidden)
    } else {
        None
    }
}

// What keeps a text in NFC from being a name.
fn checked_fault(name: &str) -> Option<NameFault>
    ensures { option_map_or (λ fault. Err (fault_seen fault)) result (Ok name.now) ≡ checked_name name.now }
{
    match form_fault(name) {
        Some(fault) => Some(fault),
        None if name.len() > NAME_LIMIT => Some(NameFault::TooLong(name.len())),
        None => None,
    }
}

/// The clear name that bytes stand for.
pub(crate) fn clear_name(
    alloc: Global,
    bytes: &[u8],
) -> Result<Result<Vec<u8>, NameFault>, AllocError>
    ensures { IfOk result (λ name. name_seen name ≡ clear_name bytes.now) }
{
    let Ok(text) = str::from_utf8(bytes) else {
        return Ok(Err(NameFault::NotUtf8));
    };
    if let Some(fault) = form_fault(text) {
        return Ok(Err(fault));
    }
    let name = nfc(alloc, text)?;
    match checked_fault(name.as_str()) {
        Some(fault) => Ok(Err(fault)),
        None => Ok(Ok(Vec::from_slice(alloc, name.as_bytes())?)),
    }
}

/// The refusal of a name.
pub(crate) fn name_refusal(fault: NameFault) -> Refusal
    ensures { result ≡ name_refusal (fault_seen fault) }
{
    match fault {
        NameFault::TooLong(_) => Refusal::NameTooLong,
        _ => Refusal::BadName,
    }
}

/// What keeps bytes from being a name before their form NFC is needed.
pub(crate) fn raw_name_refusal(bytes: &[u8]) -> Option<Refusal>
    ensures { result ≡ raw_name_refusal bytes.now }
{
    let Ok(text) = str::from_utf8(bytes) else {
        return Some(Refusal::BadName);
    };
    match form_fault(text) {
        Some(fault) => Some(name_refusal(fault)),
        None => None,
    }
}
