ghost use Rattle.std.specs.Prelude.{◌≡◌};
ghost use Rattle.clear_tree.specs.Built.{kept_what};
ghost use Rattle.tree_answers.specs.Answers.{shown_length};
ghost use Rattle.request_checks.specs.Deciding.{growth_fault, length_fault, other_length};

use clear_tree::What;
use file_chunks::clear_len;
use tree_model::Refusal;

// The largest file, and the largest gap past its end, in bytes.
const FILE_LIMIT: u64 = 1 << 40;

const GAP_LIMIT: u64 = 1 << 20;

/// The length that is asked for, if it isn't the one that is shown of the node.
pub(crate) fn new_length(what: &What, length: Option<u64>) -> Option<u64>
    ensures { result ≡ other_length (shown_length (kept_what what.now)) length }
{
    match length {
        Some(length) if length == shown_length(what) => None,
        asked => asked,
    }
}

/// What keeps a node from having another length.
pub(crate) fn length_refusal(what: &What, length: u64) -> Option<Refusal>
    ensures { result ≡ length_fault (kept_what what.now) length }
{
    match what {
        What::Dir { .. } => Some(Refusal::IsADirectory),
        What::Bad { .. } => Some(Refusal::Damaged),
        What::Link { .. } => Some(Refusal::NotPermitted),
        What::File { size } => growth_refusal(*size, length, length),
    }
}

// The length that is shown of a node: of a file or a link of a bad size, of a directory and of a Bad node it is 0.
fn shown_length(what: &What) -> u64
    ensures { result ≡ shown_length (kept_what what.now) }
{
    match what {
        What::File { size } | What::Link { size } => clear_len(*size).unwrap_or(0),
        _ => 0,
    }
}

/// What keeps a file from being changed up to `end`, after a gap from its own end up to `at`, by the size of its host file.
pub(crate) fn growth_refusal(size: u64, at: u64, end: u64) -> Option<Refusal>
    ensures { result ≡ growth_fault size at end }
{
    let Some(length) = clear_len(size) else {
        return Some(Refusal::Damaged);
    };
    if end > FILE_LIMIT {
        Some(Refusal::FileTooLarge)
    } else if at.saturating_sub(length) > GAP_LIMIT {
        Some(Refusal::GapTooLarge)
    } else {
        None
    }
}
