ghost use Rattle.std.specs.Prelude.{◌≡◌, ◌≢◌, true, IfSome, IfNone};
ghost use Rattle.tree_model.specs.Step.{truncates};
ghost use Rattle.clear_tree.specs.Built.{kept_what};
ghost use Rattle.tree_answers.specs.Answers.{is_own};
ghost use Rattle.request_checks.specs.Files.{IsResizable, IsWritable};
ghost use Rattle.request_checks.specs.Plans.{IsOpenRefusal, IsWriteRefusal};
ghost use Rattle.request_checks.specs.Deciding.{write_fault};

use crate::lengths::{growth_refusal, length_refusal};
use clear_tree::What;
use live_tree::LiveTree;
use tree_model::Refusal;

/// What refuses a write of `len` bytes at the byte `at` of the node of a number, before its content is looked at. It is the first of
/// these:
///
/// - `Removed`: the number has no node.
/// - `IsADirectory` of a directory, `Damaged` of a Bad node, and `NotPermitted` of a link, even if there is no byte to write.
/// - Of a file, if there is a byte to write: `Damaged` if the host file's size is none that a content has; `FileTooLarge` if the
///   write ends above 2^40; `GapTooLarge` if it begins more than 1,048,576 past the end.
pub fn write_refusal(tree: &LiveTree, number: u64, at: u64, len: usize) -> Option<Refusal>
    ensures refusal { IsWriteRefusal tree.now number at len result }
    ensures own { IfSome result (λ refusal. is_own refusal ≡ true) }
    ensures allowed { IfNone result (len ≢ 0 → IsWritable tree.now number at len) }
{
    match tree.node(number) {
        Some(node) => refusal_to_write(node.what(), at, len),
        None => Some(Refusal::Removed),
    }
}

/// What refuses that the node of a number is opened in a mode that truncates (OTRUNC, open(5)), whichever it is, before its content is
/// looked at. It is the first of these:
///
/// - `Removed`: the number has no node.
/// - `IsADirectory` of a directory, `Damaged` of a Bad node, and `NotPermitted` of a link.
/// - `Damaged` of a file if the host file's size is none that a content has.
pub fn truncation_refusal(tree: &LiveTree, number: u64, mode: u8) -> Option<Refusal>
    requires { truncates mode ≡ true }
    ensures refusal { IsOpenRefusal tree.now number mode result }
    ensures own { IfSome result (λ refusal. is_own refusal ≡ true) }
    ensures allowed { IfNone result (IsResizable tree.now number 0) }
{
    match tree.node(number) {
        Some(node) => length_refusal(node.what(), 0),
        None => Some(Refusal::Removed),
    }
}

// What keeps a node from being written `len` bytes at `at`.
fn refusal_to_write(what: &What, at: u64, len: usize) -> Option<Refusal>
    ensures { result ≡ write_fault (kept_what what.now) at len }
{
    match what {
        What::Dir { .. } => Some(Refusal::IsADirectory),
        What::Bad { .. } => Some(Refusal::Damaged),
        What::Link { .. } => Some(Refusal::NotPermitted),
        What::File { .. } if len == 0 => None,
        What::File { size } => growth_refusal(*size, at, at.saturating_add(len as u64)),
    }
}
