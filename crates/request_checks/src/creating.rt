ghost use Rattle.std.specs.Prelude.{◌≡◌, true, IfSome};
ghost use Rattle.clear_tree.specs.Built.{kept_what};
ghost use Rattle.tree_answers.specs.Answers.{is_own};
ghost use Rattle.request_checks.specs.Plans.{IsCreationRefusal};
ghost use Rattle.request_checks.specs.Deciding.{creation_fault};

use crate::names::raw_name_refusal;
use clear_tree::What;
use live_tree::LiveTree;
use tree_model::Refusal;

/// What refuses that a file or a directory of a name is made in the node of a number, before the name's form NFC is needed. It is the
/// first of these:
///
/// - `Removed`: the number has no node.
/// - `NotADirectory` of a file, a link and a Bad node.
/// - `BadName`: the name is empty, `.` or `..`, or holds `/` or NUL.
pub fn creation_refusal(tree: &LiveTree, number: u64, name: &str) -> Option<Refusal>
    ensures refusal { IsCreationRefusal tree.now number name.now result }
    ensures own { IfSome result (λ refusal. is_own refusal ≡ true) }
{
    match tree.node(number) {
        Some(node) => refusal_to_create(node.what(), name),
        None => Some(Refusal::Removed),
    }
}

// What keeps a node from having another one of a name made in it.
fn refusal_to_create(what: &What, name: &str) -> Option<Refusal>
    ensures { result ≡ creation_fault (kept_what what.now) name.now }
{
    match what {
        What::Dir { .. } => raw_name_refusal(name),
        What::File { .. } | What::Link { .. } | What::Bad { .. } => Some(Refusal::NotADirectory),
    }
}
