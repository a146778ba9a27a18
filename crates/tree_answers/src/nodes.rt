ghost use Rattle.std.specs.Prelude.{◌≡◌, ◌<◌, ◌^◌, [], false};
ghost use Rattle.tree_model.specs.Asked.{look as look_request, open_node as open_request, sync as sync_request, plain_reply, HasCount, IsReplyTo};
ghost use Rattle.tree_model.specs.Step.{says, truncates, writes as writes_mode};
ghost use Rattle.clear_tree.specs.Built.{kept_what};
ghost use Rattle.live_tree.specs.Held.{IsTree};
ghost use Rattle.tree_answers.specs.Answers.{IsOwn, IsStepOf, open_fault, qid_in};

use clear_tree::What;
use live_tree::{LiveNode, LiveTree};
use tree_model::{Qid, Refusal, Reply};

// The bit of an open mode that truncates.
const TRUNCATE: u8 = 0x10;

// The open mode that reads (OREAD, open(5)).
const READ: u8 = 0;

/// The answer to a look at the node of a number: its qid.
pub fn look(tree: &LiveTree, number: u64) -> Reply
    ensures answer { IsStepOf tree.now (look_request number) (says (plain_reply result)) }
    ensures form { IsReplyTo (look_request number) (plain_reply result) [] }
    ensures own { IsOwn (plain_reply result) }
    ensures count { HasCount result }
{
    match tree.node(number) {
        Some(node) => Reply::Qid(qid(number, node)),
        None => Reply::Refused(Refusal::Removed),
    }
}

/// Whether an open mode truncates (OTRUNC, open(5)).
pub fn is_truncating(mode: u8) -> bool
    ensures { result ≡ truncates mode }
{
    mode & TRUNCATE != 0
}

/// The answer to opening the node of a number in a mode that doesn't truncate.
pub fn open_node(tree: &LiveTree, number: u64, mode: u8) -> Reply
    requires { truncates mode ≡ false }
    ensures answer { IsStepOf tree.now (open_request number mode) (says (plain_reply result)) }
    ensures form { IsReplyTo (open_request number mode) (plain_reply result) [] }
    ensures own { IsOwn (plain_reply result) }
    ensures count { HasCount result }
{
    let Some(node) = tree.node(number) else {
        return Reply::Refused(Refusal::Removed);
    };
    match open_refusal(node.what(), mode) {
        Some(refusal) => Reply::Refused(refusal),
        None => Reply::Qid(qid(number, node)),
    }
}

/// The answer to a sync, once nothing waits to be committed.
pub fn sync(tree: &LiveTree, number: u64) -> Reply
    ensures answer { IsStepOf tree.now (sync_request number) (says (plain_reply result)) }
    ensures form { IsReplyTo (sync_request number) (plain_reply result) [] }
    ensures own { IsOwn (plain_reply result) }
    ensures count { HasCount result }
{
    match tree.node(number) {
        Some(_) => Reply::Done,
        None => Reply::Refused(Refusal::Removed),
    }
}

/// States what each tree is. It does nothing.
pub(crate) fn is_tree(tree: &LiveTree)
    ensures { IsTree tree.now }
{
    let _count = tree.len();
}

/// The qid of a node, whose version is below 2^32.
pub(crate) fn qid(number: u64, node: &LiveNode) -> Qid
    ensures qid { result ≡ qid_in number node.now }
    ensures version { node.now.version < 2 ^ 32 }
{
    let kind = match node.what() {
        What::Dir { .. } => Qid::DIRECTORY,
        _ => Qid::FILE,
    };
    Qid {
        kind,
        version: node.version(),
        path: number,
    }
}

// What refuses that a node is opened in a mode that doesn't truncate.
fn open_refusal(what: &What, mode: u8) -> Option<Refusal>
    ensures { result ≡ open_fault (kept_what what.now) mode }
{
    match what {
        What::Bad { .. } => Some(Refusal::Damaged),
        What::Dir { .. } if mode != READ => Some(Refusal::IsADirectory),
        What::Link { .. } if writes(mode) => Some(Refusal::NotPermitted),
        _ => None,
    }
}

// Whether an open mode writes (OWRITE and ORDWR, open(5)).
fn writes(mode: u8) -> bool
    ensures { result ≡ writes_mode mode }
{
    mode % 4 == 1 || mode % 4 == 2
}
