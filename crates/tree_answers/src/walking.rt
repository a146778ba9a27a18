ghost use Rattle.std.specs.Prelude.{◌≡◌, ◌≤◌, ◌+◌, ◌*◌, ℕ, List, [], length, take, drop, true, Some, IfOk, IfErr, IfSome, IsSome, OnErr, slice_index};
ghost use Rattle.tree_model.specs.Names.{IsWalk, names_in, walk_limit};
ghost use Rattle.tree_model.specs.Rows.{Row, row_of};
ghost use Rattle.tree_model.specs.Asked.{HasCount, IsReplyTo, plain_reply, walk as walk_request};
ghost use Rattle.tree_model.specs.Step.{says, walk_answer, walked_by};
ghost use Rattle.live_tree.specs.Held.{IsTree, node_of};
ghost use Rattle.tree_answers.specs.Answers.{IsOwn, IsStepOf, is_own};
ghost use Rattle.tree_answers.specs.Walk.{ForRows, IsWay, IsWhole, StandsFor, bad_name_refusal, parent_in, qid_at};

use crate::nodes::{is_tree, qid};
use clear_tree::What;
use live_tree::LiveTree;
use std::alloc::{AllocError, Global};
use tree_model::{Names, Qid, Refusal, Reply};
use vault_names::{BadName, clear_name};

// The name of a node's parent.
const PARENT: &[u8] = b"..";

// The most names that a walk has.
const WALK_LIMIT: usize = 16;

/// The answer to a walk from the node of a number along names, of which there are 16 at most: the qids of the nodes on the
/// way, up to the first name that is refused, or the refusal of the first name. The error is returned if memory runs out
/// for a name's form NFC, whichever name it is; no part of the way is the answer then.
pub fn walk(
    alloc: Global,
    tree: &LiveTree,
    from: u64,
    names: &Names<'_>,
) -> Result<Reply, AllocError>
    requires { IsWalk names.now.count names.now.bytes.now }
    ensures answer { IfOk result (λ reply. IsStepOf tree.now (walk_request from (names_in names.now.count names.now.bytes.now))
        (says (plain_reply reply))) }
    ensures form { IfOk result (λ reply. IsReplyTo (walk_request from (names_in names.now.count names.now.bytes.now))
        (plain_reply reply) []) }
    ensures own { IfOk result (λ reply. IsOwn (plain_reply reply)) }
    ensures count { IfOk result HasCount }

    ensures there { OnErr result (IsSome (node_of tree.now from)) }
{
    let Some(_) = tree.node(from) else {
        return Ok(Reply::Refused(Refusal::Removed));
    };
    is_tree(tree);
    let way = follow(alloc, tree, from, names)?;
    Ok(walk_reply(way))
}

// The number of the parent of a node that is a directory.
fn parent_of(tree: &LiveTree, number: u64) -> Option<u64>
    ensures { result ≡ parent_in tree.now number }
{
    let node = tree.node(number)?;
    match node.what() {
        What::Dir { .. } => Some(node.parent()),
        _ => None,
    }
}

// The qid of the node of a number.
fn qid_of(tree: &LiveTree, number: u64) -> Qid
    requires { IsSome (node_of tree.now number) }
    ensures { qid_at tree.now number ≡ Some result }
{
    match tree.node(number) {
        Some(node) => qid(number, node),
        None => unreachable!(),
    }
}

// The nodes on the way along names, `count` of them from the front, and what refused the name after them.
#[derive(Drop)]
struct Way {
    qids: [Qid; WALK_LIMIT],
    count: usize,
    end: Option<Refusal>,
}

// A refusal at the first name is the reply, at a later one the nodes so far.
fn walk_reply(way: Way) -> Reply
    requires room { way.count ≤ walk_limit }
    requires own { IfSome way.end (λ refusal. is_own refusal ≡ true) }
    ensures answer { says (plain_reply result) ≡ walk_answer (take way.count way.qids, way.end) }
    ensures form { (n : ℕ) (names : List (List ℕ)) → IsWhole way.count way.end names
        → IsReplyTo (walk_request n names) (plain_reply result) [] }
    ensures own { IsOwn (plain_reply result) }
    ensures count { HasCount result }
{
    let Way { qids, count, end } = way;
    match end {
        Some(refusal) if count == 0 => Reply::Refused(refusal),
        _ => Reply::Walked { count, qids },
    }
}

// The way from a node along names.
fn follow(alloc: Global, tree: &LiveTree, from: u64, names: &Names<'_>) -> Result<Way, AllocError>
    requires tree { IsTree tree.now }
    requires there { IsSome (node_of tree.now from) }
    requires names { IsWalk names.now.count names.now.bytes.now }
    ensures way { IfOk result (λ w. IsWay tree.now from (names_in names.now.count names.now.bytes.now) (take w.count w.qids) w.end) }
    ensures whole { IfOk result (λ w. IsWhole w.count w.end (names_in names.now.count names.now.bytes.now)) }
    ensures own { IfOk result (λ w. IfSome w.end (λ refusal. is_own refusal ≡ true)) }
    ensures room { IfOk result (λ w. w.count ≤ walk_limit) }
{
    let mut qids = [qid_of(tree, from); WALK_LIMIT];
    let mut at = from;
    let mut bytes = names.bytes;
    for count in 0..names.count as usize {
        let (name, rest) = split_name(bytes);
        match walk_one(alloc, tree, at, name)? {
            Ok(node) => {
                qids[count] = qid_of(tree, node);
                at = node;
            }
            Err(refusal) => {
                return Ok(Way {
                    qids,
                    count,
                    end: Some(refusal),
                });
            }
        }
        bytes = rest;
    }
    Ok(Way {
        qids,
        count: names.count as usize,
        end: None,
    })
}

// The first name that is spelled by bytes, and what follows it.
fn split_name(bytes: &[u8]) -> (&[u8], &[u8])
    requires { (2 ≤ length bytes.now) × (2 + (slice_index bytes.now 0 + 256 * slice_index bytes.now 1) ≤ length bytes.now) }
    ensures name { result.0.now ≡ take (slice_index bytes.now 0 + 256 * slice_index bytes.now 1) (drop 2 bytes.now) }
    ensures rest { result.1.now ≡ drop (2 + (slice_index bytes.now 0 + 256 * slice_index bytes.now 1)) bytes.now }
{
    let end = 2 + usize::from(bytes[0]) + 256 * usize::from(bytes[1]);
    (&bytes[2..end], &bytes[end..])
}

// The node that a name leads to from a node, or what refuses it.
fn walk_one(
    alloc: Global,
    tree: &LiveTree,
    from: u64,
    name: &[u8],
) -> Result<Result<u64, Refusal>, AllocError>
    requires { IsTree tree.now }
    ensures stands { IfOk result (λ next. ForRows tree.now (λ rows. (row : Row) → row_of rows from ≡ Some row
        → StandsFor rows (walked_by rows row name.now) next)) }
    ensures there { IfOk result (λ next. IfOk next (λ node. IsSome (node_of tree.now node))) }
    ensures own { IfOk result (λ next. IfErr next (λ refusal. is_own refusal ≡ true)) }
{
    let Some(parent) = parent_of(tree, from) else {
        return Ok(Err(Refusal::NotADirectory));
    };
    if name == PARENT {
        return Ok(Ok(parent));
    }
    match clear_name(alloc, name) {
        Ok(name) => {
            let name = name.into_text();
            Ok(tree.look(from, &name).ok_or(Refusal::FileDoesNotExist))
        }
        Err(fault) => match name_refusal(fault) {
            Some(refusal) => Ok(Err(refusal)),
            None => Err(AllocError),
        },
    }
}

/// What refuses bytes that are no name, unless memory ran out.
pub fn name_refusal(fault: BadName) -> Option<Refusal>
    ensures { result ≡ bad_name_refusal fault }
{
    match fault {
        BadName::NotUtf8 | BadName::Empty | BadName::Dots | BadName::Forbidden => {
            Some(Refusal::BadName)
        }
        BadName::TooLong(_) => Some(Refusal::NameTooLong),
        BadName::Memory => None,
    }
}
