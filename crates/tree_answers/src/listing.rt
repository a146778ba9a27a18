ghost use Rattle.std.specs.Prelude.{◌≡◌, ◌≤◌, ℕ, length, take, Some, IfOk, IfSome, IfNone, IsSome, OnErr};
ghost use Rattle.std.specs.List.{concat};
ghost use Rattle.std.specs.Option.{option_copied};
ghost use Rattle.outside.specs.Calls.{KeepsFrom};
ghost use Rattle.tree_model.specs.Rows.{Content, is_dir};
ghost use Rattle.tree_model.specs.Asked.{AreStats, HasCount, IsReplyTo, KeepsRest, bytes_put, list as list_request, plain_reply};
ghost use Rattle.tree_model.specs.Step.{fitting, stats_behind};
ghost use Rattle.clear_tree.specs.Kept.{kind_of};
ghost use Rattle.clear_tree.specs.Built.{kept_what};
ghost use Rattle.live_tree.specs.Held.{IsNext, IsNoNext, IsTree, live_rows, node_of};
ghost use Rattle.tree_answers.specs.Answers.{AreSizes, IsOwn, IsSizedStepOf, answer_in};

use crate::nodes::is_tree;
use crate::stats::{stat_at, stat_size};
use clear_tree::What;
use live_tree::{LiveNode, LiveTree};
use ninep_wire::write_stat;
use std::alloc::{AllocError, Global};
use tree_model::{Refusal, Reply};
use vault_path::Text;

/// The answer to a request for the stats of the nodes of a directory whose names follow `after`, of all if there is none.
/// As many whole stats as fit into `count` bytes are put into the front of `buffer`, in the order of the names' bytes.
/// The error is returned if memory runs out for a copy of `after`; nothing is put then.
pub fn list(
    alloc: Global,
    tree: &LiveTree,
    number: u64,
    after: Option<&[u8]>,
    count: u32,
    buffer: &mut [u8],
) -> Result<Reply, AllocError>
    requires { count ≤ length buffer.old }
    ensures answer { IfOk result (λ reply. IsSizedStepOf tree.now (list_request number (option_copied after.entry) count)
        (answer_in (list_request number (option_copied after.entry) count) (plain_reply reply) buffer.new)) }
    ensures form { IfOk result (λ reply. IsReplyTo (list_request number (option_copied after.entry) count) (plain_reply reply)
        (bytes_put (list_request number (option_copied after.entry) count) (plain_reply reply) buffer.new)) }
    ensures rest { IfOk result (λ reply. KeepsRest (list_request number (option_copied after.entry) count) (plain_reply reply)
        buffer.old buffer.new) }
    ensures own { IfOk result (λ reply. IsOwn (plain_reply reply)) }
    ensures count { IfOk result HasCount }

    ensures unchanged { OnErr result (buffer.new ≡ buffer.old) }
    ensures there { OnErr result (IsSome (node_of tree.now number)) }
{
    let Some(node) = tree.node(number) else {
        return Ok(Reply::Refused(Refusal::Removed));
    };
    if !is_dir(node.what()) {
        return Ok(Reply::Refused(Refusal::NotADirectory));
    }
    let name = copied(alloc, after)?;
    let last = name.as_ref();
    is_tree(tree);
    let used = put_stats(tree, number, last, &mut buffer[..count as usize]);
    if used == 0 && tree.next_after(number, last).is_some() {
        return Ok(Reply::Refused(Refusal::CountTooSmall));
    }
    Ok(Reply::Count(used as u32))
}

// Whether it is a directory.
fn is_dir(what: &What) -> bool
    ensures { result ≡ is_dir (kind_of (kept_what what.now)) }
{
    matches!(what, What::Dir { .. })
}

// The same name, in memory of its own.
fn copied(alloc: Global, name: Option<&[u8]>) -> Result<Option<Text>, AllocError>
    ensures { IfOk result (λ copy. copy ≡ option_copied name.entry) }
{
    match name {
        Some(name) => Ok(Some(Text::from_vec(Vec::from_slice(alloc, name)?))),
        None => Ok(None),
    }
}

// Puts the stats of a directory's nodes after a name into `room`, from its front on, as many as fit, and returns how many bytes they have.
fn put_stats(tree: &LiveTree, parent: u64, after: Option<&Text>, room: &mut [u8]) -> usize
    requires { IsTree tree.now }
    ensures bytes { (contents : ℕ → Content) → AreSizes tree.now contents → take result room.new ≡
        concat (fitting (length room.old) (stats_behind (live_rows contents tree.now) parent (option_copied after.entry))) }
    ensures form { AreStats (length room.old) (take result room.new) }
    ensures rest { KeepsFrom result room.old room.new }
    ensures fits { result ≤ length room.old }
{
    let mut used = 0;
    let mut last = after;
    while let Some((number, node)) = next_node(tree, parent, last) {
        let stat = stat_at(number, node);
        if stat_size(&stat) > room.len() - used {
            break;
        }
        used += write_stat(&stat, &mut room[used..]);
        last = Some(node.name());
    }
    used
}

// The first node of a directory after a name, with its number.
fn next_node<'a>(
    tree: &'a LiveTree,
    parent: u64,
    last: Option<&Text>,
) -> Option<(u64, &'a LiveNode)>
    ensures next { IfSome result (λ found. IsNext tree.now parent (option_copied last.entry) found.0) }
    ensures node { IfSome result (λ found. node_of tree.now found.0 ≡ Some found.1.now) }
    ensures none { IfNone result (IsNoNext tree.now parent (option_copied last.entry)) }
{
    let number = tree.next_after(parent, last)?;
    let node = tree.node(number)?;
    Some((number, node))
}
