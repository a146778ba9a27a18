ghost use Rattle.std.specs.Prelude.{◌≡◌, true, IfOk, IfErr, IsSome, OnErr};
ghost use Rattle.std.specs.Option.{option_copied};
ghost use Rattle.tree_model.specs.Asked.{plain_change};
ghost use Rattle.tree_model.specs.Step.{is_bad};
ghost use Rattle.clear_tree.specs.Kept.{kind_of};
ghost use Rattle.clear_tree.specs.Built.{kept_what};
ghost use Rattle.live_tree.specs.Held.{node_of};
ghost use Rattle.tree_answers.specs.Answers.{is_own};
ghost use Rattle.request_checks.specs.Plans.{CanResize, IsPlanned, IsRefused};
ghost use Rattle.request_checks.specs.Deciding.{inner_plan, place_plan, plan_of, rename_plan, resize_plan, root_plan};

use crate::fixed::touches_fixed;
use crate::lengths::{length_refusal, new_length};
use crate::names::{checked_name, has_name, raw_name_refusal};
use clear_tree::What;
use live_tree::{LiveNode, LiveTree};
use std::alloc::{AllocError, Global};
use tree_model::{Refusal, StatChange};
use vault_names::Name;

// The number of the root.
const ROOT: u64 = 0;

/// What a change of a node's attributes comes to if nothing refuses it before its own work.
#[derive(Debug, Drop)]
pub enum Plan {
    /// Another name, whose form NFC isn't the node's own.
    Rename(Name),
    /// Another length in bytes.
    Resize(u64),
    /// Neither: an mtime at most.
    Date,
}

/// Decides what a change of the attributes of the node of a number comes to, or why it is refused. A refusal is the first of these:
///
/// - `Removed`: the number has no node.
/// - `Damaged`: the node is Bad.
/// - `NotPermitted`: a field other than name, length and mtime is touched, and isn't as it is.
/// - Of another length alone, in bytes: `IsADirectory`; `NotPermitted` of a link; `Damaged` if the host file's size is none that
///   a content has; `FileTooLarge` above 2^40; `GapTooLarge` more than 1,048,576 past the end.
/// - Of a name alone: `NotPermitted` if it is another one for the root; `BadName` or `NameTooLong` of a node below it.
/// - Of a name and another length: `OneChangeAtATime` if the name is another too, else as of the length alone.
///
/// A name is another if its form NFC isn't the node's own name. Not decided here: whether the new name is free (`FileExists`), and
/// whether the node can be moved away (`Foreign`). It fails if there is no memory for a name's form NFC.
pub fn plan_change(
    alloc: Global,
    tree: &LiveTree,
    number: u64,
    change: &StatChange<'_>,
) -> Result<Result<Plan, Refusal>, AllocError>
    ensures planned { IfOk result (λ planned. IfOk planned (IsPlanned tree.now number (plain_change change.now))) }
    ensures refused { IfOk result (λ planned. IfErr planned (IsRefused tree.now number (plain_change change.now))) }
    ensures own { IfOk result (λ planned. IfErr planned (λ refusal. is_own refusal ≡ true)) }
    ensures resizable { IfOk result (λ planned. IfOk planned (CanResize tree.now number)) }
    ensures there { OnErr result (IsSome (node_of tree.now number)) }
{
    match tree.node(number) {
        Some(node) => plan_for_node(alloc, number, node, change),
        None => Ok(Err(Refusal::Removed)),
    }
}

// What the change of a node that is there comes to.
fn plan_for_node(
    alloc: Global,
    number: u64,
    node: &LiveNode,
    change: &StatChange<'_>,
) -> Result<Result<Plan, Refusal>, AllocError>
    ensures { IfOk result (λ planned. planned ≡ plan_of number node.now (plain_change change.now)) }
{
    if is_bad(node.what()) {
        return Ok(Err(Refusal::Damaged));
    }
    if touches_fixed(number, node, change) {
        return Ok(Err(Refusal::NotPermitted));
    }
    let length = new_length(node.what(), change.length);
    plan_place(alloc, number, node, change.name, length)
}

// Whether a node's text names no folder of its own.
fn is_bad(what: &What) -> bool
    ensures { result ≡ is_bad (kind_of (kept_what what.now)) }
{
    matches!(what, What::Bad { .. })
}

// What another name and another length come to.
fn plan_place(
    alloc: Global,
    number: u64,
    node: &LiveNode,
    name: Option<&str>,
    length: Option<u64>,
) -> Result<Result<Plan, Refusal>, AllocError>
    ensures { IfOk result (λ planned. planned ≡ place_plan number node.now (option_copied name.entry) length) }
{
    match (name, length) {
        (None, None) => Ok(Ok(Plan::Date)),
        (None, Some(length)) => Ok(plan_resize(node.what(), length)),
        (Some(name), None) => plan_rename(alloc, number, node, name),
        (Some(name), Some(length)) => {
            if has_name(alloc, node, name)? {
                Ok(plan_resize(node.what(), length))
            } else {
                Ok(Err(Refusal::OneChangeAtATime))
            }
        }
    }
}

// What another length comes to.
fn plan_resize(what: &What, length: u64) -> Result<Plan, Refusal>
    ensures { result ≡ resize_plan (kept_what what.now) length }
{
    match length_refusal(what, length) {
        Some(refusal) => Err(refusal),
        None => Ok(Plan::Resize(length)),
    }
}

// What a name alone comes to.
fn plan_rename(
    alloc: Global,
    number: u64,
    node: &LiveNode,
    name: &str,
) -> Result<Result<Plan, Refusal>, AllocError>
    ensures { IfOk result (λ planned. planned ≡ rename_plan number node.now name.now) }
{
    if number == ROOT {
        plan_root(alloc, node, name)
    } else {
        plan_inner(alloc, node, name)
    }
}

// The root keeps its name.
fn plan_root(
    alloc: Global,
    root: &LiveNode,
    name: &str,
) -> Result<Result<Plan, Refusal>, AllocError>
    ensures { IfOk result (λ planned. planned ≡ root_plan root.now name.now) }
{
    if has_name(alloc, root, name)? {
        Ok(Ok(Plan::Date))
    } else {
        Ok(Err(Refusal::NotPermitted))
    }
}

// A name alone for a node below the root. What the name itself, as it is given, is refused for is answered before
// its form NFC is needed.
fn plan_inner(
    alloc: Global,
    node: &LiveNode,
    name: &str,
) -> Result<Result<Plan, Refusal>, AllocError>
    ensures { IfOk result (λ planned. planned ≡ inner_plan node.now name.now) }
{
    if let Some(refusal) = raw_name_refusal(name) {
        return Ok(Err(refusal));
    }
    if has_name(alloc, node, name)? {
        return Ok(Ok(Plan::Date));
    }
    match checked_name(alloc, name)? {
        Ok(name) => Ok(Ok(Plan::Rename(name))),
        Err(refusal) => Ok(Err(refusal)),
    }
}
