ghost use Rattle.std.specs.Prelude.{◌≡◌, ◌≢◌, ◌≤◌, ◌⊎◌, ◌↔◌, ◌||◌, ℕ, cond, None, Some, IsSome, IsTrue, IfOk, IfErr, IfSome, MatchOption, OnErr, OnOk};
ghost use Rattle.std.specs.Option.{option_and_then};
ghost use Rattle.vault_path.specs.Parts.{is_path};
ghost use Rattle.outside.specs.Calls.{Changes, Rose, Told};
ghost use Rattle.outside.specs.Images.{disk_in};
ghost use Rattle.deeds.specs.Grammar.{IsBatch};
ghost use Rattle.deeds.specs.Plain.{plains};
ghost use Rattle.deeds.specs.Repeatable.{IsRepeatable};
ghost use Rattle.tree_model.specs.Asked.{remove, done};
ghost use Rattle.tree_model.specs.Rows.{Content, root};
ghost use Rattle.tree_model.specs.Step.{has_children, says};
ghost use Rattle.tree_model.specs.declared.refusal.Refusal.TheVariants as refusals;
ghost use Rattle.clear_tree.specs.Built.{HasHostFolder};
ghost use Rattle.clear_tree.specs.Kept.{folder_in};
ghost use Rattle.clear_tree.specs.Places.{host_folder};
ghost use Rattle.tree_loading.specs.Format.{sealing_of};
ghost use Rattle.live_tree.specs.Held.{HeldNode, node_of, live_rows, IsChildless, IsTree};
ghost use Rattle.live_tree.specs.Changes.{removed, RowsAreRemoved};
ghost use Rattle.name_places.specs.Laws.{Shrinks};
ghost use Rattle.node_changes.specs.Changed.{IsAtRest, HasChanged, LeadsOn, MayHaveChanged, MayRefuse};
ghost use Rattle.node_changes.specs.Causes.{ErrCause, IfBroken, IfRefused, IsUnchanged, RefusalCause};
ghost use Rattle.node_changes.specs.Removal.{AreRemoval, IsFolderAbove, IsMisplaced, IsRemovalRefusal, IsUnclaimed};

use crate::error::ChangeErr;
use crate::misfit::refusal_of;
use crate::places::{directory_above, is_host_part};
use crate::tree::VaultTree;
use batch_looks::look;
use chunk_journal::Journal;
use clear_tree::What;
use deeds::Deed;
use live_tree::{LiveNode, LiveTree};
use name_places::{Claims, are_texts, entries_are_parts, kept_claims};
use node_deeds::{Place, remove_deeds};
use outside::{Folder, Reads};
use std::alloc::Global;
use tree_model::Refusal;

impl VaultTree {
    /// Removes the node of a number at a second since 1970-01-01. What `removal_refusal` names refuses it, and then what the folder
    /// has now: `Foreign` for an entry in a folder that goes, which isn't the node's, and `DeviceFault` for a folder that failed, or
    /// of which another program changed what the removal needs. Memory is taken before anything changes. After `Broken` the folder's
    /// count of faults rose, and the tree in memory is the one without the node.
    pub fn remove<D: Folder>(
        &mut self,
        journal: &mut Journal<D>,
        number: u64,
        now: u32,
    ) -> Result<(), ChangeErr>
        requires rest { Told (D.log journal.old) (IsAtRest (sealing_of self.old.keys) self.old.live self.old.claims) }
        ensures changed { OnOk result (Changes (D.log journal.old) (D.log journal.new)
            (HasChanged (sealing_of self.old.keys) (remove number) now (says done) self.old.live self.new.live self.old.claims self.new.claims)) }
        ensures broken { IfErr result (λ error. IfBroken error (Changes (D.log journal.old) (D.log journal.new)
            (MayHaveChanged (sealing_of self.old.keys) (remove number) now self.old.live self.new.live self.old.claims self.new.claims))) }
        ensures refused { IfErr result (λ error. IfRefused error (λ refusal. Told (disk_in (D.log journal.old))
            (λ d. MayRefuse (sealing_of self.old.keys) (remove number) now None refusal d self.old.live self.old.claims))) }
        ensures unchanged { IfErr result (λ error. IfRefused error (λ refusal.
            IsUnchanged self.old.live self.new.live self.old.claims self.new.claims (D.log journal.old) (D.log journal.new))) }
        ensures cause { IfErr result (ErrCause (remove number) (Rose (D.faults journal.old) (D.faults journal.new)) ⊥) }
        ensures later { D.faults journal.old ≤ D.faults journal.new }
        ensures keys { self.new.keys ≡ self.old.keys }
        ensures threshold { self.new.threshold ≡ self.old.threshold }
    {
        match self.take_out(journal, number, now) {
            Ok(deeds) => match journal.commit(&deeds) {
                Ok(()) => Ok(()),
                Err(_) => Err(ChangeErr::Broken),
            },
            Err(refusal) => Err(ChangeErr::Refused(refusal)),
        }
    }

    // Takes a node out of the tree in memory, and returns the deeds that remove it. If it is refused nothing changed.
    fn take_out<R: Reads>(
        &mut self,
        folder: &mut R,
        number: u64,
        now: u32,
    ) -> Result<Vec<Deed>, Refusal>
        ensures made { IfOk result (λ deeds.
            LeadsOn (sealing_of self.old.keys) (remove number) now (says done) self.old.live self.new.live self.old.claims self.new.claims (plains deeds.items)) }
        ensures batch { IfOk result (λ deeds. IsBatch (plains deeds.items)) }
        ensures repeatable { IfOk result (λ deeds. IsRepeatable (plains deeds.items)) }
        ensures refused { IfErr result (λ refusal. Told (disk_in (R.log folder.old))
            (λ d. MayRefuse (sealing_of self.old.keys) (remove number) now None refusal d self.old.live self.old.claims)) }
        ensures cause { IfErr result (RefusalCause (remove number) (Rose (R.faults folder.old) (R.faults folder.new)) ⊥) }
        ensures same_live { OnErr result (self.new.live ≡ self.old.live) }
        ensures same_claims { OnErr result (self.new.claims ≡ self.old.claims) }
        ensures log { R.log folder.new ≡ R.log folder.old }
        ensures later { R.faults folder.old ≤ R.faults folder.new }
        ensures keys { self.new.keys ≡ self.old.keys }
        ensures threshold { self.new.threshold ≡ self.old.threshold }
    {
        are_texts(&self.keys);
        kept_claims(&self.keys);
        entries_are_parts(&self.keys);
        if let Some(refusal) = removal_refusal(&self.live, number) {
            return Err(refusal);
        }
        let deeds = removal_deeds(self.alloc, &self.live, number)?;
        if let Err(misfit) = look(self.alloc, folder, &deeds) {
            return Err(refusal_of(misfit));
        }
        self.forget(number, now);
        Ok(deeds)
    }

    // Takes a node without nodes in it out of the tree in memory.
    fn forget(&mut self, number: u64, now: u32)
        requires there { IsSome (node_of self.old.live number) }
        requires below { number ≢ root }
        requires childless { IsChildless self.old.live number }
        ensures live { (held : HeldNode) → node_of self.old.live number ≡ Some held → self.new.live ≡ removed self.old.live number held.kept.parent now }
        ensures rows { RowsAreRemoved self.old.live self.new.live number now }
        ensures claims { (held : HeldNode) → node_of self.old.live number ≡ Some held → IsUnclaimed held self.old.claims self.new.claims }
        ensures keys { self.new.keys ≡ self.old.keys }
        ensures threshold { self.new.threshold ≡ self.old.threshold }
    {
        let folder = folder_of(&self.live, number);
        unclaim(&mut self.claims, folder);
        self.live.remove(number, now);
    }
}

// Takes out the claim of a directory that goes, of this own folder.
fn unclaim(claims: &mut Claims, folder: Option<[u8; 32]>)
    ensures { MatchOption folder (claims.new ≡ claims.old) (λ folder. Shrinks claims.old claims.new folder) }
{
    if let Some(folder) = folder {
        claims.remove(&folder);
    }
}

// The own folder of a directory.
fn folder_of(live: &LiveTree, number: u64) -> Option<[u8; 32]>
    ensures { result ≡ option_and_then (λ (held : HeldNode). folder_in held.kept.what) (node_of live.now number) }
{
    live.node(number)?.folder().copied()
}

/// What refuses that the node of a number is removed, before any work begins and as the tree was loaded. It is the first of these:
///
/// - `Removed`: the number has no node.
/// - `NotPermitted` of the root, and `Damaged` of a Bad node.
/// - Of a directory: `DirectoryNotEmpty` with nodes in it; `Foreign` if its folder has entries that are no nodes' files, another
///   entry has its name, or an identifier is named twice in the tree.
/// - Of a file or a link: `Foreign` if another entry has its name.
pub fn removal_refusal(live: &LiveTree, number: u64) -> Option<Refusal>
    ensures refusal { IsRemovalRefusal live.now number result }
    ensures own { IfSome result (λ refusal. RefusalCause (remove number) ⊥ ⊥ refusal) }
    ensures tree { IsTree live.now }
{
    // for its clause: only directories have nodes in them
    let _count = live.len();
    let Some(node) = live.node(number) else {
        return Some(Refusal::Removed);
    };
    if number == 0 {
        return Some(Refusal::NotPermitted);
    }
    match node.what() {
        What::Bad { .. } => Some(Refusal::Damaged),
        What::Dir { .. } if has_nodes(live, number) => Some(Refusal::DirectoryNotEmpty),
        What::Dir { .. } => foreign_if(is_held(live, node)),
        What::File { .. } | What::Link { .. } => foreign_if(node.is_shadowed()),
    }
}

// Whether a directory has nodes in it.
fn has_nodes(live: &LiveTree, number: u64) -> bool
    ensures { (contents : ℕ → Content) → has_children (live_rows contents live.now) number ≡ result }
{
    // for its clause: nodes are in the order of their numbers
    let _count = live.len();
    live.next_after(number, None).is_some()
}

// Whether something keeps a directory where it is.
fn is_held(live: &LiveTree, node: &LiveNode) -> bool
    ensures { result ≡ (node.now.kept.foreign || (node.now.kept.shadowed || live.now.twice)) }
{
    node.is_foreign() || node.is_shadowed() || live.is_twice()
}

fn foreign_if(held: bool) -> Option<Refusal>
    ensures { result ≡ cond held (Some refusals.Foreign) None }
{
    if held { Some(Refusal::Foreign) } else { None }
}

// The deeds that remove a node. `Damaged` is for one that no disk has where it is.
fn removal_deeds(alloc: Global, live: &LiveTree, number: u64) -> Result<Vec<Deed>, Refusal>
    requires there { IsSome (node_of live.now number) }
    ensures deeds { IfOk result (λ deeds. AreRemoval live.now number (plains deeds.items)) }
    ensures batch { IfOk result (λ deeds. IsBatch (plains deeds.items)) }
    ensures repeatable { IfOk result (λ deeds. IsRepeatable (plains deeds.items)) }
    ensures refusal { IfErr result (λ refusal. (refusal ≡ refusals.OutOfMemory)
        ⊎ ((refusal ≡ refusals.Damaged) × IsMisplaced live.now number)) }
{
    let Some(node) = live.node(number) else {
        unreachable!()
    };
    let folder = folder_above(live, node);
    if !is_host_part(node.entry()) || is_own_folder(node, folder) {
        return Err(Refusal::Damaged);
    }
    let place = Place {
        folder,
        entry: node.entry(),
        long: node.is_long(),
    };
    match remove_deeds(alloc, &place, node.what()) {
        Ok(deeds) => Ok(deeds),
        Err(_) => Err(Refusal::OutOfMemory),
    }
}

// The folder in which a node is.
fn folder_above<'a>(live: &'a LiveTree, node: &LiveNode) -> &'a [u8; 32]
    requires { (number : ℕ) × (node_of live.now number ≡ Some node.now) }
    ensures folder { IsFolderAbove live.now node.now result.now }
    ensures path { IsTrue (is_path (host_folder result.now)) }
{
    directory_above(live, node).folder
}

// Whether a node is a directory of this folder.
fn is_own_folder(node: &LiveNode, folder: &[u8; 32]) -> bool
    ensures own { IsTrue result ↔ (folder_in node.now.kept.what ≡ Some folder.now) }
    ensures path { HasHostFolder node.now.kept.what }
{
    match node.folder() {
        Some(own) => own.as_slice() == folder.as_slice(),
        None => false,
    }
}
