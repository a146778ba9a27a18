ghost use Rattle.std.specs.Prelude.{◌≡◌, ◌≤◌, ℕ, List, [], None, Ok, IsErr};
ghost use Rattle.outside.specs.Views.{EntropyView, entropy_in};
ghost use Rattle.tree_model.specs.declared.reply.Reply.TheVariants as replies;
ghost use Rattle.tree_model.specs.Asked.{create as create_request, remove as remove_request, change as change_request, PlainChange};
ghost use Rattle.request_checks.specs.Plans.{CanResize, IsPlanned};
ghost use Rattle.request_checks.specs.declared.planning.Plan.TheVariants.{Date};
ghost use Rattle.node_changes.specs.Causes.{IfBroken, IfRefused};
ghost use Rattle.vault_store.specs.Dated.{IsDated};
ghost use Rattle.vault_store.specs.Open.{IsIdle, IsResting, Keeps};
ghost use Rattle.vault_store.specs.Outcome.{HasAnswered, HasWorked};

use crate::answering::{Broken, Vault};
use crate::sizes::have_sizes;
use node_changes::{ChangeErr, VaultTree};
use outside::{Entropy, Folder};
use request_checks::Plan;
use tree_model::Reply;

impl<D: Folder> Vault<D> {
    /// Makes a file or a directory, if nothing waits.
    pub(crate) fn create_idle<E: Entropy>(
        &mut self,
        parent: u64,
        name: &str,
        is_dir: bool,
        now: u32,
        entropy: &mut E,
    ) -> Result<Reply, Broken>
        requires idle { IsIdle D.Reads self.old }
        ensures outcome { (mode : ℕ) (buffer : List ℕ) → HasWorked D.Reads self.old self.new
            (entropy_in E.Entropy entropy.old) (entropy_in E.Entropy entropy.new)
            (create_request parent name.now is_dir mode) now result buffer buffer }
        ensures idle { self.new.waiting ≡ [] }
        ensures keeps { Keeps D.Reads self.old self.new }
        ensures entropy { E.faults entropy.old ≤ E.faults entropy.new }
    {
        match self
            .tree
            .create(self.back.journal(), entropy, parent, name, is_dir, now)
        {
            Ok(qid) => Ok(Reply::Qid(qid)),
            Err(error) => refused(error),
        }
    }

    /// Removes a node, if nothing waits.
    pub(crate) fn remove_idle(&mut self, number: u64, now: u32) -> Result<Reply, Broken>
        requires idle { IsIdle D.Reads self.old }
        ensures outcome { (source : EntropyView) (buffer : List ℕ) → HasWorked D.Reads self.old self.new
            source source (remove_request number) now result buffer buffer }
        ensures idle { self.new.waiting ≡ [] }
        ensures keeps { Keeps D.Reads self.old self.new }
    {
        match self.tree.remove(self.back.journal(), number, now) {
            Ok(()) => Ok(Reply::Done),
            Err(error) => refused(error),
        }
    }

    /// Changes attributes of a node as it was planned, if nothing waits: its name or its length, and its mtime.
    pub(crate) fn change_idle<E: Entropy>(
        &mut self,
        number: u64,
        plan: Plan,
        modified: Option<u32>,
        now: u32,
        entropy: &mut E,
    ) -> Result<Reply, Broken>
        requires idle { IsIdle D.Reads self.old }
        requires planned { (c : PlainChange) × IsPlanned self.old.tree.live number c plan }
        requires resizable { CanResize self.old.tree.live number plan }
        ensures outcome { (buffer : List ℕ) (c : PlainChange) → c.modified ≡ modified → IsPlanned self.old.tree.live number c plan
            → HasWorked D.Reads self.old self.new
            (entropy_in E.Entropy entropy.old) (entropy_in E.Entropy entropy.new)
            (change_request number c) now result buffer buffer }
        ensures idle { self.new.waiting ≡ [] }
        ensures keeps { Keeps D.Reads self.old self.new }
        ensures entropy { E.faults entropy.old ≤ E.faults entropy.new }
    {
        have_sizes(self.tree.keys());
        match plan {
            Plan::Rename(name) => {
                match self
                    .tree
                    .rename(self.back.journal(), number, name, modified, now)
                {
                    Ok(()) => Ok(Reply::Done),
                    Err(error) => refused(error),
                }
            }
            Plan::Date => {
                set_mtime(&mut self.tree, number, modified);
                Ok(Reply::Done)
            }
            Plan::Resize(len) => self.resize_idle(number, len, modified, now, entropy),
        }
    }
}

impl<D: Folder> Vault<D> {
    /// Sets the mtime that a change asks for, which asks for nothing else. Nothing is committed: an mtime doesn't outlive the run.
    pub(crate) fn date(&mut self, number: u64, modified: Option<u32>) -> Reply
        requires rest { IsResting D.Reads self.old }
        ensures outcome { (now : ℕ) (source : EntropyView) (buffer : List ℕ) (c : PlainChange) → c.modified ≡ modified → c.name ≡ None → c.length ≡ None
            → IsPlanned self.old.tree.live number c Date
            → HasAnswered D.Reads self.old self.new source source (change_request number c) now (Ok result) buffer buffer }
        ensures rest { IsResting D.Reads self.new }
        ensures keeps { Keeps D.Reads self.old self.new }
    {
        have_sizes(self.tree.keys());
        set_mtime(&mut self.tree, number, modified);
        Reply::Done
    }
}

// Sets the mtime that a change asks for, if it asks for one.
fn set_mtime(tree: &mut VaultTree, number: u64, modified: Option<u32>)
    ensures dated { IsDated tree.old.live tree.new.live number modified }
    ensures claims { tree.new.claims ≡ tree.old.claims }
    ensures keys { tree.new.keys ≡ tree.old.keys }
    ensures threshold { tree.new.threshold ≡ tree.old.threshold }
{
    if let Some(modified) = modified {
        tree.set_modified(number, modified);
    }
}

/// A change that was refused, or whose commit failed.
pub(crate) fn refused(error: ChangeErr) -> Result<Reply, Broken>
    ensures refused { IfRefused error (λ refusal. result ≡ Ok (replies.Refused refusal)) }
    ensures broken { IfBroken error (IsErr result) }
{
    match error {
        ChangeErr::Refused(refusal) => Ok(Reply::Refused(refusal)),
        ChangeErr::Broken => Err(Broken),
    }
}
