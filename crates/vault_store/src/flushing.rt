ghost use Rattle.std.specs.Prelude.{◌≡◌, ◌≤◌, ℕ, List, [], None, Ok, OnOk, OnErr, IsErr, IsErrOf, IsTrue};
ghost use Rattle.outside.specs.Calls.{Changes, HasCause};
ghost use Rattle.outside.specs.Views.{EntropyView, entropy_in, folder_in};
ghost use Rattle.chunk_journal.specs.Journal.{AnyMoment};
ghost use Rattle.tree_model.specs.declared.refusal.Refusal.TheVariants as refusals;
ghost use Rattle.tree_model.specs.declared.reply.Reply.TheVariants as replies;
ghost use Rattle.tree_model.specs.Asked.{change as change_request, create as create_request, plain_change, remove as remove_request, sync as sync_request};
ghost use Rattle.request_checks.specs.declared.planning.Plan.TheVariants.{Date};
ghost use Rattle.store_laws.specs.Turns.{IsFlushed};
ghost use Rattle.vault_store.specs.Open.{IsIdle, IsResting, Keeps, idle_of, store_in};
ghost use Rattle.vault_store.specs.Outcome.{HasAnswered};

use crate::answering::{Broken, Vault};
use crate::sizes::have_sizes;
use node_changes::removal_refusal;
use outside::{Entropy, Folder};
use request_checks::{Plan, creation_refusal, plan_change};
use tree_answers::sync;
use tree_model::{Refusal, Reply, StatChange};
use write_back::FlushErr;

/// Why what waited isn't all committed: the folder's count of faults rose.
#[derive(Clone, Copy, Debug, PartialEq, Eq)]
pub(crate) enum Unflushed {
    /// The commit failed, and nothing can be answered any more.
    Broken,
    /// Another program took away, cut or replaced files whose changes waited. These are dropped, and all else is committed.
    Dropped,
}

// What a durable request comes to if what waited isn't all committed.
fn unflushed_outcome(cause: Unflushed) -> Result<Reply, Broken>
    ensures broken { cause ≡ Unflushed.Broken → IsErr result }
    ensures dropped { cause ≡ Unflushed.Dropped → result ≡ Ok (replies.Refused refusals.DeviceFault) }
{
    match cause {
        Unflushed::Broken => Err(Broken),
        Unflushed::Dropped => Ok(Reply::Refused(Refusal::DeviceFault)),
    }
}

// Whether a change that was planned asks for an mtime alone, or for nothing.
fn is_date_alone(plan: &Plan, change: &StatChange<'_>) -> bool
    ensures date { IsTrue result → plan.now ≡ Date }
    ensures name { IsTrue result → (plain_change change.now).name ≡ None }
    ensures length { IsTrue result → (plain_change change.now).length ≡ None }
{
    matches!(plan, Plan::Date) && change.name.is_none() && change.length.is_none()
}

// Durable requests are committed as a batch of their own, after what waits. An early refusal commits nothing, and no more does an mtime.
impl<D: Folder> Vault<D> {
    /// Commits what waits. Afterwards nothing waits.
    pub(crate) fn flush(&mut self) -> Result<(), Unflushed>
        requires rest { IsResting D.Reads self.old }
        ensures flushed { OnOk result ((entries : ℕ) → IsFlushed (store_in self.old entries None) (idle_of (store_in self.new entries None))
            (folder_in D.Reads self.old.folder) (folder_in D.Reads self.new.folder)) }
        ensures failed { OnErr result (Changes (D.log self.old.folder) (D.log self.new.folder) (AnyMoment self.old.waiting)) }
        ensures dropped { IsErrOf result Unflushed.Dropped → D.log self.old.folder ≡ None }
        ensures cause { HasCause (D.faults self.old.folder) (D.faults self.new.folder) (IsErr result) }
        ensures idle { self.new.waiting ≡ [] }
        ensures rest { OnOk result (IsIdle D.Reads self.new) }
        ensures tree { self.new.tree ≡ self.old.tree }
    {
        match self.back.flush() {
            Ok(()) => Ok(()),
            Err(FlushErr::Device) => Err(Unflushed::Broken),
            Err(FlushErr::Dropped) => Err(Unflushed::Dropped),
        }
    }

    /// Makes a file or a directory.
    pub(crate) fn create<E: Entropy>(
        &mut self,
        parent: u64,
        name: &str,
        is_dir: bool,
        now: u32,
        entropy: &mut E,
    ) -> Result<Reply, Broken>
        requires rest { IsResting D.Reads self.old }
        ensures outcome { (mode : ℕ) (buffer : List ℕ) → HasAnswered D.Reads self.old self.new
            (entropy_in E.Entropy entropy.old) (entropy_in E.Entropy entropy.new)
            (create_request parent name.now is_dir mode) now result buffer buffer }
        ensures rest { OnOk result (IsResting D.Reads self.new) }
        ensures keeps { Keeps D.Reads self.old self.new }
        ensures entropy { E.faults entropy.old ≤ E.faults entropy.new }
    {
        if let Some(refusal) = creation_refusal(self.tree.live(), parent, name) {
            return Ok(Reply::Refused(refusal));
        }
        match self.flush() {
            Ok(()) => self.create_idle(parent, name, is_dir, now, entropy),
            Err(cause) => unflushed_outcome(cause),
        }
    }

    /// Removes a node.
    pub(crate) fn remove(&mut self, number: u64, now: u32) -> Result<Reply, Broken>
        requires rest { IsResting D.Reads self.old }
        ensures outcome { (source : EntropyView) (buffer : List ℕ) → HasAnswered D.Reads self.old self.new
            source source (remove_request number) now result buffer buffer }
        ensures rest { OnOk result (IsResting D.Reads self.new) }
        ensures keeps { Keeps D.Reads self.old self.new }
    {
        if let Some(refusal) = removal_refusal(self.tree.live(), number) {
            return Ok(Reply::Refused(refusal));
        }
        match self.flush() {
            Ok(()) => self.remove_idle(number, now),
            Err(cause) => unflushed_outcome(cause),
        }
    }

    /// Changes attributes of a node: its name or its length, and its mtime.
    pub(crate) fn change<E: Entropy>(
        &mut self,
        number: u64,
        change: &StatChange<'_>,
        now: u32,
        entropy: &mut E,
    ) -> Result<Reply, Broken>
        requires rest { IsResting D.Reads self.old }
        ensures outcome { (buffer : List ℕ) → HasAnswered D.Reads self.old self.new
            (entropy_in E.Entropy entropy.old) (entropy_in E.Entropy entropy.new)
            (change_request number (plain_change change.now)) now result buffer buffer }
        ensures rest { OnOk result (IsResting D.Reads self.new) }
        ensures keeps { Keeps D.Reads self.old self.new }
        ensures entropy { E.faults entropy.old ≤ E.faults entropy.new }
    {
        have_sizes(self.tree.keys());
        let plan = match plan_change(self.alloc, self.tree.live(), number, change) {
            Ok(Ok(plan)) => plan,
            Ok(Err(refusal)) => return Ok(Reply::Refused(refusal)),
            Err(_) => return Ok(Reply::Refused(Refusal::OutOfMemory)),
        };
        if is_date_alone(&plan, change) {
            return Ok(self.date(number, change.modified));
        }
        match self.flush() {
            Ok(()) => self.change_idle(number, plan, change.modified, now, entropy),
            Err(cause) => unflushed_outcome(cause),
        }
    }

    /// Makes everything acknowledged so far durable.
    pub(crate) fn sync(&mut self, number: u64) -> Result<Reply, Broken>
        requires rest { IsResting D.Reads self.old }
        ensures outcome { (now : ℕ) (source : EntropyView) (buffer : List ℕ) → HasAnswered D.Reads self.old self.new
            source source (sync_request number) now result buffer buffer }
        ensures rest { OnOk result (IsResting D.Reads self.new) }
        ensures tree { self.new.tree ≡ self.old.tree }
        ensures faults { D.faults self.old.folder ≤ D.faults self.new.folder }
    {
        let reply = sync(self.tree.live(), number);
        if let Reply::Refused(_) = reply {
            return Ok(reply);
        }
        match self.flush() {
            Ok(()) => Ok(reply),
            Err(cause) => unflushed_outcome(cause),
        }
    }
}
