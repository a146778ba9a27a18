ghost use Rattle.std.specs.Prelude.{◌≡◌, ◌≤◌, ℕ, List, [], OnOk, true, length};
ghost use Rattle.outside.specs.Views.{entropy_in};
ghost use Rattle.tree_model.specs.Asked.{PlainChange, change as change_request, open_node as open_request, write as write_request, write_limit};
ghost use Rattle.tree_model.specs.Step.{truncates};
ghost use Rattle.request_checks.specs.declared.planning.Plan.TheVariants.{Resize};
ghost use Rattle.request_checks.specs.Files.{IsResizable};
ghost use Rattle.request_checks.specs.Plans.{IsPlanned};
ghost use Rattle.vault_store.specs.Contents.{IsChangedQid};
ghost use Rattle.vault_store.specs.Open.{IsIdle, IsResting, Keeps};
ghost use Rattle.vault_store.specs.Outcome.{HasAnswered, HasWorked};

use crate::answering::{Broken, Vault};
use crate::changing::refused;
use crate::sizes::have_sizes;
use live_tree::LiveTree;
use outside::{Entropy, Folder};
use request_checks::{truncation_refusal, write_refusal};
use tree_model::{Qid, Reply};

impl<D: Folder> Vault<D> {
    /// Writes at most 65,537 bytes into a file from the byte `at` on; they wait to be committed. A write of no byte changes nothing.
    pub(crate) fn write<E: Entropy>(
        &mut self,
        number: u64,
        at: u64,
        bytes: &[u8],
        now: u32,
        entropy: &mut E,
    ) -> Result<Reply, Broken>
        requires few { length bytes.now ≤ write_limit }
        requires rest { IsResting D.Reads self.old }
        ensures outcome { (buffer : List ℕ) → HasAnswered D.Reads self.old self.new
            (entropy_in E.Entropy entropy.old) (entropy_in E.Entropy entropy.new)
            (write_request number at bytes.now) now result buffer buffer }
        ensures rest { OnOk result (IsResting D.Reads self.new) }
        ensures keeps { Keeps D.Reads self.old self.new }
        ensures entropy { E.faults entropy.old ≤ E.faults entropy.new }
    {
        have_sizes(self.tree.keys());
        if let Some(refusal) = write_refusal(self.tree.live(), number, at, bytes.len()) {
            return Ok(Reply::Refused(refusal));
        }
        if bytes.is_empty() {
            return Ok(Reply::Count(0));
        }
        match self.files.write(
            &mut self.tree,
            &mut self.back,
            entropy,
            number,
            at,
            bytes,
            now,
        ) {
            Ok(()) => Ok(Reply::Count(bytes.len() as u32)),
            Err(error) => refused(error),
        }
    }

    /// Opens a node in a mode that truncates: gives a file the length 0, which waits to be committed.
    pub(crate) fn truncate<E: Entropy>(
        &mut self,
        number: u64,
        mode: u8,
        now: u32,
        entropy: &mut E,
    ) -> Result<Reply, Broken>
        requires cuts { truncates mode ≡ true }
        requires rest { IsResting D.Reads self.old }
        ensures outcome { (buffer : List ℕ) → HasAnswered D.Reads self.old self.new
            (entropy_in E.Entropy entropy.old) (entropy_in E.Entropy entropy.new)
            (open_request number mode) now result buffer buffer }
        ensures rest { OnOk result (IsResting D.Reads self.new) }
        ensures keeps { Keeps D.Reads self.old self.new }
        ensures entropy { E.faults entropy.old ≤ E.faults entropy.new }
    {
        have_sizes(self.tree.keys());
        if let Some(refusal) = truncation_refusal(self.tree.live(), number, mode) {
            return Ok(Reply::Refused(refusal));
        }
        let qid = changed_qid(self.tree.live(), number);
        match self
            .files
            .truncate(&mut self.tree, &mut self.back, entropy, number, now)
        {
            Ok(()) => Ok(Reply::Qid(qid)),
            Err(error) => refused(error),
        }
    }

    /// Gives a file another length in bytes, if nothing waits, and an mtime, if one is asked for, as a change that was planned so asks.
    pub(crate) fn resize_idle<E: Entropy>(
        &mut self,
        number: u64,
        len: u64,
        modified: Option<u32>,
        now: u32,
        entropy: &mut E,
    ) -> Result<Reply, Broken>
        requires file { IsResizable self.old.tree.live number len }
        requires idle { IsIdle D.Reads self.old }
        ensures outcome { (buffer : List ℕ) (c : PlainChange) → c.modified ≡ modified → IsPlanned self.old.tree.live number c (Resize len)
            → HasWorked D.Reads self.old self.new
            (entropy_in E.Entropy entropy.old) (entropy_in E.Entropy entropy.new)
            (change_request number c) now result buffer buffer }
        ensures idle { self.new.waiting ≡ [] }
        ensures keeps { Keeps D.Reads self.old self.new }
        ensures entropy { E.faults entropy.old ≤ E.faults entropy.new }
    {
        have_sizes(self.tree.keys());
        match self.files.resize(
            &mut self.tree,
            self.back.journal(),
            entropy,
            number,
            len,
            modified,
            now,
        ) {
            Ok(()) => Ok(Reply::Done),
            Err(error) => refused(error),
        }
    }
}

// The qid that the file of a number has once its content changed.
fn changed_qid(tree: &LiveTree, number: u64) -> Qid
    requires { (len : ℕ) × IsResizable tree.now number len }
    ensures { IsChangedQid tree.now number result }
{
    match tree.node(number) {
        Some(node) => Qid {
            kind: Qid::FILE,
            version: node.version().wrapping_add(1),
            path: number,
        },
        None => unreachable!(),
    }
}
