ghost use Rattle.std.specs.Prelude.{◌≡◌, [], ◌∷◌, map, IfOk, OnOk, OnErr, reverse};
ghost use Rattle.host_calls.specs.Names.{Fits, begun, before_step, flushed, without_folder, names_after, IsTaken, MayName};
ghost use Rattle.mem_host.specs.Entries.{bare};
ghost use Rattle.mem_host.specs.Steps.{step_of};

use crate::choices::Choices;
use crate::names::{MemEntry, MemNames};
use crate::step::{MemPending, MemStep};
use std::alloc::{AllocError, Global};
use std::marker::Model;
use vault_path::VaultPath;

/// Names, and the steps that made them out of those that it began with. Clauses see the steps with the newest first.
#[derive(Drop)]
pub struct MemNaming {
    // What it began with, by path.
    base: Vec<(VaultPath, MemEntry)>,
    // The oldest first.
    steps: Vec<MemPending>,
    // What the steps made.
    current: MemNames,
}

impl Model for MemNaming {
    ghost use Rattle.std.specs.Prelude.{◌≡◌, reverse};
    ghost use Rattle.host_calls.specs.Names.{names_after};
    ghost use Rattle.mem_host.specs.Holding.{Naming, coded_naming};

    ghost Value = { Naming };

    ghost coded = { coded_naming };

    ghost use Rattle.mem_host.specs.Entries.{names_of};

    ghost view = { λ a. record { base = names_of a.base.items; steps = reverse a.steps.items } };

    ghost invariant = { λ a. a.current ≡ names_after (names_of a.base.items) (reverse a.steps.items) };
}

impl MemNaming {
    /// These names, with no step.
    pub fn new(alloc: Global, names: MemNames) -> Result<MemNaming, AllocError>
        ensures { IfOk result (λ naming. naming ≡ record { base = names; steps = [] }) }
    {
        Ok(MemNaming {
            base: names.entries(alloc)?,
            steps: Vec::new(alloc),
            current: names,
        })
    }

    /// The names that there are.
    pub fn now(&self) -> &MemNames
        ensures { result.now ≡ names_after self.now.base self.now.steps }
    {
        &self.current
    }

    /// Takes a step that fits. After refused memory all is as it was.
    pub fn take(&mut self, step: MemStep) -> Result<(), AllocError>
        requires { Fits (step_of step) (names_after self.old.base self.old.steps) }
        ensures ok { OnOk result (self.new ≡ record {
          base = self.old.base;
          steps = begun (step_of step) ∷ before_step (step_of step) self.old.steps;
        }) }
        ensures err { OnErr result (self.new ≡ self.old) }
    {
        self.steps.push(MemPending::begun(step.copied()))?;
        if let Err(error) = self.current.apply(&step) {
            self.steps.pop();
            return Err(error);
        }
        if let MemStep::Dropped(path) = &step {
            lose_folder(&mut self.steps, path);
        }
        Ok(())
    }

    /// A folder was flushed.
    pub fn flush(&mut self, folder: &VaultPath)
        ensures { self.new ≡ record self.old { steps = map (flushed folder.now) self.old.steps } }
    {
        flush(&mut self.steps, folder);
    }

    /// The names that a power cut leaves: of the steps that don't last yet those that are chosen, where they fit.
    pub fn left(&self, alloc: Global, choices: &mut Choices) -> Result<MemNames, AllocError>
        ensures { IfOk result (λ names. MayName self.now.base self.now.steps names) }
    {
        let mut names = MemNames::from_entries(alloc, &self.base)?;
        for pending in &self.steps {
            names = left_after(names, pending, choices)?;
        }
        Ok(names)
    }
}

// The names after a step that lasts, or that is chosen, if it fits.
fn left_after(
    mut names: MemNames,
    pending: &MemPending,
    choices: &mut Choices,
) -> Result<MemNames, AllocError>
    ensures { IfOk result (λ after. IsTaken pending.now names after) }
{
    if !pending.lasts() && !choices.wants_name() {
        return Ok(names);
    }
    if !names.fits(pending.step()) {
        return Ok(names);
    }
    names.apply(pending.step())?;
    Ok(names)
}

// A folder was flushed.
fn flush(steps: &mut [MemPending], folder: &VaultPath)
    ensures { steps.new ≡ map (flushed folder.now) steps.old }
{
    for index in 0..steps.len() {
        let pending = &mut steps[index];
        pending.flush(folder);
    }
}

// A folder went.
fn lose_folder(steps: &mut [MemPending], folder: &VaultPath)
    ensures { steps.new ≡ map (without_folder folder.now) steps.old }
{
    for index in 0..steps.len() {
        let pending = &mut steps[index];
        pending.lose_folder(folder);
    }
}
