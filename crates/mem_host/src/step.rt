ghost use Rattle.std.specs.Prelude.{◌≡◌, ◌↔◌, [], Some, IsTrue, map};
ghost use Rattle.std.specs.Option.{option_to_list};
ghost use Rattle.host_calls.specs.Names.{begun, flushed, without, instead, without_folder};
ghost use Rattle.mem_host.specs.Steps.{step_of, folders_left};

use host_calls::Inode;
use std::marker::Model;
use vault_path::VaultPath;

/// A step that changes names. Clauses see it by `step_of`.
#[derive(Drop)]
pub enum MemStep {
    MadeFolder(VaultPath),
    MadeFile(VaultPath, Inode),
    Moved(VaultPath, VaultPath),
    Dropped(VaultPath),
}

impl MemStep {
    /// The same step once more. It takes no memory.
    pub fn copied(&self) -> MemStep
        ensures { step_of result ≡ step_of self.now }
    {
        match self {
            MemStep::MadeFolder(path) => MemStep::MadeFolder(path.copied()),
            MemStep::MadeFile(path, inode) => MemStep::MadeFile(path.copied(), *inode),
            MemStep::Moved(from, to) => MemStep::Moved(from.copied(), to.copied()),
            MemStep::Dropped(path) => MemStep::Dropped(path.copied()),
        }
    }
}

/// A step, and the folders that are still to be flushed before it lasts.
#[derive(Drop)]
pub struct MemPending {
    step: MemStep,
    first: Option<VaultPath>,
    second: Option<VaultPath>,
}

impl Model for MemPending {
    ghost use Rattle.host_calls.specs.Names.{Pending};
    ghost use Rattle.mem_host.specs.Codes.{coded_pending};

    ghost Value = { Pending };

    ghost coded = { coded_pending };

    ghost use Rattle.mem_host.specs.Steps.{step_of, folders_left};

    ghost view = { λ a. record { step = step_of a.step; to_flush = folders_left a.first a.second } };
}

impl MemPending {
    /// A step that was just taken.
    pub fn begun(step: MemStep) -> MemPending
        ensures { result ≡ begun (step_of step) }
    {
        match step {
            MemStep::MadeFolder(path) => {
                let folder = path.parent();
                MemPending::of(MemStep::MadeFolder(path), folder, None)
            }
            MemStep::MadeFile(path, inode) => {
                let folder = path.parent();
                MemPending::of(MemStep::MadeFile(path, inode), folder, None)
            }
            MemStep::Moved(from, to) => {
                let folder = to.parent();
                let left = from.parent();
                MemPending::of(MemStep::Moved(from, to), folder, Some(left))
            }
            MemStep::Dropped(path) => {
                let folder = path.parent();
                MemPending::of(MemStep::Dropped(path), folder, None)
            }
        }
    }

    // A step whose folders are these.
    fn of(step: MemStep, folder: VaultPath, other: Option<VaultPath>) -> MemPending
        ensures { result ≡ record { step = step_of step; to_flush = folders_left (Some folder) other } }
    {
        MemPending {
            step,
            first: Some(folder),
            second: other,
        }
    }

    /// The step.
    pub fn step(&self) -> &MemStep
        ensures { step_of result.now ≡ self.now.step }
    {
        &self.step
    }

    /// Whether it lasts.
    pub fn lasts(&self) -> bool
        ensures { IsTrue result ↔ (self.now.to_flush ≡ []) }
    {
        self.first.is_none() && self.second.is_none()
    }

    /// A folder was flushed.
    pub fn flush(&mut self, folder: &VaultPath)
        ensures { self.new ≡ flushed folder.now self.old }
    {
        flush_one(&mut self.first, folder);
        flush_one(&mut self.second, folder);
    }

    /// A folder went.
    pub fn lose_folder(&mut self, folder: &VaultPath)
        ensures { self.new ≡ without_folder folder.now self.old }
    {
        lose_one(&mut self.first, folder);
        lose_one(&mut self.second, folder);
    }
}

// A folder was flushed, which may be this one.
fn flush_one(left: &mut Option<VaultPath>, folder: &VaultPath)
    ensures { option_to_list left.new ≡ without folder.now (option_to_list left.old) }
{
    if is_left(left, folder) {
        *left = None;
    }
}

// A folder went, which may be this one: then it is the one that it was in.
fn lose_one(left: &mut Option<VaultPath>, folder: &VaultPath)
    ensures { option_to_list left.new ≡ map (instead folder.now) (option_to_list left.old) }
{
    if is_left(left, folder) {
        *left = Some(folder.parent());
    }
}

// Whether it is this folder.
fn is_left(left: &Option<VaultPath>, folder: &VaultPath) -> bool
    ensures { IsTrue result ↔ (left.now ≡ Some folder.now) }
{
    match left {
        None => false,
        Some(path) => path == folder,
    }
}
