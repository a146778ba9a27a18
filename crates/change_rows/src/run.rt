// A script's run over a folder, in which something may fail.

use crate::error::RunErr;
use crate::table::{Script, Step};
use crate::vault::{ROOM, SECOND, Vault, open, seeded, tree_in, tree_of};
use crate::words::words;
use outside_mem::{MemFolder, SeedEntropy};

/// How a script is run.
#[derive(Clone, Copy, Debug, PartialEq, Eq)]
pub(crate) enum Manner {
    /// The requests alone.
    Plain,
    /// With a look at the tree after each request.
    Looking,
    /// The same, if the random source draws the same bytes for each request.
    Redrawing,
}

/// How many requests began, how many of them were answered, up to which one no stop undoes them, of how many at least the disk has the
/// tree in the end, and how often something failed.
#[derive(Clone, Copy, Debug, PartialEq, Eq)]
pub(crate) struct Progress {
    pub begun: usize,
    pub answered: usize,
    pub stable: usize,
    pub kept: usize,
    pub faults: u64,
}

/// What is left of a run.
#[derive(Drop)]
pub(crate) struct Ended {
    pub progress: Progress,
    pub folder: MemFolder,
    pub entropy: SeedEntropy,
}

// A run under way.
#[derive(Drop)]
struct Run<'a, 'b> {
    script: &'a Script<'b>,
    manner: Manner,
    vault: Vault,
    entropy: SeedEntropy,
    progress: Progress,
}

/// Runs a script over a folder, and closes the vault. If the folder fails as the vault is opened, that is done once more, and if
/// something fails in a request, that is asked once more.
pub(crate) fn run_script(
    script: &Script<'_>,
    manner: Manner,
    folder: MemFolder,
    entropy: SeedEntropy,
) -> Result<Ended, RunErr> {
    let mut progress = Progress::none();
    let mut opened = open(script.alloc, folder);
    if let Err(refused) = opened {
        progress.faults = 1;
        opened = open(script.alloc, refused.folder);
    }
    match opened {
        Ok(vault) => Run {
            script,
            manner,
            vault,
            entropy,
            progress,
        }
        .finish(),
        Err(refused) => Ok(Ended {
            progress,
            folder: refused.folder,
            entropy,
        }),
    }
}

/// Runs the first requests of a script, in which nothing fails, and stops there: what waits then is lost. The folder holds the tree after
/// the last request that no stop undoes, and no later one.
pub(crate) fn check_stop(script: &Script<'_>, count: usize) -> Result<(), RunErr> {
    let alloc = script.alloc;
    let vault = match open(alloc, script.folder()?) {
        Ok(vault) => vault,
        Err(refused) => return Err(RunErr::Open(refused.cause)),
    };
    let mut run = Run {
        script,
        manner: Manner::Plain,
        vault,
        entropy: seeded(alloc),
        progress: Progress::none(),
    };
    run.go(count)?;
    let Run {
        vault,
        progress,
        ..
    } = run;
    let tree = tree_in(alloc, vault.into_folder())?;
    script.check_tree(progress.stable, progress.stable, tree.as_str())
}

impl Progress {
    fn none() -> Progress {
        Progress {
            begun: 0,
            answered: 0,
            stable: 0,
            kept: 0,
            faults: 0,
        }
    }
}

impl Ended {
    /// So many times something failed, and the folder holds the tree after the requests that were answered, or with the one that wasn't;
    /// if a commit failed, at least that after those that no stop undoes.
    pub(crate) fn check(self, script: &Script<'_>, faults: u64) -> Result<(), RunErr> {
        let Ended {
            progress,
            folder,
            ..
        } = self;
        if progress.faults != faults {
            let told = progress.faults;
            return Err(RunErr::Wrong(format!(in script.alloc;
                "{faults} times something failed, and {told} times it is told"
            )?));
        }
        let tree = tree_in(script.alloc, folder)?;
        script.check_tree(progress.kept, progress.begun, tree.as_str())
    }
}

fn is_fault(words: &str) -> bool {
    words == "refused DeviceFault" || words == "refused RandomFault"
}

impl Run<'_, '_> {
    // Asks for all that the script does, and closes the vault.
    fn finish(mut self) -> Result<Ended, RunErr> {
        let count = self.script.steps.len();
        let stopped = self.go(count)?;
        let Run {
            script,
            vault,
            entropy,
            mut progress,
            ..
        } = self;
        let (folder, closed) = vault.close();
        let committed = closed.committed();
        if stopped && committed.is_ok() {
            return Err(RunErr::Wrong(format!(in script.alloc;
                "closing is well after a commit that failed"
            )?));
        }
        progress.kept = progress.answered;
        if committed.is_err() {
            progress.kept = progress.stable;
            // what waited was to be committed, and that failed
            if !stopped {
                progress.faults = progress.faults.saturating_add(1);
            }
        }
        Ok(Ended {
            progress,
            folder,
            entropy,
        })
    }

    // Asks for so many of the requests. Each reply is the wanted one; or something failed, and asked once more it is the wanted one, with all as it was before, or the store
    // stopped there and says so from then on. If something fails twice, the run ends. Gives whether the store stopped.
    fn go(&mut self, count: usize) -> Result<bool, RunErr> {
        let script = self.script;
        let mut stop: Option<String> = None;
        for step in script.steps.iter().take(count) {
            let entry = self.vault.entries();
            let mut words = self.ask(step)?;
            if let Some(stop) = &stop {
                self.check_reply(words.as_str(), stop.as_str())?;
                continue;
            }
            self.progress.begun = self.progress.begun.saturating_add(1);
            if is_fault(words.as_str()) {
                self.progress.faults = self.progress.faults.saturating_add(1);
                self.look()?;
                words = self.ask(step)?;
                let stopped = format!(in script.alloc; "refused Stopped({entry})")?;
                if words.as_str() == stopped.as_str() {
                    stop = Some(stopped);
                    continue;
                }
                if is_fault(words.as_str()) {
                    break;
                }
            }
            self.check_reply(words.as_str(), step.reply)?;
            self.progress.answered = self.progress.begun;
            if step.is_stable() && !words.as_str().starts_with("refused") {
                self.progress.stable = self.progress.begun;
            }
            self.look()?;
        }
        Ok(stop.is_some())
    }

    // Asks, and returns the words of the reply.
    fn ask(&mut self, step: &Step<'_>) -> Result<String, RunErr> {
        let alloc = self.script.alloc;
        if self.manner == Manner::Redrawing {
            self.entropy = seeded(alloc);
        }
        let mut buffer = [0; ROOM];
        let request = step.request()?;
        let entropy = &mut self.entropy;
        let reply = self.vault.serve(&request, SECOND, entropy, &mut buffer);
        words(alloc, &reply, &buffer)
    }

    fn check_reply(&self, found: &str, wanted: &str) -> Result<(), RunErr> {
        if found == wanted {
            return Ok(());
        }
        let count = self.progress.begun;
        Err(RunErr::Wrong(format!(in self.script.alloc;
            "request {count} is answered \"{found}\", not \"{wanted}\""
        )?))
    }

    // The tree in memory is the one after the requests that were answered.
    fn look(&mut self) -> Result<(), RunErr> {
        if self.manner == Manner::Plain {
            return Ok(());
        }
        let found = tree_of(self.script.alloc, &mut self.vault)?;
        let count = self.progress.answered;
        self.script.check_tree(count, count, found.as_str())
    }
}
