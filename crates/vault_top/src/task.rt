//! What the words after the program's name ask for.

ghost use Rattle.std.specs.Prelude.{◌≡◌, MatchOption, IfOk, IfErr};
ghost use Rattle.vault_words.specs.Jobs.{serve};
ghost use Rattle.vault_words.specs.Read.{job_data, serving_data};
ghost use Rattle.vault_top.specs.Words.{IsOffered, kind_where, words_of};
ghost use Rattle.vault_top.specs.Tasks.{AskTask, IsServiceOf, IsTaskOf, IsWithin, IsWordsCause};

use std::alloc::Global;
use unlocking::SecretKind;
use vault_words::{Job, Serving, Topic, WordsErr, read_words};

/// What is served: a vault that a secret of this kind unlocks, over the links of the workers' listeners, be it only to be read. There are so many sessions,
/// 1 to 2^32 - 1, of which so many are served at once, 1 to 64.
#[derive(Clone, Copy, Debug, PartialEq, Eq)]
pub(crate) struct Service {
    pub kind: SecretKind,
    pub sessions: u32,
    pub at_once: u32,
    pub read_only: bool,
}

// How many sessions are served if the words don't say it: the most that are counted.
const MOST_SESSIONS: u64 = u32::MAX as u64;

/// What is demonstrated: the scripts of so many clients, 1 to 64, each of so many requests, drawn from this seed.
#[derive(Clone, Copy, Debug, PartialEq, Eq)]
pub(crate) struct Scripts {
    pub seed: u64,
    pub clients: u32,
    pub requests: u32,
}

/// What is to be done.
#[derive(Clone, Copy, Debug, PartialEq, Eq)]
pub(crate) enum Task {
    /// Serves a vault.
    Serve(Service),
    /// Makes a vault under the secret's password.
    Make,
    /// Serves clients' scripts on a vault in memory.
    Demo(Scripts),
    /// Says how the program is called.
    Help(Topic),
    /// Says its version.
    Version,
}

/// The task that the words ask for.
pub(crate) fn read_task(alloc: Global, words: &[String]) -> Result<Task, WordsErr>
    ensures task { IfOk result (AskTask (words_of words.now)) }
    ensures cause { IfErr result (IsWordsCause (words_of words.now)) }
{
    task_of(read_words(alloc, words)?).ok_or(WordsErr::Refused)
}

// The task of a job, if the program does it.
fn task_of(job: Job<'_>) -> Option<Task>
    requires within { IsWithin (job_data job) }
    ensures task { MatchOption result (IsOffered (job_data job.entry) → ⊥)
        (λ task. IsOffered (job_data job.entry) × IsTaskOf (job_data job.entry) task) }
{
    match job {
        Job::Serve(serving) => {
            if serving.address.is_empty() {
                return None;
            }
            Some(Task::Serve(service_of(&serving)))
        }
        Job::Make(_) => Some(Task::Make),
        Job::Demo {
            seed,
            clients,
            requests,
        } => Some(Task::Demo(Scripts {
            seed,
            clients: clients as u32,
            requests: requests as u32,
        })),
        Job::Sync { .. } => None,
        Job::Recover(_) => None,
        Job::Help(topic) => Some(Task::Help(topic)),
        Job::Version => Some(Task::Version),
    }
}

fn service_of(serving: &Serving<'_>) -> Service
    requires within { IsWithin (serve (serving_data serving.now)) }
    ensures { IsServiceOf (serving_data serving.now) result }
{
    Service {
        kind: kind_of(serving.raw_key),
        sessions: serving.sessions.unwrap_or(MOST_SESSIONS) as u32,
        at_once: serving.at_once as u32,
        read_only: serving.read_only,
    }
}

// What the secret is.
fn kind_of(raw_key: bool) -> SecretKind
    ensures { result ≡ kind_where raw_key }
{
    if raw_key {
        SecretKind::RawKeys
    } else {
        SecretKind::Password
    }
}
