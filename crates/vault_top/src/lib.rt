//! The whole program over any folder, streams and clock, and why a job of it isn't done.
//!
//! # Causes
//!
//! Why a job of the program isn't done: the exit status for it, and its line of the report.
//!
//! ```
//! let cause = Cause::from(unlock(alloc, kind, &mut folder, &mut secret).unwrap_err()); // no masterkey file
//! assert_eq!(cause.status(), 3);
//! assert_eq!(cause.line(&mut Buffer::new()).head, "vault refused: no masterkey file");
//! ```
//!
//! # Jobs
//!
//! Does the job that the command line names: serves a vault, makes one, holds a demonstration, or says how the program is called.
//! A vault is served for so many sessions as the words say, or else for 4,294,967,295. Of one that is served read-only nothing in its folder is changed: its
//! requests are answered over a folder that by its type can only be read, and a vault whose journal is open is refused.
//!
//! ```
//! let ended = run(&rt, rt.alloc(), &words, folder, &mut workers, &mut secret, &mut out, &clock, &gate, &stopped);
//! exit(ended.status);
//! ```
#![tactic(auto)]

mod cause;
mod demonstrating;
mod file_lines;
mod laws;
mod line;
mod making;
mod opening;
mod program;
mod report;
mod serving;
mod task;
mod vault;
mod viewing;

pub use cause::Cause;
pub use laws::{
    a_demonstration_answers_as_the_step, a_demonstration_is_held, a_new_vault_is_its_root,
    a_read_only_run_changes_nothing, a_sound_run_answers_as_the_step, a_sound_run_ends_with_0_or_5,
    a_sound_vault_is_served, a_stopped_vault_is_soundly_found, an_empty_folder_becomes_a_vault,
    no_stop_damages_a_journal, refused_words_are_bad,
};
pub use line::Line;
pub use program::{Ended, report_in_use, report_no_socket, run};
pub use report::report as report_text;
pub use shared_tree::Worker;
