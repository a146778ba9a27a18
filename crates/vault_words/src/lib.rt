//! The command line: its words and the job that they name, read by `clap`.
//!
//! ```
//! let job = read_words(alloc, &words)?; // make v
//! assert!(job == Job::Make(Making { dir: "v", passfile: None }));
//! ```
//!
//! `serve DIR --listen ADDR [--sessions N] [--at-once M] [--raw-key] [--read-only] [--passfile FILE] [--idle SECONDS] [-q|-v]`,
//! `make DIR [--passfile FILE]`, `demo --seed S --clients M --requests R`, `sync ADDR` and `recover DIR [--skip|--discard]`, with options in any
//! order, `--listen=-` too, and a DIR that begins with a hyphen after `--`. A number is decimal digits without a sign and a leading zero. `--help`, of the
//! program and of each command, `help COMMAND` and `--version` are jobs too. `complaint` says what is wrong with other words.
#![tactic(auto)]

mod bounds;
mod command;
mod complaints;
mod job;
mod laws;
mod number;
mod texts;

pub use command::vaultd;
pub use complaints::complaint;
pub use job::{Job, Making, Recovering, Serving, Topic, Verbosity, Way, WordsErr, read_words};
pub use laws::{texts_are_the_definitions, words_ask_for_one_thing};
pub use texts::{
    DEMO_HELP, HELP, MAKE_HELP, RECOVER_HELP, SERVE_HELP, SYNC_HELP, VERSION, help_text,
};
