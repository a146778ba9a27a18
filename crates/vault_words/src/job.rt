ghost use Rattle.std.specs.Prelude.{◌≡◌, IfOk, IfErr, MatchResult, codes, map, option_map};
ghost use Rattle.std.specs.String.{string_bytes};
ghost use Rattle.clap.specs.Words.{first_of, found_of, kind_of, rows_of, subcommand_rows_of};
ghost use Rattle.vault_words.specs.Jobs.{AsksFor, demo, demonstration_in, has_flag, job_in, job_named, making_in, number_at};
ghost use Rattle.vault_words.specs.Jobs.{recover, recovering_in, serving_in, sessions_in, sync, topic_at, topic_in, topic_named, way_in, way_of};
ghost use Rattle.vault_words.specs.Jobs.{verbosity_in, verbosity_of, verbosity_of_count};
ghost use Rattle.vault_words.specs.Read.{IsCause, IsRefusalBy, IsRequestFor, job_data, making_data, recovering_data, serving_data};

use crate::bounds::{AT_ONCE, Bounds, CLIENTS, IDLE, REQUESTS, SEED, SESSIONS};
use crate::command::matches;
use crate::number::number;
use clap::error::ErrorKind;
use clap::{ArgMatches, Error};
use std::alloc::Global;
use std::fmt;

/// What the words ask for. The texts are the words' own.
#[derive(Clone, Copy, Debug, PartialEq, Eq)]
pub enum Job<'a> {
    /// Serves a vault.
    Serve(Serving<'a>),
    /// Makes a new vault.
    Make(Making<'a>),
    /// Serves the scripts of so many `clients` (1 to 64), each of so many `requests` (0 to 100,000), on a vault in memory.
    Demo {
        seed: u64,
        clients: u64,
        requests: u64,
    },
    /// Asks the server at `address` to put on disk what was written.
    Sync {
        address: &'a str,
    },
    /// Shows what a vault's open journal holds, or closes it.
    Recover(Recovering<'a>),
    /// Prints the help of a topic: `help_text`.
    Help(Topic),
    /// Prints `VERSION`.
    Version,
}

/// How a vault is served.
#[derive(Clone, Copy, Debug, PartialEq, Eq)]
pub struct Serving<'a> {
    /// The vault's folder.
    pub dir: &'a str,
    /// The address to listen on, `-` being standard input and output.
    pub address: &'a str,
    /// How many sessions are served, 1 to 1,000,000; `None`: it serves until it is stopped.
    pub sessions: Option<u64>,
    /// How many of them at once, 1 to 64; 8 if nothing is said.
    pub at_once: u64,
    /// The secret is the two keys.
    pub raw_key: bool,
    /// Nothing in the folder is changed.
    pub read_only: bool,
    /// The file whose first line is the secret; `None`: standard input.
    pub passfile: Option<&'a str>,
    /// The seconds after which a session in which nothing came is ended, 0 to 1,000,000; 0: never.
    pub idle: u64,
    pub verbosity: Verbosity,
}

/// How a vault is made.
#[derive(Clone, Copy, Debug, PartialEq, Eq)]
pub struct Making<'a> {
    /// An empty folder.
    pub dir: &'a str,
    /// The file whose first line is the password; `None`: standard input.
    pub passfile: Option<&'a str>,
}

/// What is made of a vault's open journal.
#[derive(Clone, Copy, Debug, PartialEq, Eq)]
pub struct Recovering<'a> {
    /// The vault's folder.
    pub dir: &'a str,
    pub way: Way,
}

/// What becomes of the changes that an open journal holds.
#[derive(Clone, Copy, Debug, PartialEq, Eq)]
pub enum Way {
    /// They are shown.
    Show,
    /// Those that fit the folder are made, and the others left out (`--skip`).
    Skip,
    /// The journal is put aside (`--discard`).
    Discard,
}

/// What is written on standard error.
#[derive(Clone, Copy, Debug, PartialEq, Eq)]
pub enum Verbosity {
    /// Faults alone (`-q`).
    Quiet,
    /// As neither is given.
    Usual,
    /// Sessions too (`-v`).
    Verbose,
    /// Names too (`-vv`).
    VeryVerbose,
}

/// What help is about: the program, or one of its commands.
#[derive(Clone, Copy, Debug, PartialEq, Eq)]
pub enum Topic {
    Program,
    Serve,
    Make,
    Demo,
    Sync,
    Recover,
}

/// Why the arguments were rejected.
#[derive(Clone, Copy, Debug, PartialEq, Eq)]
pub enum WordsErr {
    /// clap doesn't take the words, or a number isn't decimal digits without a sign and a leading zero, or is out of its range, or both
    /// `-q` and `-v` or both `--skip` and `--discard` are given, or `help` is asked about what is no command.
    Refused,
    /// Memory ran out, which says nothing of the words.
    Memory,
}

impl fmt::Display for WordsErr {
    ghost use Rattle.std.specs.Prelude.{Some};
    ghost use Rattle.vault_words.specs.Read.{error_text};

    ghost output = { λ e. Some (error_text e) };

    fn fmt<W: fmt::Write>(&self, f: &mut fmt::Formatter<W>) -> fmt::Result {
        f.write_str(match self {
            WordsErr::Refused => "bad words",
            WordsErr::Memory => "out of memory",
        })
    }
}

impl std::error::Error for WordsErr {}

/// The job that the words after the program's name ask for.
pub fn read_words<'a>(alloc: Global, words: &'a [String]) -> Result<Job<'a>, WordsErr>
    ensures job { IfOk result (λ job. AsksFor (job_data job) (map string_bytes words.entry.now)) }
    ensures cause { IfErr result (λ e. IsCause e (map string_bytes words.entry.now)) }
{
    match matches(alloc, words) {
        Ok(matches) => job_of(&matches).ok_or(WordsErr::Refused),
        Err(error) => request_of(&error, topic_at(words)),
    }
}

// What an error of clap's amounts to: help, of this topic, and the version are jobs.
fn request_of<'a>(error: &Error, topic: Topic) -> Result<Job<'a>, WordsErr>
    ensures { MatchResult result (λ job. IsRequestFor (kind_of error.now) topic (job_data job)) (λ e. IsRefusalBy (kind_of error.now) e) }
{
    match error.kind() {
        ErrorKind::DisplayHelp => Ok(Job::Help(topic)),
        ErrorKind::DisplayVersion => Ok(Job::Version),
        ErrorKind::OutOfMemory => Err(WordsErr::Memory),
        _ => Err(WordsErr::Refused),
    }
}

// What `--help` is about.
fn topic_at(words: &[String]) -> Topic
    ensures { result ≡ topic_at (map string_bytes words.now) }
{
    match words.first() {
        Some(word) => topic_named(word).unwrap_or(Topic::Program),
        None => Topic::Program,
    }
}

fn topic_named(name: &str) -> Option<Topic>
    ensures { result ≡ topic_named name.now }
{
    match name {
        "serve" => Some(Topic::Serve),
        "make" => Some(Topic::Make),
        "demo" => Some(Topic::Demo),
        "sync" => Some(Topic::Sync),
        "recover" => Some(Topic::Recover),
        _ => None,
    }
}

// The job of a command and its matches.
fn job_of<'a>(matches: &ArgMatches<'a>) -> Option<Job<'a>>
    ensures { option_map job_data result ≡ job_in (subcommand_rows_of matches.now) }
{
    let (name, matches) = matches.subcommand()?;
    job_named(name, matches)
}

fn job_named<'a>(name: &str, matches: &ArgMatches<'a>) -> Option<Job<'a>>
    ensures { option_map job_data result ≡ job_named name.now (rows_of (found_of matches.now)) }
{
    match name {
        "serve" => Some(Job::Serve(serving_in(matches)?)),
        "make" => Some(Job::Make(making_in(matches)?)),
        "demo" => demo(matches),
        "sync" => sync(matches),
        "recover" => Some(Job::Recover(recovering_in(matches)?)),
        "help" => Some(Job::Help(topic_in(matches)?)),
        _ => None,
    }
}

fn serving_in<'a>(matches: &ArgMatches<'a>) -> Option<Serving<'a>>
    ensures { option_map serving_data result ≡ serving_in (rows_of (found_of matches.now)) }
{
    Some(Serving {
        dir: text(matches, "dir")?,
        address: text(matches, "listen")?,
        sessions: sessions(matches)?,
        at_once: number_at(matches, &AT_ONCE)?,
        idle: number_at(matches, &IDLE)?,
        verbosity: verbosity_in(matches)?,
        raw_key: has_flag(matches, "raw-key"),
        read_only: has_flag(matches, "read-only"),
        passfile: text(matches, "passfile"),
    })
}

fn making_in<'a>(matches: &ArgMatches<'a>) -> Option<Making<'a>>
    ensures { option_map making_data result ≡ making_in (rows_of (found_of matches.now)) }
{
    Some(Making {
        dir: text(matches, "dir")?,
        passfile: text(matches, "passfile"),
    })
}

fn demo<'a>(matches: &ArgMatches<'a>) -> Option<Job<'a>>
    ensures { option_map job_data result ≡ option_map demo (demonstration_in (rows_of (found_of matches.now))) }
{
    Some(Job::Demo {
        seed: number_at(matches, &SEED)?,
        clients: number_at(matches, &CLIENTS)?,
        requests: number_at(matches, &REQUESTS)?,
    })
}

fn sync<'a>(matches: &ArgMatches<'a>) -> Option<Job<'a>>
    ensures { option_map job_data result ≡ option_map sync (first_of (codes "address") (rows_of (found_of matches.now))) }
{
    Some(Job::Sync {
        address: text(matches, "address")?,
    })
}

fn recovering_in<'a>(matches: &ArgMatches<'a>) -> Option<Recovering<'a>>
    ensures { option_map recovering_data result ≡ recovering_in (rows_of (found_of matches.now)) }
{
    Some(Recovering {
        dir: text(matches, "dir")?,
        way: way_in(matches)?,
    })
}

fn way_in(matches: &ArgMatches<'_>) -> Option<Way>
    ensures { result ≡ way_in (rows_of (found_of matches.now)) }
{
    way_of(has_flag(matches, "skip"), has_flag(matches, "discard"))
}

fn way_of(skip: bool, discard: bool) -> Option<Way>
    ensures { result ≡ way_of skip discard }
{
    if skip {
        if discard { None } else { Some(Way::Skip) }
    } else if discard {
        Some(Way::Discard)
    } else {
        Some(Way::Show)
    }
}

fn topic_in(matches: &ArgMatches<'_>) -> Option<Topic>
    ensures { result ≡ topic_in (rows_of (found_of matches.now)) }
{
    match text(matches, "command") {
        Some(name) => topic_named(name),
        None => Some(Topic::Program),
    }
}

// How many sessions are served, if that is said.
fn sessions(matches: &ArgMatches<'_>) -> Option<Option<u64>>
    ensures { result ≡ sessions_in (rows_of (found_of matches.now)) }
{
    match text(matches, "sessions") {
        Some(text) => Some(Some(number(text, SESSIONS.least, SESSIONS.most)?)),
        None => Some(None),
    }
}

fn verbosity_in(matches: &ArgMatches<'_>) -> Option<Verbosity>
    ensures { result ≡ verbosity_in (rows_of (found_of matches.now)) }
{
    verbosity_of(has_flag(matches, "quiet"), matches.get_count("verbose"))
}

fn verbosity_of(quiet: bool, count: u8) -> Option<Verbosity>
    ensures { result ≡ verbosity_of quiet count }
{
    if quiet {
        if count == 0 {
            Some(Verbosity::Quiet)
        } else {
            None
        }
    } else {
        Some(verbosity_of_count(count))
    }
}

fn verbosity_of_count(count: u8) -> Verbosity
    ensures { result ≡ verbosity_of_count count }
{
    if count == 0 {
        Verbosity::Usual
    } else if count == 1 {
        Verbosity::Verbose
    } else {
        Verbosity::VeryVerbose
    }
}

fn has_flag(matches: &ArgMatches<'_>, id: &str) -> bool
    ensures { result ≡ has_flag id.now (rows_of (found_of matches.now)) }
{
    match text(matches, id) {
        Some(text) => text == "true",
        None => false,
    }
}

fn number_at(matches: &ArgMatches<'_>, bounds: &Bounds) -> Option<u64>
    ensures { result ≡ number_at bounds.now.name.now bounds.now.least bounds.now.most (rows_of (found_of matches.now)) }
{
    number(text(matches, bounds.name)?, bounds.least, bounds.most)
}

pub(crate) fn text<'a>(matches: &ArgMatches<'a>, id: &str) -> Option<&'a str>
    ensures { option_map (λ text. text.now) result ≡ first_of id.now (rows_of (found_of matches.now)) }
{
    matches.get_str(id)
}
