ghost use Rattle.std.specs.Prelude.{IfOk, MatchOption, map};
ghost use Rattle.std.specs.String.{string_bytes};
ghost use Rattle.vault_words.specs.Jobs.{AskForSome, IsRefused};

use crate::bounds::{AT_ONCE, Bounds, CLIENTS, IDLE, REQUESTS, SEED, SESSIONS};
use crate::command::matches;
use crate::job::{WordsErr, read_words, text};
use crate::number::number;
use clap::ArgMatches;
use clap::error::ErrorKind;
use std::alloc::{AllocError, Global};

/// What is wrong with words that `read_words` refuses, for standard error: clap's own text, or of a number and of words that don't go
/// together one in its form. `None` if the words ask for a job.
pub fn complaint<'a>(alloc: Global, words: &'a [String]) -> Result<Option<String>, AllocError>
    ensures { IfOk result (λ told.
        MatchOption told (AskForSome (map string_bytes words.entry.now)) (λ _. IsRefused (map string_bytes words.entry.now))) }
{
    match read_words(alloc, words) {
        Ok(_) => Ok(None),
        Err(WordsErr::Refused) => Ok(Some(refusal(alloc, words)?)),
        Err(WordsErr::Memory) => Err(AllocError),
    }
}

// The words are read once more, for the text alone.
fn refusal(alloc: Global, words: &[String]) -> Result<String, AllocError> {
    match matches(alloc, words) {
        Ok(matches) => match misfit(alloc, &matches)? {
            Some(text) => Ok(text),
            // Nothing comes here, which is not proved.
            None => String::from_str(
                alloc,
                "error: bad words\n\nFor more information, try '--help'.\n",
            ),
        },
        Err(error) => match error.kind() {
            ErrorKind::OutOfMemory => Err(AllocError),
            _ => format!(in alloc; "{error}"),
        },
    }
}

// What is wrong with words that clap takes.
fn misfit(alloc: Global, matches: &ArgMatches<'_>) -> Result<Option<String>, AllocError> {
    match matches.subcommand() {
        Some((name, matches)) => match name {
            "serve" => match number_misfit(alloc, matches, &[SESSIONS, AT_ONCE, IDLE])? {
                Some(text) => Ok(Some(text)),
                None => Ok(Some(conflict(alloc, "--quiet", "--verbose...")?)),
            },
            "recover" => Ok(Some(conflict(alloc, "--skip", "--discard")?)),
            "demo" => number_misfit(alloc, matches, &[SEED, CLIENTS, REQUESTS]),
            _ => topic_misfit(alloc, matches),
        },
        None => Ok(None),
    }
}

// The first number that is out of form or range.
fn number_misfit(
    alloc: Global,
    matches: &ArgMatches<'_>,
    all: &[Bounds],
) -> Result<Option<String>, AllocError> {
    for bounds in all {
        if let Some(text) = text(matches, bounds.name) {
            if number(text, bounds.least, bounds.most).is_none() {
                return Ok(Some(number_text(alloc, text, bounds)?));
            }
        }
    }
    Ok(None)
}

fn number_text(alloc: Global, text: &str, bounds: &Bounds) -> Result<String, AllocError> {
    let Bounds {
        name,
        value,
        least,
        most,
    } = bounds;
    format!(in alloc;
        "error: invalid value '{text}' for '--{name} <{value}>': {least} to {most}\n\nFor more information, try '--help'.\n"
    )
}

fn conflict(alloc: Global, one: &str, other: &str) -> Result<String, AllocError> {
    format!(in alloc;
        "error: the argument '{one}' cannot be used with '{other}'\n\nFor more information, try '--help'.\n"
    )
}

fn topic_misfit(alloc: Global, matches: &ArgMatches<'_>) -> Result<Option<String>, AllocError> {
    match text(matches, "command") {
        Some(name) => Ok(Some(topic_text(alloc, name)?)),
        None => Ok(None),
    }
}

fn topic_text(alloc: Global, name: &str) -> Result<String, AllocError> {
    format!(in alloc;
        "error: unrecognized subcommand '{name}'\n\nUsage: vaultd help [COMMAND]\n\nFor more information, try '--help'.\n"
    )
}
