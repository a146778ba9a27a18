ghost use Rattle.std.specs.Prelude.{◌≡◌, IfOk, false, map};
ghost use Rattle.std.specs.String.{string_bytes};
ghost use Rattle.clap.specs.Words.{FailsBy, app_of, fault_of, rule_of, subcommand_of, subcommand_rows_of};
ghost use Rattle.clap.specs.declared.builder.command.Command.TheViews.{out-Command as fields_of};
ghost use Rattle.vault_words.specs.Command.{bare, counted_flag, demo, flag, help, make, option, option_or, required_option, required_word};
ghost use Rattle.vault_words.specs.Command.{serve, serve_with_numbers, serve_with_places, serve_with_secret, short_flag, sync, vaultd};
ghost use Rattle.vault_words.specs.Command.{recover, with_demo, with_make, with_recover, with_serve, with_sync, word};

use clap::{Arg, ArgAction, ArgMatches, Command, Error};
use std::alloc::{AllocError, Global};

const EXAMPLES: &str = "\
Examples:
  vaultd make DIR --passfile FILE
  vaultd serve DIR --listen unix:PATH --passfile FILE
  vaultd serve DIR --listen 127.0.0.1:564 --read-only <FILE

Exit status:
  0   the vault was served, made, synced or recovered, the demonstration held, or help or the version printed
  1   the words are bad
  2   the secret is no password or no two keys, or the wrong one
  3   the vault is refused
  4   input, output or the random source failed, or DIR does not exist
  5   out of memory
  6   the journal of the vault is damaged
  7   the address can't be listened on, or the listener failed
  8   the folder of a new vault isn't empty
  14  the vault is in use
  15  the journal is open, so that the vault can't be served read-only";

/// What clap finds in the words after the program's name.
pub(crate) fn matches<'a>(alloc: Global, words: &'a [String]) -> Result<ArgMatches<'a>, Error>
    ensures found { IfOk result (λ m. subcommand_rows_of m ≡ subcommand_of vaultd (map string_bytes words.entry.now)) }
    ensures faults { FailsBy (fault_of vaultd (map string_bytes words.entry.now)) result }
{
    let command = vaultd(alloc)?;
    command.try_get_matches_from(words)
}

/// The program's command line, for what is made of it: help, a manual page, completions.
pub fn vaultd<'a>(alloc: Global) -> Result<Command<'a>, AllocError>
    ensures { IfOk result (λ command. app_of command ≡ vaultd) }
{
    let command = with_recover(alloc)?;
    let help = help(alloc)?;
    command.subcommand(help)
}

// The program with its first command. A function for each command, as a check of several whose calls may fail is long.
fn with_serve<'a>(alloc: Global) -> Result<Command<'a>, AllocError>
    ensures { IfOk result (λ command. app_of command ≡ with_serve) }
{
    let command = bare(alloc)?;
    let serve = serve(alloc)?;
    command.subcommand(serve)
}

fn with_make<'a>(alloc: Global) -> Result<Command<'a>, AllocError>
    ensures { IfOk result (λ command. app_of command ≡ with_make) }
{
    let command = with_serve(alloc)?;
    let make = make(alloc)?;
    command.subcommand(make)
}

fn with_demo<'a>(alloc: Global) -> Result<Command<'a>, AllocError>
    ensures { IfOk result (λ command. app_of command ≡ with_demo) }
{
    let command = with_make(alloc)?;
    let demo = demo(alloc)?;
    command.subcommand(demo)
}

fn with_sync<'a>(alloc: Global) -> Result<Command<'a>, AllocError>
    ensures { IfOk result (λ command. app_of command ≡ with_sync) }
{
    let command = with_demo(alloc)?;
    let sync = sync(alloc)?;
    command.subcommand(sync)
}

fn with_recover<'a>(alloc: Global) -> Result<Command<'a>, AllocError>
    ensures { IfOk result (λ command. app_of command ≡ with_recover) }
{
    let command = with_sync(alloc)?;
    let recover = recover(alloc)?;
    command.subcommand(recover)
}

// The program without its commands.
fn bare<'a>(alloc: Global) -> Result<Command<'a>, AllocError>
    ensures { IfOk result (λ command. app_of command ≡ bare) }
{
    Command::new(alloc, "vaultd")
        .about("Serves a Cryptomator vault over 9P2000")
        .after_help(EXAMPLES)
        .no_binary_name(true)
        .version("1.0.0")
        .disable_help_subcommand(true)
        .subcommand_required(true)
        .bin_name("vaultd")
}

fn serve<'a>(alloc: Global) -> Result<Command<'a>, AllocError>
    ensures app { IfOk result (λ command. app_of command ≡ serve) }
    ensures local { IfOk result (λ command. (fields_of command).has_globals ≡ false) }
{
    let quiet = short_flag(
        alloc,
        'q',
        "quiet",
        "Writes nothing but faults on standard error",
    );
    let verbose = counted_flag(
        alloc,
        'v',
        "verbose",
        "Writes each session on standard error too, and given twice the names of files",
    );
    let command = serve_with_secret(alloc)?;
    let command = command.arg(quiet)?;
    command.arg(verbose)
}

fn serve_with_secret<'a>(alloc: Global) -> Result<Command<'a>, AllocError>
    ensures app { IfOk result (λ command. app_of command ≡ serve_with_secret) }
    ensures local { IfOk result (λ command. (fields_of command).has_globals ≡ false) }
{
    let read_only = flag(
        alloc,
        "read-only",
        "Changes nothing in DIR, and refuses each request that would",
    );
    let raw_key = flag(
        alloc,
        "raw-key",
        "Takes 128 hexadecimal digits for the secret: the encryption key and the MAC key",
    );
    let passfile = option(
        alloc,
        "passfile",
        "FILE",
        "Takes the secret from the first line of FILE, not of standard input",
    );
    let command = serve_with_numbers(alloc)?;
    let command = command.arg(read_only)?;
    let command = command.arg(raw_key)?;
    command.arg(passfile)
}

fn serve_with_numbers<'a>(alloc: Global) -> Result<Command<'a>, AllocError>
    ensures app { IfOk result (λ command. app_of command ≡ serve_with_numbers) }
    ensures local { IfOk result (λ command. (fields_of command).has_globals ≡ false) }
{
    let sessions = option(
        alloc,
        "sessions",
        "N",
        "Ends after N sessions, 1 to 1000000; without it serves until it is stopped",
    );
    let at_once = option_or(
        alloc,
        "8",
        "at-once",
        "M",
        "Serves so many sessions at once, 1 to 64",
    );
    let idle = option_or(
        alloc,
        "0",
        "idle",
        "SECONDS",
        "Ends a session in which nothing came for so long, up to 1000000; 0 is never",
    );
    let command = serve_with_places(alloc)?;
    let command = command.arg(sessions)?;
    let command = command.arg(at_once)?;
    command.arg(idle)
}

// `serve` with what it can't do without.
fn serve_with_places<'a>(alloc: Global) -> Result<Command<'a>, AllocError>
    ensures app { IfOk result (λ command. app_of command ≡ serve_with_places) }
    ensures local { IfOk result (λ command. (fields_of command).has_globals ≡ false) }
{
    let dir = required_word(alloc, "dir", "DIR", "The folder of the vault");
    let listen = required_option(
        alloc,
        "listen",
        "ADDR",
        "Where clients connect: HOST:PORT, unix:PATH, or - for one on the standard streams",
    );
    let command = Command::new(alloc, "serve")
        .about("Serves the vault in a folder")
        .arg(dir)?;
    command.arg(listen)
}

fn make<'a>(alloc: Global) -> Result<Command<'a>, AllocError>
    ensures app { IfOk result (λ command. app_of command ≡ make) }
    ensures local { IfOk result (λ command. (fields_of command).has_globals ≡ false) }
{
    let dir = required_word(
        alloc,
        "dir",
        "DIR",
        "An empty folder, which becomes the vault's",
    );
    let passfile = option(
        alloc,
        "passfile",
        "FILE",
        "Takes the password from the first line of FILE, not of standard input",
    );
    let command = Command::new(alloc, "make")
        .about("Makes a vault in an empty folder")
        .arg(dir)?;
    command.arg(passfile)
}

fn demo<'a>(alloc: Global) -> Result<Command<'a>, AllocError>
    ensures app { IfOk result (λ command. app_of command ≡ demo) }
    ensures local { IfOk result (λ command. (fields_of command).has_globals ≡ false) }
{
    let seed = required_option(
        alloc,
        "seed",
        "S",
        "The number that the requests are drawn from, below 2^64",
    );
    let clients = required_option(alloc, "clients", "M", "So many clients at once, 1 to 64");
    let requests = required_option(
        alloc,
        "requests",
        "R",
        "So many requests of each client, up to 100000",
    );
    let command = Command::new(alloc, "demo")
        .about("Serves a vault in memory to clients that send drawn requests")
        .arg(seed)?;
    let command = command.arg(clients)?;
    command.arg(requests)
}

fn sync<'a>(alloc: Global) -> Result<Command<'a>, AllocError>
    ensures app { IfOk result (λ command. app_of command ≡ sync) }
    ensures local { IfOk result (λ command. (fields_of command).has_globals ≡ false) }
{
    let address = required_word(
        alloc,
        "address",
        "ADDR",
        "Where the server listens: HOST:PORT or unix:PATH",
    );
    Command::new(alloc, "sync")
        .about("Has a running server put on disk what was written")
        .arg(address)
}

fn recover<'a>(alloc: Global) -> Result<Command<'a>, AllocError>
    ensures app { IfOk result (λ command. app_of command ≡ recover) }
    ensures local { IfOk result (λ command. (fields_of command).has_globals ≡ false) }
{
    let dir = required_word(alloc, "dir", "DIR", "The folder of the vault");
    let skip = flag(
        alloc,
        "skip",
        "Makes the changes that fit DIR, leaves out the others, and closes the journal",
    );
    let discard = flag(
        alloc,
        "discard",
        "Renames the journal to served.journal.1, or the next number that is free",
    );
    let command = Command::new(alloc, "recover")
        .about("Shows what the open journal of a vault holds, or closes it")
        .arg(dir)?;
    let command = command.arg(skip)?;
    command.arg(discard)
}

fn help<'a>(alloc: Global) -> Result<Command<'a>, AllocError>
    ensures app { IfOk result (λ command. app_of command ≡ help) }
    ensures local { IfOk result (λ command. (fields_of command).has_globals ≡ false) }
{
    let command = word(alloc, "command", "COMMAND", "One of the other commands");
    Command::new(alloc, "help")
        .about("Prints this, or the help of a command")
        .disable_help_flag(true)
        .arg(command)
}

fn word<'a>(alloc: Global, name: &'a str, value: &'a str, help: &'a str) -> Arg<'a>
    ensures rule { rule_of result ≡ word name.entry.now }
    ensures local { result.global ≡ false }
{
    Arg::new(alloc, name).value_name(value).help(help)
}

fn required_word<'a>(alloc: Global, name: &'a str, value: &'a str, help: &'a str) -> Arg<'a>
    ensures rule { rule_of result ≡ required_word name.entry.now }
    ensures local { result.global ≡ false }
{
    Arg::new(alloc, name)
        .value_name(value)
        .help(help)
        .required(true)
}

fn option<'a>(alloc: Global, name: &'a str, value: &'a str, help: &'a str) -> Arg<'a>
    ensures rule { rule_of result ≡ option name.entry.now }
    ensures local { result.global ≡ false }
{
    Arg::new(alloc, name)
        .long(name)
        .value_name(value)
        .help(help)
}

// With the value that it has if nothing is said.
fn option_or<'a>(
    alloc: Global,
    usual: &'a str,
    name: &'a str,
    value: &'a str,
    help: &'a str,
) -> Arg<'a>
    ensures rule { rule_of result ≡ option_or usual.entry.now name.entry.now }
    ensures local { result.global ≡ false }
{
    Arg::new(alloc, name)
        .long(name)
        .value_name(value)
        .help(help)
        .default_value(usual)
}

fn required_option<'a>(alloc: Global, name: &'a str, value: &'a str, help: &'a str) -> Arg<'a>
    ensures rule { rule_of result ≡ required_option name.entry.now }
    ensures local { result.global ≡ false }
{
    Arg::new(alloc, name)
        .long(name)
        .value_name(value)
        .help(help)
        .required(true)
}

fn flag<'a>(alloc: Global, name: &'a str, help: &'a str) -> Arg<'a>
    ensures rule { rule_of result ≡ flag name.entry.now }
    ensures local { result.global ≡ false }
{
    Arg::new(alloc, name)
        .long(name)
        .help(help)
        .action(ArgAction::SetTrue)
}

fn short_flag<'a>(alloc: Global, letter: char, name: &'a str, help: &'a str) -> Arg<'a>
    ensures rule { rule_of result ≡ short_flag letter name.entry.now }
    ensures local { result.global ≡ false }
{
    Arg::new(alloc, name)
        .short(letter)
        .long(name)
        .help(help)
        .action(ArgAction::SetTrue)
}

fn counted_flag<'a>(alloc: Global, letter: char, name: &'a str, help: &'a str) -> Arg<'a>
    ensures rule { rule_of result ≡ counted_flag letter name.entry.now }
    ensures local { result.global ≡ false }
{
    Arg::new(alloc, name)
        .short(letter)
        .long(name)
        .help(help)
        .action(ArgAction::Count)
}
