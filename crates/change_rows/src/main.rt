//! Runs of an open vault's changes over a folder in memory: what requests come to, even if a place is taken, a draw or a call of the
//! folder fails, and what each stop recovers to.
//!
//! A table has a block for each script. It begins with `vault` and what it shows; then come the entries of the host folder, `dir` and a path,
//! or `text`, a path and a file's text. The vault's keys are zeros. `>` begins a request, with the number of its node; `<` is its reply in
//! words. `=` is the tree of the vault before the first request and after each: the paths of its nodes in the order of their bytes, as
//! `tree_of` spells them. `TEXT*N` stands for N times TEXT. `data/script.txt` has what is run with stops and faults, and `data/taken.txt`
//! what is run with a random source that draws the same bytes for each request.
//!
//! `data/meddled.txt` has what is run while another program changes the folder. `!` is what it does in the next request, or as the vault is closed,
//! before that one's call of a number, from 0: `remove` and a path, `cut`, a path and a length, or `put`, a path and a text. `closing` is said
//! where that is to fail, and `=` is the tree that the folder holds in the end.
//!
//! It is printed how many were looked at, and each that is wrong. The status is 1 if something is wrong or can't be read.
#![tactic(auto)]

mod beside;
mod error;
mod meddled;
mod parts;
mod run;
mod table;
mod vault;
mod words;

use parts::{Part, Tally};
use run::Manner;
use std::process::ExitCode;
use std::{fs, io};

fn main(rt: HostRuntime) -> io::Result<ExitCode> {
    let script = fs::read_to_string(&rt, "script.txt")?;
    let taken = fs::read_to_string(&rt, "taken.txt")?;
    let meddled = fs::read_to_string(&rt, "meddled.txt")?;
    let mut passed = true;
    for (what, table, part) in [
        ("requests", &script, Part::Requests(Manner::Looking)),
        (
            "requests where places are taken",
            &taken,
            Part::Requests(Manner::Redrawing),
        ),
        ("runs that stop with what waits", &script, Part::Waits),
        ("runs with a draw that fails", &script, Part::Draws),
        ("runs with a call that fails", &script, Part::Calls),
        ("images of stopped runs", &script, Part::Stops),
        ("runs beside another program", &meddled, Part::Meddled),
    ] {
        match Tally::of_part(rt.alloc(), table.as_str(), part) {
            Ok(tally) => {
                for line in &tally.wrong {
                    println!(rt; "{what}: {line}")?;
                }
                println!(rt; "{what} {}", tally.count)?;
                passed &= tally.wrong.is_empty();
            }
            Err(error) => {
                println!(rt; "{what}: {error}")?;
                passed = false;
            }
        }
    }
    Ok(if passed {
        ExitCode::SUCCESS
    } else {
        ExitCode::FAILURE
    })
}
