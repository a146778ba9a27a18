//! Runs of the journal over a folder in memory: where journals are damaged, and what each stop of a run recovers to.
//!
//! `data/journals.txt` has a line for each file `served.journal`: its bytes in hexadecimal digits (`-` for none), at which byte it is damaged
//! (`-` if it opens), and whether there is a folder `d` once it was opened. `data/batches.txt` has a line for each batch of a run, its bytes. `data/states.txt` has a line for what the folder holds before the first and after
//! each batch: of each path in turn `-` for nothing, `dir` for a folder, or the bytes of a file. `data/saved.txt` has a line for each file `f` that another program saved
//! while a batch that puts one was left in the journal: the journal, the file's bytes (`-` for no file), at which byte the journal is damaged, and the file's bytes once it was
//! opened. `data/kept.txt` has a line for each commit: its batch, the files `f` and `g` before it (`-` for none), and the journal after it. `data/anew.txt` has a line for
//! each journal with a batch that reshapes `f` or `g`: the journal, both files, then `-` if the batch is done, the names of the files that were saved anew, or at which byte the journal is
//! damaged, and both files after that. `data/images.txt` has a line for each image of a folder that wrote, put and made. It is printed how many rows a file has, or
//! each row that differs, by its number from 1. The status is 1 if something differs or can't be read.
#![tactic(auto)]

mod anew;
mod damaged;
mod images;
mod row;
mod runs;
mod saved;
mod stops;

use row::RowErr;
use std::process::ExitCode;
use std::{fs, io};

// Prints how many were compared, or what differs.
fn print_outcome(rt: &HostRuntime, what: &str, outcome: Result<u64, RowErr>) -> io::Result<bool> {
    match outcome {
        Ok(count) => {
            println!(rt; "{what} {count}")?;
            Ok(true)
        }
        Err(error) => {
            println!(rt; "{what}: {error}")?;
            Ok(false)
        }
    }
}

fn main(rt: HostRuntime) -> io::Result<ExitCode> {
    let journals = fs::read_to_string(&rt, "journals.txt")?;
    let batches = fs::read_to_string(&rt, "batches.txt")?;
    let states = fs::read_to_string(&rt, "states.txt")?;
    let images = fs::read_to_string(&rt, "images.txt")?;
    let saved = fs::read_to_string(&rt, "saved.txt")?;
    let kept = fs::read_to_string(&rt, "kept.txt")?;
    let anew = fs::read_to_string(&rt, "anew.txt")?;
    let alloc = rt.alloc();
    let mut passed = print_outcome(
        &rt,
        "journals",
        damaged::check_all(alloc, journals.as_str()),
    )?;
    passed &= print_outcome(
        &rt,
        "folders in a journal's place",
        damaged::check_folders(alloc),
    )?;
    passed &= print_outcome(
        &rt,
        "files in a put's place",
        saved::check_all(alloc, saved.as_str()),
    )?;
    passed &= print_outcome(
        &rt,
        "kept headers",
        anew::check_commits(alloc, kept.as_str()),
    )?;
    passed &= print_outcome(
        &rt,
        "files saved anew",
        anew::check_openings(alloc, anew.as_str()),
    )?;
    passed &= print_outcome(
        &rt,
        "images of a folder",
        images::check_all(alloc, images.as_str()),
    )?;
    passed &= print_outcome(
        &rt,
        "images of stopped runs",
        stops::check_all(alloc, batches.as_str(), states.as_str()),
    )?;
    Ok(if passed {
        ExitCode::SUCCESS
    } else {
        ExitCode::FAILURE
    })
}
