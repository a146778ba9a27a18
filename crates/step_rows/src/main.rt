//! Runs requests over plain file trees through `model_step::step`, and compares rows and answers with those of a table.
//!
//! `data/steps.txt` has blocks of lines: `tree NEXT TWICE` begins a tree, `row ..` gives a row, and `ask SECOND ..` a request with its
//! `answer ..`; the `row ..` and `gone NUMBER` lines after an answer are how the rows differ then from those before the request. Texts and bytes
//! are in hexadecimal digits, `-` for none, with `xx*n` for n bytes xx and `+` between parts. A content is `none` if no content has the file's
//! size, or `opens` or `shut`, by its header, with `:` before each chunk, `?n` for n bytes that don't open. It is printed how many requests
//! there are, or which line differs or can't be read. Then directories are listed in pieces of many sizes, whose number is printed. The status
//! is 1 if something differs.
#![tactic(auto)]

mod ask;
mod change;
mod pieces;
mod reply;
mod row;
mod table;
mod tree;

use row::RowErr;
use std::process::ExitCode;
use std::{fs, io};

// Prints how many were compared, or what differs.
fn print_outcome(rt: &HostRuntime, what: &str, outcome: Result<u64, RowErr>) -> io::Result<bool> {
    match outcome {
        Ok(count) => {
            println!(rt; "{what} {count}")?;
            Ok(true)
        }
        Err(error) => {
            println!(rt; "{what}: {error}")?;
            Ok(false)
        }
    }
}

fn main(rt: HostRuntime) -> io::Result<ExitCode> {
    let text = fs::read_to_string(&rt, "steps.txt")?;
    let requests = table::check_all(rt.alloc(), text.as_str());
    let mut passed = print_outcome(&rt, "requests", requests)?;
    let sizes = pieces::check_all(rt.alloc());
    passed &= print_outcome(&rt, "sizes of a list's pieces", sizes)?;
    Ok(if passed {
        ExitCode::SUCCESS
    } else {
        ExitCode::FAILURE
    })
}
