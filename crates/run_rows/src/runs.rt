// The runs of tables.

use crate::checking::{Counts, check_row};
use crate::plan::{Row, read_rows};
use std::alloc::Global;
use std::rt::Files;
use std::sync::Wait;
use std::thread::Threads;
use std::{fs, io};

// Runs rows, and prints those that differ. Gives whether none does.
fn check_rows<R: Alloc + Files + Print + Threads + Wait + Sync>(
    rt: &R,
    alloc: Global,
    parts: &str,
    rows: &[Row<'_>],
    counts: &mut Counts,
) -> io::Result<bool> {
    let mut passed = true;
    let mut left = None;
    for row in rows {
        left = match check_row(rt, alloc, parts, row, left.take(), counts) {
            Ok(folder) => Some(folder),
            Err(error) => {
                println!(rt; "{}: {error}", row.name)?;
                passed = false;
                None
            }
        };
    }
    Ok(passed)
}

/// Runs all rows of a table, and prints those that differ and how many there were. Gives whether none differs.
pub(crate) fn check_runs<R: Alloc + Files + Print + Threads + Wait + Sync>(
    rt: &R,
    alloc: Global,
    parts: &str,
    name: &str,
) -> io::Result<bool> {
    let table = fs::read_to_string(rt, name)?;
    let rows = match read_rows(alloc, table.as_str()) {
        Ok(rows) => rows,
        Err(error) => {
            println!(rt; "{name}: {error}")?;
            return Ok(false);
        }
    };
    let mut counts = Counts { runs: 0, faulty: 0 };
    let passed = check_rows(rt, alloc, parts, &rows, &mut counts)?;
    println!(rt; "runs {}", counts.runs)?;
    println!(rt; "runs with a call that fails {}", counts.faulty)?;
    Ok(passed)
}
