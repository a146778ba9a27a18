// Comparing runs with their rows.

use crate::folders::folder_of;
use crate::outcome::{check_run, is_fault_told};
use crate::plan::Row;
use crate::row::RowErr;
use crate::running::{Pieces, Ran, run_row};
use outside_mem::MemFolder;
use std::alloc::{AllocError, Global};
use std::rt::Files;
use std::sync::Wait;
use std::thread::Threads;

/// How many runs there were, and how many of them had a call failing.
#[derive(Clone, Copy, Debug, PartialEq, Eq)]
pub(crate) struct Counts {
    pub runs: u64,
    pub faulty: u64,
}

// Runs a row with a call of its folder failing, before it does anything or after a part of it.
fn check_call<R: Alloc + Files + Threads + Wait + Sync>(
    rt: &R,
    alloc: Global,
    parts: &str,
    row: &Row<'_>,
    call: u64,
    breaks: bool,
) -> Result<bool, RowErr> {
    let calls = vec![in alloc; call]?;
    let folder = folder_of(rt, alloc, parts, row.folder)?;
    let folder = if breaks {
        folder.breaking_at(calls)
    } else {
        folder.failing_at(calls)
    };
    let mut ran = run_row(rt, alloc, row, folder, Pieces::WHOLE)?;
    is_fault_told(alloc, row, &mut ran)
}

// Runs a row with each of these calls of its folder failing.
fn check_each_call<R: Alloc + Files + Threads + Wait + Sync>(
    rt: &R,
    alloc: Global,
    parts: &str,
    row: &Row<'_>,
    first: u64,
    end: u64,
) -> Result<u64, RowErr> {
    let mut count = 0u64;
    for call in first..end {
        for breaks in [false, true] {
            if !check_call(rt, alloc, parts, row, call, breaks)? {
                return Err(RowErr::Fault(call.saturating_sub(first)));
            }
            count = count.saturating_add(1);
        }
    }
    Ok(count)
}

// The folder that a row begins with.
fn first_folder<R: Files + Alloc>(
    rt: &R,
    alloc: Global,
    parts: &str,
    row: &Row<'_>,
    before: Option<MemFolder>,
) -> Result<MemFolder, RowErr> {
    if row.folder == "=" {
        before.ok_or(RowErr::Line)
    } else {
        folder_of(rt, alloc, parts, row.folder)
    }
}

// Runs a row with one byte at a time.
fn check_bytes<R: Alloc + Files + Threads + Wait + Sync>(
    rt: &R,
    alloc: Global,
    parts: &str,
    row: &Row<'_>,
) -> Result<(), RowErr> {
    let folder = folder_of(rt, alloc, parts, row.folder)?;
    let mut ran = run_row(rt, alloc, row, folder, Pieces::BYTES)?;
    check_run(rt, alloc, parts, row, &mut ran).map(drop)
}

// The calls of a folder, which has had so many, that fail in a row.
fn failing_calls(alloc: Global, row: &Row<'_>, first: u64) -> Result<Vec<u64>, AllocError> {
    let mut failing = Vec::from_slice(alloc, &row.failing.folder)?;
    for call in failing.iter_mut() {
        *call = call.saturating_add(first);
    }
    Ok(failing)
}

// The folder that a run leaves, and the calls that it has had before and in the end.
#[derive(Drop)]
struct Passed {
    folder: MemFolder,
    first: u64,
    end: u64,
}

// How many calls a run's folder has had, if it was handed back.
fn call_count(ran: &Ran) -> u64 {
    match &ran.folder {
        Some(folder) => folder.call_count(),
        None => 0,
    }
}

// Compares a run with its row.
fn compared<R: Files + Alloc>(
    rt: &R,
    alloc: Global,
    parts: &str,
    row: &Row<'_>,
    ran: &mut Ran,
    first: u64,
) -> Result<Passed, RowErr> {
    let end = call_count(ran);
    if row.calls.unwrap_or(end.saturating_sub(first)) != end.saturating_sub(first) {
        return Err(RowErr::Differs("number of calls"));
    }
    Ok(Passed {
        folder: check_run(rt, alloc, parts, row, ran)?,
        first,
        end,
    })
}

// Runs a row over a folder.
fn run_over<R: Alloc + Files + Threads + Wait + Sync>(
    rt: &R,
    alloc: Global,
    parts: &str,
    row: &Row<'_>,
    folder: MemFolder,
) -> Result<Passed, RowErr> {
    let first = folder.call_count();
    let folder = folder.failing_at(failing_calls(alloc, row, first)?);
    let mut ran = run_row(rt, alloc, row, folder, Pieces::WHOLE)?;
    compared(rt, alloc, parts, row, &mut ran, first)
}

/// Runs a row, also with one byte at a time and with each call of the folder failing, if that is asked. Gives the folder that is left.
pub(crate) fn check_row<R: Alloc + Files + Threads + Wait + Sync>(
    rt: &R,
    alloc: Global,
    parts: &str,
    row: &Row<'_>,
    before: Option<MemFolder>,
    counts: &mut Counts,
) -> Result<MemFolder, RowErr> {
    if row.folder != "=" && row.is_sound() {
        check_bytes(rt, alloc, parts, row)?;
        counts.runs = counts.runs.saturating_add(1);
    }
    let folder = first_folder(rt, alloc, parts, row, before)?;
    let Passed { folder, first, end } = run_over(rt, alloc, parts, row, folder)?;
    counts.runs = counts.runs.saturating_add(1);
    if row.each_call {
        let count = check_each_call(rt, alloc, parts, row, first, end)?;
        counts.faulty = counts.faulty.saturating_add(count);
    }
    Ok(folder)
}
