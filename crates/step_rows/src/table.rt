// A table of requests over trees.

use crate::ask::ask;
use crate::reply::answer;
use crate::row::{FieldErr, RowErr, number};
use crate::tree::{put, row, tree, without};
use model_step::{Answer, Rows};
use std::alloc::Global;

// How far a table is run.
#[derive(Drop)]
struct Run {
    // The rows after the steps so far.
    rows: Rows,
    // The rows that there must be.
    wanted: Rows,
    // The last answer, which isn't compared yet.
    answer: Option<Answer>,
    // Whether a request of this tree was asked.
    is_asked: bool,
    requests: u64,
}

fn empty(alloc: Global) -> Rows {
    Rows {
        nodes: Vec::new(alloc),
        next: 0,
        named_twice: false,
    }
}

// A row of the tree before its first request, or of what there must be then.
fn put_row(alloc: Global, run: Run, line: &str) -> Result<Run, FieldErr> {
    let rows = if run.is_asked {
        run.rows
    } else {
        put(run.rows, row(alloc, line)?)?
    };
    Ok(Run {
        rows,
        wanted: put(run.wanted, row(alloc, line)?)?,
        ..run
    })
}

fn begin(alloc: Global, run: Run, line: &str) -> Result<Run, FieldErr> {
    Ok(Run {
        rows: tree(alloc, line)?,
        wanted: tree(alloc, line)?,
        answer: None,
        is_asked: false,
        requests: run.requests,
    })
}

fn ask_next(alloc: Global, run: Run, line: &str) -> Result<Run, FieldErr> {
    let stepped = ask(alloc, run.rows, line)?;
    Ok(Run {
        rows: stepped.rows,
        wanted: run.wanted,
        answer: Some(stepped.answer),
        is_asked: true,
        requests: run.requests.saturating_add(1),
    })
}

fn drop_row(run: Run, line: &str) -> Result<Run, FieldErr> {
    let number = number(Some(line))?;
    Ok(Run {
        wanted: without(run.wanted, number),
        ..run
    })
}

// What a line leads to, and whether it is as it must be.
fn run_line(alloc: Global, run: Run, what: &str, line: &str) -> Result<(Run, bool), FieldErr> {
    match what {
        "row" => Ok((put_row(alloc, run, line)?, true)),
        "gone" => Ok((drop_row(run, line)?, true)),
        "tree" => Ok((begin(alloc, run, line)?, true)),
        "ask" => Ok((ask_next(alloc, run, line)?, true)),
        "answer" => {
            let is_wanted = run.answer == Some(answer(alloc, line)?);
            Ok((run, is_wanted))
        }
        _ => Err(FieldErr::Word),
    }
}

/// Runs each line, and returns how many requests there are.
pub(crate) fn check_all(alloc: Global, text: &str) -> Result<u64, RowErr> {
    let mut run = Run {
        rows: empty(alloc),
        wanted: empty(alloc),
        answer: None,
        is_asked: false,
        requests: 0,
    };
    let mut place = 0u64;
    for line in text.lines() {
        place = place.saturating_add(1);
        let (what, rest) = line.split_once(' ').unwrap_or((line, ""));
        if what == "#" {
            continue;
        }
        if (what == "ask" || what == "tree") && run.rows != run.wanted {
            return Err(RowErr::Rows(place));
        }
        let (next, is_wanted) = run_line(alloc, run, what, rest).map_err(|error| RowErr::Unread(
            place, error,
        ))?;
        if !is_wanted {
            return Err(RowErr::Answer(place));
        }
        run = next;
    }
    if run.rows != run.wanted {
        return Err(RowErr::Rows(place));
    }
    Ok(run.requests)
}
