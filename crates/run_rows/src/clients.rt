// Runs of clients whose messages come in one order, and of a client of whose link or folder a call fails.

use crate::folder_calls::look_at_folder_calls;
use crate::link_calls::{Side, look_at_calls};
use crate::look::Looks;
use crate::orders::{check_commit, check_order};
use crate::row::RowErr;
use crate::stops::look_at_stops;
use crate::table::{Faults, Order, Table};
use crate::tally::Tally;
use std::alloc::Global;
use std::rt::Files;
use std::sync::Wait;
use std::thread::Threads;
use std::{fs, io};

// What was looked at, of each kind of runs.
#[derive(Drop)]
struct Tallies {
    orders: Tally,
    commits: Tally,
    images: Tally,
    reads: Tally,
    writes: Tally,
    calls: Tally,
}

impl Tallies {
    fn new(alloc: Global) -> Tallies {
        Tallies {
            orders: Tally::new(alloc),
            commits: Tally::new(alloc),
            images: Tally::new(alloc),
            reads: Tally::new(alloc),
            writes: Tally::new(alloc),
            calls: Tally::new(alloc),
        }
    }

    // Prints them, and returns whether nothing is wrong.
    fn print<R: Print>(&self, rt: &R) -> io::Result<bool> {
        let mut passed = true;
        for (what, tally) in [
            (
                "runs of clients whose messages come in one order",
                &self.orders,
            ),
            ("runs of them with a commit that fails", &self.commits),
            ("images of stopped runs", &self.images),
            ("runs with a read of the link that fails", &self.reads),
            ("runs with a write of the link that fails", &self.writes),
            ("runs with a call of the folder that fails", &self.calls),
        ] {
            for line in &tally.wrong {
                println!(rt; "{line}")?;
            }
            println!(rt; "{what} {}", tally.count)?;
            passed &= tally.wrong.is_empty();
        }
        Ok(passed)
    }
}

// Runs a block with such faults.
fn look_at_faults<R: Alloc + Files + Threads + Wait + Sync>(
    rt: &R,
    alloc: Global,
    parts: &str,
    order: &Order<'_>,
    faults: Faults,
    looks: &Looks,
    tallies: &mut Tallies,
) -> Result<(), RowErr> {
    let messages = order.messages.as_slice();
    match faults {
        Faults::Change { from, count } => {
            let outcome = check_commit(rt, alloc, parts, messages, looks, from, count);
            tallies.commits.add(order.name, "change", count, outcome)?;
        }
        Faults::Stops => look_at_stops(rt, alloc, parts, messages, looks, &mut tallies.images)?,
        Faults::LinkCalls => {
            let reads = &mut tallies.reads;
            look_at_calls(rt, alloc, parts, messages, looks, Side::Read, reads)?;
            let writes = &mut tallies.writes;
            look_at_calls(rt, alloc, parts, messages, looks, Side::Write, writes)?;
        }
        Faults::FolderCalls => {
            let calls = &mut tallies.calls;
            look_at_folder_calls(rt, alloc, parts, messages, looks, calls)?;
        }
    }
    Ok(())
}

// Runs a block.
fn look_at_order<R: Alloc + Files + Threads + Wait + Sync>(
    rt: &R,
    alloc: Global,
    parts: &str,
    order: &Order<'_>,
    looks: &Looks,
    tallies: &mut Tallies,
) -> Result<(), RowErr> {
    let messages = order.messages.as_slice();
    if order.faults.is_empty() {
        let outcome = check_order(rt, alloc, parts, messages, looks);
        let count = messages.len() as u64;
        tallies.orders.add(order.name, "messages", count, outcome)?;
    }
    for faults in &order.faults {
        look_at_faults(rt, alloc, parts, order, *faults, looks, tallies)?;
    }
    Ok(())
}

// Runs the blocks of a table.
fn look_at_table<R: Alloc + Files + Threads + Wait + Sync>(
    rt: &R,
    alloc: Global,
    parts: &str,
    table: &str,
    tallies: &mut Tallies,
) -> Result<(), RowErr> {
    let Table {
        looking,
        states,
        orders,
    } = Table::read(alloc, table)?;
    let looks = Looks::new(alloc, &looking, states)?;
    for order in &orders {
        look_at_order(rt, alloc, parts, order, &looks, tallies)?;
    }
    Ok(())
}

/// Runs the blocks of both tables, and prints those that differ and how many runs there were of each kind. Gives whether none differs.
pub(crate) fn check_clients<R: Alloc + Files + Print + Threads + Wait + Sync>(
    rt: &R,
    alloc: Global,
    parts: &str,
) -> io::Result<bool> {
    let mut tallies = Tallies::new(alloc);
    let mut passed = true;
    for name in ["orders.txt", "links.txt"] {
        let table = fs::read_to_string(rt, name)?;
        if let Err(error) = look_at_table(rt, alloc, parts, table.as_str(), &mut tallies) {
            println!(rt; "{name}: {error}")?;
            passed = false;
        }
    }
    passed &= tallies.print(rt)?;
    Ok(passed)
}
