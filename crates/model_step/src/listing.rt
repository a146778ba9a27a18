ghost use Rattle.std.specs.Prelude.{◌≡◌, ◌++◌, IfOk, OnOk, map};
ghost use Rattle.std.specs.List.{concat};
ghost use Rattle.std.specs.Option.{option_copied};
ghost use Rattle.std.specs.FinMap as finmap;
ghost use Rattle.tree_model.specs.Rows.{named_children};
ghost use Rattle.tree_model.specs.Step.{fitting, is_behind, is_too_small, stats_behind};
ghost use Rattle.model_step.specs.SeenRows.{bytes_seen, rows_seen};
ghost use Rattle.model_step.specs.Listed.{IsPlace, named, put_named, stat_if};

use crate::rows::{Row, Rows, children_of};
use crate::stats::spelled_stat;
use std::alloc::{AllocError, Global};
use std::cmp::Ordering;

// Where a row is put among others in the order of their names, and whether one of its name is there.
#[derive(Drop)]
struct Place {
    index: usize,
    is_taken: bool,
}

// The place of a name.
fn place_of(entries: &[Row], name: &[u8]) -> Place
    ensures { IsPlace entries.now name.now result }
{
    for (index, entry) in entries.iter().enumerate() {
        match name.cmp(entry.name.as_slice()) {
            Ordering::Less => {
                return Place {
                    index,
                    is_taken: false,
                };
            }
            Ordering::Equal => {
                return Place {
                    index,
                    is_taken: true,
                };
            }
            Ordering::Greater => {}
        }
    }
    Place {
        index: entries.len(),
        is_taken: false,
    }
}

// Puts a row among others in the order of their names.
fn put(entries: &mut Vec<Row>, row: Row) -> Result<(), AllocError>
    ensures { OnOk result (map named entries.new.items ≡ put_named (named row) (map named entries.old.items)) }
{
    let place = place_of(entries, &row.name);
    if place.is_taken {
        entries[place.index] = row;
    } else {
        entries.insert(place.index, row)?;
    }
    Ok(())
}

// The nodes of a directory in the order of the names' bytes.
fn named_children(alloc: Global, rows: &Rows, parent: u64) -> Result<Vec<Row>, AllocError>
    ensures { IfOk result (λ all. map named all.items ≡ finmap.entries (named_children (rows_seen rows.now) parent)) }
{
    let mut children = children_of(alloc, rows, parent)?;
    let mut entries = Vec::new(alloc);
    while let Some(child) = children.pop() {
        put(&mut entries, child)?;
    }
    Ok(entries)
}

// Whether a name follows the last one that was given.
fn is_behind(after: Option<&str>, name: &[u8]) -> bool
    ensures { result ≡ is_behind (option_copied after.entry) name.now }
{
    match after {
        Some(last) => name.cmp(last.as_bytes()).is_gt(),
        None => true,
    }
}

// Appends the stat of a row whose name follows this one.
fn put_stat(
    alloc: Global,
    stats: &mut Vec<Vec<u8>>,
    row: &Row,
    after: Option<&str>,
) -> Result<(), AllocError>
    ensures { OnOk result (bytes_seen stats.new.items ≡ bytes_seen stats.old.items ++ stat_if (option_copied after.entry) (named row.now)) }
{
    if is_behind(after, &row.name) {
        stats.push(spelled_stat(alloc, row)?)?;
    }
    Ok(())
}

/// The stats of a directory's nodes whose names follow this one, in the order of the names' bytes.
pub(crate) fn stats_behind(
    alloc: Global,
    rows: &Rows,
    parent: u64,
    after: Option<&str>,
) -> Result<Vec<Vec<u8>>, AllocError>
    ensures { IfOk result (λ stats. bytes_seen stats.items ≡ stats_behind (rows_seen rows.now) parent (option_copied after.entry)) }
{
    let entries = named_children(alloc, rows, parent)?;
    let mut stats = Vec::new(alloc);
    for entry in &entries {
        put_stat(alloc, &mut stats, entry, after)?;
    }
    Ok(stats)
}

/// As many of the stats, from the first on, as fit, joined.
pub(crate) fn fitting(alloc: Global, most: usize, stats: &[Vec<u8>]) -> Result<Vec<u8>, AllocError>
    ensures { IfOk result (λ bytes. bytes.items ≡ concat (fitting most (bytes_seen stats.now))) }
{
    let mut bytes = Vec::new(alloc);
    let mut room = most;
    for stat in stats {
        if room < stat.len() {
            return Ok(bytes);
        }
        room -= stat.len();
        bytes.extend_from_slice(stat)?;
    }
    Ok(bytes)
}

/// Whether there is a stat to be given that doesn't fit.
pub(crate) fn is_too_small(room: usize, stats: &[Vec<u8>]) -> bool
    ensures { result ≡ is_too_small room (bytes_seen stats.now) }
{
    match stats {
        [] => false,
        [first, ..] => room < first.len(),
    }
}
