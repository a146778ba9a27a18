// What each stop of a run recovers to.

use crate::row::{RowErr, bytes};
use crate::runs::{Run, commit_all, recovered};
use outside_mem::MemFolder;
use std::alloc::Global;

// Most images of a stop that are looked at.
const MOST_IMAGES: usize = 64;

// The batches of a run.
fn batches_in(alloc: Global, text: &str) -> Result<Vec<Vec<u8>>, RowErr> {
    let mut batches = Vec::new(alloc);
    for line in text.lines() {
        if !line.starts_with('#') {
            batches.push(bytes(alloc, line)?)?;
        }
    }
    Ok(batches)
}

// The states of a run, each line with a space after it.
fn states_in(alloc: Global, text: &str) -> Result<Vec<String>, RowErr> {
    let mut states = Vec::new(alloc);
    for line in text.lines() {
        if !line.starts_with('#') {
            states.push(format!(in alloc; "{line} ")?)?;
        }
    }
    Ok(states)
}

fn is_state(states: &[String], number: usize, found: &str) -> bool {
    match states.get(number) {
        Some(state) => state.as_str() == found,
        None => false,
    }
}

// Each image of a run recovers to the state after the acknowledged batches, or, if another was under way, to the one after that too.
// Gives how many images there are.
fn check_images(alloc: Global, run: &Run, states: &[String]) -> Result<u64, RowErr> {
    let mut count = 0u64;
    for image in run.folder.images(MOST_IMAGES)? {
        let found = recovered(alloc, image)?;
        let is_before = is_state(states, run.done, found.as_str());
        if !is_before && !is_state(states, run.done.saturating_add(1), found.as_str()) {
            return Err(RowErr::Image);
        }
        count = count.saturating_add(1);
    }
    Ok(count)
}

// A run whose call of this number fails, before it does anything or after a part of it.
fn stopped(alloc: Global, batches: &[Vec<u8>], call: u64, breaks: bool) -> Result<Run, RowErr> {
    let folder = MemFolder::new(alloc)?;
    let calls = vec![in alloc; call]?;
    let folder = if breaks {
        folder.breaking_at(calls)
    } else {
        folder.failing_at(calls)
    };
    commit_all(alloc, folder, batches)
}

/// Runs the batches whole, and stopped at each call before and after a part of it: each image of each run recovers to the state before or
/// after the batch that was under way. Gives how many images there are.
pub(crate) fn check_all(alloc: Global, batches: &str, states: &str) -> Result<u64, RowErr> {
    let batches = batches_in(alloc, batches)?;
    let states = states_in(alloc, states)?;
    let whole = commit_all(alloc, MemFolder::new(alloc)?, &batches)?;
    if whole.done != batches.len() {
        return Err(RowErr::Differs(whole.done as u64));
    }
    let mut count = check_images(alloc, &whole, &states)?;
    for call in 0..whole.folder.call_count() {
        let failed = stopped(alloc, &batches, call, false)?;
        count = count.saturating_add(check_images(alloc, &failed, &states)?);
        let broken = stopped(alloc, &batches, call, true)?;
        count = count.saturating_add(check_images(alloc, &broken, &states)?);
    }
    Ok(count)
}
