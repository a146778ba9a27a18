// What runs come to if nothing fails, if a draw or a call does, and if they are stopped.

use crate::error::RunErr;
use crate::meddled::check_meddled;
use crate::run::{Ended, Manner, Progress, check_stop, run_script};
use crate::table::{Script, read_scripts};
use crate::vault::{seeded, tree_in};
use outside_mem::MemFolder;
use std::alloc::Global;

// Most images of a stop that are looked at.
const MOST_IMAGES: usize = 64;

// More calls than there are in a request after one that fails.
const MOST_CALLS: u64 = 64;

// More draws than a run has.
const MOST_DRAWS: u64 = 256;

/// What is looked at.
#[derive(Clone, Copy, Debug, PartialEq, Eq)]
pub(crate) enum Part {
    /// The requests of a run in which nothing fails.
    Requests(Manner),
    /// A run up to each request, in which nothing fails, and that stops after it.
    Waits,
    /// A run for each draw, which fails.
    Draws,
    /// Two runs for each call of the folder, which fails before it does anything or after a part of it.
    Calls,
    /// What each stop of a run may leave of the folder.
    Stops,
    /// A run while another program changes the folder.
    Meddled,
}

/// How many were looked at, and what was wrong, a line each.
#[derive(Drop)]
pub(crate) struct Tally {
    alloc: Global,
    pub count: u64,
    pub wrong: Vec<String>,
}

impl Tally {
    /// Looks at a part of a table's scripts.
    pub(crate) fn of_part(alloc: Global, table: &str, part: Part) -> Result<Tally, RunErr> {
        let mut tally = Tally {
            alloc,
            count: 0,
            wrong: Vec::new(alloc),
        };
        for script in &read_scripts(alloc, table)? {
            match part {
                Part::Requests(manner) => tally.look_at_requests(script, manner)?,
                Part::Waits => tally.look_at_waits(script)?,
                Part::Draws => tally.look_at_draws(script)?,
                Part::Calls => tally.look_at_calls(script, false)?,
                Part::Stops => tally.look_at_calls(script, true)?,
                Part::Meddled => tally.add(script.about, check_meddled(script))?,
            }
        }
        Ok(tally)
    }

    // Counts what was looked at in a place.
    fn add(&mut self, place: &str, outcome: Result<(), RunErr>) -> Result<(), RunErr> {
        self.count = self.count.saturating_add(1);
        if let Err(error) = outcome {
            self.wrong
                .push(format!(in self.alloc; "{place}: {error}")?)?;
        }
        Ok(())
    }

    fn look_at_requests(&mut self, script: &Script<'_>, manner: Manner) -> Result<(), RunErr> {
        self.add(script.about, check_requests(script, manner))
    }

    fn look_at_waits(&mut self, script: &Script<'_>) -> Result<(), RunErr> {
        for count in 0..=script.steps.len() {
            let place = format!(in self.alloc; "{}, request {count}", script.about)?;
            self.add(place.as_str(), check_stop(script, count))?;
        }
        Ok(())
    }

    fn look_at_draws(&mut self, script: &Script<'_>) -> Result<(), RunErr> {
        for draw in 0..MOST_DRAWS {
            let outcome = check_draw(script, draw);
            if let Ok(false) = outcome {
                break;
            }
            let place = format!(in self.alloc; "draw {draw}")?;
            self.add(place.as_str(), outcome.map(|_| ()))?;
        }
        Ok(())
    }

    // Each call fails, or all from that one on.
    fn look_at_calls(&mut self, script: &Script<'_>, stops: bool) -> Result<(), RunErr> {
        let alloc = self.alloc;
        let folder = script.folder()?;
        let first = folder.call_count();
        let whole = run_script(script, Manner::Plain, folder, seeded(alloc))?;
        let end = whole.folder.call_count().saturating_add(u64::from(stops));
        for call in first..end {
            for breaking in [false, true] {
                let mut failing = Vec::new(alloc);
                for further in 0..if stops { MOST_CALLS } else { 1 } {
                    failing.push(call.saturating_add(further))?;
                }
                let mut folder = script.folder()?.failing_at(failing);
                if breaking {
                    folder = folder.breaking_at(vec![in alloc; call]?);
                }
                let place = format!(in alloc; "call {call}, breaking {breaking}")?;
                match run_script(script, Manner::Plain, folder, seeded(alloc)) {
                    Err(error) => self.add(place.as_str(), Err(error))?,
                    Ok(ended) if stops => self.look_at_images(script, place.as_str(), &ended)?,
                    Ok(ended) => self.add(place.as_str(), ended.check(script, 1))?,
                }
            }
        }
        Ok(())
    }

    // Each image of a stop recovers to the tree after the requests that no stop undoes, or after more, up to all that began.
    fn look_at_images(
        &mut self,
        script: &Script<'_>,
        place: &str,
        ended: &Ended,
    ) -> Result<(), RunErr> {
        let Progress { begun, stable, .. } = ended.progress;
        for (number, image) in ended.folder.images(MOST_IMAGES)?.into_iter().enumerate() {
            let place = format!(in self.alloc; "{place}, image {number}")?;
            self.add(place.as_str(), check_image(script, stable, begun, image))?;
        }
        Ok(())
    }
}

fn check_requests(script: &Script<'_>, manner: Manner) -> Result<(), RunErr> {
    run_script(script, manner, script.folder()?, seeded(script.alloc))?.check(script, 0)
}

// The image recovers to the tree after so many requests, at least and at most.
fn check_image(
    script: &Script<'_>,
    least: usize,
    most: usize,
    image: MemFolder,
) -> Result<(), RunErr> {
    let tree = tree_in(script.alloc, image)?;
    script.check_tree(least, most, tree.as_str())
}

// Gives whether a run reached the draw, which fails.
fn check_draw(script: &Script<'_>, draw: u64) -> Result<bool, RunErr> {
    let entropy = seeded(script.alloc).failing_at(vec![in script.alloc; draw]?);
    let ended = run_script(script, Manner::Looking, script.folder()?, entropy)?;
    let faults = ended.entropy.fault_count();
    ended.check(script, faults)?;
    Ok(faults > 0)
}
