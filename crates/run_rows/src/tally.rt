// What was looked at.

use crate::row::RowErr;
use std::alloc::{AllocError, Global};

/// How many runs there were, and what was wrong with some, a line each.
#[derive(Drop)]
pub(crate) struct Tally {
    alloc: Global,
    pub count: u64,
    pub wrong: Vec<String>,
}

impl Tally {
    pub(crate) fn new(alloc: Global) -> Tally {
        Tally {
            alloc,
            count: 0,
            wrong: Vec::new(alloc),
        }
    }

    /// Counts a run; if it is wrong, a line says so with its name, and with what failed in it or how many there were.
    pub(crate) fn add(
        &mut self,
        name: &str,
        thing: &str,
        number: u64,
        outcome: Result<(), RowErr>,
    ) -> Result<(), AllocError> {
        self.count = self.count.saturating_add(1);
        if let Err(error) = outcome {
            self.wrong.push(format!(in self.alloc; "{name}, {thing} {number}: {error}")?)?;
        }
        Ok(())
    }
}
