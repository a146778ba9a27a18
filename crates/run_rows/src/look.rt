// Looking at the vaults that runs leave.

use crate::plan::{Client, Crew, Row};
use crate::replies::given_back;
use crate::row::RowErr;
use crate::running::{Pieces, Ran, run_row};
use outside_mem::MemFolder;
use std::alloc::{AllocError, Global};
use std::sync::Wait;
use std::thread::Threads;

/// A client that looks at a vault, and what it is sent in each state.
#[derive(Drop)]
pub(crate) struct Looks {
    row: Row<'static>,
    states: Vec<Vec<u8>>,
}

/// The secret's line of zero keys.
pub(crate) fn zero_keys(alloc: Global) -> Result<Vec<u8>, AllocError> {
    vec![in alloc; b'0'; 128]
}

/// A run in which one client sends messages to a vault of zero keys.
pub(crate) fn row_of(alloc: Global, sends: &[u8]) -> Result<Row<'static>, AllocError> {
    let mut row = Row::new(alloc, "one client");
    row.folder = "=";
    row.words = "serve v --listen - --sessions 1 --raw-key";
    row.secret = zero_keys(alloc)?;
    row.crews.push(crew_of(alloc, sends)?)?;
    Ok(row)
}

fn crew_of(alloc: Global, sends: &[u8]) -> Result<Crew, AllocError> {
    let mut crew = Crew::new(alloc);
    let mut client = Client::new(alloc);
    client.sends.extend_from_slice(sends)?;
    crew.clients.push(client)?;
    Ok(crew)
}

impl Looks {
    /// The client sends these messages.
    pub(crate) fn new(
        alloc: Global,
        sends: &[u8],
        states: Vec<Vec<u8>>,
    ) -> Result<Looks, AllocError> {
        Ok(Looks {
            row: row_of(alloc, sends)?,
            states,
        })
    }

    // The number of the state in which a client is sent this.
    fn state_of(&self, sent: &[u8]) -> Option<usize> {
        for (number, state) in self.states.iter().enumerate() {
            if state.as_slice() == sent {
                return Some(number);
            }
        }
        None
    }

    // The number of the state that a run of the client has seen.
    fn seen(&self, alloc: Global, ran: &mut Ran) -> Result<Option<usize>, RowErr> {
        if ran.status != 0 {
            return Ok(None);
        }
        let worker = ran.workers.last_mut().ok_or(RowErr::Differs("workers"))?;
        let links = given_back(alloc, &mut worker.listener)?;
        Ok(match links.last() {
            Some(link) => self.state_of(link.sink().taken()),
            None => None,
        })
    }

    /// The number of the state of the vault in a folder.
    pub(crate) fn state_in<R: Threads + Wait + Sync>(
        &self,
        rt: &R,
        alloc: Global,
        folder: MemFolder,
    ) -> Result<Option<usize>, RowErr> {
        let mut ran = run_row(rt, alloc, &self.row, folder, Pieces::WHOLE)?;
        self.seen(alloc, &mut ran)
    }

    /// Opens the vault in a folder, which holds one of the states from `least` to `most`.
    pub(crate) fn check<R: Threads + Wait + Sync>(
        &self,
        rt: &R,
        alloc: Global,
        folder: MemFolder,
        least: usize,
        most: usize,
    ) -> Result<(), RowErr> {
        match self.state_in(rt, alloc, folder)? {
            Some(state) if least <= state && state <= most => Ok(()),
            _ => Err(RowErr::Differs("vault that is left")),
        }
    }
}
