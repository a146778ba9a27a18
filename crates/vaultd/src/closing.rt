//! The end of a vault that was served: what its journal keeps of it.

ghost use Rattle.std.specs.Prelude.{◌≡◌, IfOk};
ghost use Rattle.outside.specs.Calls.{Changes, Told};
ghost use Rattle.outside.specs.Images.{now};
ghost use Rattle.chunk_journal.specs.Journal.{HasGateAlone};
ghost use Rattle.vaultd.specs.Tidied.{IsRecovered};

use chunk_journal::{Journal, JournalErr, empty_journal};
use outside::{Folder, Refused};
use std::alloc::Global;
use vault_top::Ended;

// Empties the journal of a folder, once nothing is left to be done, so that no sealed chunk stays in it which its file has lost since.
fn cut_journal<D: Folder + Drop>(alloc: Global, folder: D) -> Result<D, JournalErr>
    ensures alone { IfOk result (λ after. Told (D.log after) (λ log. HasGateAlone (now log))) }
    ensures recovered { IfOk result (λ after. Changes (D.log folder) (D.log after) IsRecovered) }
{
    let journal = match Journal::open(alloc, folder) {
        Ok(journal) => journal,
        Err(Refused { folder: _, cause }) => return Err(cause),
    };
    let mut folder = journal.into_folder();
    empty_journal(&mut folder)?;
    Ok(folder)
}

/// The status of a run, once the journal of a vault that it served well is emptied, unless that was only to be read.
pub(crate) fn closed_status<D: Folder + Drop>(alloc: Global, ended: Ended<D>, read_only: bool) -> u8
    ensures { result ≡ ended.status }
{
    let Ended { status, folder, .. } = ended;
    if status == 0 && !read_only {
        if let Some(folder) = folder {
            // what fails is told, and the next end empties it
            let _ = cut_journal(alloc, folder);
        }
    }
    status
}
