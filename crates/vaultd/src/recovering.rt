//! An open journal that the folder of its vault no longer fits: what it holds is shown, or it is closed.

ghost use Rattle.std.specs.Prelude.{IfOk};
ghost use Rattle.vaultd.specs.Starting.{IsRecovering};

use crate::folder::{lock_folder, settled_at, untold_at};
use crate::host::Host;
use crate::starting::Started;
use chunk_journal::{JournalErr, left_batch};
use deeds::Deed;
use host_folder::Unsettled;
use journal_mending::{DeedState, DiscardErr, State, discard, inspect, skip};
use log::{Log, warn};
use outside::{Folder, Kind, Reads, Sink};
use outside_real::StdCalls;
use std::alloc::{AllocError, Global};
use std::fmt::Write;
use std::fs::File;
use std::rt::Files;
use vault_path::VaultPath;
use vault_top::{report_in_use, report_text};
use vault_words::{Recovering, Way};

// The status if the folder failed, or the report wasn't taken whole.
const FAULT: u8 = 4;

// The status if the journal can't be read.
const DAMAGED: u8 = 6;

// What is reported, and the program's status.
#[derive(Drop)]
struct Told {
    text: String,
    status: u8,
}

fn report_of(alloc: Global, text: &str, status: u8) -> Result<Told, AllocError> {
    Ok(Told {
        text: String::from_str(alloc, text)?,
        status,
    })
}

// Adds a path below the vault's folder.
fn add_path(text: &mut String, path: &VaultPath) -> Result<(), AllocError> {
    for index in 0..path.len() {
        if index > 0 {
            text.push('/')?;
        }
        for byte in path.part(index) {
            text.push(char::from(*byte))?;
        }
    }
    Ok(())
}

// Adds what a deed does, and its path.
fn add_deed(text: &mut String, deed: &Deed) -> Result<(), AllocError> {
    match deed {
        Deed::MakeDir(path) => {
            text.push_str("make folder ")?;
            add_path(text, path)
        }
        Deed::Put(path, bytes) => {
            write!(text, "put {} bytes at ", bytes.len())?;
            add_path(text, path)
        }
        Deed::Rename(from, to) => {
            text.push_str("move ")?;
            add_path(text, from)?;
            text.push_str(" to ")?;
            add_path(text, to)
        }
        Deed::Remove(path) => {
            text.push_str("remove file ")?;
            add_path(text, path)
        }
        Deed::RemoveDir(path) => {
            text.push_str("remove folder ")?;
            add_path(text, path)
        }
        Deed::Reshape(path, len, _) => {
            text.push_str("write to ")?;
            add_path(text, path)?;
            write!(text, ", then {len} bytes")
        }
    }
}

// The path at which a deed that doesn't fit is looked at: that of a file to be moved is where it is.
fn place_of(deed: &Deed) -> &VaultPath {
    match deed {
        Deed::MakeDir(path) => path,
        Deed::Put(path, _) => path,
        Deed::Rename(from, _) => from,
        Deed::Remove(path) => path,
        Deed::RemoveDir(path) => path,
        Deed::Reshape(path, _, _) => path,
    }
}

// Adds what is found where a deed doesn't fit.
fn add_found<D: Reads>(
    text: &mut String,
    folder: &mut D,
    path: &VaultPath,
) -> Result<(), AllocError> {
    match folder.kind(path) {
        Ok(Some(Kind::Dir)) => text.push_str(" (found: a folder)"),
        Ok(Some(Kind::File(len))) => write!(text, " (found: a file of {len} bytes)"),
        Ok(None) => text.push_str(" (found: nothing)"),
        // the folder tells it
        Err(_) => Ok(()),
    }
}

// A line for each deed: a word for its state, what it does, and where it doesn't fit what is found.
fn lines_of<D: Reads>(
    alloc: Global,
    folder: &mut D,
    deeds: &[DeedState],
    words: [&str; 4],
) -> Result<String, AllocError> {
    let mut text = String::new(alloc);
    for listed in deeds {
        text.push_str(match listed.state {
            State::Done => words[0],
            State::Due => words[1],
            State::Unfit => words[2],
            State::Changed => words[3],
        })?;
        text.push_str(": ")?;
        add_deed(&mut text, &listed.deed)?;
        if listed.state == State::Unfit || listed.state == State::Changed {
            add_found(&mut text, folder, place_of(&listed.deed))?;
        }
        text.push_str("\n")?;
    }
    Ok(text)
}

// What is reported of a journal that wasn't mended.
fn refused(alloc: Global, error: JournalErr) -> Result<Told, AllocError> {
    match error {
        JournalErr::Device => report_of(alloc, "device fault: folder\n", FAULT),
        JournalErr::JournalDamaged(at) => Ok(Told {
            text: format!(in alloc; "journal damaged at {at}\n")?,
            status: DAMAGED,
        }),
        JournalErr::Memory => Err(AllocError),
    }
}

// The report of deeds, or that there are none.
fn listed<D: Reads>(
    alloc: Global,
    folder: &mut D,
    found: Result<Option<Vec<DeedState>>, JournalErr>,
    words: [&str; 4],
) -> Result<Told, AllocError> {
    match found {
        Ok(Some(deeds)) => Ok(Told {
            text: lines_of(alloc, folder, &deeds, words)?,
            status: 0,
        }),
        Ok(None) => report_of(alloc, "nothing to recover\n", 0),
        Err(error) => refused(alloc, error),
    }
}

fn show<D: Reads>(alloc: Global, folder: &mut D) -> Result<Told, AllocError> {
    let found = inspect(alloc, folder);
    listed(
        alloc,
        folder,
        found,
        ["done", "to do", "no longer fits", "saved anew"],
    )
}

fn skip_unfit<D: Folder>(alloc: Global, folder: &mut D) -> Result<Told, AllocError> {
    let found = skip(alloc, folder);
    listed(
        alloc,
        folder,
        found,
        ["done", "to do", "left out", "left out"],
    )
}

fn put_aside<D: Folder>(alloc: Global, folder: &mut D) -> Result<Told, AllocError> {
    match discard(alloc, folder) {
        Ok(number) => Ok(Told {
            text: format!(in alloc; "journal put aside as served.journal.{number}\n")?,
            status: 0,
        }),
        Err(DiscardErr::NoJournal) => report_of(alloc, "nothing to recover\n", 0),
        Err(DiscardErr::NoName) => {
            report_of(
                alloc,
                "served.journal.1 to served.journal.99 are there\n",
                FAULT,
            )
        }
        Err(DiscardErr::Device) => report_of(alloc, "device fault: folder\n", FAULT),
        Err(DiscardErr::Memory) => Err(AllocError),
    }
}

/// Shows what the open journal of a vault holds, or closes it, unless another server has the vault.
pub(crate) fn recover<R: Files<File = File> + AllocGlobal, L: Log, O: Sink>(
    host: Host<'_, R, L>,
    recovering: &Recovering<'_>,
    out: &mut O,
) -> Result<Started, AllocError>
    ensures { IfOk result IsRecovering }
{
    let alloc = host.rt.alloc();
    let Some(_lock) = lock_folder(host, recovering.dir, recovering.way == Way::Show) else {
        return Ok(Started {
            status: report_in_use(out),
            removed: None,
        });
    };
    let told = match recovering.way {
        Way::Show => {
            let mut folder = untold_at(host, recovering.dir)?;
            show(alloc, &mut folder)?
        }
        Way::Skip => {
            let mut folder = settled_at(host, recovering.dir)?;
            skip_unfit(alloc, &mut folder)?
        }
        Way::Discard => {
            let mut folder = untold_at(host, recovering.dir)?;
            put_aside(alloc, &mut folder)?
        }
    };
    Ok(Started {
        status: report_text(out, told.text.as_bytes(), told.status, FAULT),
        removed: None,
    })
}

/// Tells how many changes of an earlier run a vault's opening makes, and which: its journal is open. If the journal can't be read nothing is told: the opening
/// comes to the same fault and reports it.
pub(crate) fn tell_unfinished<R: Files<File = File> + AllocGlobal, L: Log>(
    host: Host<'_, R, L>,
    path: &str,
) -> Result<(), AllocError> {
    let alloc = host.rt.alloc();
    let mut folder = Unsettled::new(StdCalls::new(host.rt, host.log), alloc, path)?;
    if let Ok(Some(deeds)) = left_batch(alloc, &mut folder) {
        warn!(host.log; target: "vaultd", "an earlier run left {} changes, which are made now", deeds.len());
        for deed in &deeds {
            let mut text = String::new(alloc);
            add_deed(&mut text, deed)?;
            warn!(host.log; target: "vaultd", "{text}");
        }
    }
    Ok(())
}
