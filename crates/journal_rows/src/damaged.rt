// Where journals are damaged.

use crate::row::{RowErr, at, bytes, word};
use chunk_journal::{Journal, JournalErr};
use outside::{Folder, Kind, Reads};
use outside_mem::MemFolder;
use std::alloc::Global;
use untold_folder::Untelling;

// What opening a journal came to.
#[derive(Clone, Copy, PartialEq, Eq)]
struct Opened {
    // At which byte it is damaged.
    place: Option<u64>,
    makes_d: bool,
}

// The byte at which a journal is damaged; another refusal is none that a row has.
fn place_of(cause: JournalErr) -> Result<Option<u64>, RowErr> {
    match cause {
        JournalErr::JournalDamaged(place) => Ok(Some(place)),
        cause => Err(RowErr::Journal(cause)),
    }
}

/// Opens the journal of a folder: the byte at which it is damaged, if it is, and the folder as it then is.
pub(crate) fn open_journal(
    alloc: Global,
    folder: MemFolder,
) -> Result<(Option<u64>, Untelling<MemFolder>), RowErr> {
    match Journal::open(alloc, Untelling::over(folder)) {
        Ok(journal) => Ok((None, journal.into_folder())),
        Err(refused) => Ok((place_of(refused.cause)?, refused.folder)),
    }
}

// Opens the journal of a folder.
fn open(alloc: Global, folder: MemFolder) -> Result<Opened, RowErr> {
    let (place, mut folder) = open_journal(alloc, folder)?;
    let makes_d = folder.kind(&at(b"d")?)? == Some(Kind::Dir);
    Ok(Opened { place, makes_d })
}

/// The byte at which a row says that a journal is damaged: a number or `-`.
pub(crate) fn place_in(place: &str) -> Result<Option<u64>, RowErr> {
    match place {
        "-" => Ok(None),
        number => Ok(Some(number.parse::<u64>().map_err(|_| RowErr::Short)?)),
    }
}

// What a row says of a journal: that byte, and `d` or `-`.
fn wanted<'a>(place: &'a str, made: &'a str) -> Result<Opened, RowErr> {
    Ok(Opened {
        place: place_in(place)?,
        makes_d: made == "d",
    })
}

// Whether the journal of a row opens as the row says.
fn opens_as_said(alloc: Global, row: &str) -> Result<bool, RowErr> {
    let mut fields = row.split(' ');
    let journal = bytes(alloc, word(fields.next())?)?;
    let place = word(fields.next())?;
    let wanted = wanted(place, word(fields.next())?)?;
    let mut folder = MemFolder::new(alloc)?;
    folder.put(&at(b"served.journal")?, &journal)?;
    Ok(open(alloc, folder)? == wanted)
}

/// Opens the journal of each row, and returns how many there are.
pub(crate) fn check_all(alloc: Global, text: &str) -> Result<u64, RowErr> {
    let mut rows = 0u64;
    for line in text.lines() {
        if line.starts_with('#') {
            continue;
        }
        rows = rows.saturating_add(1);
        if !opens_as_said(alloc, line)? {
            return Err(RowErr::Differs(rows));
        }
    }
    Ok(rows)
}

// Whether a folder at a name makes the journal damaged at 0.
fn is_damaged_by_a_folder(alloc: Global, name: &[u8]) -> Result<bool, RowErr> {
    let mut folder = MemFolder::new(alloc)?;
    folder.make_dir(&at(name)?)?;
    Ok(open(alloc, folder)?.place == Some(0))
}

/// Opens folders with a folder in the place of the journal, and of a first one under way, and returns how many there are.
pub(crate) fn check_folders(alloc: Global) -> Result<u64, RowErr> {
    if !is_damaged_by_a_folder(alloc, b"served.journal")? {
        return Err(RowErr::Differs(1));
    }
    if !is_damaged_by_a_folder(alloc, b"served.journal.new")? {
        return Err(RowErr::Differs(2));
    }
    Ok(2)
}
