// Files that another program saved where a batch that was left in the journal puts its own.

use crate::damaged::{open_journal, place_in};
use crate::row::{RowErr, at, bytes, word};
use crate::runs::put_thing;
use outside::Folder;
use outside_mem::MemFolder;
use std::alloc::Global;

// A folder with a journal, and with the file `f` unless its bytes are `-`.
fn folder_with(alloc: Global, journal: &[u8], file: &str) -> Result<MemFolder, RowErr> {
    let mut folder = MemFolder::new(alloc)?;
    folder.put(&at(b"served.journal")?, journal)?;
    if file != "-" {
        folder.put(&at(b"f")?, &bytes(alloc, file)?)?;
    }
    Ok(folder)
}

// Whether the journal of a row opens as the row says, and the file is then what it says.
fn opens_as_said(alloc: Global, row: &str) -> Result<bool, RowErr> {
    let mut fields = row.split(' ');
    let journal = bytes(alloc, word(fields.next())?)?;
    let folder = folder_with(alloc, &journal, word(fields.next())?)?;
    let wanted = place_in(word(fields.next())?)?;
    let left = word(fields.next())?;
    let (place, mut folder) = open_journal(alloc, folder)?;
    let mut held = String::new(alloc);
    put_thing(alloc, &mut folder, &at(b"f")?, &mut held)?;
    Ok(place == wanted && held.as_str() == format!(in alloc; "{left} ")?.as_str())
}

/// Opens the journal of each row, and returns how many there are.
pub(crate) fn check_all(alloc: Global, text: &str) -> Result<u64, RowErr> {
    let mut rows = 0u64;
    for line in text.lines() {
        if line.starts_with('#') {
            continue;
        }
        rows = rows.saturating_add(1);
        if !opens_as_said(alloc, line)? {
            return Err(RowErr::Differs(rows));
        }
    }
    Ok(rows)
}
