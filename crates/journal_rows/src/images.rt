// What a stop may leave of a folder, as the folder lists it.

use crate::row::{RowErr, at};
use crate::runs::put_thing;
use outside::Folder;
use outside_mem::MemFolder;
use std::alloc::Global;

// Most images that are listed.
const MOST_IMAGES: usize = 64;

// A folder that flushed `a` of three bytes and then wrote two of them anew, put `b` of one byte, and made the folder `d`.
fn touched(alloc: Global) -> Result<MemFolder, RowErr> {
    let mut folder = MemFolder::new(alloc)?;
    folder.put(&at(b"a")?, &[1, 2, 3])?;
    folder.sync()?;
    folder.write(&at(b"a")?, 1, &[4, 5])?;
    folder.put(&at(b"b")?, &[6])?;
    folder.make_dir(&at(b"d")?)?;
    Ok(folder)
}

// What an image holds at `a`, `b` and `d`, each with a space after it.
fn held(alloc: Global, mut image: MemFolder) -> Result<String, RowErr> {
    let mut held = String::new(alloc);
    put_thing(alloc, &mut image, &at(b"a")?, &mut held)?;
    put_thing(alloc, &mut image, &at(b"b")?, &mut held)?;
    put_thing(alloc, &mut image, &at(b"d")?, &mut held)?;
    Ok(held)
}

// The row of a number, counted from 0, with a space after it.
fn row_at(alloc: Global, text: &str, number: u64) -> Result<String, RowErr> {
    let mut rows = 0u64;
    for line in text.lines() {
        if line.starts_with('#') {
            continue;
        }
        if rows == number {
            return Ok(format!(in alloc; "{line} ")?);
        }
        rows = rows.saturating_add(1);
    }
    Err(RowErr::Short)
}

/// Compares each image of a folder with its row, and returns how many there are.
pub(crate) fn check_all(alloc: Global, text: &str) -> Result<u64, RowErr> {
    let mut count = 0u64;
    for image in touched(alloc)?.images(MOST_IMAGES)? {
        let wanted = row_at(alloc, text, count)?;
        count = count.saturating_add(1);
        if held(alloc, image)?.as_str() != wanted.as_str() {
            return Err(RowErr::Differs(count));
        }
    }
    Ok(count)
}
