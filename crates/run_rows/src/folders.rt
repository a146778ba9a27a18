// What folders hold, by named parts.

use crate::row::{RowErr, number, path, push_bytes};
use outside::{Folder, Kind, Reads};
use outside_mem::MemFolder;
use std::alloc::Global;
use std::fs;
use std::rt::Files;
use vault_path::VaultPath;

// What a part puts at a path.
#[derive(Clone, Copy)]
enum Thing<'a> {
    Dir,
    Text(&'a str),
    Bytes(&'a str),
    Zeros(u64),
    // The file there of the vault of this name, which lies beside the tables.
    Kept(&'a str),
}

// Most zeros that a part puts.
const MOST_ZEROS: u64 = 1 << 20;

// An entry of a part, with its path as the table has it.
#[derive(Clone, Copy)]
struct Entry<'a> {
    path: &'a str,
    thing: Thing<'a>,
}

// The line's entry, if the line is of the part of this name.
fn entry_of<'a>(line: &'a str, part: &str) -> Result<Option<Entry<'a>>, RowErr> {
    let mut fields = line.splitn(3, ' ');
    let name = fields.next().ok_or(RowErr::Line)?;
    if name != part {
        return Ok(None);
    }
    let kind = fields.next().ok_or(RowErr::Line)?;
    let rest = fields.next().ok_or(RowErr::Line)?;
    let (path, what) = match kind {
        "dir" | "kept" => (rest, ""),
        _ => rest.split_once(' ').unwrap_or((rest, "")),
    };
    let thing = match kind {
        "dir" => Thing::Dir,
        "kept" => Thing::Kept(name),
        "text" => Thing::Text(what),
        "bytes" => Thing::Bytes(what),
        "zeros" => Thing::Zeros(number(what)?.min(MOST_ZEROS)),
        _ => return Err(RowErr::Line),
    };
    Ok(Some(Entry { path, thing }))
}

// The bytes of a file of a vault that lies beside the tables.
fn kept_bytes<R: Files + Alloc>(
    rt: &R,
    alloc: Global,
    vault: &str,
    path: &str,
) -> Result<Vec<u8>, RowErr> {
    let mut at = String::from_str(alloc, "trees/")?;
    at.push_str(vault)?;
    at.push_str("/v/")?;
    at.push_str(path)?;
    let bytes = fs::read(rt, at.as_str()).map_err(|_| RowErr::File)?;
    Ok(Vec::from_slice(alloc, &bytes)?)
}

// The bytes of a file; None for a folder.
fn bytes_of<R: Files + Alloc>(
    rt: &R,
    alloc: Global,
    entry: &Entry<'_>,
) -> Result<Option<Vec<u8>>, RowErr> {
    let mut bytes = Vec::new(alloc);
    match entry.thing {
        Thing::Dir => return Ok(None),
        Thing::Text(text) => bytes.extend_from_slice(text.as_bytes())?,
        Thing::Bytes(digits) => push_bytes(alloc, &mut bytes, digits)?,
        Thing::Zeros(count) => {
            for _ in 0..count {
                bytes.push(0)?;
            }
        }
        Thing::Kept(vault) => return Ok(Some(kept_bytes(rt, alloc, vault, entry.path)?)),
    }
    Ok(Some(bytes))
}

// Puts an entry into a folder.
fn put_entry<R: Files + Alloc>(
    rt: &R,
    alloc: Global,
    folder: &mut MemFolder,
    entry: &Entry<'_>,
) -> Result<(), RowErr> {
    let at = path(entry.path)?;
    match bytes_of(rt, alloc, entry)? {
        None => folder.make_dir(&at)?,
        Some(bytes) => folder.put(&at, &bytes)?,
    }
    Ok(())
}

// Puts the entries of a part into a folder.
fn put_part<R: Files + Alloc>(
    rt: &R,
    alloc: Global,
    table: &str,
    part: &str,
    folder: &mut MemFolder,
) -> Result<(), RowErr> {
    for line in table.lines() {
        if let Some(entry) = entry_of(line, part)? {
            put_entry(rt, alloc, folder, &entry)?;
        }
    }
    Ok(())
}

/// A folder of these parts, whose names have a space between each two; `-` is an empty folder.
pub(crate) fn folder_of<R: Files + Alloc>(
    rt: &R,
    alloc: Global,
    table: &str,
    parts: &str,
) -> Result<MemFolder, RowErr> {
    let mut folder = MemFolder::new(alloc)?;
    if parts == "-" {
        return Ok(folder);
    }
    for part in parts.split(' ') {
        put_part(rt, alloc, table, part, &mut folder)?;
    }
    folder.sync()?;
    Ok(folder)
}

// How many entries are in a folder at a path; the folders among them are put after those that wait.
fn count_in(
    alloc: Global,
    folder: &mut MemFolder,
    at: &VaultPath,
    waiting: &mut Vec<VaultPath>,
) -> Result<u64, RowErr> {
    let mut count = 0u64;
    for name in folder.list(alloc, at)? {
        count = count.saturating_add(1);
        let inner = at.join(name.as_bytes()).map_err(|_| RowErr::Path)?;
        if folder.kind(&inner)? == Some(Kind::Dir) {
            waiting.push(inner)?;
        }
    }
    Ok(count)
}

// How many entries a folder has, with those of the folders in it.
fn count_entries(alloc: Global, folder: &mut MemFolder) -> Result<u64, RowErr> {
    let mut count = 0u64;
    let mut waiting = Vec::new(alloc);
    waiting.push(VaultPath::root())?;
    for _ in 0..u32::MAX {
        let Some(at) = waiting.pop() else {
            break;
        };
        count = count.saturating_add(count_in(alloc, folder, &at, &mut waiting)?);
    }
    Ok(count)
}

// Whether a folder has a file of these bytes at a path.
fn has_file(
    alloc: Global,
    folder: &mut MemFolder,
    at: &VaultPath,
    bytes: &[u8],
) -> Result<bool, RowErr> {
    if folder.kind(at)? != Some(Kind::File(bytes.len() as u64)) {
        return Ok(false);
    }
    let mut found = vec![in alloc; 0u8; bytes.len()]?;
    folder.read(at, 0, &mut found)?;
    Ok(found.as_slice() == bytes)
}

// Whether a folder has an entry.
fn has_entry<R: Files + Alloc>(
    rt: &R,
    alloc: Global,
    folder: &mut MemFolder,
    entry: &Entry<'_>,
) -> Result<bool, RowErr> {
    let at = path(entry.path)?;
    match bytes_of(rt, alloc, entry)? {
        None => Ok(folder.kind(&at)? == Some(Kind::Dir)),
        Some(bytes) => has_file(alloc, folder, &at, &bytes),
    }
}

/// Whether a folder has the entries of these parts, and no other.
pub(crate) fn holds<R: Files + Alloc>(
    rt: &R,
    alloc: Global,
    table: &str,
    parts: &str,
    folder: &mut MemFolder,
) -> Result<bool, RowErr> {
    let mut count = 0u64;
    for part in parts.split(' ') {
        for line in table.lines() {
            if let Some(entry) = entry_of(line, part)? {
                count = count.saturating_add(1);
                if !has_entry(rt, alloc, folder, &entry)? {
                    return Ok(false);
                }
            }
        }
    }
    Ok(count_entries(alloc, folder)? == count)
}
