ghost use Rattle.std.specs.Prelude.{◌≤◌, ◌<◌, ◌↔◌, length, IfOk, IsTrue, bit_and};
ghost use Rattle.std.specs.Fs.{metadata_mode};
ghost use Rattle.outside_real.specs.declared.opened.TheConstants.{OTHERS};
ghost use Rattle.outside.specs.Calls.{KeepsFrom};

use crate::found::found_of;
use host_calls::{Found, Inode, is_same};
use std::fs::{Metadata, OpenFile, OpenOptions};
use std::io::{Read, Seek, SeekFrom, Write};
use std::os::unix::fs::{MetadataExt, OpenOptionsExt};
use std::rt::Files;
use std::{fs, io};
use thiserror::Error;

// A new file is read and written by its owner alone, as far as the host's mask lets it be.
const FILE_MODE: u32 = 0o600;

// What the group and others may do with a file.
const OTHERS: u32 = 0o077;

/// Why a secret's file isn't opened.
#[derive(Debug, Drop, Error)]
pub enum SecretFileErr {
    /// Its mode gives something to the group or to others.
    #[error("others can read it; chmod 600 leaves it to its owner")]
    Exposed,
    /// A folder, a FIFO, a device or the like is there.
    #[error("it is no file")]
    NotAFile,
    /// The host failed.
    #[error("{0}")]
    Failed(#[from] io::Error),
}

// Opens what was seen at a path. It fails if something else is there now. Nothing is cut by opening.
fn open_seen<R: Files>(rt: &R, text: &str, how: &OpenOptions, seen: Found) -> io::Result<R::File> {
    let file = how.open(rt, text)?;
    if !is_same(seen, found_of(&file.metadata()?)) {
        return Err(io::Error::other("something else is there now"));
    }
    Ok(file)
}

fn to_read() -> OpenOptions {
    let mut how = OpenOptions::new();
    how.read(true);
    how
}

// To write, and to read as well: a FIFO that is opened for both doesn't wait for another process.
fn to_write() -> OpenOptions {
    let mut how = OpenOptions::new();
    how.read(true).write(true);
    how
}

// For a new file, which is made only if nothing is there. A link isn't followed.
fn to_create() -> OpenOptions {
    let mut how = OpenOptions::new();
    how.write(true).create_new(true).mode(FILE_MODE);
    how
}

pub(crate) fn read_at<R: Files>(
    rt: &R,
    text: &str,
    seen: Inode,
    at: u64,
    out: &mut [u8],
) -> io::Result<usize>
    ensures count { IfOk result (λ n. n ≤ length out.old) }
    ensures rest { IfOk result (λ n. KeepsFrom n out.old out.new) }
{
    let mut file = open_seen(rt, text, &to_read(), Found::File(seen, 0))?;
    let rest = file.metadata()?.len().saturating_sub(at);
    let count = rest.min(out.len() as u64) as usize;
    file.seek(SeekFrom::Start(at))?;
    file.read_exact(&mut out[..count])?;
    Ok(count)
}

pub(crate) fn create<R: Files>(rt: &R, text: &str, bytes: &[u8]) -> io::Result<()> {
    let mut file = to_create().open(rt, text)?;
    file.write_all(bytes)
}

/// Writes bytes, and cuts the file after them if they are to be its last.
pub(crate) fn write_at<R: Files>(
    rt: &R,
    text: &str,
    seen: Inode,
    at: u64,
    bytes: &[u8],
    is_end: bool,
) -> io::Result<()> {
    let mut file = open_seen(rt, text, &to_write(), Found::File(seen, 0))?;
    file.seek(SeekFrom::Start(at))?;
    file.write_all(bytes)?;
    if is_end {
        file.set_len(at.saturating_add(bytes.len() as u64))
    } else {
        Ok(())
    }
}

pub(crate) fn set_len<R: Files>(rt: &R, text: &str, seen: Inode, len: u64) -> io::Result<()> {
    open_seen(rt, text, &to_write(), Found::File(seen, 0))?.set_len(len)
}

pub(crate) fn fsync<R: Files>(rt: &R, text: &str, seen: Found) -> io::Result<()> {
    let opened = open_seen(rt, text, &to_read(), seen)?;
    match seen {
        Found::File(..) => opened.sync_data(),
        _ => opened.sync_all(),
    }
}

// Whether its mode gives something to the group or to others.
fn is_exposed(metadata: &Metadata) -> bool
    ensures { IsTrue result ↔ (0 < bit_and (metadata_mode metadata.now) OTHERS) }
{
    metadata.mode() & OTHERS > 0
}

/// Opens a file that has a secret, if its owner alone can read it. Nothing else is opened; a link at the end of the path is followed.
pub fn secret_file<R: Files>(rt: &R, path: &str) -> Result<R::File, SecretFileErr> {
    let metadata = fs::metadata(rt, path)?;
    if !metadata.is_file() {
        return Err(SecretFileErr::NotAFile);
    }
    if is_exposed(&metadata) {
        return Err(SecretFileErr::Exposed);
    }
    Ok(open_seen(rt, path, &to_read(), found_of(&metadata))?)
}
