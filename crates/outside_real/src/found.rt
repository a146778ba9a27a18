ghost use Rattle.std.specs.Prelude.{◌≡◌, ◌↔◌};
ghost use Rattle.std.specs.Fs.{IsDir, IsFile, file_type, metadata_len};

use host_calls::{Found, Inode};
use host_streams::is_missing;
use std::fs::Metadata;
use std::os::unix::fs::MetadataExt;
use std::rt::Files;
use std::{fs, io};

/// What the metadata of a path, or of an open file, is that of.
pub(crate) fn found_of(metadata: &Metadata) -> Found
    ensures dir { IsDir (file_type metadata.now) → (inode : Inode) × (result ≡ Found.Dir inode) }
    ensures file { IsFile (file_type metadata.now) → (inode : Inode) × (result ≡ Found.File inode (metadata_len metadata.now)) }
    ensures other { (result ≡ Found.Other) ↔ (¬ IsDir (file_type metadata.now) × ¬ IsFile (file_type metadata.now)) }
{
    let inode = Inode {
        dev: metadata.dev(),
        ino: metadata.ino(),
    };
    if metadata.is_dir() {
        Found::Dir(inode)
    } else if metadata.is_file() {
        Found::File(inode, metadata.len())
    } else {
        Found::Other
    }
}

/// What the host has at a path. A link at its end is followed only if it is that of the folder itself.
pub(crate) fn found_at(rt: &impl Files, text: &str, is_top: bool) -> io::Result<Found> {
    let answer = if is_top {
        fs::metadata(rt, text)
    } else {
        fs::symlink_metadata(rt, text)
    };
    match answer {
        Ok(metadata) => Ok(found_of(&metadata)),
        Err(e) if is_missing(&e) => Ok(Found::Nothing),
        Err(e) => Err(e),
    }
}
