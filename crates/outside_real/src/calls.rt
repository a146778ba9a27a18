ghost use Rattle.std.specs.Prelude.{◌≡◌, ◌++◌, ◌∷◌, OnOk, OnErr, [], None};
ghost use Rattle.outside_real.specs.Behind.{files_of};

use crate::found::found_at;
use crate::opened::{create, fsync, read_at, set_len, write_at};
use host_calls::{Found, HostCalls, HostChange, Inode, Locking, Sharing};
use host_streams::{TARGET, changed, listed, looked};
use log::{Log, error, warn};
use outside::FolderErr;
use std::alloc::Global;
use std::fs;
use std::fs::{DirBuilder, File, TryLockError};
use std::io::ErrorKind;
use std::os::unix::fs::DirBuilderExt;
use std::rt::Files;
use vault_path::Text;

// What a name that isn't UTF-8 is listed as, whatever its bytes: U+FFFD.
const NO_TEXT: &str = "\u{fffd}";

// A new folder is read, written and entered by its owner alone, as far as the host's mask lets it be.
const DIR_MODE: u32 = 0o700;

/// The host's calls, by std. They tell no story to proofs, and each fault of the host to a logger.
#[derive(Drop)]
pub struct StdCalls<R, L> {
    rt: R,
    log: L,
}

impl<R: Files, L: Log> StdCalls<R, L> {
    /// The calls of a runtime, whose faults are told to a logger.
    pub fn new(rt: R, log: L) -> StdCalls<R, L>
        ensures { files_of result ≡ rt }
    {
        StdCalls { rt, log }
    }
}

fn push_name(alloc: Global, names: &mut Vec<Text>, name: &str) -> Result<(), FolderErr>
    ensures ok { OnOk result (names.new.items ≡ names.old.items ++ name.now ∷ []) }
    ensures err { OnErr result (names.new.items ≡ names.old.items) }
{
    let name = Text::from_slice(alloc, name.as_bytes()).map_err(|_| FolderErr::Memory)?;
    names.push(name).map_err(|_| FolderErr::Memory)
}

impl<R: Files<File = File>, L: Log> HostCalls for StdCalls<R, L> {
    ghost story = { λ _. None };

    ghost top = { λ _. [] };

    type Lock = File;

    fn stat(&mut self, text: &str, is_top: bool) -> Result<Found, FolderErr> {
        looked(&self.log, "stat", text, found_at(&self.rt, text, is_top))
    }

    fn list(&mut self, alloc: Global, text: &str) -> Result<Vec<Text>, FolderErr> {
        let entries = listed(&self.log, text, fs::read_dir(&(&self.rt, alloc), text))?;
        let mut names = Vec::new(alloc);
        let mut has_no_text = false;
        for entry in entries {
            match entry {
                Err(e) if e.kind() == ErrorKind::InvalidFilename => has_no_text = true,
                Ok(entry) if entry.file_name() == NO_TEXT => has_no_text = true,
                entry => {
                    let entry = listed(&self.log, text, entry)?;
                    push_name(alloc, &mut names, entry.file_name())?;
                }
            }
        }
        if has_no_text {
            push_name(alloc, &mut names, NO_TEXT)?;
        }
        Ok(names)
    }

    fn read_at(
        &mut self,
        text: &str,
        seen: Inode,
        at: u64,
        out: &mut [u8],
    ) -> Result<usize, FolderErr> {
        looked(
            &self.log,
            "read",
            text,
            read_at(&self.rt, text, seen, at, out),
        )
    }

    fn mkdir(&mut self, text: &str) -> Result<(), FolderErr> {
        let answer = DirBuilder::new().mode(DIR_MODE).create(&self.rt, text);
        changed(&self.log, "mkdir", text, answer)
    }

    fn create(&mut self, text: &str, bytes: &[u8]) -> Result<(), FolderErr> {
        changed(&self.log, "create", text, create(&self.rt, text, bytes))
    }

    fn write_at(
        &mut self,
        text: &str,
        seen: Inode,
        at: u64,
        bytes: &[u8],
        is_end: bool,
    ) -> Result<(), FolderErr> {
        let answer = write_at(&self.rt, text, seen, at, bytes, is_end);
        changed(&self.log, "write", text, answer)
    }

    fn set_len(&mut self, text: &str, seen: Inode, len: u64) -> Result<(), FolderErr> {
        changed(&self.log, "cut", text, set_len(&self.rt, text, seen, len))
    }

    fn rename(&mut self, from: &str, to: &str) -> Result<(), FolderErr> {
        let answer = fs::rename(&self.rt, from, to);
        changed(&self.log, "rename", format_args!("{from} to {to}"), answer)
    }

    fn unlink(&mut self, text: &str) -> Result<(), FolderErr> {
        changed(&self.log, "unlink", text, fs::remove_file(&self.rt, text))
    }

    fn rmdir(&mut self, text: &str) -> Result<(), FolderErr> {
        changed(&self.log, "rmdir", text, fs::remove_dir(&self.rt, text))
    }

    fn fsync(&mut self, text: &str, seen: Found) -> Result<(), FolderErr> {
        looked(&self.log, "fsync", text, fsync(&self.rt, text, seen))
    }

    // The lock goes with the file that is open at the folder. If that can't be opened the next call of it fails as well, and tells why.
    fn lock(&mut self, text: &str, sharing: Sharing) -> Locking<File> {
        let Ok(folder) = File::open(&self.rt, text) else {
            return Locking::Unknown;
        };
        let answer = match sharing {
            Sharing::Alone => folder.try_lock(),
            Sharing::Shared => folder.try_lock_shared(),
        };
        match answer {
            Ok(()) => Locking::Taken(folder),
            Err(TryLockError::WouldBlock) => Locking::InUse,
            Err(TryLockError::Error(cause)) => {
                warn!(self.log; target: TARGET, "lock of {text}: {cause}");
                Locking::Unknown
            }
        }
    }

    fn report_changed(&mut self, text: &str) {
        error!(self.log; target: TARGET, "another program changed {text}");
    }

    fn did(&mut self, _change: HostChange) {}

    fn broke(&mut self, _change: HostChange) {}

    fn synced(&mut self) {}
}
