ghost use Rattle.std.specs.Prelude.{◌≡◌};
ghost use Rattle.outside.specs.Calls.{risen};

use crate::untelling::counted;
use outside::{Folder, FolderErr, Kind, Reads};
use std::alloc::Global;
use vault_path::{Text, VaultPath};

/// What another program does to a file.
#[derive(Drop)]
pub enum Meddling {
    Remove,
    /// Cuts it to this many bytes.
    Cut(u64),
    /// Puts a file with these bytes in its place.
    Replace(Vec<u8>),
}

/// A folder that tells nothing, in which another program changes a file once: just before the folder is first asked what is at the
/// file's path.
#[derive(Drop)]
pub struct Meddled<D> {
    /// The folder that answers.
    pub folder: D,
    path: VaultPath,
    meddling: Option<Meddling>,
    faults: u64,
    changes: u64,
}

impl<D> Meddled<D> {
    /// Answers as `folder` does, in which this will be done to the file at `path`.
    pub fn over(folder: D, path: VaultPath, meddling: Meddling) -> Meddled<D> {
        Meddled {
            folder,
            path,
            meddling: Some(meddling),
            faults: 0,
            changes: 0,
        }
    }
}

// Does it. What fails is left undone.
fn meddle<D: Folder>(folder: &mut D, path: &VaultPath, meddling: Meddling) {
    let _done = match meddling {
        Meddling::Remove => folder.remove_file(path),
        Meddling::Cut(len) => folder.set_len(path, len),
        Meddling::Replace(bytes) => folder.put(path, &bytes),
    };
}

// The count of changing calls after one more.
fn one_more(changes: u64) -> u64
    ensures { result ≡ risen changes }
{
    if changes == u64::MAX {
        changes
    } else {
        changes + 1
    }
}

impl<D: Folder> Reads for Meddled<D> {
    ghost use Rattle.std.specs.Prelude.{None};

    ghost log = { λ _. None };

    ghost faults = { λ meddled. meddled.faults };

    ghost changes = { λ meddled. meddled.changes };

    fn kind(&mut self, path: &VaultPath) -> Result<Option<Kind>, FolderErr> {
        if &self.path == path {
            if let Some(meddling) = self.meddling.take() {
                meddle(&mut self.folder, path, meddling);
            }
        }
        let answer = self.folder.kind(path);
        self.faults = counted(self.faults, &answer);
        answer
    }

    fn list(&mut self, alloc: Global, path: &VaultPath) -> Result<Vec<Text>, FolderErr> {
        let answer = self.folder.list(alloc, path);
        self.faults = counted(self.faults, &answer);
        answer
    }

    fn read(&mut self, path: &VaultPath, at: u64, out: &mut [u8]) -> Result<usize, FolderErr> {
        let answer = self.folder.read(path, at, out);
        self.faults = counted(self.faults, &answer);
        answer
    }

    fn report_changed(&mut self, path: &VaultPath) {
        self.folder.report_changed(path);
        self.faults = self.faults.saturating_add(1);
    }
}

impl<D: Folder> Folder for Meddled<D> {
    fn make_dir(&mut self, path: &VaultPath) -> Result<(), FolderErr> {
        self.changes = one_more(self.changes);
        let answer = self.folder.make_dir(path);
        self.faults = counted(self.faults, &answer);
        answer
    }

    fn put(&mut self, path: &VaultPath, bytes: &[u8]) -> Result<(), FolderErr> {
        self.changes = one_more(self.changes);
        let answer = self.folder.put(path, bytes);
        self.faults = counted(self.faults, &answer);
        answer
    }

    fn write(&mut self, path: &VaultPath, at: u64, bytes: &[u8]) -> Result<(), FolderErr> {
        self.changes = one_more(self.changes);
        let answer = self.folder.write(path, at, bytes);
        self.faults = counted(self.faults, &answer);
        answer
    }

    fn set_len(&mut self, path: &VaultPath, len: u64) -> Result<(), FolderErr> {
        self.changes = one_more(self.changes);
        let answer = self.folder.set_len(path, len);
        self.faults = counted(self.faults, &answer);
        answer
    }

    fn rename(&mut self, from: &VaultPath, to: &VaultPath) -> Result<(), FolderErr> {
        self.changes = one_more(self.changes);
        let answer = self.folder.rename(from, to);
        self.faults = counted(self.faults, &answer);
        answer
    }

    fn remove_file(&mut self, path: &VaultPath) -> Result<(), FolderErr> {
        self.changes = one_more(self.changes);
        let answer = self.folder.remove_file(path);
        self.faults = counted(self.faults, &answer);
        answer
    }

    fn remove_dir(&mut self, path: &VaultPath) -> Result<(), FolderErr> {
        self.changes = one_more(self.changes);
        let answer = self.folder.remove_dir(path);
        self.faults = counted(self.faults, &answer);
        answer
    }

    fn sync(&mut self) -> Result<(), FolderErr> {
        let answer = self.folder.sync();
        self.faults = counted(self.faults, &answer);
        answer
    }
}
