ghost use Rattle.std.specs.Prelude.{IsErrOf};
ghost use Rattle.outside.specs.Calls.{HasCause, Rose};

use outside::{Folder, FolderErr, Kind, Reads};
use std::alloc::Global;
use vault_path::{Text, VaultPath};

/// Answers as the folder behind it does. What runs over it needs no proof of what the folder holds.
#[derive(Drop)]
pub struct Untelling<D> {
    /// The folder that answers.
    pub folder: D,
    faults: u64,
}

impl<D> Untelling<D> {
    /// Answers as `folder` does.
    pub fn over(folder: D) -> Untelling<D> {
        Untelling { folder, faults: 0 }
    }
}

/// The count of faults after an answer: one more if the folder failed or the call didn't fit.
pub(crate) fn counted<T>(faults: u64, answer: &Result<T, FolderErr>) -> u64
    ensures unfit { IsErrOf answer.now FolderErr.Unfit → Rose faults result }
    ensures cause { HasCause faults result (IsErrOf answer.now FolderErr.Failed) }
{
    match answer {
        Err(FolderErr::Failed | FolderErr::Unfit) => faults.saturating_add(1),
        Err(FolderErr::Memory) | Ok(_) => faults,
    }
}

impl<D: Folder> Reads for Untelling<D> {
    ghost use Rattle.std.specs.Prelude.{None};

    ghost log = { λ _. None };

    ghost faults = { λ untelling. untelling.faults };

    ghost changes = { λ untelling. D.changes untelling.folder };

    fn kind(&mut self, path: &VaultPath) -> Result<Option<Kind>, FolderErr> {
        let answer = self.folder.kind(path);
        self.faults = counted(self.faults, &answer);
        answer
    }

    fn list(&mut self, alloc: Global, path: &VaultPath) -> Result<Vec<Text>, FolderErr> {
        let answer = self.folder.list(alloc, path);
        self.faults = counted(self.faults, &answer);
        answer
    }

    fn read(&mut self, path: &VaultPath, at: u64, out: &mut [u8]) -> Result<usize, FolderErr> {
        let answer = self.folder.read(path, at, out);
        self.faults = counted(self.faults, &answer);
        answer
    }

    fn report_changed(&mut self, path: &VaultPath) {
        self.folder.report_changed(path);
        self.faults = self.faults.saturating_add(1);
    }
}

impl<D: Folder> Folder for Untelling<D> {
    fn make_dir(&mut self, path: &VaultPath) -> Result<(), FolderErr> {
        let answer = self.folder.make_dir(path);
        self.faults = counted(self.faults, &answer);
        answer
    }

    fn put(&mut self, path: &VaultPath, bytes: &[u8]) -> Result<(), FolderErr> {
        let answer = self.folder.put(path, bytes);
        self.faults = counted(self.faults, &answer);
        answer
    }

    fn write(&mut self, path: &VaultPath, at: u64, bytes: &[u8]) -> Result<(), FolderErr> {
        let answer = self.folder.write(path, at, bytes);
        self.faults = counted(self.faults, &answer);
        answer
    }

    fn set_len(&mut self, path: &VaultPath, len: u64) -> Result<(), FolderErr> {
        let answer = self.folder.set_len(path, len);
        self.faults = counted(self.faults, &answer);
        answer
    }

    fn rename(&mut self, from: &VaultPath, to: &VaultPath) -> Result<(), FolderErr> {
        let answer = self.folder.rename(from, to);
        self.faults = counted(self.faults, &answer);
        answer
    }

    fn remove_file(&mut self, path: &VaultPath) -> Result<(), FolderErr> {
        let answer = self.folder.remove_file(path);
        self.faults = counted(self.faults, &answer);
        answer
    }

    fn remove_dir(&mut self, path: &VaultPath) -> Result<(), FolderErr> {
        let answer = self.folder.remove_dir(path);
        self.faults = counted(self.faults, &answer);
        answer
    }

    fn sync(&mut self) -> Result<(), FolderErr> {
        let answer = self.folder.sync();
        self.faults = counted(self.faults, &answer);
        answer
    }
}
