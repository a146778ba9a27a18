// A folder in memory that another program changes too.

ghost use Rattle.std.specs.Prelude.{◌≡◌, ⊤, IsErrOf};
ghost use Rattle.outside.specs.Calls.{HasCause, Rose, risen};

use outside::{Folder, FolderErr, Kind, Reads};
use outside_mem::MemFolder;
use std::alloc::Global;
use vault_path::{Text, VaultPath};

/// What another program does to a file.
#[derive(Drop)]
pub(crate) enum Deed {
    Remove,
    Cut(u64),
    Put(String),
}

/// A deed of another program, before a call of a number.
#[derive(Drop)]
pub(crate) struct Meddling {
    pub call: u64,
    pub path: VaultPath,
    pub deed: Deed,
}

/// A folder that tells nothing, since it isn't as its calls leave it.
#[derive(Drop)]
pub(crate) struct Beside {
    folder: MemFolder,
    // Those to come, the next one last.
    meddlings: Vec<Meddling>,
    faults: u64,
    changes: u64,
}

impl Beside {
    /// The folder, and what another program does to it, the last deed first.
    pub(crate) fn new(folder: MemFolder, meddlings: Vec<Meddling>) -> Beside {
        Beside {
            folder,
            meddlings,
            faults: 0,
            changes: 0,
        }
    }

    /// What is left of it.
    pub(crate) fn into_folder(self) -> MemFolder {
        let Beside { folder, .. } = self;
        folder
    }

    // What another program does before the next call.
    fn meddle(&mut self)
        ensures faults { self.new.faults ≡ self.old.faults }
        ensures changes { self.new.changes ≡ self.old.changes }
    {
        let call = self.folder.call_count();
        match self.meddlings.last() {
            Some(next) if next.call <= call => {}
            _ => return,
        }
        if let Some(Meddling { path, deed, .. }) = self.meddlings.pop() {
            let _done = match deed {
                Deed::Remove => self.folder.remove_file(&path),
                Deed::Cut(len) => self.folder.set_len(&path, len),
                Deed::Put(text) => self.folder.put(&path, text.as_bytes()),
            };
        }
    }
}

// Counts one changing call more.
fn count_change(changes: &mut u64)
    ensures { changes.new ≡ risen changes.old }
{
    *changes = changes.saturating_add(1);
}

// Counts an answer that is a failure or that the call doesn't fit.
fn counted<T>(faults: &mut u64, answer: Result<T, FolderErr>) -> Result<T, FolderErr>
    ensures same { result ≡ answer }
    ensures cause { HasCause faults.old faults.new (IsErrOf result FolderErr.Failed) }
    ensures unfit { IsErrOf result FolderErr.Unfit → Rose faults.old faults.new }
{
    match &answer {
        Ok(_) | Err(FolderErr::Memory) => {}
        Err(FolderErr::Failed | FolderErr::Unfit) => *faults = faults.saturating_add(1),
    }
    answer
}

impl Reads for Beside {
    ghost use Rattle.std.specs.Prelude.{None};

    ghost log = { λ _. None };

    ghost faults = { λ beside. beside.faults };

    ghost changes = { λ beside. beside.changes };

    fn kind(&mut self, path: &VaultPath) -> Result<Option<Kind>, FolderErr> {
        self.meddle();
        let answer = self.folder.kind(path);
        counted(&mut self.faults, answer)
    }

    fn list(&mut self, alloc: Global, path: &VaultPath) -> Result<Vec<Text>, FolderErr> {
        self.meddle();
        let answer = self.folder.list(alloc, path);
        counted(&mut self.faults, answer)
    }

    fn read(&mut self, path: &VaultPath, at: u64, out: &mut [u8]) -> Result<usize, FolderErr> {
        self.meddle();
        let answer = self.folder.read(path, at, out);
        counted(&mut self.faults, answer)
    }

    fn report_changed(&mut self, path: &VaultPath) {
        self.folder.report_changed(path);
        self.faults = self.faults.saturating_add(1);
    }
}

impl Folder for Beside {
    fn make_dir(&mut self, path: &VaultPath) -> Result<(), FolderErr> {
        self.meddle();
        let answer = self.folder.make_dir(path);
        count_change(&mut self.changes);
        counted(&mut self.faults, answer)
    }

    fn put(&mut self, path: &VaultPath, bytes: &[u8]) -> Result<(), FolderErr> {
        self.meddle();
        let answer = self.folder.put(path, bytes);
        count_change(&mut self.changes);
        counted(&mut self.faults, answer)
    }

    fn write(&mut self, path: &VaultPath, at: u64, bytes: &[u8]) -> Result<(), FolderErr> {
        self.meddle();
        let answer = self.folder.write(path, at, bytes);
        count_change(&mut self.changes);
        counted(&mut self.faults, answer)
    }

    fn set_len(&mut self, path: &VaultPath, len: u64) -> Result<(), FolderErr> {
        self.meddle();
        let answer = self.folder.set_len(path, len);
        count_change(&mut self.changes);
        counted(&mut self.faults, answer)
    }

    fn rename(&mut self, from: &VaultPath, to: &VaultPath) -> Result<(), FolderErr> {
        self.meddle();
        let answer = self.folder.rename(from, to);
        count_change(&mut self.changes);
        counted(&mut self.faults, answer)
    }

    fn remove_file(&mut self, path: &VaultPath) -> Result<(), FolderErr> {
        self.meddle();
        let answer = self.folder.remove_file(path);
        count_change(&mut self.changes);
        counted(&mut self.faults, answer)
    }

    fn remove_dir(&mut self, path: &VaultPath) -> Result<(), FolderErr> {
        self.meddle();
        let answer = self.folder.remove_dir(path);
        count_change(&mut self.changes);
        counted(&mut self.faults, answer)
    }

    fn sync(&mut self) -> Result<(), FolderErr> {
        self.meddle();
        let answer = self.folder.sync();
        counted(&mut self.faults, answer)
    }
}
