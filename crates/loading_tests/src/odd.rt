//! A folder with odd entries, as a host may have them.
ghost use Rattle.std.specs.Prelude.{None};

use outside::{FolderErr, Kind, Reads};
use std::alloc::Global;
use vault_path::{Text, VaultPath};

/// A folder over another one that tells nothing, since neither odd entry can be told.
#[derive(Drop)]
pub struct Odd<D> {
    pub folder: D,
    /// Links, FIFOs or sockets of the host: they are listed, and no kind is found.
    pub links: Vec<VaultPath>,
    /// Folders that may not be listed.
    pub locked: Vec<VaultPath>,
}

impl<D: Reads> Reads for Odd<D> {
    ghost log = { λ _. None };

    ghost faults = { λ odd. D.faults odd.folder };

    ghost changes = { λ odd. D.changes odd.folder };

    fn kind(&mut self, path: &VaultPath) -> Result<Option<Kind>, FolderErr> {
        if self.links.contains(path) {
            return Ok(None);
        }
        self.folder.kind(path)
    }

    fn list(&mut self, alloc: Global, path: &VaultPath) -> Result<Vec<Text>, FolderErr> {
        if self.locked.contains(path) {
            self.folder.report_changed(path);
            return Err(FolderErr::Unfit);
        }
        let answer = self.folder.list(alloc, path);
        if let Err(FolderErr::Unfit) = &answer {
            self.folder.report_changed(path);
        }
        answer
    }

    fn read(&mut self, path: &VaultPath, at: u64, out: &mut [u8]) -> Result<usize, FolderErr> {
        let answer = self.folder.read(path, at, out);
        if let Err(FolderErr::Unfit) = &answer {
            self.folder.report_changed(path);
        }
        answer
    }

    fn report_changed(&mut self, path: &VaultPath) {
        self.folder.report_changed(path);
    }
}
