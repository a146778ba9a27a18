//! A host that a folder is given, and that is had back after it.
ghost use Rattle.std.specs.Prelude.{None, []};

use host_calls::{Found, HostCalls, HostChange, Inode, Locking, Sharing};
use mem_host::MemHost;
use outside::FolderErr;
use std::alloc::Global;
use vault_path::Text;

/// The host's own calls. It tells nothing, so that nothing is to be known of the host that is lent.
#[derive(Drop)]
pub struct Lent<'a> {
    pub host: &'a mut MemHost,
}

impl<'a> HostCalls for Lent<'a> {
    ghost story = { λ _. None };

    ghost top = { λ _. [] };

    type Lock = ();

    fn stat(&mut self, text: &str, is_top: bool) -> Result<Found, FolderErr> {
        self.host.stat(text, is_top)
    }

    fn list(&mut self, alloc: Global, text: &str) -> Result<Vec<Text>, FolderErr> {
        self.host.list(alloc, text)
    }

    fn read_at(
        &mut self,
        text: &str,
        seen: Inode,
        at: u64,
        out: &mut [u8],
    ) -> Result<usize, FolderErr> {
        self.host.read_at(text, seen, at, out)
    }

    fn mkdir(&mut self, text: &str) -> Result<(), FolderErr> {
        self.host.mkdir(text)
    }

    fn create(&mut self, text: &str, bytes: &[u8]) -> Result<(), FolderErr> {
        self.host.create(text, bytes)
    }

    fn write_at(
        &mut self,
        text: &str,
        seen: Inode,
        at: u64,
        bytes: &[u8],
        is_end: bool,
    ) -> Result<(), FolderErr> {
        self.host.write_at(text, seen, at, bytes, is_end)
    }

    fn set_len(&mut self, text: &str, seen: Inode, len: u64) -> Result<(), FolderErr> {
        self.host.set_len(text, seen, len)
    }

    fn rename(&mut self, from: &str, to: &str) -> Result<(), FolderErr> {
        self.host.rename(from, to)
    }

    fn unlink(&mut self, text: &str) -> Result<(), FolderErr> {
        self.host.unlink(text)
    }

    fn rmdir(&mut self, text: &str) -> Result<(), FolderErr> {
        self.host.rmdir(text)
    }

    fn fsync(&mut self, text: &str, seen: Found) -> Result<(), FolderErr> {
        self.host.fsync(text, seen)
    }

    fn lock(&mut self, text: &str, sharing: Sharing) -> Locking<()> {
        self.host.lock(text, sharing)
    }

    fn report_changed(&mut self, text: &str) {
        self.host.report_changed(text);
    }

    fn did(&mut self, change: HostChange) {
        self.host.did(change);
    }

    fn broke(&mut self, change: HostChange) {
        self.host.broke(change);
    }

    fn synced(&mut self) {
        self.host.synced();
    }
}
