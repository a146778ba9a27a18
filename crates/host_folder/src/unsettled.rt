ghost use Rattle.std.specs.Prelude.{◌≡◌, true, not, [], Some, IfOk};
ghost use Rattle.outside.specs.Calls.{Told, Changes};
ghost use Rattle.host_calls.specs.Story.{disk_now};
ghost use Rattle.host_folder.specs.Held.{IsLater};
ghost use Rattle.host_folder.specs.Opened.{IsBegun, IsOpened};
ghost use Rattle.host_folder.specs.Holding.{log_in};

use crate::count::{count_fault, counted_in_folder};
use crate::folder::HostFolder;
use crate::host::Host;
use host_calls::HostCalls;
use outside::{FolderErr, Kind, Reads};
use std::alloc::{AllocError, Global};
use std::marker::Model;
use vault_path::{Text, VaultPath};

/// A folder of a host that was opened, of which an earlier run may have left something off the disk. It can only be read, until it is
/// settled.
#[derive(Drop)]
pub struct Unsettled<H: HostCalls> {
    host: Host<H>,
    faults: u64,
}

impl<H: HostCalls> Model for Unsettled<H> {
    ghost use Rattle.host_folder.specs.Holding.{Reading, coded_reading};

    ghost Value = { Reading H };

    ghost coded = { coded_reading H.code };

    ghost use Rattle.std.specs.Prelude.{◌≡◌, true, string_bytes};
    ghost use Rattle.outside.specs.Calls.{Told};
    ghost use Rattle.host_folder.specs.Behind.{IsShown, IsUnsettled};

    ghost view = { λ a. record { host = a.host.host; base = string_bytes a.host.paths.base; faults = a.faults } };

    ghost invariant = { λ a. IsUnsettled a.host × (a.host.tells ≡ true) × Told (H.story a.host.host) (IsShown H.top a.host) };
}

impl<H: HostCalls> Unsettled<H> {
    /// The folder at a path, which is the host's own if that tells its story. It takes no call yet, and reserves the room in which
    /// later calls compose their paths.
    ///
    /// # Errors
    ///
    /// Memory ran out.
    pub fn new(host: H, alloc: Global, path: &str) -> Result<Unsettled<H>, AllocError>
    where
        H: Drop,
        requires top { Told (H.story host) (λ _. path.now ≡ H.top host) }
        requires begun { Told (H.story host) IsBegun }
        ensures { IfOk result (λ unsettled. unsettled ≡ record { host = host; base = path.now; faults = 0 }) }
    {
        let host = Host::new(host, alloc, path, true)?;
        Ok(Unsettled { host, faults: 0 })
    }

    /// Brings to the disk what an earlier run may have left off it: at these paths, in their folders, and where each start builds
    /// on. If a flush fails, the folder tells nothing, and each of its syncs fails, the first one too.
    pub fn settle(self, paths: &[VaultPath]) -> HostFolder<H>
        requires { Told (H.story self.host) (IsOpened paths.now) }
        ensures later { Changes (H.story self.host) (H.story result.host) IsLater }
        ensures tells { result.tells ≡ not result.failed }
        ensures base { result.base ≡ self.base }
        ensures faults { result.faults ≡ self.faults }
        ensures changes { result.changes ≡ 0 }
        ensures log { Told (H.story self.host) (λ s. result.tells ≡ true
            → log_in H.story result ≡ Some (record { start = disk_now s; calls = [] })) }
    {
        let Unsettled { mut host, faults } = self;
        host.settle(paths);
        HostFolder::over(host, faults)
    }
}

impl<H: HostCalls> Reads for Unsettled<H> {
    ghost use Rattle.std.specs.Option.{option_map};
    ghost use Rattle.host_folder.specs.Telling.{diary_of};

    ghost log = { λ unsettled. option_map diary_of (H.story unsettled.host) };

    ghost faults = { λ unsettled. unsettled.faults };

    ghost changes = { λ _. 0 };

    fn kind(&mut self, path: &VaultPath) -> Result<Option<Kind>, FolderErr> {
        let answer = self.host.kind(path);
        counted_in_folder(&mut self.faults, answer)
    }

    fn list(&mut self, alloc: Global, path: &VaultPath) -> Result<Vec<Text>, FolderErr> {
        let answer = self.host.list(alloc, path);
        counted_in_folder(&mut self.faults, answer)
    }

    fn read(&mut self, path: &VaultPath, at: u64, out: &mut [u8]) -> Result<usize, FolderErr> {
        let answer = self.host.read(path, at, out);
        counted_in_folder(&mut self.faults, answer)
    }

    fn report_changed(&mut self, path: &VaultPath) {
        self.host.report_changed(path);
        count_fault(&mut self.faults);
    }
}
