ghost use Rattle.std.specs.Prelude.{◌≡◌, false, string_bytes, OnOk, OnErr, IfOk, IsErr, IsErrOf, IsTrue};
ghost use Rattle.outside.specs.Calls.{HasCause, Told, Changes};
ghost use Rattle.outside.specs.Images.{Synced, IsSound, IsImage, adds, now};
ghost use Rattle.host_calls.specs.Volume.{Volume, disk_of};
ghost use Rattle.host_calls.specs.Story.{IsLeft, disk_now};
ghost use Rattle.host_folder.specs.Behind.{story_of, IsKept};
ghost use Rattle.host_folder.specs.First.{first_paths};
ghost use Rattle.host_folder.specs.Holding.{story_in, log_in};

use crate::count::{count_change, count_fault, counted_in_folder};
use crate::host::Host;
use host_calls::HostCalls;
use outside::{Folder, FolderErr, Kind, Reads};
use std::alloc::{AllocError, Global};
use std::marker::Model;
use vault_path::{Text, VaultPath};

/// A folder of a host. If the host tells its story, the folder tells its log, unless it was opened untold or couldn't be settled.
///
/// What is neither a file nor a folder, as a device, a FIFO or a link, is named by `list`, but `kind` finds nothing there, and
/// other calls answer `Unfit`. The folder's own path may be a link; if it leads to no folder, `kind` fails. `put` writes over a
/// file that is there and then cuts it. `sync` flushes what was touched; once a flush has failed, each sync fails.
#[derive(Drop)]
pub struct HostFolder<H: HostCalls> {
    host: Host<H>,
    faults: u64,
    changes: u64,
}

impl<H: HostCalls> Model for HostFolder<H> {
    ghost use Rattle.host_folder.specs.Holding.{Holding, coded_holding};

    ghost Value = { Holding H };

    ghost coded = { coded_holding H.code };

    ghost use Rattle.std.specs.Prelude.{string_bytes};
    ghost use Rattle.outside.specs.Calls.{Told};
    ghost use Rattle.host_folder.specs.Behind.{story_of, IsKept};

    ghost view = { λ a. record {
      host = a.host.host;
      base = string_bytes a.host.paths.base;
      touched = a.host.touched.paths.items;
      failed = a.host.flush_failed;
      tells = a.host.tells;
      faults = a.faults;
      changes = a.changes;
    } };

    ghost invariant = { λ a. Told (story_of H.story a.host) (IsKept H.top a.host) };
}

impl<H: HostCalls> HostFolder<H> {
    /// A folder that tells nothing, whatever its host does. Its first sync flushes what each start builds on, since an earlier run
    /// may have left that off the disk.
    ///
    /// `path` is the folder's own path, at which nothing may be; at the empty one nothing is. Room is reserved in which later
    /// calls compose their paths.
    ///
    /// # Errors
    ///
    /// Memory ran out.
    pub fn untold(host: H, alloc: Global, path: &str) -> Result<HostFolder<H>, AllocError>
    where
        H: Drop,
        ensures { IfOk result (λ folder. folder ≡ record {
          host = host;
          base = path.now;
          touched = first_paths;
          failed = false;
          tells = false;
          faults = 0;
          changes = 0;
        }) }
    {
        let host = Host::new(host, alloc, path, false)?;
        Ok(HostFolder {
            host,
            faults: 0,
            changes: 0,
        })
    }

    // The folder over a host whose paths are kept.
    pub(crate) fn over(host: Host<H>, faults: u64) -> HostFolder<H>
        requires { Told (story_of H.story host) (IsKept H.top host) }
        ensures { result ≡ record {
          host = host.host;
          base = string_bytes host.paths.base;
          touched = host.touched.paths.items;
          failed = host.flush_failed;
          tells = host.tells;
          faults = faults;
          changes = 0;
        } }
    {
        HostFolder {
            host,
            faults,
            changes: 0,
        }
    }

    /// What a kill of the program leaves, since the host goes on: what the log says. It does nothing.
    pub fn kill(&self)
        ensures { Told (story_in H.story self.now) (λ s. disk_now s ≡ now s.diary) }
    {
        let _host = &self.host;
    }

    /// A power cut leaves an image of the log. It does nothing.
    pub fn power_cut(&self)
        ensures { Told (story_in H.story self.now) (λ s. (volume : Volume) → IsLeft s volume → IsImage s.diary (disk_of volume)) }
    {
        let _host = &self.host;
    }
}

impl<H: HostCalls> Reads for HostFolder<H> {
    ghost use Rattle.host_folder.specs.Holding.{log_in};

    ghost log = { λ folder. log_in H.story folder };

    ghost faults = { λ folder. folder.faults };

    ghost changes = { λ folder. folder.changes };

    fn kind(&mut self, path: &VaultPath) -> Result<Option<Kind>, FolderErr> {
        let answer = self.host.kind(path);
        counted_in_folder(&mut self.faults, answer)
    }

    fn list(&mut self, alloc: Global, path: &VaultPath) -> Result<Vec<Text>, FolderErr> {
        let answer = self.host.list(alloc, path);
        counted_in_folder(&mut self.faults, answer)
    }

    fn read(&mut self, path: &VaultPath, at: u64, out: &mut [u8]) -> Result<usize, FolderErr> {
        let answer = self.host.read(path, at, out);
        counted_in_folder(&mut self.faults, answer)
    }

    fn report_changed(&mut self, path: &VaultPath) {
        self.host.report_changed(path);
        count_fault(&mut self.faults);
    }
}

impl<H: HostCalls> Folder for HostFolder<H> {
    fn make_dir(&mut self, path: &VaultPath) -> Result<(), FolderErr> {
        count_change(&mut self.changes);
        let answer = self.host.make_dir(path);
        counted_in_folder(&mut self.faults, answer)
    }

    fn put(&mut self, path: &VaultPath, bytes: &[u8]) -> Result<(), FolderErr> {
        count_change(&mut self.changes);
        let answer = self.host.put(path, bytes);
        counted_in_folder(&mut self.faults, answer)
    }

    fn write(&mut self, path: &VaultPath, at: u64, bytes: &[u8]) -> Result<(), FolderErr> {
        count_change(&mut self.changes);
        let answer = self.host.write(path, at, bytes);
        counted_in_folder(&mut self.faults, answer)
    }

    fn set_len(&mut self, path: &VaultPath, len: u64) -> Result<(), FolderErr> {
        count_change(&mut self.changes);
        let answer = self.host.set_len(path, len);
        counted_in_folder(&mut self.faults, answer)
    }

    fn rename(&mut self, from: &VaultPath, to: &VaultPath) -> Result<(), FolderErr> {
        count_change(&mut self.changes);
        let answer = self.host.rename(from, to);
        counted_in_folder(&mut self.faults, answer)
    }

    fn remove_file(&mut self, path: &VaultPath) -> Result<(), FolderErr> {
        count_change(&mut self.changes);
        let answer = self.host.remove_file(path);
        counted_in_folder(&mut self.faults, answer)
    }

    fn remove_dir(&mut self, path: &VaultPath) -> Result<(), FolderErr> {
        count_change(&mut self.changes);
        let answer = self.host.remove_dir(path);
        counted_in_folder(&mut self.faults, answer)
    }

    fn sync(&mut self) -> Result<(), FolderErr>
        ensures synced { OnOk result (Changes (log_in H.story self.old) (log_in H.story self.new) (λ old new. new ≡ adds old Synced)) }
        ensures failed { OnErr result (log_in H.story self.new ≡ log_in H.story self.old) }
        ensures sound { Told (log_in H.story self.old) (λ log. IsSound log.start log.calls) }
        ensures fits { IsErrOf result FolderErr.Unfit → ⊥ }
        ensures no_memory { IsErrOf result FolderErr.Memory → ⊥ }
        ensures changes { self.new.changes ≡ self.old.changes }
        ensures cause { HasCause self.old.faults self.new.faults (IsErrOf result FolderErr.Failed) }

        // After a flush that failed, each sync fails.
        ensures stays { IsTrue self.old.failed → IsErr result }
        ensures kept { IsErr result → IsTrue self.new.failed }
    {
        let answer = self.host.sync();
        counted_in_folder(&mut self.faults, answer)
    }
}
