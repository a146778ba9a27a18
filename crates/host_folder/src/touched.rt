ghost use Rattle.std.specs.Prelude.{◌≡◌, ◌↔◌, [], Contains, IfOk, OnOk, IsOkUnless, IsTrue};
ghost use Rattle.outside.specs.Disk.{Path};
ghost use Rattle.host_folder.specs.First.{first_paths};

use outside::FolderErr;
use std::alloc::{AllocError, Global};
use vault_layout::{FOLDERS, JOURNAL_FILE, MASTERKEY_FILE, NEW_JOURNAL_FILE, VAULT_FILE};
use vault_path::VaultPath;

// How many paths are kept for the next sync.
const MOST: usize = 128;

// How many a change keeps.
const OF_A_CHANGE: usize = 3;

/// Paths that are kept for the next sync.
#[derive(Drop)]
pub(crate) struct Touched {
    paths: Vec<VaultPath>,
}

impl Touched {
    /// None yet, and room for the most.
    pub(crate) fn new(alloc: Global) -> Result<Touched, AllocError>
        ensures { IfOk result (λ touched. touched.paths.items ≡ []) }
    {
        Ok(Touched {
            paths: Vec::with_capacity(alloc, MOST)?,
        })
    }

    /// The paths that are flushed before the folder is changed, since an earlier run may have left them off the disk, and room for the
    /// most.
    pub(crate) fn first(alloc: Global) -> Result<Touched, AllocError>
        ensures { IfOk result (λ touched. touched.paths.items ≡ first_paths) }
    {
        let top = VaultPath::root();
        let mut paths = Vec::with_capacity(alloc, MOST)?;
        paths.push(top.joined(FOLDERS))?;
        paths.push(top.joined(JOURNAL_FILE))?;
        paths.push(top.joined(NEW_JOURNAL_FILE))?;
        paths.push(top.joined(MASTERKEY_FILE))?;
        paths.push(top.joined(VAULT_FILE))?;
        paths.push(top)?;
        Ok(Touched { paths })
    }

    /// Keeps a path, and takes no memory. It fails if there is no room.
    pub(crate) fn keep(&mut self, path: &VaultPath) -> Result<(), FolderErr>
        ensures kept { OnOk result (Contains self.new.paths.items path.now) }
        ensures more { (other : Path) → Contains self.old.paths.items other → Contains self.new.paths.items other }
        ensures failed { IsOkUnless result FolderErr.Failed }
    {
        if self.paths.contains(path) {
            return Ok(());
        }
        if self.paths.len() >= MOST {
            return Err(FolderErr::Failed);
        }
        self.paths
            .push(path.copied())
            .map_err(|_| FolderErr::Failed)
    }

    /// Whether a change may find no room.
    pub(crate) fn is_crowded(&self) -> bool {
        self.paths.len() > MOST - OF_A_CHANGE
    }

    /// Whether a path is kept.
    pub(crate) fn has(&self, path: &VaultPath) -> bool
        ensures { IsTrue result ↔ Contains self.now.paths.items path.now }
    {
        self.paths.contains(path)
    }

    /// The paths.
    pub(crate) fn paths(&self) -> &[VaultPath]
        ensures { result.now ≡ self.now.paths.items }
    {
        &self.paths
    }

    /// Forgets all of them.
    pub(crate) fn clear(&mut self)
        ensures { self.new.paths.items ≡ [] }
    {
        self.paths.clear();
    }
}
