ghost use Rattle.std.specs.Prelude.{◌≡◌, ◌⊎◌, true, false, not, [], string_bytes, OnOk, OnErr, IfOk, IsErr, IsTrue, IsErrOf, IsOkUnless, Contains};
ghost use Rattle.outside.specs.Calls.{Told, Changes};
ghost use Rattle.outside.specs.Disk.{Path, parent};
ghost use Rattle.host_calls.specs.Calls.{IsTextOf, IsFound, change_of};
ghost use Rattle.host_folder.specs.Answers.{IsNoted, IsSameLog, HasSynced};
ghost use Rattle.host_folder.specs.Behind.{story_of, HasTexts, IsKept, IsComposed, IsUnsettled, HasLooked};
ghost use Rattle.host_folder.specs.Held.{IsLater};
ghost use Rattle.host_folder.specs.Opened.{IsOpened};

use crate::flushing::{flush_each, flush_with_folders};
use crate::path_buffer::PathBuffer;
use crate::touched::Touched;
use host_calls::{Found, HostCalls, HostChange};
use outside::FolderErr;
use std::alloc::{AllocError, Global};
use vault_path::VaultPath;

/// A folder of the host, and what is to be flushed of it.
#[derive(Drop)]
pub(crate) struct Host<H> {
    pub(crate) host: H,
    pub(crate) paths: PathBuffer,
    /// Where a rename leads.
    pub(crate) target: PathBuffer,
    touched: Touched,
    /// Where files were moved to since the last sync. Bytes that are written there could be left where the file was, so all is
    /// flushed before that.
    moved: Touched,
    /// A flush has failed. The host may take the pages for written from then on, so no later sync can be trusted.
    flush_failed: bool,
    /// Whether proofs see here what the host tells: not if an earlier run may have left something off the disk.
    tells: bool,
}

/// Has the diary say what a change answered.
pub(crate) fn note<H: HostCalls>(host: &mut H, answer: &Result<(), FolderErr>, change: HostChange)
    ensures noted { Changes (H.story host.old) (H.story host.new) (IsNoted (change_of change.entry) answer.now) }
    ensures top { H.top host.new ≡ H.top host.old }
{
    match answer {
        Ok(()) => host.did(change),
        Err(FolderErr::Failed) => host.broke(change),
        Err(FolderErr::Unfit | FolderErr::Memory) => {}
    }
}

impl<H: HostCalls> Host<H> {
    /// The folder whose own text is `path`, and the paths that are flushed first.
    pub(crate) fn new(
        host: H,
        alloc: Global,
        path: &str,
        tells: bool,
    ) -> Result<Host<H>, AllocError>
    where
        H: Drop,
        ensures host { IfOk result (λ made. made.host ≡ host) }
        ensures texts { IfOk result (λ made. (string_bytes made.paths.base ≡ path.now) × (string_bytes made.target.base ≡ path.now)) }
        ensures unsettled { IfOk result IsUnsettled }
        ensures tells { IfOk result (λ made. made.tells ≡ tells) }
    {
        let paths = PathBuffer::new(alloc, path)?;
        let target = PathBuffer::new(alloc, path)?;
        let touched = Touched::first(alloc)?;
        let moved = Touched::new(alloc)?;
        Ok(Host {
            host,
            paths,
            target,
            touched,
            moved,
            flush_failed: false,
            tells,
        })
    }

    /// What the host has at a path, whose text is composed.
    pub(crate) fn find(&mut self, path: &VaultPath) -> Result<Found, FolderErr>
        requires { Told (story_of H.story self.old) (λ _. HasTexts H.top self.old) }
        ensures failed { IsOkUnless result FolderErr.Failed }
        ensures found { IfOk result (λ found. Told (story_of H.story self.new) (λ s. IsFound found s path.now)) }
        ensures text { Told (story_of H.story self.new) (λ _. IsTextOf (H.top self.new.host) (string_bytes self.new.paths.room) path.now) }
        ensures target { string_bytes self.new.target.room ≡ string_bytes self.old.target.room }
        ensures looked { HasLooked H.story H.top self.old self.new }
    {
        self.paths.compose(path);
        self.host.stat(self.paths.text(), path.is_empty())
    }

    /// The same, if the folder itself is there: else nothing is known to be absent.
    pub(crate) fn find_inside(&mut self, path: &VaultPath) -> Result<Found, FolderErr>
        requires { Told (story_of H.story self.old) (λ _. HasTexts H.top self.old) }
        ensures failed { IsOkUnless result FolderErr.Failed }
        ensures found { IfOk result (λ found. Told (story_of H.story self.new) (λ s. IsFound found s path.now)) }
        ensures text { Told (story_of H.story self.new) (λ _. IsTextOf (H.top self.new.host) (string_bytes self.new.paths.room) path.now) }
        ensures looked { HasLooked H.story H.top self.old self.new }
    {
        match self.find(path)? {
            Found::Nothing if !self.is_there() => Err(FolderErr::Failed),
            found => Ok(found),
        }
    }

    // Whether the folder itself is there.
    fn is_there(&mut self) -> bool
        ensures looked { HasLooked H.story H.top self.old self.new }
        ensures text { string_bytes self.new.paths.room ≡ string_bytes self.old.paths.room }
    {
        matches!(self.host.stat(self.paths.base(), true), Ok(Found::Dir(_)))
    }

    /// What the host has at a path of a rename's target, whose text is composed apart.
    pub(crate) fn find_target(&mut self, path: &VaultPath) -> Result<Found, FolderErr>
        requires { Told (story_of H.story self.old) (λ _. HasTexts H.top self.old) }
        ensures failed { IsOkUnless result FolderErr.Failed }
        ensures found { IfOk result (λ found. Told (story_of H.story self.new) (λ s. IsFound found s path.now)) }
        ensures text { Told (story_of H.story self.new) (λ _. IsTextOf (H.top self.new.host) (string_bytes self.new.target.room) path.now) }
        ensures looked { HasLooked H.story H.top self.old self.new }
    {
        self.target.compose(path);
        self.host.stat(self.target.text(), path.is_empty())
    }

    // Brings all to the disk that isn't there yet.
    fn flush_all(&mut self) -> Result<(), FolderErr>
        requires { Told (story_of H.story self.old) (IsKept H.top self.old) }
        ensures kept { Told (story_of H.story self.new) (IsKept H.top self.new) }
        ensures failed { IsOkUnless result FolderErr.Failed }
        ensures log { Changes (story_of H.story self.old) (story_of H.story self.new) IsSameLog }
        ensures none { OnOk result ((self.new.touched.paths.items ≡ []) × (self.new.moved.paths.items ≡ []) × (self.new.flush_failed ≡ false)) }
        ensures stays { IsTrue self.old.flush_failed → IsErr result × IsTrue self.new.flush_failed }
        ensures fails { IsErr result → IsTrue self.new.flush_failed }
        ensures base { string_bytes self.new.paths.base ≡ string_bytes self.old.paths.base }
        ensures tells { self.new.tells ≡ self.old.tells }
    {
        if self.flush_failed {
            return Err(FolderErr::Failed);
        }
        if let Err(cause) = flush_each(&mut self.host, &mut self.paths, self.touched.paths()) {
            self.flush_failed = true;
            return Err(cause);
        }
        self.touched.clear();
        self.moved.clear();
        Ok(())
    }

    /// What the host has at a path of a change, for whose paths there is room.
    pub(crate) fn reach(&mut self, path: &VaultPath) -> Result<Found, FolderErr>
        requires { Told (story_of H.story self.old) (IsKept H.top self.old) }
        ensures failed { IsOkUnless result FolderErr.Failed }
        ensures kept { Told (story_of H.story self.new) (IsKept H.top self.new) }
        ensures log { Changes (story_of H.story self.old) (story_of H.story self.new) IsSameLog }
        ensures composed { IfOk result (λ found. Told (story_of H.story self.new)
            (λ s. IsComposed H.top self.new path.now s × IsFound found s path.now)) }
    {
        self.make_room()?;
        self.find(path)
    }

    /// The same, if the folder itself is there.
    pub(crate) fn reach_inside(&mut self, path: &VaultPath) -> Result<Found, FolderErr>
        requires { Told (story_of H.story self.old) (IsKept H.top self.old) }
        ensures failed { IsOkUnless result FolderErr.Failed }
        ensures kept { Told (story_of H.story self.new) (IsKept H.top self.new) }
        ensures log { Changes (story_of H.story self.old) (story_of H.story self.new) IsSameLog }
        ensures composed { IfOk result (λ found. Told (story_of H.story self.new)
            (λ s. IsComposed H.top self.new path.now s × IsFound found s path.now)) }
    {
        self.make_room()?;
        self.find_inside(path)
    }

    /// The same of a change of a file's bytes. No file that was moved there since the last sync is left.
    pub(crate) fn reach_bytes(&mut self, path: &VaultPath) -> Result<Found, FolderErr>
        requires { Told (story_of H.story self.old) (IsKept H.top self.old) }
        ensures failed { IsOkUnless result FolderErr.Failed }
        ensures kept { Told (story_of H.story self.new) (IsKept H.top self.new) }
        ensures log { Changes (story_of H.story self.old) (story_of H.story self.new) IsSameLog }
        ensures composed { IfOk result (λ found. Told (story_of H.story self.new)
            (λ s. IsComposed H.top self.new path.now s × IsFound found s path.now)) }
        ensures unmoved { OnOk result (¬ Contains self.new.moved.paths.items path.now) }
    {
        if self.moved.has(path) {
            self.flush_all()?;
        } else {
            self.make_room()?;
        }
        self.find(path)
    }

    /// Has room for the paths of a change.
    pub(crate) fn make_room(&mut self) -> Result<(), FolderErr>
        requires { Told (story_of H.story self.old) (IsKept H.top self.old) }
        ensures kept { Told (story_of H.story self.new) (IsKept H.top self.new) }
        ensures failed { IsOkUnless result FolderErr.Failed }
        ensures log { Changes (story_of H.story self.old) (story_of H.story self.new) IsSameLog }
        ensures moved { OnOk result ((self.new.moved.paths.items ≡ self.old.moved.paths.items) ⊎ (self.new.moved.paths.items ≡ [])) }
    {
        if self.touched.is_crowded() || self.moved.is_crowded() {
            self.flush_all()
        } else {
            Ok(())
        }
    }

    /// Has the next sync flush what is at a path.
    pub(crate) fn touch(&mut self, path: &VaultPath) -> Result<(), FolderErr>
        ensures failed { IsOkUnless result FolderErr.Failed }
        ensures touched { OnOk result (Contains self.new.touched.paths.items path.now) }
        ensures more { (other : Path) → Contains self.old.touched.paths.items other → Contains self.new.touched.paths.items other }
        ensures rest { self.new ≡ record self.old { touched = self.new.touched } }
    {
        self.touched.keep(path)
    }

    /// The same of a path at which something is made or moved, and of the folder that it is in.
    pub(crate) fn touch_name(&mut self, path: &VaultPath) -> Result<(), FolderErr>
        ensures failed { IsOkUnless result FolderErr.Failed }
        ensures touched { OnOk result (Contains self.new.touched.paths.items path.now) }
        ensures above { OnOk result (Contains self.new.touched.paths.items (parent path.now)) }
        ensures more { (other : Path) → Contains self.old.touched.paths.items other → Contains self.new.touched.paths.items other }
        ensures rest { self.new ≡ record self.old { touched = self.new.touched } }
    {
        self.touch(path)?;
        self.touch(&path.parent())
    }

    /// The same of a file that moves: of where it goes, which is kept apart too, and of both folders. That from which it goes comes last:
    /// on a disk that moves a file in two steps it has then two names rather than none.
    pub(crate) fn touch_move(&mut self, from: &VaultPath, to: &VaultPath) -> Result<(), FolderErr>
        ensures failed { IsOkUnless result FolderErr.Failed }
        ensures left { OnOk result (Contains self.new.touched.paths.items (parent from.now)) }
        ensures touched { OnOk result (Contains self.new.touched.paths.items to.now) }
        ensures above { OnOk result (Contains self.new.touched.paths.items (parent to.now)) }
        ensures moved { OnOk result (Contains self.new.moved.paths.items to.now) }
        ensures more { (other : Path) → Contains self.old.touched.paths.items other → Contains self.new.touched.paths.items other }
        ensures more_moved { (other : Path) → Contains self.old.moved.paths.items other → Contains self.new.moved.paths.items other }
        ensures rest { self.new ≡ record self.old { touched = self.new.touched; moved = self.new.moved } }
    {
        self.touch_name(to)?;
        self.touch(&from.parent())?;
        self.moved.keep(to)
    }

    /// Flushes what was touched since the last sync. After a flush that failed, it fails for good.
    pub(crate) fn sync(&mut self) -> Result<(), FolderErr>
        requires { Told (story_of H.story self.old) (IsKept H.top self.old) }
        ensures kept { Told (story_of H.story self.new) (IsKept H.top self.new) }
        ensures failed { IsOkUnless result FolderErr.Failed }
        ensures synced { OnOk result (Changes (story_of H.story self.old) (story_of H.story self.new) HasSynced) }
        ensures log { OnErr result (Changes (story_of H.story self.old) (story_of H.story self.new) IsSameLog) }
        ensures stays { IsTrue self.old.flush_failed → IsErr result × IsTrue self.new.flush_failed }
        ensures fails { IsErr result → IsTrue self.new.flush_failed }
        ensures base { string_bytes self.new.paths.base ≡ string_bytes self.old.paths.base }
        ensures tells { self.new.tells ≡ self.old.tells }
    {
        self.flush_all()?;
        self.host.synced();
        Ok(())
    }

    // Brings to the disk what an earlier run may have left off it: at these paths, in their folders and at the first paths.
    fn flush_first(&mut self, paths: &[VaultPath]) -> Result<(), FolderErr>
        requires unsettled { IsUnsettled self.old }
        requires tells { self.old.tells ≡ true }
        requires texts { Told (H.story self.old.host) (λ _. HasTexts H.top self.old) }
        requires opened { Told (H.story self.old.host) (IsOpened paths.now) }
        ensures failed { IsOkUnless result FolderErr.Failed }
        ensures later { Changes (H.story self.old.host) (H.story self.new.host) IsLater }
        ensures base { string_bytes self.new.paths.base ≡ string_bytes self.old.paths.base }
        ensures kept { OnOk result (Told (story_of H.story self.new) (IsKept H.top self.new)) }
        ensures none { OnOk result ((self.new.flush_failed ≡ false) × (self.new.tells ≡ true)) }
    {
        flush_with_folders(&mut self.host, &mut self.paths, paths)?;
        flush_each(&mut self.host, &mut self.paths, self.touched.paths())?;
        self.touched.clear();
        Ok(())
    }

    /// Brings to the disk what an earlier run may have left off it. If a flush fails, nothing is told from then on, and each sync
    /// fails.
    pub(crate) fn settle(&mut self, paths: &[VaultPath])
        requires unsettled { IsUnsettled self.old }
        requires tells { self.old.tells ≡ true }
        requires texts { Told (H.story self.old.host) (λ _. HasTexts H.top self.old) }
        requires opened { Told (H.story self.old.host) (IsOpened paths.now) }
        ensures kept { Told (story_of H.story self.new) (IsKept H.top self.new) }
        ensures later { Changes (H.story self.old.host) (H.story self.new.host) IsLater }
        ensures base { string_bytes self.new.paths.base ≡ string_bytes self.old.paths.base }
        ensures tells { self.new.tells ≡ not self.new.flush_failed }
    {
        if self.flush_first(paths).is_err() {
            self.flush_failed = true;
            self.tells = false;
        }
    }
}
