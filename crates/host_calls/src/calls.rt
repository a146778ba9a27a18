ghost use Rattle.std.specs.Prelude.{◌≡◌, ◌≤◌, ◌-◌, ℕ, List, [], ◌∷◌, Option, Some, length, take, drop, min, IfOk, OnOk, OnErr, IsErrOf, IsOkUnless};
ghost use Rattle.outside.specs.Disk.{node_at, file, IsFolder, IsListing};
ghost use Rattle.outside.specs.Calls.{Told, Changes, KeepsFrom};
ghost use Rattle.outside.specs.Images.{Did, Synced};
ghost use Rattle.host_calls.specs.Names.{MadeFolder, Moved, Dropped, Fits, CanMake, HasFile, IsEmptyFolder, CanMoveTo};
ghost use Rattle.host_calls.specs.Bytes.{Cut};
ghost use Rattle.host_calls.specs.Story.{Story, names_now, disk_now};
ghost use Rattle.host_calls.specs.Calls.{AtPath, IsFound, HasTaken, MayHaveTaken, HasCreated, MayHaveCreated, IsLongFile, HasWritten, MayHaveWritten, MayHaveCut, written, HasFlushed, HasDoubt, change_of, HasNoted, HasNotedBreak};

use crate::found::{Found, Inode};
use crate::lock::{Locking, Sharing};
use outside::FolderErr;
use std::alloc::Global;
use vault_path::{Text, VaultPath};

/// A change of a folder, for a host's diary.
#[derive(Clone, Copy)]
pub enum HostChange<'a> {
    /// A folder made.
    MakeDir(&'a VaultPath),
    /// A file put.
    Put(&'a VaultPath, &'a [u8]),
    /// Bytes written from a place on.
    Write(&'a VaultPath, u64, &'a [u8]),
    /// A file cut to a length.
    SetLen(&'a VaultPath, u64),
    /// A file moved.
    Rename(&'a VaultPath, &'a VaultPath),
    /// A file removed.
    RemoveFile(&'a VaultPath),
    /// A folder removed.
    RemoveDir(&'a VaultPath),
}

/// The calls of a host. What one says of a story that is told holds where its text is that of a path in the vault's folder, in
/// which nobody else changes anything. `Unfit` is returned only if the path isn't what the call needs (missing, a folder or none,
/// taken, not empty), and then nothing changed; after `Failed` the change may be there, in part or whole. `Memory` is returned by
/// `list` alone.
pub trait HostCalls {
    /// What was done to the vault's folder, if it is told.
    ghost story: { Self → Option Story };

    /// The text of the folder's own path.
    ghost top: { Self → List ℕ };

    /// What keeps a folder locked.
    type Lock;

    /// What is at a path. A link at its end is followed only if it is that of the vault's folder itself.
    fn stat(&mut self, text: &str, is_top: bool) -> Result<Found, FolderErr>
        ensures found { IfOk result (λ found. Told (story self.old) (λ s. AtPath (top self.old) text.now (IsFound found s))) }
        ensures failed { IsOkUnless result FolderErr.Failed }
        ensures story { story self.new ≡ story self.old }
        ensures top { top self.new ≡ top self.old };

    /// The names in a folder, each once, in some order.
    fn list(&mut self, alloc: Global, text: &str) -> Result<Vec<Text>, FolderErr>
        ensures names { IfOk result (λ names. Told (story self.old)
            (λ s. AtPath (top self.old) text.now (λ path. IsFolder (disk_now s) path × IsListing (disk_now s) path names.items))) }
        ensures unfit { IsErrOf result FolderErr.Unfit → Told (story self.old)
            (λ s. AtPath (top self.old) text.now (λ path. ¬ IsFolder (disk_now s) path)) }
        ensures story { story self.new ≡ story self.old }
        ensures top { top self.new ≡ top self.old };

    /// The bytes of the file that was seen at a path, from byte `at` on: as many as there are and `out` has room for, and their
    /// number. The rest of `out` is as it was.
    fn read_at(
        &mut self,
        text: &str,
        seen: Inode,
        at: u64,
        out: &mut [u8],
    ) -> Result<usize, FolderErr>
        ensures count { IfOk result (λ n. n ≤ length out.old) }
        ensures rest { IfOk result (λ n. KeepsFrom n out.old out.new) }
        ensures bytes { IfOk result (λ n. Told (story self.old) (λ s. AtPath (top self.old) text.now (λ path. (bytes : List ℕ)
            × (node_at (disk_now s) path ≡ Some (file bytes))
            × (n ≡ min (length out.old) (length bytes - at)) × (take n out.new ≡ take n (drop at bytes))))) }
        ensures failed { IsOkUnless result FolderErr.Failed }
        ensures story { story self.new ≡ story self.old }
        ensures top { top self.new ≡ top self.old };

    /// Makes a folder.
    fn mkdir(&mut self, text: &str) -> Result<(), FolderErr>
        ensures done { OnOk result (Changes (story self.old) (story self.new) (λ s t. AtPath (top self.old) text.now (λ path. HasTaken (MadeFolder path) s t))) }
        ensures unfit { IsErrOf result FolderErr.Unfit → Changes (story self.old) (story self.new)
            (λ s t. AtPath (top self.old) text.now (λ path. (t ≡ s) × ¬ CanMake (names_now s) path)) }
        ensures broken { OnErr result (Changes (story self.old) (story self.new) (λ s t. AtPath (top self.old) text.now (λ path. MayHaveTaken (MadeFolder path) s t))) }
        ensures no_memory { IsErrOf result FolderErr.Memory → ⊥ }
        ensures top { top self.new ≡ top self.old };

    /// Makes a new file of these bytes.
    fn create(&mut self, text: &str, bytes: &[u8]) -> Result<(), FolderErr>
        ensures done { OnOk result (Changes (story self.old) (story self.new) (λ s t. AtPath (top self.old) text.now (λ path. HasCreated path bytes.now s t))) }
        ensures unfit { IsErrOf result FolderErr.Unfit → Changes (story self.old) (story self.new)
            (λ s t. AtPath (top self.old) text.now (λ path. (t ≡ s) × ¬ CanMake (names_now s) path)) }
        ensures broken { OnErr result (Changes (story self.old) (story self.new) (λ s t. AtPath (top self.old) text.now (λ path. MayHaveCreated path bytes.now s t))) }
        ensures no_memory { IsErrOf result FolderErr.Memory → ⊥ }
        ensures top { top self.new ≡ top self.old };

    /// Writes bytes over those of the file that was seen at a path, from byte `at` on, and past its end. If they are to be its
    /// last, it is then cut after them.
    fn write_at(
        &mut self,
        text: &str,
        seen: Inode,
        at: u64,
        bytes: &[u8],
        is_end: bool,
    ) -> Result<(), FolderErr>
        ensures done { OnOk result (Changes (story self.old) (story self.new) (λ s t. AtPath (top self.old) text.now (λ path. HasWritten path seen at (written at bytes.now is_end) s t))) }
        ensures unfit { IsErrOf result FolderErr.Unfit → Changes (story self.old) (story self.new)
            (λ s t. AtPath (top self.old) text.now (λ path. (t ≡ s) × ¬ IsLongFile path seen at s)) }
        ensures broken { OnErr result (Changes (story self.old) (story self.new) (λ s t. AtPath (top self.old) text.now (λ path. MayHaveWritten path seen at bytes.now is_end s t))) }
        ensures no_memory { IsErrOf result FolderErr.Memory → ⊥ }
        ensures top { top self.new ≡ top self.old };

    /// Cuts the file that was seen at a path, which has at least `len` bytes, to that many.
    fn set_len(&mut self, text: &str, seen: Inode, len: u64) -> Result<(), FolderErr>
        ensures done { OnOk result (Changes (story self.old) (story self.new) (λ s t. AtPath (top self.old) text.now (λ path. HasWritten path seen len (Cut len ∷ []) s t))) }
        ensures unfit { IsErrOf result FolderErr.Unfit → Changes (story self.old) (story self.new)
            (λ s t. AtPath (top self.old) text.now (λ path. (t ≡ s) × ¬ IsLongFile path seen len s)) }
        ensures broken { OnErr result (Changes (story self.old) (story self.new) (λ s t. AtPath (top self.old) text.now (λ path. MayHaveCut path seen len s t))) }
        ensures no_memory { IsErrOf result FolderErr.Memory → ⊥ }
        ensures top { top self.new ≡ top self.old };

    /// Moves a file, over another if there is one.
    fn rename(&mut self, from: &str, to: &str) -> Result<(), FolderErr>
        ensures done { OnOk result (Changes (story self.old) (story self.new)
            (λ s t. AtPath (top self.old) from.now (λ source. AtPath (top self.old) to.now (λ target. HasTaken (Moved source target) s t)))) }
        ensures unfit { IsErrOf result FolderErr.Unfit → Changes (story self.old) (story self.new)
            (λ s t. AtPath (top self.old) from.now (λ source. AtPath (top self.old) to.now (λ target. (t ≡ s) × ¬ CanMoveTo (names_now s) source target))) }
        ensures broken { OnErr result (Changes (story self.old) (story self.new)
            (λ s t. AtPath (top self.old) from.now (λ source. AtPath (top self.old) to.now (λ target. MayHaveTaken (Moved source target) s t)))) }
        ensures no_memory { IsErrOf result FolderErr.Memory → ⊥ }
        ensures top { top self.new ≡ top self.old };

    /// Removes the name of a file.
    fn unlink(&mut self, text: &str) -> Result<(), FolderErr>
        ensures done { OnOk result (Changes (story self.old) (story self.new) (λ s t. AtPath (top self.old) text.now (λ path. HasTaken (Dropped path) s t))) }
        ensures unfit { IsErrOf result FolderErr.Unfit → Changes (story self.old) (story self.new)
            (λ s t. AtPath (top self.old) text.now (λ path. (t ≡ s) × ¬ HasFile (names_now s) path)) }
        ensures broken { OnErr result (Changes (story self.old) (story self.new) (λ s t. AtPath (top self.old) text.now (λ path. MayHaveTaken (Dropped path) s t))) }
        ensures no_memory { IsErrOf result FolderErr.Memory → ⊥ }
        ensures top { top self.new ≡ top self.old };

    /// Removes a folder with no entry.
    fn rmdir(&mut self, text: &str) -> Result<(), FolderErr>
        ensures done { OnOk result (Changes (story self.old) (story self.new) (λ s t. AtPath (top self.old) text.now (λ path. HasTaken (Dropped path) s t))) }
        ensures unfit { IsErrOf result FolderErr.Unfit → Changes (story self.old) (story self.new)
            (λ s t. AtPath (top self.old) text.now (λ path. (t ≡ s) × ¬ IsEmptyFolder (names_now s) path)) }
        ensures broken { OnErr result (Changes (story self.old) (story self.new) (λ s t. AtPath (top self.old) text.now (λ path. MayHaveTaken (Dropped path) s t))) }
        ensures no_memory { IsErrOf result FolderErr.Memory → ⊥ }
        ensures top { top self.new ≡ top self.old };

    /// Brings the bytes of the file, or the entries of the folder, that was seen at a path to the disk. After a failure no flush
    /// promises anything.
    fn fsync(&mut self, text: &str, seen: Found) -> Result<(), FolderErr>
        ensures done { OnOk result (Changes (story self.old) (story self.new) (λ s t. AtPath (top self.old) text.now (λ path. HasFlushed path s t))) }
        ensures doubt { OnErr result (Changes (story self.old) (story self.new) HasDoubt) }
        ensures failed { IsOkUnless result FolderErr.Failed }
        ensures top { top self.new ≡ top self.old };

    /// Takes the lock of a folder. It keeps nobody from changing what is in it, but who takes the lock first; what is in it stays as it is.
    fn lock(&mut self, text: &str, sharing: Sharing) -> Locking<Self::Lock>
        ensures story { story self.new ≡ story self.old }
        ensures top { top self.new ≡ top self.old };

    /// Tells that what is at a path was changed by another program. It does nothing else.
    fn report_changed(&mut self, text: &str)
        ensures story { story self.new ≡ story self.old }
        ensures top { top self.new ≡ top self.old };

    /// Has the diary of a told story say that a change was done. It does nothing.
    fn did(&mut self, change: HostChange)
        ensures noted { Changes (story self.old) (story self.new) (HasNoted (Did (change_of change.entry))) }
        ensures top { top self.new ≡ top self.old };

    /// The same of a change that failed, if any step of it was taken: it left what reads give. It does nothing.
    fn broke(&mut self, change: HostChange)
        ensures noted { Changes (story self.old) (story self.new) (HasNotedBreak (change_of change.entry)) }
        ensures top { top self.new ≡ top self.old };

    /// The same of a sync. It does nothing.
    fn synced(&mut self)
        ensures noted { Changes (story self.old) (story self.new) (HasNoted Synced) }
        ensures top { top self.new ≡ top self.old };
}
