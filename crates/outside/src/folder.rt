ghost use Rattle.std.specs.Prelude.{◌≡◌, ◌≤◌, ◌-◌, ℕ, List, Option, Some, ⊤, length, take, drop, min, IfOk, OnOk, OnErr, IsErrOf};
ghost use Rattle.outside.specs.Disk.{kind_at, node_at, file, IsFolder, IsFile, IsListing, IsTree};
ghost use Rattle.outside.specs.Calls.{HasCause, Told, Changes, IsUnfit, KeepsFrom, risen};
ghost use Rattle.outside.specs.Changes.{MakeDir, Put, Write, SetLen, Move, RemoveFile, RemoveDir};
ghost use Rattle.outside.specs.Images.{Log, disk_in, adds, Synced, IsSound, HasDone, HasBroken, DoesNotFit};

use std::alloc::Global;
use thiserror::Error;
use vault_path::{Text, VaultPath};

/// What is at a path.
#[derive(Clone, Copy, Debug, PartialEq, Eq)]
pub enum Kind {
    /// A folder.
    Dir,
    /// A file, with its length in bytes.
    File(u64),
}

/// Why a call of a folder gave no answer.
#[derive(Clone, Copy, Debug, PartialEq, Eq, Error)]
pub enum FolderErr {
    /// The host failed: the folder's count of faults rose in this call. A part of a change may have been done.
    #[error("the folder failed")]
    Failed,
    /// The call's condition fails. Nothing changed.
    #[error("the path is not what the call needs")]
    Unfit,
    /// Memory ran out, in `list` alone.
    #[error("out of memory")]
    Memory,
}

/// What a call that takes a folder hands back if it refuses it, and why.
#[derive(Drop)]
pub struct Refused<D, C> {
    pub folder: D,
    pub cause: C,
}

/// A folder of the host that can be read.
pub trait Reads {
    /// The disk that it began with, and the calls since that changed it or flushed it, if it tells.
    ghost log: { Self → Option Log };

    /// How often it has failed.
    ghost faults: { Self → ℕ };

    /// How many changing calls there were, which every folder tells.
    ghost changes: { Self → ℕ };

    /// What is at a path, if anything. Never `Unfit`.
    fn kind(&mut self, path: &VaultPath) -> Result<Option<Kind>, FolderErr>
        ensures kind { IfOk result (λ kind. Told (disk_in (log self.old)) (λ d. kind ≡ kind_at d path.now)) }
        ensures tree { Told (disk_in (log self.old)) IsTree }
        ensures fits { IsErrOf result FolderErr.Unfit → ⊥ }
        ensures no_memory { IsErrOf result FolderErr.Memory → ⊥ }
        ensures log { log self.new ≡ log self.old }
        ensures changes { changes self.new ≡ changes self.old }
        ensures cause { HasCause (faults self.old) (faults self.new) (IsErrOf result FolderErr.Failed) };

    /// The names in a folder, each once, in some order. Condition: a folder.
    fn list(&mut self, alloc: Global, path: &VaultPath) -> Result<Vec<Text>, FolderErr>
        ensures names { IfOk result (λ names. Told (disk_in (log self.old))
            (λ d. IsFolder d path.now × IsListing d path.now names.items)) }
        ensures unfit { IsErrOf result FolderErr.Unfit
            → IsUnfit (disk_in (log self.old)) (faults self.old) (faults self.new) (λ d. IsFolder d path.now) }
        ensures log { log self.new ≡ log self.old }
        ensures changes { changes self.new ≡ changes self.old }
        ensures cause { HasCause (faults self.old) (faults self.new) (IsErrOf result FolderErr.Failed) };

    /// The bytes of a file from byte `at` on: as many as there are and `out` has room for, and their number. The rest of
    /// `out` is as it was. Condition: a file.
    fn read(&mut self, path: &VaultPath, at: u64, out: &mut [u8]) -> Result<usize, FolderErr>
        ensures count { IfOk result (λ n. n ≤ length out.old) }
        ensures rest { IfOk result (λ n. KeepsFrom n out.old out.new) }
        ensures bytes { IfOk result (λ n. Told (disk_in (log self.old)) (λ d. (bytes : List ℕ)
            × (node_at d path.now ≡ Some (file bytes))
            × (n ≡ min (length out.old) (length bytes - at)) × (take n out.new ≡ take n (drop at bytes)))) }
        ensures unfit { IsErrOf result FolderErr.Unfit
            → IsUnfit (disk_in (log self.old)) (faults self.old) (faults self.new) (λ d. IsFile d path.now) }
        ensures no_memory { IsErrOf result FolderErr.Memory → ⊥ }
        ensures log { log self.new ≡ log self.old }
        ensures changes { changes self.new ≡ changes self.old }
        ensures cause { HasCause (faults self.old) (faults self.new) (IsErrOf result FolderErr.Failed) };

    /// Counts a fault: what is at a path isn't as it was left, so that another program changed it. A folder of the host tells the path.
    fn report_changed(&mut self, path: &VaultPath)
        ensures log { log self.new ≡ log self.old }
        ensures changes { changes self.new ≡ changes self.old }
        ensures cause { HasCause (faults self.old) (faults self.new) ⊤ };
}

/// A folder of the host that can be changed. Until a sync a stop may leave all of a change, a part of it, or none. A call that
/// failed may have done a part of itself, or was not begun; one that is unfit changed nothing.
pub trait Folder: Reads {
    /// Makes a folder if there is none yet. Condition: the parent is a folder, and nothing or a folder is at the path.
    fn make_dir(&mut self, path: &VaultPath) -> Result<(), FolderErr>
        ensures done { OnOk result (Changes (Self.log self.old) (Self.log self.new) (HasDone (MakeDir path.now))) }
        ensures unfit { IsErrOf result FolderErr.Unfit
            → DoesNotFit (MakeDir path.now) (Self.log self.old) (Self.faults self.old) (Self.faults self.new) }
        ensures refused { IsErrOf result FolderErr.Unfit → Self.log self.new ≡ Self.log self.old }
        ensures broken { OnErr result (Changes (Self.log self.old) (Self.log self.new) (HasBroken (MakeDir path.now))) }
        ensures no_memory { IsErrOf result FolderErr.Memory → ⊥ }
        ensures cause { HasCause (Self.faults self.old) (Self.faults self.new) (IsErrOf result FolderErr.Failed) }
        ensures counted { Self.changes self.new ≡ risen (Self.changes self.old) };

    /// Puts a file with these bytes in place of the file that is there, if any. Condition: the parent is a folder, and
    /// nothing or a file is at the path.
    fn put(&mut self, path: &VaultPath, bytes: &[u8]) -> Result<(), FolderErr>
        ensures done { OnOk result (Changes (Self.log self.old) (Self.log self.new) (HasDone (Put path.now bytes.now))) }
        ensures unfit { IsErrOf result FolderErr.Unfit
            → DoesNotFit (Put path.now bytes.now) (Self.log self.old) (Self.faults self.old) (Self.faults self.new) }
        ensures refused { IsErrOf result FolderErr.Unfit → Self.log self.new ≡ Self.log self.old }
        ensures broken { OnErr result (Changes (Self.log self.old) (Self.log self.new) (HasBroken (Put path.now bytes.now))) }
        ensures no_memory { IsErrOf result FolderErr.Memory → ⊥ }
        ensures cause { HasCause (Self.faults self.old) (Self.faults self.new) (IsErrOf result FolderErr.Failed) }
        ensures counted { Self.changes self.new ≡ risen (Self.changes self.old) };

    /// Writes bytes over those of a file from byte `at` on, and past its end. Condition: a file of at least `at` bytes.
    fn write(&mut self, path: &VaultPath, at: u64, bytes: &[u8]) -> Result<(), FolderErr>
        ensures done { OnOk result (Changes (Self.log self.old) (Self.log self.new) (HasDone (Write path.now at bytes.now))) }
        ensures unfit { IsErrOf result FolderErr.Unfit
            → DoesNotFit (Write path.now at bytes.now) (Self.log self.old) (Self.faults self.old) (Self.faults self.new) }
        ensures refused { IsErrOf result FolderErr.Unfit → Self.log self.new ≡ Self.log self.old }
        ensures broken { OnErr result (Changes (Self.log self.old) (Self.log self.new) (HasBroken (Write path.now at bytes.now))) }
        ensures no_memory { IsErrOf result FolderErr.Memory → ⊥ }
        ensures cause { HasCause (Self.faults self.old) (Self.faults self.new) (IsErrOf result FolderErr.Failed) }
        ensures counted { Self.changes self.new ≡ risen (Self.changes self.old) };

    /// Cuts a file to `len` bytes. Condition: a file of at least `len` bytes.
    fn set_len(&mut self, path: &VaultPath, len: u64) -> Result<(), FolderErr>
        ensures done { OnOk result (Changes (Self.log self.old) (Self.log self.new) (HasDone (SetLen path.now len))) }
        ensures unfit { IsErrOf result FolderErr.Unfit
            → DoesNotFit (SetLen path.now len) (Self.log self.old) (Self.faults self.old) (Self.faults self.new) }
        ensures refused { IsErrOf result FolderErr.Unfit → Self.log self.new ≡ Self.log self.old }
        ensures broken { OnErr result (Changes (Self.log self.old) (Self.log self.new) (HasBroken (SetLen path.now len))) }
        ensures no_memory { IsErrOf result FolderErr.Memory → ⊥ }
        ensures cause { HasCause (Self.faults self.old) (Self.faults self.new) (IsErrOf result FolderErr.Failed) }
        ensures counted { Self.changes self.new ≡ risen (Self.changes self.old) };

    /// Moves a file, over another if there is one. Condition: a file is at `from`, the parent of `to` is a folder, and
    /// nothing or a file is at `to`. Up to the next sync `to` isn't to be put, written or cut: a host may then leave the new
    /// bytes at `from`.
    fn rename(&mut self, from: &VaultPath, to: &VaultPath) -> Result<(), FolderErr>
        ensures done { OnOk result (Changes (Self.log self.old) (Self.log self.new) (HasDone (Move from.now to.now))) }
        ensures unfit { IsErrOf result FolderErr.Unfit
            → DoesNotFit (Move from.now to.now) (Self.log self.old) (Self.faults self.old) (Self.faults self.new) }
        ensures refused { IsErrOf result FolderErr.Unfit → Self.log self.new ≡ Self.log self.old }
        ensures broken { OnErr result (Changes (Self.log self.old) (Self.log self.new) (HasBroken (Move from.now to.now))) }
        ensures no_memory { IsErrOf result FolderErr.Memory → ⊥ }
        ensures cause { HasCause (Self.faults self.old) (Self.faults self.new) (IsErrOf result FolderErr.Failed) }
        ensures counted { Self.changes self.new ≡ risen (Self.changes self.old) };

    /// Removes a file, if there is one. Condition: a file or nothing.
    fn remove_file(&mut self, path: &VaultPath) -> Result<(), FolderErr>
        ensures done { OnOk result (Changes (Self.log self.old) (Self.log self.new) (HasDone (RemoveFile path.now))) }
        ensures unfit { IsErrOf result FolderErr.Unfit
            → DoesNotFit (RemoveFile path.now) (Self.log self.old) (Self.faults self.old) (Self.faults self.new) }
        ensures refused { IsErrOf result FolderErr.Unfit → Self.log self.new ≡ Self.log self.old }
        ensures broken { OnErr result (Changes (Self.log self.old) (Self.log self.new) (HasBroken (RemoveFile path.now))) }
        ensures no_memory { IsErrOf result FolderErr.Memory → ⊥ }
        ensures cause { HasCause (Self.faults self.old) (Self.faults self.new) (IsErrOf result FolderErr.Failed) }
        ensures counted { Self.changes self.new ≡ risen (Self.changes self.old) };

    /// Removes a folder, if there is one. Condition: an empty folder below the top, or nothing.
    fn remove_dir(&mut self, path: &VaultPath) -> Result<(), FolderErr>
        ensures done { OnOk result (Changes (Self.log self.old) (Self.log self.new) (HasDone (RemoveDir path.now))) }
        ensures unfit { IsErrOf result FolderErr.Unfit
            → DoesNotFit (RemoveDir path.now) (Self.log self.old) (Self.faults self.old) (Self.faults self.new) }
        ensures refused { IsErrOf result FolderErr.Unfit → Self.log self.new ≡ Self.log self.old }
        ensures broken { OnErr result (Changes (Self.log self.old) (Self.log self.new) (HasBroken (RemoveDir path.now))) }
        ensures no_memory { IsErrOf result FolderErr.Memory → ⊥ }
        ensures cause { HasCause (Self.faults self.old) (Self.faults self.new) (IsErrOf result FolderErr.Failed) }
        ensures counted { Self.changes self.new ≡ risen (Self.changes self.old) };

    /// After it a stop leaves what reads give, up to the next change.
    fn sync(&mut self) -> Result<(), FolderErr>
        ensures synced { OnOk result (Changes (Self.log self.old) (Self.log self.new) (λ old new. new ≡ adds old Synced)) }
        ensures failed { OnErr result (Self.log self.new ≡ Self.log self.old) }
        ensures sound { Told (Self.log self.old) (λ log. IsSound log.start log.calls) }
        ensures fits { IsErrOf result FolderErr.Unfit → ⊥ }
        ensures no_memory { IsErrOf result FolderErr.Memory → ⊥ }
        ensures changes { Self.changes self.new ≡ Self.changes self.old }
        ensures cause { HasCause (Self.faults self.old) (Self.faults self.new) (IsErrOf result FolderErr.Failed) };
}
