ghost use Rattle.std.specs.Prelude.{Contains, IsErrOf};
ghost use Rattle.outside.specs.Calls.{Told, Changes};
ghost use Rattle.outside.specs.Changes.{Write, SetLen};
ghost use Rattle.host_calls.specs.Calls.{IsLongFile};
ghost use Rattle.host_folder.specs.Answers.{IsAnswer};
ghost use Rattle.host_folder.specs.Behind.{story_of, IsKept, IsComposed};

use crate::host::{Host, note};
use host_calls::{Found, HostCalls, HostChange, Inode};
use outside::FolderErr;
use vault_path::VaultPath;

impl<H: HostCalls> Host<H> {
    /// Writes bytes over those of a file from byte `at` on, and past its end.
    pub(crate) fn write(&mut self, path: &VaultPath, at: u64, bytes: &[u8]) -> Result<(), FolderErr>
        requires { Told (story_of H.story self.old) (IsKept H.top self.old) }
        ensures kept { Told (story_of H.story self.new) (IsKept H.top self.new) }
        ensures answer { Changes (story_of H.story self.old) (story_of H.story self.new) (IsAnswer (Write path.now at bytes.now) result) }
        ensures no_memory { IsErrOf result FolderErr.Memory → ⊥ }
    {
        let Found::File(inode, length) = self.reach_bytes(path)? else {
            return Err(FolderErr::Unfit);
        };
        if at > length {
            return Err(FolderErr::Unfit);
        }
        self.write_bytes(path, inode, at, bytes)
    }

    // Writes to a file of at least `at` bytes, under which nothing was moved since the last sync.
    fn write_bytes(
        &mut self,
        path: &VaultPath,
        inode: Inode,
        at: u64,
        bytes: &[u8],
    ) -> Result<(), FolderErr>
        requires long { Told (story_of H.story self.old) (λ s. IsComposed H.top self.old path.now s × IsLongFile path.now inode at s) }
        requires unmoved { ¬ Contains self.old.moved.paths.items path.now }
        ensures kept { Told (story_of H.story self.new) (IsKept H.top self.new) }
        ensures answer { Changes (story_of H.story self.old) (story_of H.story self.new) (IsAnswer (Write path.now at bytes.now) result) }
        ensures no_memory { IsErrOf result FolderErr.Memory → ⊥ }
    {
        self.touch(path)?;
        let answer = self
            .host
            .write_at(self.paths.text(), inode, at, bytes, false);
        note(&mut self.host, &answer, HostChange::Write(path, at, bytes));
        answer
    }

    /// Cuts a file to `len` bytes.
    pub(crate) fn set_len(&mut self, path: &VaultPath, len: u64) -> Result<(), FolderErr>
        requires { Told (story_of H.story self.old) (IsKept H.top self.old) }
        ensures kept { Told (story_of H.story self.new) (IsKept H.top self.new) }
        ensures answer { Changes (story_of H.story self.old) (story_of H.story self.new) (IsAnswer (SetLen path.now len) result) }
        ensures no_memory { IsErrOf result FolderErr.Memory → ⊥ }
    {
        let Found::File(inode, length) = self.reach_bytes(path)? else {
            return Err(FolderErr::Unfit);
        };
        if len > length {
            return Err(FolderErr::Unfit);
        }
        self.cut(path, inode, len)
    }

    // Cuts a file of at least `len` bytes, under which nothing was moved since the last sync.
    fn cut(&mut self, path: &VaultPath, inode: Inode, len: u64) -> Result<(), FolderErr>
        requires long { Told (story_of H.story self.old) (λ s. IsComposed H.top self.old path.now s × IsLongFile path.now inode len s) }
        requires unmoved { ¬ Contains self.old.moved.paths.items path.now }
        ensures kept { Told (story_of H.story self.new) (IsKept H.top self.new) }
        ensures answer { Changes (story_of H.story self.old) (story_of H.story self.new) (IsAnswer (SetLen path.now len) result) }
        ensures no_memory { IsErrOf result FolderErr.Memory → ⊥ }
    {
        self.touch(path)?;
        let answer = self.host.set_len(self.paths.text(), inode, len);
        note(&mut self.host, &answer, HostChange::SetLen(path, len));
        answer
    }
}
