ghost use Rattle.std.specs.Prelude.{◌≡◌, None, Some, Contains, IsErrOf};
ghost use Rattle.outside.specs.Calls.{Told, Changes};
ghost use Rattle.outside.specs.Changes.{MakeDir, Put};
ghost use Rattle.host_calls.specs.Volume.{File, entry_at};
ghost use Rattle.host_calls.specs.Names.{HasFolder};
ghost use Rattle.host_calls.specs.Story.{names_now};
ghost use Rattle.host_folder.specs.Answers.{IsAnswer};
ghost use Rattle.host_folder.specs.Behind.{story_of, IsKept, IsComposed};

use crate::host::{Host, note};
use host_calls::{Found, HostCalls, HostChange, Inode};
use outside::FolderErr;
use vault_path::VaultPath;

impl<H: HostCalls> Host<H> {
    /// Makes a folder if there is none yet.
    pub(crate) fn make_dir(&mut self, path: &VaultPath) -> Result<(), FolderErr>
        requires { Told (story_of H.story self.old) (IsKept H.top self.old) }
        ensures kept { Told (story_of H.story self.new) (IsKept H.top self.new) }
        ensures answer { Changes (story_of H.story self.old) (story_of H.story self.new) (IsAnswer (MakeDir path.now) result) }
        ensures no_memory { IsErrOf result FolderErr.Memory → ⊥ }
    {
        match self.reach(path)? {
            Found::Nothing => self.make_new_dir(path),
            Found::Dir(_) => self.keep_dir(path),
            _ => Err(FolderErr::Unfit),
        }
    }

    // Makes a folder where nothing is.
    fn make_new_dir(&mut self, path: &VaultPath) -> Result<(), FolderErr>
        requires { Told (story_of H.story self.old) (λ s. IsComposed H.top self.old path.now s × (entry_at (names_now s) path.now ≡ None)) }
        ensures kept { Told (story_of H.story self.new) (IsKept H.top self.new) }
        ensures answer { Changes (story_of H.story self.old) (story_of H.story self.new) (IsAnswer (MakeDir path.now) result) }
        ensures no_memory { IsErrOf result FolderErr.Memory → ⊥ }
    {
        self.touch_name(path)?;
        let answer = self.host.mkdir(self.paths.text());
        note(&mut self.host, &answer, HostChange::MakeDir(path));
        answer
    }

    // Finds a folder made already, which an earlier run may have left off the disk.
    fn keep_dir(&mut self, path: &VaultPath) -> Result<(), FolderErr>
        requires { Told (story_of H.story self.old) (λ s. IsKept H.top self.old s × HasFolder (names_now s) path.now) }
        ensures kept { Told (story_of H.story self.new) (IsKept H.top self.new) }
        ensures answer { Changes (story_of H.story self.old) (story_of H.story self.new) (IsAnswer (MakeDir path.now) result) }
        ensures no_memory { IsErrOf result FolderErr.Memory → ⊥ }
    {
        self.touch_name(path)?;
        self.host.did(HostChange::MakeDir(path));
        Ok(())
    }

    /// Puts a file with these bytes in place of the file that is there, if any.
    pub(crate) fn put(&mut self, path: &VaultPath, bytes: &[u8]) -> Result<(), FolderErr>
        requires { Told (story_of H.story self.old) (IsKept H.top self.old) }
        ensures kept { Told (story_of H.story self.new) (IsKept H.top self.new) }
        ensures answer { Changes (story_of H.story self.old) (story_of H.story self.new) (IsAnswer (Put path.now bytes.now) result) }
        ensures no_memory { IsErrOf result FolderErr.Memory → ⊥ }
    {
        match self.reach_bytes(path)? {
            Found::Nothing => self.make_file(path, bytes),
            Found::File(inode, _) => self.replace(path, inode, bytes),
            _ => Err(FolderErr::Unfit),
        }
    }

    // Makes a file where nothing is.
    fn make_file(&mut self, path: &VaultPath, bytes: &[u8]) -> Result<(), FolderErr>
        requires { Told (story_of H.story self.old) (λ s. IsComposed H.top self.old path.now s × (entry_at (names_now s) path.now ≡ None)) }
        ensures kept { Told (story_of H.story self.new) (IsKept H.top self.new) }
        ensures answer { Changes (story_of H.story self.old) (story_of H.story self.new) (IsAnswer (Put path.now bytes.now) result) }
        ensures no_memory { IsErrOf result FolderErr.Memory → ⊥ }
    {
        self.touch_name(path)?;
        let answer = self.host.create(self.paths.text(), bytes);
        note(&mut self.host, &answer, HostChange::Put(path, bytes));
        answer
    }

    // Puts bytes in place of those of a file, under which nothing was moved since the last sync.
    fn replace(&mut self, path: &VaultPath, inode: Inode, bytes: &[u8]) -> Result<(), FolderErr>
        requires there { Told (story_of H.story self.old)
            (λ s. IsComposed H.top self.old path.now s × (entry_at (names_now s) path.now ≡ Some (File inode))) }
        requires unmoved { ¬ Contains self.old.moved.paths.items path.now }
        ensures kept { Told (story_of H.story self.new) (IsKept H.top self.new) }
        ensures answer { Changes (story_of H.story self.old) (story_of H.story self.new) (IsAnswer (Put path.now bytes.now) result) }
        ensures no_memory { IsErrOf result FolderErr.Memory → ⊥ }
    {
        self.touch_name(path)?;
        let answer = self.host.write_at(self.paths.text(), inode, 0, bytes, true);
        note(&mut self.host, &answer, HostChange::Put(path, bytes));
        answer
    }
}
