ghost use Rattle.std.specs.Prelude.{◌≡◌, ◌≢◌, ◌↔◌, [], None, string_bytes, IsTrue, IsErr, IsErrOf};
ghost use Rattle.outside.specs.Calls.{Told, Changes};
ghost use Rattle.outside.specs.Changes.{Move, RemoveFile, RemoveDir};
ghost use Rattle.host_calls.specs.Volume.{entry_at};
ghost use Rattle.host_calls.specs.Names.{HasFile, HasFolder};
ghost use Rattle.host_calls.specs.Story.{names_now};
ghost use Rattle.host_calls.specs.Calls.{IsTextOf};
ghost use Rattle.host_folder.specs.Answers.{IsAnswer};
ghost use Rattle.host_folder.specs.Behind.{story_of, IsKept, IsComposed};

use crate::host::{Host, note};
use host_calls::{Found, HostCalls, HostChange, is_same};
use outside::FolderErr;
use vault_path::VaultPath;

// Whether two paths differ.
fn differ(one: &VaultPath, other: &VaultPath) -> bool
    ensures { IsTrue result ↔ (one.now ≢ other.now) }
{
    one != other
}

impl<H: HostCalls> Host<H> {
    /// Moves a file, over another if there is one.
    pub(crate) fn rename(&mut self, from: &VaultPath, to: &VaultPath) -> Result<(), FolderErr>
        requires { Told (story_of H.story self.old) (IsKept H.top self.old) }
        ensures kept { Told (story_of H.story self.new) (IsKept H.top self.new) }
        ensures answer { Changes (story_of H.story self.old) (story_of H.story self.new) (IsAnswer (Move from.now to.now) result) }
        ensures no_memory { IsErrOf result FolderErr.Memory → ⊥ }
    {
        self.make_room()?;
        let there = self.find_target(to)?;
        match there {
            Found::Nothing | Found::File(..) => {}
            _ => return Err(FolderErr::Unfit),
        }
        let found = self.find(from)?;
        match found {
            Found::File(..) if is_same(found, there) && differ(from, to) => self.drop_link(
                from, to,
            ),
            Found::File(..) => self.move_file(from, to),
            _ => Err(FolderErr::Unfit),
        }
    }

    // Removes the old name of a file that has the new one as well: rename(2) would leave both. No file of a told story has two names.
    fn drop_link(&mut self, from: &VaultPath, to: &VaultPath) -> Result<(), FolderErr>
        requires { Told (story_of H.story self.old) (λ _. ⊥) }
        ensures kept { Told (story_of H.story self.new) (IsKept H.top self.new) }
        ensures answer { Changes (story_of H.story self.old) (story_of H.story self.new) (IsAnswer (Move from.now to.now) result) }
        ensures no_memory { IsErrOf result FolderErr.Memory → ⊥ }
    {
        self.touch_move(from, to)?;
        self.drop_file(from)
    }

    // Moves what is there, once both texts are composed.
    fn move_file(&mut self, from: &VaultPath, to: &VaultPath) -> Result<(), FolderErr>
        requires { Told (story_of H.story self.old) (λ s. IsComposed H.top self.old from.now s
            × IsTextOf (H.top self.old.host) (string_bytes self.old.target.room) to.now) }
        ensures kept { Told (story_of H.story self.new) (IsKept H.top self.new) }
        ensures answer { Changes (story_of H.story self.old) (story_of H.story self.new) (IsAnswer (Move from.now to.now) result) }
        ensures no_memory { IsErrOf result FolderErr.Memory → ⊥ }
    {
        self.touch_move(from, to)?;
        let answer = self.host.rename(self.paths.text(), self.target.text());
        note(&mut self.host, &answer, HostChange::Rename(from, to));
        answer
    }

    /// Removes a file, if there is one.
    pub(crate) fn remove_file(&mut self, path: &VaultPath) -> Result<(), FolderErr>
        requires { Told (story_of H.story self.old) (IsKept H.top self.old) }
        ensures kept { Told (story_of H.story self.new) (IsKept H.top self.new) }
        ensures answer { Changes (story_of H.story self.old) (story_of H.story self.new) (IsAnswer (RemoveFile path.now) result) }
        ensures no_memory { IsErrOf result FolderErr.Memory → ⊥ }
    {
        match self.reach_inside(path)? {
            Found::File(..) => self.drop_file(path),
            Found::Nothing => self.keep_no_file(path),
            _ => Err(FolderErr::Unfit),
        }
    }

    // Removes the file that is there.
    fn drop_file(&mut self, path: &VaultPath) -> Result<(), FolderErr>
        requires { Told (story_of H.story self.old) (λ s. IsComposed H.top self.old path.now s × HasFile (names_now s) path.now) }
        ensures kept { Told (story_of H.story self.new) (IsKept H.top self.new) }
        ensures answer { Changes (story_of H.story self.old) (story_of H.story self.new) (IsAnswer (RemoveFile path.now) result) }
        ensures no_memory { IsErrOf result FolderErr.Memory → ⊥ }
    {
        self.touch(&path.parent())?;
        let answer = self.host.unlink(self.paths.text());
        note(&mut self.host, &answer, HostChange::RemoveFile(path));
        answer
    }

    // Finds a file gone already, whose name an earlier run may have left on the disk.
    fn keep_no_file(&mut self, path: &VaultPath) -> Result<(), FolderErr>
        requires { Told (story_of H.story self.old) (λ s. IsKept H.top self.old s × (entry_at (names_now s) path.now ≡ None)) }
        ensures kept { Told (story_of H.story self.new) (IsKept H.top self.new) }
        ensures answer { Changes (story_of H.story self.old) (story_of H.story self.new) (IsAnswer (RemoveFile path.now) result) }
        ensures no_memory { IsErrOf result FolderErr.Memory → ⊥ }
    {
        self.touch(&path.parent())?;
        self.host.did(HostChange::RemoveFile(path));
        Ok(())
    }

    /// Removes an empty folder below the top, if there is one.
    pub(crate) fn remove_dir(&mut self, path: &VaultPath) -> Result<(), FolderErr>
        requires { Told (story_of H.story self.old) (IsKept H.top self.old) }
        ensures kept { Told (story_of H.story self.new) (IsKept H.top self.new) }
        ensures answer { Changes (story_of H.story self.old) (story_of H.story self.new) (IsAnswer (RemoveDir path.now) result) }
        ensures no_memory { IsErrOf result FolderErr.Memory → ⊥ }
        ensures top { path.now ≡ [] → IsErr result }
    {
        if path.is_empty() {
            return Err(FolderErr::Unfit);
        }
        match self.reach_inside(path)? {
            Found::Dir(_) => self.drop_dir(path),
            Found::Nothing => self.keep_no_dir(path),
            _ => Err(FolderErr::Unfit),
        }
    }

    // Removes the folder that is there, if it is empty.
    fn drop_dir(&mut self, path: &VaultPath) -> Result<(), FolderErr>
        requires { Told (story_of H.story self.old) (λ s. IsComposed H.top self.old path.now s × HasFolder (names_now s) path.now) }
        ensures kept { Told (story_of H.story self.new) (IsKept H.top self.new) }
        ensures answer { Changes (story_of H.story self.old) (story_of H.story self.new) (IsAnswer (RemoveDir path.now) result) }
        ensures no_memory { IsErrOf result FolderErr.Memory → ⊥ }
    {
        self.touch(&path.parent())?;
        let answer = self.host.rmdir(self.paths.text());
        note(&mut self.host, &answer, HostChange::RemoveDir(path));
        answer
    }

    // Finds a folder gone already, whose name an earlier run may have left on the disk.
    fn keep_no_dir(&mut self, path: &VaultPath) -> Result<(), FolderErr>
        requires { Told (story_of H.story self.old) (λ s. IsKept H.top self.old s × (entry_at (names_now s) path.now ≡ None)) }
        ensures kept { Told (story_of H.story self.new) (IsKept H.top self.new) }
        ensures answer { Changes (story_of H.story self.old) (story_of H.story self.new) (IsAnswer (RemoveDir path.now) result) }
        ensures no_memory { IsErrOf result FolderErr.Memory → ⊥ }
    {
        self.touch(&path.parent())?;
        self.host.did(HostChange::RemoveDir(path));
        Ok(())
    }
}
