ghost use Rattle.std.specs.Prelude.{◌≡◌, ◌⊎◌, ◌≤◌, ◌-◌, ℕ, List, None, Some, length, take, drop, min, IfOk, IsErrOf, IsOkUnless};
ghost use Rattle.outside.specs.Calls.{Told, KeepsFrom};
ghost use Rattle.outside.specs.Disk.{kind_at, node_at, file, IsFolder, IsFile, IsListing};
ghost use Rattle.outside.specs.Images.{disk_in};
ghost use Rattle.host_folder.specs.Behind.{log_of, story_of, IsShown, HasLooked};

use crate::host::Host;
use host_calls::{Found, HostCalls};
use outside::{FolderErr, Kind};
use std::alloc::Global;
use vault_path::{Text, VaultPath};

fn kind_of(found: Found) -> Option<Kind>
    ensures dir { (inode : _) → found ≡ Found.Dir inode → result ≡ Some Kind.Dir }
    ensures file { (inode : _) (length : ℕ) → found ≡ Found.File inode length → result ≡ Some (Kind.File length) }
    ensures absent { (found ≡ Found.Nothing) ⊎ (found ≡ Found.Other) → result ≡ None }
{
    match found {
        Found::Nothing | Found::Other => None,
        Found::Dir(_) => Some(Kind::Dir),
        Found::File(_, length) => Some(Kind::File(length)),
    }
}

impl<H: HostCalls> Host<H> {
    /// What is at a path.
    pub(crate) fn kind(&mut self, path: &VaultPath) -> Result<Option<Kind>, FolderErr>
        requires { Told (story_of H.story self.old) (IsShown H.top self.old) }
        ensures kind { IfOk result (λ kind. Told (disk_in (log_of H.story self.old)) (λ d. kind ≡ kind_at d path.now)) }
        ensures failed { IsOkUnless result FolderErr.Failed }
        ensures looked { HasLooked H.story H.top self.old self.new }
    {
        Ok(kind_of(self.find_inside(path)?))
    }

    /// The names in a folder.
    pub(crate) fn list(&mut self, alloc: Global, path: &VaultPath) -> Result<Vec<Text>, FolderErr>
        requires { Told (story_of H.story self.old) (IsShown H.top self.old) }
        ensures names { IfOk result (λ names. Told (disk_in (log_of H.story self.old))
            (λ d. IsFolder d path.now × IsListing d path.now names.items)) }
        ensures unfit { IsErrOf result FolderErr.Unfit → Told (disk_in (log_of H.story self.old)) (λ d. ¬ IsFolder d path.now) }
        ensures looked { HasLooked H.story H.top self.old self.new }
    {
        match self.find(path)? {
            Found::Dir(_) => self.host.list(alloc, self.paths.text()),
            Found::Nothing | Found::File(..) | Found::Other => Err(FolderErr::Unfit),
        }
    }

    /// The bytes of a file from byte `at` on.
    pub(crate) fn read(
        &mut self,
        path: &VaultPath,
        at: u64,
        out: &mut [u8],
    ) -> Result<usize, FolderErr>
        requires { Told (story_of H.story self.old) (IsShown H.top self.old) }
        ensures count { IfOk result (λ n. n ≤ length out.old) }
        ensures rest { IfOk result (λ n. KeepsFrom n out.old out.new) }
        ensures bytes { IfOk result (λ n. Told (disk_in (log_of H.story self.old)) (λ d. (bytes : List ℕ)
            × (node_at d path.now ≡ Some (file bytes))
            × (n ≡ min (length out.old) (length bytes - at)) × (take n out.new ≡ take n (drop at bytes)))) }
        ensures unfit { IsErrOf result FolderErr.Unfit → Told (disk_in (log_of H.story self.old)) (λ d. ¬ IsFile d path.now) }
        ensures no_memory { IsErrOf result FolderErr.Memory → ⊥ }
        ensures looked { HasLooked H.story H.top self.old self.new }
    {
        match self.find(path)? {
            Found::File(_, length) if length <= at => Ok(0),
            Found::File(inode, _) => self.host.read_at(self.paths.text(), inode, at, out),
            Found::Nothing | Found::Dir(_) | Found::Other => Err(FolderErr::Unfit),
        }
    }

    /// Tells that another program changed what is at a path.
    pub(crate) fn report_changed(&mut self, path: &VaultPath)
        requires { Told (story_of H.story self.old) (IsShown H.top self.old) }
        ensures looked { HasLooked H.story H.top self.old self.new }
    {
        self.paths.compose(path);
        self.host.report_changed(self.paths.text());
    }
}
