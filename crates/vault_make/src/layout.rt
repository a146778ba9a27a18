//! Writing a vault into an empty folder.

ghost use Rattle.std.specs.Prelude.{◌⊎◌, OnOk, OnErr, IsErr};
ghost use Rattle.outside.specs.Calls.{Changes, HasCause, Told};
ghost use Rattle.outside.specs.Images.{Synced, now, adds, LeavesOnly, IsSteady};
ghost use Rattle.outside.specs.Views.{folder_in};
ghost use Rattle.vault_make.specs.Vault.{IsEmpty, IsNoVault};
ghost use Rattle.vault_make.specs.Errors.{IsUnwritten};
ghost use Rattle.vault_make.specs.Stages.{HasKeyFiles, HasRoot, IsLaidOut, IsNoneOrLaidOut, IsRootPath, LeavesFromNone};

use crate::files::KeyFiles;
use crate::steps::{Device, make_dir, move_file, put, sync};
use outside::Folder;
use unlocking::{config_path, masterkey_path, new_config_path};
use vault_path::VaultPath;

/// Writes the root's folder and the key files into an empty folder, the vault file last and whole: up to then the folder is no vault.
pub(crate) fn lay_out<D: Folder>(
    folder: &mut D,
    root: &VaultPath,
    files: &KeyFiles,
) -> Result<(), Device>
    requires empty { Told (D.log folder.old) (λ log. IsEmpty (now log)) }
    requires root { IsRootPath root.now }
    ensures laid { OnOk result (Changes (D.log folder.old) (D.log folder.new)
        (λ old new. IsLaidOut root.now files.now.masterkey.items files.now.config.items (now new) × IsSteady new)) }
    ensures stops { OnOk result (Changes (D.log folder.old) (D.log folder.new)
        (λ old new. LeavesOnly (adds old Synced) new (IsNoneOrLaidOut root.now files.now.masterkey.items files.now.config.items))) }
    ensures failed { OnErr result (IsUnwritten
        (folder_in D.Reads folder.old) (folder_in D.Reads folder.new)
        ⊎ Changes (D.log folder.old) (D.log folder.new)
        (λ old new. LeavesOnly (adds old Synced) new (IsNoneOrLaidOut root.now files.now.masterkey.items files.now.config.items))) }
    ensures cause { HasCause (D.faults folder.old) (D.faults folder.new) (IsErr result) }
{
    sync(folder)?;
    fill(folder, root, files)?;
    Ok(())
}

// The same in a folder of which all is on the disk.
fn fill<D: Folder>(folder: &mut D, root: &VaultPath, files: &KeyFiles) -> Result<(), Device>
    requires empty { Told (D.log folder.old) (λ log. IsEmpty (now log)) }
    requires root { IsRootPath root.now }
    ensures laid { OnOk result (Changes (D.log folder.old) (D.log folder.new)
        (λ old new. IsLaidOut root.now files.now.masterkey.items files.now.config.items (now new) × IsSteady new)) }
    ensures stops { Changes (D.log folder.old) (D.log folder.new)
        (LeavesFromNone (IsNoneOrLaidOut root.now files.now.masterkey.items files.now.config.items)) }
    ensures cause { HasCause (D.faults folder.old) (D.faults folder.new) (IsErr result) }
{
    make_root(folder, root)?;
    put_files(folder, root, files)?;
    install(folder, root, files)?;
    Ok(())
}

// Makes the root's folder and those above it.
fn make_root<D: Folder>(folder: &mut D, root: &VaultPath) -> Result<(), Device>
    requires empty { Told (D.log folder.old) (λ log. IsEmpty (now log)) }
    requires root { IsRootPath root.now }
    ensures made { OnOk result (Changes (D.log folder.old) (D.log folder.new) (λ old new. HasRoot root.now (now new))) }
    ensures stops { Changes (D.log folder.old) (D.log folder.new) (LeavesFromNone IsNoVault) }
    ensures cause { HasCause (D.faults folder.old) (D.faults folder.new) (IsErr result) }
{
    let middle = root.parent();
    let top = middle.parent();
    make_dir(folder, &top)?;
    make_dir(folder, &middle)?;
    make_dir(folder, root)?;
    Ok(())
}

// Writes the key files, the vault file beside its place.
fn put_files<D: Folder>(folder: &mut D, root: &VaultPath, files: &KeyFiles) -> Result<(), Device>
    requires { Told (D.log folder.old) (λ log. HasRoot root.now (now log)) }
    ensures put { OnOk result (Changes (D.log folder.old) (D.log folder.new)
        (λ old new. HasKeyFiles root.now files.now.masterkey.items files.now.config.items (now new))) }
    ensures stops { Changes (D.log folder.old) (D.log folder.new) (LeavesFromNone IsNoVault) }
    ensures cause { HasCause (D.faults folder.old) (D.faults folder.new) (IsErr result) }
{
    put(folder, &masterkey_path(), &files.masterkey)?;
    put(folder, &new_config_path(), &files.config)?;
    Ok(())
}

// Moves the vault file to its place, once all that it needs is on the disk.
fn install<D: Folder>(folder: &mut D, root: &VaultPath, files: &KeyFiles) -> Result<(), Device>
    requires { Told (D.log folder.old)
        (λ log. HasKeyFiles root.now files.now.masterkey.items files.now.config.items (now log)) }
    ensures installed { OnOk result (Changes (D.log folder.old) (D.log folder.new)
        (λ old new. IsLaidOut root.now files.now.masterkey.items files.now.config.items (now new) × IsSteady new)) }
    ensures stops { Changes (D.log folder.old) (D.log folder.new)
        (LeavesFromNone (IsNoneOrLaidOut root.now files.now.masterkey.items files.now.config.items)) }
    ensures cause { HasCause (D.faults folder.old) (D.faults folder.new) (IsErr result) }
{
    sync(folder)?;
    move_file(folder, &new_config_path(), &config_path())?;
    sync(folder)?;
    Ok(())
}
