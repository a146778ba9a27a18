ghost use Rattle.std.specs.Prelude.{◌≡◌, ◌⊎◌, [], IfOk, IfErr, IsErrOf, MatchOption};
ghost use Rattle.outside.specs.Calls.{HasCause, Told};
ghost use Rattle.outside.specs.Images.{now};
ghost use Rattle.vault_make.specs.Vault.{IsLeast};
ghost use Rattle.vault_make.specs.Entries.{IsFirstIn};

use crate::error::MakeErr;
use outside::Folder;
use std::alloc::Global;
use vault_path::{Text, VaultPath};

/// The first entry of a folder, by the order of the names' bytes, or None if there is none.
pub(crate) fn first_entry<D: Folder>(alloc: Global, folder: &mut D) -> Result<Option<Text>, MakeErr>
    ensures entry { IfOk result (λ first. Told (D.log folder.old) (λ log. IsFirstIn (now log) first)) }
    ensures causes { IfErr result (λ e. (e ≡ MakeErr.Device) ⊎ (e ≡ MakeErr.Memory)) }
    ensures cause { HasCause (D.faults folder.old) (D.faults folder.new) (IsErrOf result MakeErr.Device) }
    ensures log { D.log folder.new ≡ D.log folder.old }
    ensures changes { D.changes folder.new ≡ D.changes folder.old }
{
    let top = VaultPath::root();
    folder.kind(&top)?;
    let names = folder.list(alloc, &top)?;
    Ok(least(names))
}

// The least of some names.
fn least(names: Vec<Text>) -> Option<Text>
    ensures { MatchOption result (names.items ≡ []) (IsLeast names.items) }
{
    names.into_iter().min()
}
