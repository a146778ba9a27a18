//! The files that another program saved anew since a batch was left.

ghost use Rattle.std.specs.Prelude.{◌≡◌, IfErr, IsErrOf};
ghost use Rattle.outside.specs.Calls.{HasCause};
ghost use Rattle.deeds.specs.Grammar.{IsBatch};
ghost use Rattle.deeds.specs.Plain.{plains};
ghost use Rattle.chunk_journal.specs.Opening.{IfDamaged};

use chunk_journal::{JournalErr, changed_since};
use deeds::Deed;
use outside::Reads;
use std::alloc::{AllocError, Global};
use vault_path::VaultPath;

/// The paths of the files that a batch reshapes and that have another header than the journal kept.
pub(crate) fn saved_anew<R: Reads>(
    alloc: Global,
    folder: &mut R,
    deeds: &[Deed],
) -> Result<Vec<VaultPath>, JournalErr>
    requires { IsBatch (plains deeds.now) }
    ensures undamaged { IfErr result (λ error. IfDamaged error (λ at. ⊥)) }
    ensures log { R.log folder.new ≡ R.log folder.old }
    ensures changes { R.changes folder.new ≡ R.changes folder.old }
    ensures cause { HasCause (R.faults folder.old) (R.faults folder.new) (IsErrOf result JournalErr.Device) }
{
    let mut anew = Vec::new(alloc);
    for index in 0..deeds.len() {
        if let Deed::Reshape(path, _, _) = &deeds[index] {
            if changed_since(folder, deeds, index)? {
                add_path(&mut anew, path)?;
            }
        }
    }
    Ok(anew)
}

fn add_path(paths: &mut Vec<VaultPath>, path: &VaultPath) -> Result<(), AllocError> {
    paths.push(path.copied())?;
    Ok(())
}

/// Whether a path is one of these.
pub(crate) fn is_among(path: &VaultPath, paths: &[VaultPath]) -> bool {
    for one in paths {
        if one == path {
            return true;
        }
    }
    false
}
