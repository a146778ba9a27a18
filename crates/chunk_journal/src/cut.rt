ghost use Rattle.std.specs.Prelude.{◌≡◌, OnOk, IfOk, IsErr, IsTrue, IsFalse};
ghost use Rattle.outside.specs.Calls.{HasCause, Told, Changes};
ghost use Rattle.outside.specs.Changes.{SetLen, CanDo};
ghost use Rattle.outside.specs.Images.{now};
ghost use Rattle.chunk_journal.specs.Journal.{journal_file, HasGateAlone, IsQuiet, IsAlike, StaysShut};

use crate::fault::Device;
use crate::steps::{BEHIND_GATE, EMPTY, cut_synced};
use deeds::journal_path;
use outside::{Folder, Kind};
use vault_path::VaultPath;

// Whether the journal's file has bytes behind its gate.
fn has_more<D: Folder>(folder: &mut D, journal: &VaultPath) -> Result<bool, Device>
    requires { journal.now ≡ journal_file }
    ensures more { IfOk result (λ found. Told (D.log folder.old) (λ log. IsTrue found → CanDo (SetLen journal_file 0) (now log))) }
    ensures none { IfOk result (λ found. Told (D.log folder.old) (λ log. IsFalse found → HasGateAlone (now log))) }
    ensures log { D.log folder.new ≡ D.log folder.old }
    ensures cause { HasCause (D.faults folder.old) (D.faults folder.new) (IsErr result) }
{
    match folder.kind(journal)? {
        Some(Kind::File(len)) => Ok(len > BEHIND_GATE),
        _ => Ok(false),
    }
}

/// Empties the journal's file, if more than its gate is there, so that no bytes of what was committed stay. The gate goes too: where a flush of it
/// failed earlier, the host may take its page for written, and the disk have it open still, with nothing behind it after a cut.
pub fn empty_journal<D: Folder>(folder: &mut D) -> Result<(), Device>
    requires quiet { Told (D.log folder.old) IsQuiet }
    ensures quiet { OnOk result (Changes (D.log folder.old) (D.log folder.new) (λ old new. IsQuiet new × IsAlike (now old) (now new))) }
    ensures alone { OnOk result (Told (D.log folder.new) (λ log. HasGateAlone (now log))) }
    ensures any_moment { Changes (D.log folder.old) (D.log folder.new) StaysShut }
    ensures cause { HasCause (D.faults folder.old) (D.faults folder.new) (IsErr result) }
{
    let journal = journal_path();
    if !has_more(folder, &journal)? {
        return Ok(());
    }
    cut_synced(folder, &journal, EMPTY)?;
    Ok(())
}
