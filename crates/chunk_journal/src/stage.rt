ghost use Rattle.std.specs.Prelude.{◌≡◌, ◌<◌, length, OnOk, IsErr};
ghost use Rattle.outside.specs.Calls.{HasCause, Told, Changes};
ghost use Rattle.outside.specs.Images.{now};
ghost use Rattle.deeds.specs.Grammar.{IsBatch};
ghost use Rattle.deeds.specs.Plain.{plains};
ghost use Rattle.chunk_journal.specs.Journal.{journal_file, IsReady};
ghost use Rattle.chunk_journal.specs.Stages.{KeepsShut, HasWritten, HasStaged};

use crate::fault::Device;
use crate::headers::write_headers;
use crate::steps::BEHIND_GATE;
use crate::sum::sum_behind;
use deeds::{Deed, spelled_len, write_batch};
use outside::Folder;
use vault_path::VaultPath;

// As many bytes are written at once.
const PIECE_LEN: usize = 65536;

// At most as many of a batch and its length are written from a smaller buffer, which is filled with zeros in less time than a write takes.
const SHORT_LEN: usize = 4096;

// Writes the batch and its sum after the closed gate, piece by piece.
fn write_pieces<D: Folder>(
    folder: &mut D,
    journal: &VaultPath,
    deeds: &[Deed],
    piece: &mut [u8],
) -> Result<(), Device>
    requires room { 0 < length piece.old }
    requires journal { journal.now ≡ journal_file }
    requires batch { IsBatch (plains deeds.now) }
    requires ready { Told (D.log folder.old) IsReady }
    ensures written { OnOk result (Changes (D.log folder.old) (D.log folder.new) (HasWritten (plains deeds.now))) }
    ensures any_moment { Changes (D.log folder.old) (D.log folder.new) KeepsShut }
    ensures cause { HasCause (D.faults folder.old) (D.faults folder.new) (IsErr result) }
{
    let len = 8 + spelled_len(deeds);
    let mut at = 0;
    while at < len {
        let n = write_batch(deeds, at, piece);
        folder.write(journal, BEHIND_GATE + at as u64, &piece[..n])?;
        at += n;
    }
    folder.write(journal, BEHIND_GATE + at as u64, &sum_behind(deeds))?;
    Ok(())
}

// Writes the batch and its sum after the closed gate.
fn write_summed<D: Folder>(
    folder: &mut D,
    journal: &VaultPath,
    deeds: &[Deed],
) -> Result<(), Device>
    requires journal { journal.now ≡ journal_file }
    requires batch { IsBatch (plains deeds.now) }
    requires ready { Told (D.log folder.old) IsReady }
    ensures written { OnOk result (Changes (D.log folder.old) (D.log folder.new) (HasWritten (plains deeds.now))) }
    ensures any_moment { Changes (D.log folder.old) (D.log folder.new) KeepsShut }
    ensures cause { HasCause (D.faults folder.old) (D.faults folder.new) (IsErr result) }
{
    if 8 + spelled_len(deeds) <= SHORT_LEN {
        write_pieces(folder, journal, deeds, &mut [0; SHORT_LEN])
    } else {
        write_pieces(folder, journal, deeds, &mut [0; PIECE_LEN])
    }
}

/// Puts the batch and its sum after the closed gate, and behind them the headers of the files that it reshapes, and syncs.
pub fn stage<D: Folder>(folder: &mut D, journal: &VaultPath, deeds: &[Deed]) -> Result<(), Device>
    requires journal { journal.now ≡ journal_file }
    requires batch { IsBatch (plains deeds.now) }
    requires ready { Told (D.log folder.old) IsReady }
    ensures staged { OnOk result (Changes (D.log folder.old) (D.log folder.new) (HasStaged (plains deeds.now))) }
    ensures any_moment { Changes (D.log folder.old) (D.log folder.new) KeepsShut }
    ensures cause { HasCause (D.faults folder.old) (D.faults folder.new) (IsErr result) }
{
    write_summed(folder, journal, deeds)?;
    write_headers(folder, journal, deeds)?;
    folder.sync()?;
    Ok(())
}
