ghost use Rattle.std.specs.Prelude.{◌≡◌, ◌≢◌, ◌++◌, ◌<◌, ℕ, None, IfOk, OnOk, IsErrOf};
ghost use Rattle.outside.specs.Calls.{HasCause, Told, Changes};
ghost use Rattle.outside.specs.Disk.{node_at};
ghost use Rattle.outside.specs.Images.{now};
ghost use Rattle.journal_mending.specs.Kept.{digits, kept_name, kept_file, IsFirstFree, HasDiscarded};

use crate::skipping::settle;
use chunk_journal::Device;
use deeds::journal_path;
use outside::{Folder, FolderErr, Reads};
use std::alloc::{AllocError, Global};
use thiserror::Error;
use vault_layout::JOURNAL_FILE;
use vault_path::VaultPath;

/// Why a journal wasn't put aside.
#[derive(Clone, Copy, Debug, PartialEq, Eq, Error)]
pub enum DiscardErr {
    /// The folder failed: its count of faults rose in this call.
    #[error("the folder failed")]
    Device,
    /// No file is at `served.journal`.
    #[error("there is no journal")]
    NoJournal,
    /// Something is at each of `served.journal.1` to `served.journal.99`.
    #[error("99 journals are put aside already")]
    NoName,
    /// Memory ran out.
    #[error("out of memory")]
    Memory,
}

impl From<Device> for DiscardErr {
    ghost use Rattle.std.specs.Prelude.{◌≡◌};
    ghost use Rattle.journal_mending.specs.declared.discarding.DiscardErr.TheVariants.{Device};

    ghost from_gives = { λ _ e. e ≡ Device };

    fn from(_error: Device) -> DiscardErr {
        DiscardErr::Device
    }
}

impl From<FolderErr> for DiscardErr {
    ghost use Rattle.std.specs.Prelude.{◌≡◌};
    ghost use Rattle.journal_mending.specs.declared.discarding.DiscardErr.TheVariants.{Device};

    ghost from_gives = { λ _ e. e ≡ Device };

    fn from(_error: FolderErr) -> DiscardErr {
        DiscardErr::Device
    }
}

impl From<AllocError> for DiscardErr {
    ghost use Rattle.std.specs.Prelude.{◌≡◌};
    ghost use Rattle.journal_mending.specs.declared.discarding.DiscardErr.TheVariants.{Memory};

    ghost from_gives = { λ _ e. e ≡ Memory };

    fn from(_error: AllocError) -> DiscardErr {
        DiscardErr::Memory
    }
}

// Adds a number below 100 in decimal digits.
fn add_digits(name: &mut Vec<u8>, number: u8) -> Result<(), AllocError>
    requires { number < 100 }
    ensures { OnOk result (name.new.items ≡ name.old.items ++ digits number) }
{
    if number < 10 {
        name.push(b'0' + number)?;
    } else {
        name.push(b'0' + number / 10)?;
        name.push(b'0' + number % 10)?;
    }
    Ok(())
}

// The name of a journal that is put aside.
fn kept_name(alloc: Global, number: u8) -> Result<Vec<u8>, AllocError>
    requires { number < 100 }
    ensures { IfOk result (λ name. name.items ≡ kept_name number) }
{
    let mut name = Vec::from_slice(alloc, JOURNAL_FILE)?;
    name.push(b'.')?;
    add_digits(&mut name, number)?;
    Ok(name)
}

// Its path.
fn kept_path(alloc: Global, number: u8) -> Result<VaultPath, DiscardErr>
    requires { number < 100 }
    ensures path { IfOk result (λ path. path ≡ kept_file number) }
    ensures no_fault { IsErrOf result DiscardErr.Device → ⊥ }
{
    let name = kept_name(alloc, number)?;
    match VaultPath::root().join(&name) {
        Ok(path) => Ok(path),
        Err(_) => Err(DiscardErr::NoName),
    }
}

// The first number whose path is free, and that path.
fn first_free<R: Reads>(alloc: Global, folder: &mut R) -> Result<(u8, VaultPath), DiscardErr>
    ensures path { IfOk result (λ found. found.1 ≡ kept_file found.0) }
    ensures free { IfOk result (λ found. Told (R.log folder.old) (λ log. IsFirstFree found.0 (now log))) }
    ensures log { R.log folder.new ≡ R.log folder.old }
    ensures cause { HasCause (R.faults folder.old) (R.faults folder.new) (IsErrOf result DiscardErr.Device) }
{
    for number in 1..100 {
        let path = kept_path(alloc, number)?;
        if folder.kind(&path)?.is_none() {
            return Ok((number, path));
        }
    }
    Err(DiscardErr::NoName)
}

/// Puts a journal aside, whatever it holds: `served.journal` becomes `served.journal.N`, and N is the first of 1 to 99 that is free. Nothing else is changed, and
/// all is on the disk. It gives N.
pub fn discard<F: Folder>(alloc: Global, folder: &mut F) -> Result<u8, DiscardErr>
    ensures discarded { IfOk result (λ number. Changes (F.log folder.old) (F.log folder.new) (λ old new. HasDiscarded number (now old) new)) }
    ensures cause { HasCause (F.faults folder.old) (F.faults folder.new) (IsErrOf result DiscardErr.Device) }
{
    settle(folder)?;
    let (number, path) = first_free(alloc, folder)?;
    match folder.rename(&journal_path(), &path) {
        Ok(()) => {
            settle(folder)?;
            Ok(number)
        }
        Err(FolderErr::Unfit) => Err(DiscardErr::NoJournal),
        Err(FolderErr::Failed) => Err(DiscardErr::Device),
        Err(FolderErr::Memory) => Err(DiscardErr::Memory),
    }
}
