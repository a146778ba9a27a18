ghost use Rattle.std.specs.Prelude.{◌≡◌, ◌⊎◌, ◌≤◌, ◌+◌, ◌<◌, ◌^◌, ◌-◌, ℕ, get_or, Some, MatchOption, ⊤, IfOk, IfErr, IsErr, IsErrOf, length};
ghost use Rattle.outside.specs.Calls.{HasCause, Told};
ghost use Rattle.outside.specs.Images.{now};
ghost use Rattle.deeds.specs.Grammar.{IsBatch, spelled};
ghost use Rattle.deeds.specs.Plain.{plains};
ghost use Rattle.chunk_journal.specs.Journal.{journal_file, new_file, HoldsBatch, IsClosed, IsUnheld};
ghost use Rattle.chunk_journal.specs.Opening.{said_len, HasFolder, HasLen, Says, OfLen, Follows, IsSummedOrNot, IsBadBehindGate, IsDamagedAt, IfDamaged};

use crate::fault::{Device, JournalErr};
use crate::steps::{GATE, OPEN};
use crate::sum::{SUM_LEN, is_no_other, sum_behind};
use deeds::{BatchErr, Deed, read_batch};
use outside::{Kind, Reads};
use std::alloc::Global;
use vault_path::VaultPath;

// How many bytes the gate and the length have.
const HEAD_LEN: usize = 9;

/// The offset of the batch.
pub const BATCH: u64 = 9;

/// The journal's length in bytes, if it is there.
pub fn journal_len<D: Reads>(
    folder: &mut D,
    journal: &VaultPath,
    beside: &VaultPath,
) -> Result<Option<u64>, JournalErr>
    requires journal { journal.now ≡ journal_file }
    requires beside { beside.now ≡ new_file }
    ensures found { IfOk result (λ len. Told (D.log folder.old) (λ log. HasLen len (now log))) }
    ensures damaged { IfErr result (λ error. IfDamaged error (λ at. Told (D.log folder.old) (λ log. HasFolder (now log) × (at ≡ 0)))) }
    ensures log { D.log folder.new ≡ D.log folder.old }
    ensures changes { D.changes folder.new ≡ D.changes folder.old }
    ensures cause { HasCause (D.faults folder.old) (D.faults folder.new) (IsErrOf result JournalErr.Device) }
{
    if let Some(Kind::Dir) = folder.kind(beside)? {
        return Err(JournalErr::JournalDamaged(0));
    }
    match folder.kind(journal)? {
        Some(Kind::Dir) => Err(JournalErr::JournalDamaged(0)),
        Some(Kind::File(len)) => Ok(Some(len)),
        None => Ok(None),
    }
}

// The length that follows a gate.
fn len_in(head: &[u8; 9]) -> u64
    ensures len { result ≡ said_len head.now }
    ensures bytes { (i : ℕ) → get_or head.now i 0 < 256 }
{
    let len = &head[1..9];
    u64::from_be_bytes([
        len[0], len[1], len[2], len[3], len[4], len[5], len[6], len[7],
    ])
}

// How many bytes the batch of a journal of `len` bytes has, if its gate is open.
fn batch_len<D: Reads>(
    folder: &mut D,
    journal: &VaultPath,
    len: u64,
) -> Result<Option<u64>, JournalErr>
    requires journal { journal.now ≡ journal_file }
    requires found { Told (D.log folder.old) (λ log. HasLen (Some len) (now log)) }
    ensures found { IfOk result (λ said. Told (D.log folder.old) (λ log. OfLen said (IsClosed (now log)) (λ n. Says n (now log)))) }
    ensures short { IfOk result (λ said. OfLen said (len ≡ len) (λ n. n ≤ len - 9)) }
    ensures damaged { IfErr result (λ error. IfDamaged error (λ at. Told (D.log folder.old) (λ log. IsBadBehindGate (now log) at))) }
    ensures unheld { IfErr result (λ error. IfDamaged error (λ at. Told (D.log folder.old) (λ log. IsUnheld (now log)))) }
    ensures log { D.log folder.new ≡ D.log folder.old }
    ensures changes { D.changes folder.new ≡ D.changes folder.old }
    ensures cause { HasCause (D.faults folder.old) (D.faults folder.new) (IsErrOf result JournalErr.Device) }
{
    let mut head = [0; HEAD_LEN];
    let n = folder.read(journal, GATE, &mut head)?;
    if n == 0 || head[0] != OPEN {
        return Ok(None);
    }
    let said = len_in(&head);
    if n < HEAD_LEN || len.saturating_sub(BATCH) < said {
        return Err(JournalErr::JournalDamaged(len));
    }
    Ok(Some(said))
}

// The deeds of the batch of so many bytes that follows an open gate, whatever is behind it.
fn deeds_behind<D: Reads>(
    alloc: Global,
    folder: &mut D,
    journal: &VaultPath,
    len: u64,
) -> Result<Vec<Deed>, JournalErr>
    requires journal { journal.now ≡ journal_file }
    requires says { Told (D.log folder.old) (λ log. Says len (now log) × (HasFolder (now log) → ⊥)) }
    requires short { len + 9 < 2 ^ 64 }
    ensures follows { IfOk result (λ deeds. Told (D.log folder.old) (λ log. Follows (plains deeds.items) (now log))) }
    ensures batch { IfOk result (λ deeds. IsBatch (plains deeds.items)) }
    ensures len { IfOk result (λ deeds. length (spelled (plains deeds.items)) ≡ len) }
    ensures damaged { IfErr result (λ error. IfDamaged error (λ at. Told (D.log folder.old) (λ log. IsBadBehindGate (now log) at))) }
    ensures unheld { IfErr result (λ error. IfDamaged error (λ at. Told (D.log folder.old) (λ log. IsUnheld (now log)))) }
    ensures log { D.log folder.new ≡ D.log folder.old }
    ensures changes { D.changes folder.new ≡ D.changes folder.old }
    ensures cause { HasCause (D.faults folder.old) (D.faults folder.new) (IsErrOf result JournalErr.Device) }
{
    let mut bytes = vec![in alloc; 0; len as usize]?;
    let n = folder.read(journal, BATCH, &mut bytes)?;
    if n < bytes.len() {
        return Err(JournalErr::JournalDamaged(BATCH + n as u64));
    }
    match read_batch(alloc, &bytes) {
        Ok(deeds) => Ok(deeds),
        Err(BatchErr::Bad(at)) => Err(JournalErr::JournalDamaged(BATCH + at as u64)),
        Err(BatchErr::Memory) => Err(JournalErr::Memory),
    }
}

// Whether no sum is behind a batch of so many bytes, or its own.
fn is_summed<D: Reads>(
    folder: &mut D,
    journal: &VaultPath,
    deeds: &[Deed],
    len: u64,
) -> Result<bool, Device>
    requires journal { journal.now ≡ journal_file }
    requires batch { IsBatch (plains deeds.now) }
    requires len { length (spelled (plains deeds.now)) ≡ len }
    requires short { len + 9 < 2 ^ 64 }
    requires follows { Told (D.log folder.old) (λ log. Follows (plains deeds.now) (now log)) }
    ensures summed { IfOk result (λ is. Told (D.log folder.old) (λ log. IsSummedOrNot is (plains deeds.now) (now log))) }
    ensures log { D.log folder.new ≡ D.log folder.old }
    ensures changes { D.changes folder.new ≡ D.changes folder.old }
    ensures cause { HasCause (D.faults folder.old) (D.faults folder.new) (IsErr result) }
{
    let mut behind = [0; SUM_LEN];
    let n = folder.read(journal, BATCH + len, &mut behind)?;
    let is_fit = is_no_other(&behind[..n], &sum_behind(deeds));
    Ok(is_fit)
}

// The batch of so many bytes that follows an open gate.
fn held_batch<D: Reads>(
    alloc: Global,
    folder: &mut D,
    journal: &VaultPath,
    len: u64,
) -> Result<Vec<Deed>, JournalErr>
    requires journal { journal.now ≡ journal_file }
    requires says { Told (D.log folder.old) (λ log. Says len (now log) × (HasFolder (now log) → ⊥)) }
    requires short { len + 9 < 2 ^ 64 }
    ensures held { IfOk result (λ deeds. Told (D.log folder.old) (λ log. HoldsBatch (now log) (plains deeds.items))) }
    ensures batch { IfOk result (λ deeds. IsBatch (plains deeds.items)) }
    ensures damaged { IfErr result (λ error. IfDamaged error (λ at. Told (D.log folder.old) (λ log. IsBadBehindGate (now log) at))) }
    ensures unheld { IfErr result (λ error. IfDamaged error (λ at. Told (D.log folder.old) (λ log. IsUnheld (now log)))) }
    ensures log { D.log folder.new ≡ D.log folder.old }
    ensures changes { D.changes folder.new ≡ D.changes folder.old }
    ensures cause { HasCause (D.faults folder.old) (D.faults folder.new) (IsErrOf result JournalErr.Device) }
{
    let deeds = deeds_behind(alloc, folder, journal, len)?;
    if !is_summed(folder, journal, &deeds, len)? {
        return Err(JournalErr::JournalDamaged(BATCH + len));
    }
    Ok(deeds)
}

/// The batch after the gate, if that is open.
pub fn open_batch<D: Reads>(
    alloc: Global,
    folder: &mut D,
    journal: &VaultPath,
    beside: &VaultPath,
) -> Result<Option<Vec<Deed>>, JournalErr>
    requires journal { journal.now ≡ journal_file }
    requires beside { beside.now ≡ new_file }
    ensures found { IfOk result (λ found. Told (D.log folder.old)
        (λ log. (HasFolder (now log) → ⊥) × MatchOption found (IsClosed (now log)) (λ deeds. HoldsBatch (now log) (plains deeds.items)))) }
    ensures batch { IfOk result (λ found. MatchOption found ⊤ (λ deeds. IsBatch (plains deeds.items))) }
    ensures damaged { IfErr result (λ error. IfDamaged error (λ at. Told (D.log folder.old) (λ log. IsDamagedAt (now log) at))) }
    ensures unheld { IfErr result (λ error. IfDamaged error (λ at. Told (D.log folder.old) (λ log. HasFolder (now log) ⊎ IsUnheld (now log)))) }
    ensures log { D.log folder.new ≡ D.log folder.old }
    ensures changes { D.changes folder.new ≡ D.changes folder.old }
    ensures cause { HasCause (D.faults folder.old) (D.faults folder.new) (IsErrOf result JournalErr.Device) }
{
    let Some(len) = journal_len(folder, journal, beside)? else {
        return Ok(None);
    };
    let Some(said) = batch_len(folder, journal, len)? else {
        return Ok(None);
    };
    let deeds = held_batch(alloc, folder, journal, said)?;
    Ok(Some(deeds))
}
