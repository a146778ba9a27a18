ghost use Rattle.std.specs.Prelude.{◌≡◌, ◌≤◌, ◌-◌, ◌++◌, ◌+◌, length, take, drop, min, IfOk, IfErr, OnOk, IsErrOf};
ghost use Rattle.outside.specs.Calls.{Told, Changes, HasCause};
ghost use Rattle.outside.specs.Images.{now, IsSteady};
ghost use Rattle.deeds.specs.Deeds.{DoesAll, StaysAmid, GoesOnAt, named, in_order, IsRefusal, IsRefusedAt, IfUnfit};
ghost use Rattle.outside.specs.Unsynced.{IsSynced};
ghost use Rattle.deeds.specs.Applying.{StaysApplied, HasStopped};
ghost use Rattle.std.specs.List.{AllByRecursion};
ghost use Rattle.deeds.specs.Plain.{plains};
ghost use Rattle.deeds.specs.Grammar.{IsBatch, IsDeed, IsBadDeed, IsBadAt, IfBad, spelled, spelled_deeds, behind_gate};

use crate::deed::{Deed, do_phase};
use crate::fault::BatchErr;
use crate::phase::{DeedErr, Phase};
use crate::reading::{ReadErr, deed_of, u32_of};
use crate::window::Window;
use crate::writing::{pass_deeds, spelled_len};
use outside::Folder;
use std::alloc::Global;

/// How many bytes of a batch precede the deed at an index, or the place after the last one if there is
/// none.
pub fn len_before(deeds: &[Deed], index: usize) -> usize
    requires { IsBatch (plains deeds.now) }
    ensures count { result ≡ 4 + length (spelled_deeds (take index (plains deeds.now))) }
    ensures within { result ≤ length (spelled (plains deeds.now)) }
{
    spelled_len(&deeds[..index.min(deeds.len())])
}

/// Fills `out` with the bytes that follow the journal's gate, from byte `from` of them on: the batch's length and the
/// batch. Gives the number of bytes, as many as there are and `out` has room for. It takes no memory.
pub fn write_batch(deeds: &[Deed], from: usize, out: &mut [u8]) -> usize
    requires { IsBatch (plains deeds.now) }
    ensures count { result ≡ min (length out.old) (length (behind_gate (plains deeds.now)) - from) }
    ensures bytes { take result out.new ≡ take (length out.old) (drop from (behind_gate (plains deeds.now))) }
{
    let mut window = Window {
        skip: from,
        used: 0,
    };
    window.pass(out, &(spelled_len(deeds) as u64).to_be_bytes());
    pass_deeds(&mut window, out, deeds);
    window.used
}

// The deeds after the count, and the bytes after them.
fn deeds_of(alloc: Global, count: u32, bytes: &[u8]) -> Result<(Vec<Deed>, &[u8]), BatchErr>
    ensures found { IfOk result (λ x. (bytes.now ≡ spelled_deeds (plains x.0.items) ++ x.1.now)
        × (length (plains x.0.items) ≡ count) × AllByRecursion IsDeed (plains x.0.items)) }
    ensures bad { IfErr result (λ error. IfBad error (IsBadDeed count bytes.now)) }
{
    let mut deeds = Vec::new(alloc);
    let mut rest = bytes;
    for _ in 0..count {
        match deed_of(alloc, rest) {
            Ok((deed, after)) => {
                deeds.push(deed)?;
                rest = after;
            }
            Err(ReadErr::Bad) => return Err(BatchErr::Bad(4 + (bytes.len() - rest.len()))),
            Err(ReadErr::Memory) => return Err(BatchErr::Memory),
        }
    }
    Ok((deeds, rest))
}

/// The deeds of the batch that the bytes are, all of them. `Bad` names the first place outside of the grammar.
pub fn read_batch(alloc: Global, bytes: &[u8]) -> Result<Vec<Deed>, BatchErr>
    ensures found { IfOk result (λ deeds. IsBatch (plains deeds.items) × (bytes.now ≡ spelled (plains deeds.items))) }
    ensures bad { IfErr result (λ error. IfBad error (IsBadAt bytes.now)) }
{
    if bytes.len() > usize::MAX - 10 {
        return Err(BatchErr::Memory);
    }
    let (count, behind) = match u32_of(bytes) {
        Ok(found) => found,
        Err(ReadErr::Bad) => return Err(BatchErr::Bad(0)),
        Err(ReadErr::Memory) => return Err(BatchErr::Memory),
    };
    let (deeds, rest) = deeds_of(alloc, count, behind)?;
    if !rest.is_empty() {
        return Err(BatchErr::Bad(bytes.len() - rest.len()));
    }
    Ok(deeds)
}

/// Does a batch phase by phase, up to the first deed that isn't done. A sync ends each phase.
pub fn do_batch<F: Folder>(folder: &mut F, deeds: &[Deed]) -> Result<(), DeedErr>
    requires batch { IsBatch (plains deeds.now) }
    requires steady { Told (F.log folder.old) IsSteady }
    ensures done { OnOk result (Changes (F.log folder.old) (F.log folder.new)
        (λ old new. IsSynced new × DoesAll (in_order (plains deeds.now)) (now old) (now new))) }
    ensures amid { Changes (F.log folder.old) (F.log folder.new) (StaysAmid (in_order (plains deeds.now))) }
    ensures grown { Changes (F.log folder.old) (F.log folder.new) (GoesOnAt (named (plains deeds.now))) }
    ensures applied { Changes (F.log folder.old) (F.log folder.new) (StaysApplied (in_order (plains deeds.now))) }
    ensures unfit { IfErr result (λ error. IfUnfit error (λ index.
        IsRefusal (F.log folder.old) (F.faults folder.old) (F.faults folder.new) (IsRefusedAt (plains deeds.now) index))) }
    ensures left { IfErr result (λ error. IfUnfit error (λ at. Changes (F.log folder.old) (F.log folder.new) (HasStopped (in_order (plains deeds.now))))) }
    ensures cause { HasCause (F.faults folder.old) (F.faults folder.new) (IsErrOf result DeedErr.Failed) }
{
    do_phase(folder, deeds, Phase::Make)?;
    do_phase(folder, deeds, Phase::Move)?;
    do_phase(folder, deeds, Phase::Remove)?;
    Ok(())
}
