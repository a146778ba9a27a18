//! The fids in use, in a table that takes no memory once it is made.

ghost use Rattle.std.specs.Prelude.{◌≡◌, ◌<◌, ◌^◌, ◌⊎◌, true, length, nat_le, IfOk, IfErr, IfSome, MatchOption};
ghost use Rattle.std.specs.Option.{option_map_or};
ghost use Rattle.std.specs.FinMap as map;
ghost use Rattle.session_core.specs.State.{fid_limit};
ghost use Rattle.session_core.specs.Entries.{IsStrictlySorted, IsAt, IsGapFor};

use crate::slot::{Place, Slot};
use std::alloc::{AllocError, Global};
use std::marker::Model;

// The most fids in use.
const FID_LIMIT: usize = 1024;

/// The fids in use in their order, and slots for the others. Clauses see a finite map.
#[derive(Drop)]
pub(crate) struct FidTable {
    used: Vec<(u32, Slot)>,
    spare: Vec<Slot>,
}

impl Model for FidTable {
    ghost use Rattle.std.specs.FinMap as map;
    ghost use Rattle.std.specs.Ordering.{nat_cmp};
    ghost use Rattle.session_core.specs.State.{Fid, fids_code};

    ghost Value = { map.FinMap nat_cmp Fid };

    ghost coded = { fids_code };

    ghost use Rattle.session_core.specs.Table.{table_view, IsTable};

    ghost view = { table_view };

    ghost invariant = { IsTable };
}

// Where a fid is, or where it would go.
fn search(used: &[(u32, Slot)], fid: u32) -> Result<usize, usize>
    requires { IsStrictlySorted used.now }
    ensures found { IfOk result (IsAt used.now fid) }
    ensures absent { IfErr result (IsGapFor used.now fid) }
{
    used.binary_search_by_key(&fid, |entry| entry.0)
}

impl FidTable {
    ghost use Rattle.tree_model.specs.Asked.{AreStats};
    ghost use Rattle.session_core.specs.Outcome.{read_on};
    ghost use Rattle.session_core.specs.Slot.{placed};

    /// A table without a fid in use.
    pub fn new(alloc: Global) -> Result<FidTable, AllocError>
        ensures { IfOk result (λ table. table ≡ map.empty) }
    {
        let used = Vec::with_capacity(alloc, FID_LIMIT)?;
        let mut spare = Vec::with_capacity(alloc, FID_LIMIT)?;
        for _ in 0..FID_LIMIT {
            spare.push(Slot::new(alloc)?)?;
        }
        Ok(FidTable { used, spare })
    }

    /// Whether as many fids are in use as can be.
    pub fn is_full(&self) -> bool
        ensures { result ≡ nat_le fid_limit (map.len self.now) }
    {
        self.spare.is_empty()
    }

    pub fn get(&self, fid: u32) -> Option<&Slot>
        ensures { MatchOption result (map.get self.now fid ≡ None) (λ slot. map.get self.now fid ≡ Some slot.now) }
    {
        match search(&self.used, fid) {
            Ok(at) => Some(&self.used[at].1),
            Err(_) => None,
        }
    }

    /// Puts a fid somewhere, which is in use or is one more.
    pub fn set(&mut self, fid: u32, place: &Place)
        requires room { (map.contains_key self.old fid ≡ true) ⊎ (map.len self.old < fid_limit) }
        ensures { self.new ≡ map.insert self.old fid (placed place.now) }
    {
        match search(&self.used, fid) {
            Ok(at) => self.used[at].1.put(place),
            Err(at) => {
                let Some(mut slot) = self.spare.pop() else {
                    unreachable!();
                };
                slot.put(place);
                match self.used.insert(at, (fid, slot)) {
                    Ok(()) => {}
                    Err(_) => unreachable!(),
                }
            }
        }
    }

    /// After bytes from an offset on were read by a fid: a directory's are whole stats.
    pub fn read_on(&mut self, fid: u32, offset: u64, bytes: &[u8])
        requires small { length bytes.now < 2 ^ 32 }
        requires stats { IfSome (map.get self.old fid) (λ f. f.is_dir ≡ true → AreStats (length bytes.now) bytes.now) }
        ensures { self.new ≡ option_map_or (λ f. map.insert self.old fid (read_on offset bytes.now f)) (map.get self.old fid) self.old }
    {
        if let Ok(at) = search(&self.used, fid) {
            self.used[at].1.read_on(offset, bytes);
        }
    }

    /// Frees a fid, if it is in use.
    pub fn remove(&mut self, fid: u32)
        ensures { self.new ≡ map.remove self.old fid }
    {
        if let Ok(at) = search(&self.used, fid) {
            let (_, slot) = self.used.remove(at);
            match self.spare.push(slot) {
                Ok(()) => {}
                Err(_) => unreachable!(),
            }
        }
    }

    /// Frees all fids.
    pub fn clear(&mut self)
        ensures { self.new ≡ map.empty }
    {
        while let Some((_, slot)) = self.used.pop() {
            match self.spare.push(slot) {
                Ok(()) => {}
                Err(_) => unreachable!(),
            }
        }
    }
}
