//! A host's diary, which only proofs read. It takes no memory, and its calls do nothing.
ghost use Rattle.std.specs.Prelude.{◌≡◌, []};
ghost use Rattle.std.specs.Borrow.{ftrue};
ghost use Rattle.outside.specs.Images.{Log};
ghost use Rattle.outside_mem.specs.Held.{coded_log};

use crate::filing::MemFiling;
use crate::names::MemNames;
use host_calls::HostChange;
use std::marker::Model;

/// A clause reads the log as `log`.
#[derive(Drop)]
pub struct Diary {
    pub ghost log: { Log } by { coded_log },
}

impl Model for Diary {
    ghost also_owns = { λ _. ftrue };
}

impl Diary {
    ghost use Rattle.outside.specs.Images.{Did, Broke, Synced, adds};
    ghost use Rattle.host_calls.specs.Calls.{change_of};
    ghost use Rattle.mem_host.specs.Filing.{disk_held};

    /// No calls yet, of what these are.
    pub fn new(_names: &MemNames, _files: &MemFiling) -> Diary
        ensures { result.log ≡ record { start = disk_held _names.now _files.now; calls = [] } }
    {
        Diary {}
    }

    /// A change was done.
    pub fn did(&self, _change: &HostChange<'_>) -> Diary
        ensures { result.log ≡ adds self.now.log (Did (change_of _change.now)) }
    {
        Diary {}
    }

    /// A change failed, and left what these are.
    pub fn broke(&self, _change: &HostChange<'_>, _names: &MemNames, _files: &MemFiling) -> Diary
        ensures { result.log ≡ adds self.now.log (Broke (change_of _change.now) (disk_held _names.now _files.now)) }
    {
        Diary {}
    }

    /// A sync was done.
    pub fn synced(&self) -> Diary
        ensures { result.log ≡ adds self.now.log Synced }
    {
        Diary {}
    }
}
