ghost use Rattle.std.specs.Prelude.{◌≡◌, []};
ghost use Rattle.vault_store.specs.Open.{view_of};

use node_changes::VaultTree;
use outside::Failed;
use std::marker::Model;

/// What is left in memory of a vault that was closed: its tree as the last request left it, how many requests it answered, and whether what
/// waited was committed.
#[derive(Drop)]
pub struct ClosedStore {
    tree: VaultTree,
    entries: u64,
    stopped: Option<u64>,
    committed: Result<(), Failed>,
}

impl Model for ClosedStore {
    ghost use Rattle.std.specs.Prelude.{[]};
    ghost use Rattle.vault_store.specs.Open.{ClosedVault, view_of};

    ghost Value = { ClosedVault };

    ghost view = { λ s. record { store = view_of s.tree [] s.entries s.stopped; committed = s.committed } };
}

impl ClosedStore {
    pub(crate) fn new(
        tree: VaultTree,
        entries: u64,
        stopped: Option<u64>,
        committed: Result<(), Failed>,
    ) -> ClosedStore
        ensures store { result.store ≡ view_of tree [] entries stopped }
        ensures committed { result.committed ≡ committed }
    {
        ClosedStore {
            tree,
            entries,
            stopped,
            committed,
        }
    }

    /// Whether what waited was committed as the vault was closed.
    ///
    /// # Errors
    ///
    /// That commit failed, or dropped what waited for a file that another program had changed; or an earlier commit had failed.
    pub fn committed(&self) -> Result<(), Failed>
        ensures { result ≡ self.now.committed }
    {
        self.committed
    }

    /// How many entries there are in the history that it stood for, at most 2^64 - 1.
    pub fn entries(&self) -> u64
        ensures { result ≡ self.now.store.entries }
    {
        self.entries
    }
}
