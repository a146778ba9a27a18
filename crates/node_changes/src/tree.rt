ghost use Rattle.std.specs.Prelude.{◌≡◌, Some, IfOk};
ghost use Rattle.tree_loading.specs.Format.{sealing_of};
ghost use Rattle.clear_tree.specs.Built.{IsFile};
ghost use Rattle.live_tree.specs.Changes.{dated, touched, RowsAreDated, RowsAreTouched};
ghost use Rattle.live_tree.specs.Held.{HeldNode, node_of};
ghost use Rattle.name_places.specs.Claims.{AreClaimsOf};

use live_tree::LiveTree;
use name_places::Claims;
use std::alloc::{AllocError, Global};
use vault_keys::VaultKeys;

/// The tree of an open vault in memory, with its keys and with what its changes look up.
#[derive(Drop)]
pub struct VaultTree {
    pub(crate) alloc: Global,
    pub(crate) keys: VaultKeys,
    pub(crate) live: LiveTree,
    // Which nodes name which folders.
    pub(crate) claims: Claims,
    // The most characters of a text that is at its short place.
    pub(crate) threshold: u32,
}

impl VaultTree {
    /// The tree of a vault with these keys. `threshold` is the most characters of a sealed name's text that is at its short
    /// place, 1 to `MAX_THRESHOLD`. Fails only if memory runs out.
    pub fn new(
        alloc: Global,
        keys: &VaultKeys,
        threshold: u32,
        live: LiveTree,
    ) -> Result<VaultTree, AllocError>
        ensures threshold { IfOk result (λ tree. tree.threshold ≡ threshold) }
        ensures keys { IfOk result (λ tree. tree.keys ≡ keys.now) }
        ensures live { IfOk result (λ tree. tree.live ≡ live) }
        ensures claims { IfOk result (λ tree. AreClaimsOf (sealing_of keys.now) tree.live tree.claims) }
    {
        let claims = Claims::from_tree(alloc, keys, &live)?;
        Ok(VaultTree {
            alloc,
            keys: keys.copied(),
            live,
            claims,
            threshold,
        })
    }

    /// The tree in memory.
    pub fn live(&self) -> &LiveTree
        ensures { result.now ≡ self.now.live }
    {
        &self.live
    }

    /// The vault's keys.
    pub fn keys(&self) -> &VaultKeys
        ensures { result.now ≡ self.now.keys }
    {
        &self.keys
    }

    /// Puts another size of a file's host file, in bytes, which is a change of the file at a second since 1970-01-01. It takes no
    /// memory.
    pub fn touch(&mut self, number: u64, size: u64, now: u32)
        requires file { (node : HeldNode) → node_of self.old.live number ≡ Some node → IsFile node.kept.what }
        ensures live { self.new.live ≡ touched self.old.live number size now }
        ensures rows { RowsAreTouched self.old.live self.new.live number now }
        ensures claims { self.new.claims ≡ self.old.claims }
        ensures keys { self.new.keys ≡ self.old.keys }
        ensures threshold { self.new.threshold ≡ self.old.threshold }
    {
        self.live.touch(number, size, now);
    }

    /// Sets a node's mtime, which is no change of it. It takes no memory.
    pub fn set_modified(&mut self, number: u64, modified: u32)
        ensures live { self.new.live ≡ dated self.old.live number modified }
        ensures rows { RowsAreDated self.old.live self.new.live number modified }
        ensures claims { self.new.claims ≡ self.old.claims }
        ensures keys { self.new.keys ≡ self.old.keys }
        ensures threshold { self.new.threshold ≡ self.old.threshold }
    {
        self.live.set_modified(number, modified);
    }
}
