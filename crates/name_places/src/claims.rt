ghost use Rattle.std.specs.Prelude.{◌≡◌, ◌≢◌, suc, IfOk, OnOk, OnErr};
ghost use Rattle.tree_model.specs.Rows.{root};
ghost use Rattle.clear_tree.specs.Kept.{KeptBad};
ghost use Rattle.clear_tree.specs.Built.{kept_what};
ghost use Rattle.tree_loading.specs.Format.{sealing_of};
ghost use Rattle.name_places.specs.Claims.{claimed_at, claimed_in, number_in, AreClaimsOf};
ghost use Rattle.name_places.specs.Index.{AreClaimsBelow, IsPut};
ghost use Rattle.name_places.specs.Laws.{Grows, IsInserted, Shrinks, TakesBack};

use clear_tree::What;
use live_tree::LiveTree;
use std::alloc::{AllocError, Global};
use std::collections::BTreeMap;
use std::marker::Model;
use tree_loading::is_identifier;
use vault_keys::VaultKeys;
use vault_names::directory_folder;

/// Of each folder that a node below the root names, a directory or a Bad node, the lowest number of those nodes. O(log n) for
/// each question and change. Clauses see its entries.
#[derive(Drop)]
pub struct Claims {
    numbers: BTreeMap<[u8; 32], u64>,
}

impl Model for Claims {
    ghost use Rattle.std.specs.Prelude.{ℕ, List};

    ghost Value = { List (List ℕ × ℕ) };

    ghost view = { λ c. c.numbers.entries };
}

impl Claims {
    /// The claims of a tree. Fails only if memory runs out.
    pub fn from_tree(alloc: Global, keys: &VaultKeys, live: &LiveTree) -> Result<Claims, AllocError>
        ensures { IfOk result (AreClaimsOf (sealing_of keys.now) live.now) }
    {
        // for its clause: each number is below the next one
        let _count = live.len();
        let mut claims = Claims {
            numbers: BTreeMap::new(alloc),
        };
        for number in 1..live.next() {
            claims.take_in(keys, live, number)?;
        }
        Ok(claims)
    }

    /// The number of the first node that names a folder.
    pub fn first(&self, folder: &[u8; 32]) -> Option<u64>
        ensures { result ≡ number_in self.now folder.now }
    {
        self.numbers.get(folder).copied()
    }

    /// Says that the next node of the tree, which is made now, names a folder, and returns whether no node named it before. It stays as
    /// it is if memory runs out.
    pub fn insert(&mut self, folder: [u8; 32], number: u64) -> Result<bool, AllocError>
        ensures claims { OnOk result (Grows self.old self.new folder number) }
        ensures inserted { IfOk result (IsInserted self.old self.new folder number) }
        ensures same { OnErr result (self.new ≡ self.old) }
    {
        self.put(folder, number)
    }

    /// Says that the only node which names a folder goes, or isn't made. It takes no memory.
    pub fn remove(&mut self, folder: &[u8; 32])
        ensures claims { Shrinks self.old self.new folder.now }
        ensures back { TakesBack self.old self.new folder.now }
    {
        self.numbers.remove(folder);
    }

    // Takes in what the node of a number names, after those of lower numbers.
    fn take_in(&mut self, keys: &VaultKeys, live: &LiveTree, number: u64) -> Result<(), AllocError>
        requires below { number ≢ root }
        requires before { AreClaimsBelow (sealing_of keys.now) live.now number self.old }
        ensures { OnOk result (AreClaimsBelow (sealing_of keys.now) live.now (suc number) self.new) }
    {
        match claimed_at(keys, live, number) {
            Some(folder) => {
                self.put(folder, number)?;
                Ok(())
            }
            None => Ok(()),
        }
    }

    // Gives a folder a number, if it has none.
    fn put(&mut self, folder: [u8; 32], number: u64) -> Result<bool, AllocError>
        ensures put { OnOk result (IsPut self.old self.new folder number) }
        ensures inserted { IfOk result (IsInserted self.old self.new folder number) }
        ensures same { OnErr result (self.new ≡ self.old) }
    {
        if self.first(&folder).is_some() {
            return Ok(false);
        }
        self.numbers.insert(folder, number)?;
        Ok(true)
    }
}

// The folder that the node of a number names.
fn claimed_at(keys: &VaultKeys, live: &LiveTree, number: u64) -> Option<[u8; 32]>
    ensures { result ≡ claimed_at (sealing_of keys.now) live.now number }
{
    claimed_in(keys, live.node(number)?.what())
}

// The folder that a node names, by what it is.
fn claimed_in(keys: &VaultKeys, what: &What) -> Option<[u8; 32]>
    ensures { result ≡ claimed_in (sealing_of keys.now) (kept_what what.now) }
{
    match what {
        What::Dir { folder, .. } => Some(*folder),
        What::Bad { text } => folder_named(keys, text.as_bytes()),
        What::File { .. } | What::Link { .. } => None,
    }
}

// The folder that a text of a `dir.c9r` names, if that is an identifier.
fn folder_named(keys: &VaultKeys, text: &[u8]) -> Option<[u8; 32]>
    ensures { result ≡ claimed_in (sealing_of keys.now) (KeptBad text.now) }
{
    if !is_identifier(text) {
        return None;
    }
    Some(directory_folder(keys, text))
}
