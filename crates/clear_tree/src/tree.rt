ghost use Rattle.std.specs.Prelude.{◌≡◌, ◌<◌, ℕ, ◌∷◌, length, false, IsTrue, Some, None, IfSome, IfOk, OnOk, OnErr, slice_get};
ghost use Rattle.std.specs.Option.{option_copied};
ghost use Rattle.vault_path.specs.Parts.{is_part, is_path};
ghost use Rattle.clear_tree.specs.Places.{host_folder, host_entry, host_inner};
ghost use Rattle.clear_tree.specs.Kept.{KeptNode, IsTree, folder_in, node_of, path_of, size_of};
ghost use Rattle.clear_tree.specs.Built.{FitsBehind, root_alone, with_node, with_foreign, with_twice};

use crate::host_paths::{host_entry, host_inner};
use crate::node::{Node, What};
use std::alloc::{AllocError, Global};
use std::marker::Model;
use vault_layout::{CONTENTS_FILE, LINK_FILE};
use vault_path::VaultPath;

/// The nodes of a tree that was taken apart: the root, and the others in the order of their numbers.
#[derive(Drop)]
pub struct TreeNodes {
    pub root: Node,
    pub others: Vec<Node>,
}

/// The tree of a vault in memory: its nodes by number in the walk's order, breadth first and in each directory by the names'
/// bytes. Clauses see what is kept of the vault's disk.
#[derive(Drop)]
pub struct Tree {
    root: Node,
    others: Vec<Node>,
    twice: bool,
}

impl Model for Tree {
    ghost use Rattle.std.specs.Prelude.{◌∷◌};
    ghost use Rattle.clear_tree.specs.Kept.{KeptTree};
    ghost use Rattle.clear_tree.specs.Built.{AreKept};

    ghost Value = { KeptTree };

    ghost view = { λ t. record { nodes = t.root ∷ t.others.items; twice = t.twice } };

    ghost invariant = { λ t. AreKept t.root t.others.items };
}

impl Tree {
    /// The root alone, over the folder of these 32 characters.
    pub fn with_root(alloc: Global, folder: [u8; 32]) -> Result<Tree, AllocError>
        requires { IsTrue (is_path (host_folder folder)) }
        ensures { IfOk result (λ tree. tree ≡ root_alone folder) }
    {
        let root = Node::root(alloc, folder)?;
        Ok(Tree {
            root,
            others: Vec::new(alloc),
            twice: false,
        })
    }

    /// Puts a node after the last one. It stays as it is if memory runs out.
    pub fn push(&mut self, node: Node) -> Result<(), AllocError>
        requires { FitsBehind self.old node }
        ensures pushed { OnOk result (self.new ≡ with_node self.old node) }
        ensures same { OnErr result (self.new ≡ self.old) }
    {
        self.others.push(node)?;
        Ok(())
    }

    /// Says of the node of a number whether its folder has entries that aren't the vault's.
    pub fn mark_foreign(&mut self, number: u64, foreign: bool)
        requires { number < length self.old.nodes }
        ensures { self.new ≡ with_foreign self.old number foreign }
    {
        match number.checked_sub(1) {
            None => self.root.mark_foreign(foreign),
            Some(index) => self.others[index as usize].mark_foreign(foreign),
        }
    }

    /// Says whether an identifier is named twice.
    pub fn mark_twice(&mut self, twice: bool)
        ensures { self.new ≡ with_twice self.old twice }
    {
        self.twice = twice;
    }

    /// How many nodes there are, the root among them.
    pub fn len(&self) -> usize
        ensures count { result ≡ length self.now.nodes }
        ensures tree { IsTree self.now }
    {
        self.others.len() + 1
    }

    /// Whether an identifier is named twice.
    pub fn is_twice(&self) -> bool
        ensures { result ≡ self.now.twice }
    {
        self.twice
    }

    /// Takes the tree apart. Each node below the root has an entry that can be a part of a host path.
    pub fn into_nodes(self) -> TreeNodes
        ensures nodes { result.root ∷ result.others.items ≡ self.nodes }
        ensures entries { (index : ℕ) (node : KeptNode) → slice_get result.others.items index ≡ Some node → IsTrue (is_part node.entry) }
    {
        let Tree {
            root,
            others,
            twice: _,
        } = self;
        TreeNodes { root, others }
    }

    /// The node of a number, the root's being 0.
    /// What isn't a directory has an entry that can be a part of a host path.
    pub fn node(&self, number: u64) -> Option<&Node>
        ensures value { option_copied result ≡ node_of self.now number }
        ensures entry { IfSome result (λ node. folder_in node.now.what ≡ None → IsTrue (is_part node.now.entry)) }
    {
        match number.checked_sub(1) {
            None => Some(&self.root),
            Some(index) => self.others.get(index as usize),
        }
    }

    /// Where the host file of a file or a link is. It takes no memory.
    pub fn path(&self, number: u64) -> Option<VaultPath>
        ensures { result ≡ path_of self.now number }
    {
        let node = self.node(number)?;
        let folder = self.node(node.parent())?.folder()?;
        match node.what() {
            What::File { .. } if node.is_long() => Some(host_inner(
                folder,
                node.entry(),
                CONTENTS_FILE,
            )),
            What::File { .. } => Some(host_entry(folder, node.entry())),
            What::Link { .. } => Some(host_inner(folder, node.entry(), LINK_FILE)),
            _ => None,
        }
    }

    /// How many bytes the host file of a file or a link had when it was loaded.
    pub fn size(&self, number: u64) -> Option<u64>
        ensures { result ≡ size_of self.now number }
    {
        match self.node(number)?.what() {
            What::File { size } | What::Link { size } => Some(*size),
            _ => None,
        }
    }
}
