ghost use Rattle.std.specs.Prelude.{◌≡◌, ◌≢◌, ◌<◌, ℕ, ◌∷◌, [], length, take, true, IsTrue, IsSome, IfSome, IfNone, IfOk, OnOk, OnErr, Some, None};
ghost use Rattle.std.specs.Option.{option_copied};
ghost use Rattle.std.specs.Ordering.{nat_cmp};
ghost use Rattle.std.specs.List.Sorted.{IsStrictlySortedBy};
ghost use Rattle.std.specs.Map.{keys_of};
ghost use Rattle.vault_path.specs.Parts.{is_part};
ghost use Rattle.tree_model.specs.Names.{IsClearName};
ghost use Rattle.tree_model.specs.Rows.{Content, root, is_dir};
ghost use Rattle.clear_tree.specs.Places.{host_entry, host_inner};
ghost use Rattle.clear_tree.specs.Kept.{folder_in, kind_of, tree_rows};
ghost use Rattle.clear_tree.specs.Built.{kept_what, HasHostFolder, IsFile};
ghost use Rattle.live_tree.specs.Held.{HeldNode, node_of, path_of, size_of, live_rows, loaded, IsNamed, IsFree, IsNext, IsNoNext, IsChildless, IsDirectory, IsTree};
ghost use Rattle.live_tree.specs.Changes.{edited, changed, appended, added, dropped, removed, renamed, renamed_node, touched, dated, new_node, count_limit, CanBeMade, RowsAreAdded, RowsAreRemoved, RowsAreRenamed, RowsAreTouched, RowsAreDated};

use crate::changing::{Nodes, change_node, date_node, insert_node, rename_node, resize_node};
use crate::directories::{Names, close_directory, next_name, number_at, open_directory, put, take};
use crate::node::LiveNode;
use clear_tree::{Node, Tree, TreeNodes, What, host_entry, host_inner};
use std::alloc::{AllocError, Global};
use std::collections::BTreeMap;
use std::marker::Model;
use vault_layout::{CONTENTS_FILE, LINK_FILE};
use vault_path::{Text, VaultPath};

/// The tree of an open vault in memory. A node is found by its number and by its name in a directory, and changes, in O(log n)
/// steps: the nodes of a directory that gets another name stay as they are. Clauses see what is held of the vault.
#[derive(Drop)]
pub struct LiveTree {
    alloc: Global,
    nodes: Nodes,
    names: Names,
    next: u64,
    twice: bool,
}

impl Model for LiveTree {
    ghost use Rattle.live_tree.specs.Held.{HeldTree};
    ghost use Rattle.live_tree.specs.Index.{IsHeld};

    ghost Value = { HeldTree };

    ghost view = { λ t. record { nodes = t.nodes.entries; next = t.next; twice = t.twice } };

    ghost invariant = { λ t. IsHeld t.names (record { nodes = t.nodes.entries; next = t.next; twice = t.twice }) };
}

impl LiveTree {
    /// A tree as it was loaded, of a vault that was unlocked at this second. The nodes are taken over one by one.
    pub fn from_tree(alloc: Global, tree: Tree, unlocked: u32) -> Result<LiveTree, AllocError>
        ensures held { IfOk result (λ live. live ≡ loaded unlocked tree.nodes (length tree.nodes) tree.twice) }
        ensures rows { IfOk result (λ live. (contents : ℕ → Content) → live_rows contents live ≡ tree_rows contents unlocked tree) }
    {
        // for its clauses: it is a tree, and its nodes can be counted
        let _count = tree.len();
        let twice = tree.is_twice();
        let TreeNodes {
            root: first,
            others,
        } = tree.into_nodes();
        let mut live = LiveTree::with_root(alloc, first, twice, unlocked)?;
        for node in others {
            live.append(LiveNode::loaded(alloc, node, unlocked)?)?;
        }
        Ok(live)
    }

    /// How many nodes there are, the root among them.
    pub fn len(&self) -> usize
        ensures count { result ≡ length self.now.nodes }
        ensures tree { IsTree self.now }
    {
        self.nodes.len()
    }

    /// The number that the next node gets.
    pub fn next(&self) -> u64
        ensures { result ≡ self.now.next }
    {
        self.next
    }

    /// Whether an identifier is named twice.
    pub fn is_twice(&self) -> bool
        ensures { result ≡ self.now.twice }
    {
        self.twice
    }

    /// The node of a number, the root's being 0.
    pub fn node(&self, number: u64) -> Option<&LiveNode>
        ensures { option_copied result ≡ node_of self.now number }
    {
        self.nodes.get(&number)
    }

    /// The number of the node of this name in a directory.
    pub fn look(&self, parent: u64, name: &Text) -> Option<u64>
        ensures found { IfSome result (λ number. IsNamed self.now parent name.now number) }
        ensures none { IfNone result (IsFree self.now parent name.now) }
    {
        number_at(&self.names, parent, name)
    }

    /// The number of the first node of a directory after a name, or of its first node.
    pub fn next_after(&self, parent: u64, last: Option<&Text>) -> Option<u64>
        ensures next { IfSome result (λ number. IsNext self.now parent (option_copied last.entry) number) }
        ensures none { IfNone result (IsNoNext self.now parent (option_copied last.entry)) }
    {
        next_name(&self.names, parent, last)
    }

    /// Where the host file of a file or a link is. It takes no memory.
    pub fn path(&self, number: u64) -> Option<VaultPath>
        ensures { result ≡ path_of self.now number }
    {
        let node = self.node(number)?;
        let folder = self.node(node.parent())?.folder()?;
        match node.what() {
            What::File { .. } if node.is_long() => Some(host_inner(
                folder,
                node.entry(),
                CONTENTS_FILE,
            )),
            What::File { .. } => Some(host_entry(folder, node.entry())),
            What::Link { .. } => Some(host_inner(folder, node.entry(), LINK_FILE)),
            _ => None,
        }
    }

    /// How many bytes the host file of a file or a link has.
    pub fn size(&self, number: u64) -> Option<u64>
        ensures { result ≡ size_of self.now number }
    {
        match self.node(number)?.what() {
            What::File { size } | What::Link { size } => Some(*size),
            _ => None,
        }
    }

    /// Makes a file or a directory at a second, under the next number, which it returns. If memory runs out the tree stays as it
    /// is.
    pub fn add(
        &mut self,
        parent: u64,
        name: Text,
        what: What,
        entry: Text,
        long: bool,
        now: u32,
    ) -> Result<u64, AllocError>
        requires parent { IsDirectory self.old parent }
        requires free { IsFree self.old parent name }
        requires clear { IsClearName name }
        requires what { CanBeMade (kept_what what) }
        requires folder { HasHostFolder (kept_what what) }
        requires entry { IsTrue (is_part entry) }
        requires room { self.old.next < count_limit }
        ensures number { IfOk result (λ number. number ≡ self.old.next) }
        ensures held { OnOk result (self.new ≡ added self.old (new_node parent name (kept_what what) entry long now) now) }
        ensures rows { OnOk result (RowsAreAdded self.old self.new parent name (is_dir (kind_of (kept_what what))) now) }
        ensures same { OnErr result (self.new ≡ self.old) }
    {
        let number = self.next;
        self.append(LiveNode::made(self.alloc, parent, name, what, entry, long, now)?)?;
        self.change(parent, now);
        Ok(number)
    }

    /// Gives a node below the root another name and entry at a second. If memory runs out the tree stays as it is.
    pub fn rename(
        &mut self,
        number: u64,
        name: Text,
        entry: Text,
        long: bool,
        now: u32,
    ) -> Result<(), AllocError>
        requires there { IsSome (node_of self.old number) }
        requires below { number ≢ root }
        requires free { (node : HeldNode) → node_of self.old number ≡ Some node → IsFree self.old node.kept.parent name }
        requires clear { IsClearName name }
        requires entry { IsTrue (is_part entry) }
        ensures held { OnOk result ((node : HeldNode) → node_of self.old number ≡ Some node → self.new ≡ renamed self.old number node.kept.parent name entry long now) }
        ensures rows { OnOk result (RowsAreRenamed self.old self.new number name now) }
        ensures same { OnErr result (self.new ≡ self.old) }
    {
        let parent = self.parent_of(number);
        self.give_name(number, name, entry, long)?;
        self.change(parent, now);
        Ok(())
    }

    /// Removes a node below the root without nodes in it, at a second. It takes no memory.
    pub fn remove(&mut self, number: u64, now: u32)
        requires there { IsSome (node_of self.old number) }
        requires below { number ≢ root }
        requires childless { IsChildless self.old number }
        ensures held { (node : HeldNode) → node_of self.old number ≡ Some node → self.new ≡ removed self.old number node.kept.parent now }
        ensures rows { RowsAreRemoved self.old self.new number now }
    {
        let parent = self.parent_of(number);
        self.change(parent, now);
        self.drop_node(number);
    }

    /// Says of a file that it was written at a second, and how many bytes its host file has. It takes no memory.
    pub fn touch(&mut self, number: u64, size: u64, now: u32)
        requires file { (node : HeldNode) → node_of self.old number ≡ Some node → IsFile node.kept.what }
        ensures held { self.new ≡ touched self.old number size now }
        ensures rows { RowsAreTouched self.old self.new number now }
    {
        resize_node(&mut self.nodes, number, size);
        change_node(&mut self.nodes, number, now);
    }

    /// Sets a node's mtime, which is no change of it. It takes no memory.
    pub fn set_modified(&mut self, number: u64, modified: u32)
        ensures held { self.new ≡ dated self.old number modified }
        ensures rows { RowsAreDated self.old self.new number modified }
    {
        date_node(&mut self.nodes, number, modified);
    }

    // The root alone, as it was loaded.
    fn with_root(
        alloc: Global,
        first: Node,
        twice: bool,
        unlocked: u32,
    ) -> Result<LiveTree, AllocError>
        requires own { first.parent ≡ root }
        requires folder { IsSome (folder_in first.what) }
        ensures { IfOk result (λ live. live ≡ loaded unlocked (first ∷ []) 1 twice) }
    {
        let node = LiveNode::loaded(alloc, first, unlocked)?;
        let mut names = BTreeMap::new(alloc);
        open_directory(alloc, &mut names, 0, true)?;
        let mut nodes = BTreeMap::new(alloc);
        nodes.insert(0, node)?;
        Ok(LiveTree {
            alloc,
            nodes,
            names,
            next: 1,
            twice,
        })
    }

    // Puts a node after the others, under the next number. If memory runs out the tree stays as it is.
    fn append(&mut self, node: LiveNode) -> Result<(), AllocError>
        requires parent { IsDirectory self.old node.kept.parent }
        requires free { IsFree self.old node.kept.parent node.kept.name }
        requires fresh { node.version ≡ 0 }
        requires room { self.old.next < count_limit }
        ensures appended { OnOk result (self.new ≡ appended self.old node) }
        ensures same { OnErr result (self.new ≡ self.old) }
    {
        let number = self.next;
        let name = Text::from_slice(self.alloc, node.name().as_bytes())?;
        let is_directory = node.folder().is_some();
        open_directory(self.alloc, &mut self.names, number, is_directory)?;
        put(&mut self.names, node.parent(), name, number)?;
        match insert_node(&mut self.nodes, number, node) {
            Ok(()) => {
                self.next += 1;
                Ok(())
            }
            Err(node) => {
                take(&mut self.names, node.parent(), node.name());
                Err(AllocError)
            }
        }
    }

    // Counts a change of a directory at a second.
    fn change(&mut self, number: u64, now: u32)
        ensures { self.new ≡ changed self.old number now }
    {
        change_node(&mut self.nodes, number, now);
    }

    fn parent_of(&self, number: u64) -> u64
        requires { IsSome (node_of self.now number) }
        ensures value { (node : HeldNode) → node_of self.now number ≡ Some node → result ≡ node.kept.parent }
        ensures before { number ≢ root → result < number }
        ensures ordered { IsStrictlySortedBy nat_cmp (keys_of self.now.nodes) }
    {
        match self.nodes.get(&number) {
            Some(node) => node.parent(),
            None => unreachable!(),
        }
    }

    // Gives a node another name and entry. If memory runs out the tree stays as it is.
    fn give_name(
        &mut self,
        number: u64,
        name: Text,
        entry: Text,
        long: bool,
    ) -> Result<(), AllocError>
        requires there { IsSome (node_of self.old number) }
        requires below { number ≢ root }
        requires free { (node : HeldNode) → node_of self.old number ≡ Some node → IsFree self.old node.kept.parent name }
        requires clear { IsClearName name }
        requires entry { IsTrue (is_part entry) }
        ensures named { OnOk result (self.new ≡ edited self.old number (renamed_node name entry long)) }
        ensures same { OnErr result (self.new ≡ self.old) }
    {
        let Some(node) = self.nodes.get(&number) else {
            unreachable!()
        };
        let copy = Text::from_slice(self.alloc, name.as_bytes())?;
        put(&mut self.names, node.parent(), copy, number)?;
        take(&mut self.names, node.parent(), node.name());
        rename_node(&mut self.nodes, number, name, entry, long);
        Ok(())
    }

    // Takes a node away that has no nodes in it.
    fn drop_node(&mut self, number: u64)
        requires there { IsSome (node_of self.old number) }
        requires below { number ≢ root }
        requires childless { IsChildless self.old number }
        ensures { self.new ≡ dropped self.old number }
    {
        let Some(node) = self.nodes.remove(&number) else {
            unreachable!()
        };
        take(&mut self.names, node.parent(), node.name());
        close_directory(&mut self.names, number);
    }
}
