ghost use Rattle.std.specs.Prelude.{◌≡◌, ◌≤◌, length, IsTrue, IfOk, IfSome, None};
ghost use Rattle.std.specs.Option.{option_copied};
ghost use Rattle.std.specs.Str.{IsUtf8};
ghost use Rattle.vault_path.specs.Parts.{is_part, is_path};
ghost use Rattle.tree_model.specs.Names.{IsClearName, name_limit};
ghost use Rattle.clear_tree.specs.Places.{host_folder};
ghost use Rattle.clear_tree.specs.Kept.{folder_in};
ghost use Rattle.clear_tree.specs.Built.{kept_what, HasHostFolder, IsFile};
ghost use Rattle.live_tree.specs.Held.{unchanged_node};
ghost use Rattle.live_tree.specs.Changes.{new_node, changed_node, renamed_node, sized_node, dated_node};

use clear_tree::{Node, What};
use std::alloc::{AllocError, Global};
use std::marker::Model;
use vault_path::Text;

/// A node of a tree that changes. Clauses see what is held of it.
#[derive(Debug, Drop)]
pub struct LiveNode {
    // boxed, since a map of small values takes less room, and the node that was loaded is taken over
    kept: Box<Node>,
    version: u32,
    modified: u32,
}

impl Model for LiveNode {
    ghost use Rattle.live_tree.specs.Held.{HeldNode};

    ghost Value = { HeldNode };

    ghost use Rattle.live_tree.specs.Index.{HasHostPart};

    ghost view = { λ n. record { kept = n.kept.value; version = n.version; modified = n.modified } };

    ghost invariant = { λ n. HasHostPart n.kept.value };
}

impl LiveNode {
    /// A node as it was loaded, of a vault that was unlocked at this second.
    pub(crate) fn loaded(alloc: Global, node: Node, unlocked: u32) -> Result<LiveNode, AllocError>
        requires { folder_in node.what ≡ None → IsTrue (is_part node.entry) }
        ensures { IfOk result (λ live. live ≡ unchanged_node unlocked node) }
    {
        let kept = Box::new(alloc, node)?;
        Ok(LiveNode {
            kept,
            version: 0,
            modified: unlocked,
        })
    }

    /// A node that is made at a second.
    pub(crate) fn made(
        alloc: Global,
        parent: u64,
        name: Text,
        what: What,
        entry: Text,
        long: bool,
        now: u32,
    ) -> Result<LiveNode, AllocError>
        requires name { IsClearName name }
        requires folder { HasHostFolder (kept_what what) }
        requires entry { IsTrue (is_part entry) }
        ensures { IfOk result (λ live. live ≡ new_node parent name (kept_what what) entry long now) }
    {
        let kept = Box::new(alloc, Node::new(parent, name, what, entry, long, false))?;
        Ok(LiveNode {
            kept,
            version: 0,
            modified: now,
        })
    }

    /// The number of the directory that it is in; the root's is its own.
    pub fn parent(&self) -> u64
        ensures { result ≡ self.now.kept.parent }
    {
        self.kept.parent()
    }

    /// The name, a text of at most 1,024 bytes.
    pub fn name(&self) -> &Text
        ensures bytes { result.now ≡ self.now.kept.name }
        ensures text { IsUtf8 self.now.kept.name }
        ensures short { length self.now.kept.name ≤ name_limit }
    {
        self.kept.name_text()
    }

    /// The entry in the folder of the parent. That of a node which is no directory can be a part of a host path.
    pub fn entry(&self) -> &[u8]
        ensures bytes { result.now ≡ self.now.kept.entry }
        ensures part { folder_in self.now.kept.what ≡ None → IsTrue (is_part self.now.kept.entry) }
    {
        self.kept.entry()
    }

    /// Whether the entry is the long place.
    pub fn is_long(&self) -> bool
        ensures { result ≡ self.now.kept.long }
    {
        self.kept.is_long()
    }

    /// What it is.
    pub fn what(&self) -> &What
        ensures { kept_what result.now ≡ self.now.kept.what }
    {
        self.kept.what()
    }

    /// Whether its folder has entries that aren't the vault's.
    pub fn is_foreign(&self) -> bool
        ensures { result ≡ self.now.kept.foreign }
    {
        self.kept.is_foreign()
    }

    /// Whether another entry stands for its name, or its own folder has further entries.
    pub fn is_shadowed(&self) -> bool
        ensures { result ≡ self.now.kept.shadowed }
    {
        self.kept.is_shadowed()
    }

    /// How often it changed since the vault was unlocked, modulo 2^32.
    pub fn version(&self) -> u32
        ensures { result ≡ self.now.version }
    {
        self.version
    }

    /// The second of its last change, or the mtime that it was given since.
    pub fn modified(&self) -> u32
        ensures { result ≡ self.now.modified }
    {
        self.modified
    }

    /// The 32 characters of a directory's folder.
    pub fn folder(&self) -> Option<&[u8; 32]>
        ensures value { option_copied result ≡ folder_in self.now.kept.what }
        ensures path { IfSome result (λ folder. IsTrue (is_path (host_folder folder.now))) }
    {
        self.kept.folder()
    }

    pub(crate) fn change(&mut self, now: u32)
        ensures { self.new ≡ changed_node now self.old }
    {
        self.version = self.version.wrapping_add(1);
        self.modified = now;
    }

    pub(crate) fn rename(&mut self, name: Text, entry: Text, long: bool)
        requires name { IsClearName name }
        requires entry { IsTrue (is_part entry) }
        ensures { self.new ≡ renamed_node name entry long self.old }
    {
        self.kept.rename(name, entry, long);
    }

    pub(crate) fn resize(&mut self, size: u64)
        requires { IsFile self.old.kept.what }
        ensures { self.new ≡ sized_node size self.old }
    {
        self.kept.resize(size);
    }

    pub(crate) fn date(&mut self, modified: u32)
        ensures { self.new ≡ dated_node modified self.old }
    {
        self.modified = modified;
    }
}
