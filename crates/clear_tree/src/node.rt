ghost use Rattle.std.specs.Prelude.{◌≡◌, ◌≤◌, false, length, IfOk, IfSome, IsTrue};
ghost use Rattle.std.specs.Option.{option_copied};
ghost use Rattle.std.specs.Str.{IsUtf8};
ghost use Rattle.vault_path.specs.Parts.{is_path};
ghost use Rattle.tree_model.specs.Names.{IsClearName, name_limit};
ghost use Rattle.tree_model.specs.Rows.{root};
ghost use Rattle.clear_tree.specs.Places.{host_folder};
ghost use Rattle.clear_tree.specs.Kept.{folder_in};
ghost use Rattle.clear_tree.specs.Built.{kept_what, HasHostFolder, IsFile, marked_node, renamed_node, sized_node, root_node};

use std::alloc::{AllocError, Global};
use std::marker::Model;
use vault_path::Text;

/// What a node is. Sizes are those of host files, in bytes.
#[derive(Debug, Drop)]
pub enum What {
    File { size: u64 },
    Link { size: u64 },
    /// A directory: its identifier, and the 32 characters of its folder.
    Dir { identifier: Text, folder: [u8; 32] },
    /// A node whose `dir.c9r` names no folder of its own: what is kept of that text, one byte more than the longest identifier.
    Bad { text: Text },
}

/// A node of a tree in memory. Clauses see what is kept of it.
#[derive(Debug, Drop)]
pub struct Node {
    parent: u64,
    name: Text,
    entry: Text,
    what: What,
    // beside each other, as fields lie in order
    long: bool,
    foreign: bool,
    shadowed: bool,
}

impl Model for Node {
    ghost use Rattle.clear_tree.specs.Kept.{KeptNode};

    ghost Value = { KeptNode };

    ghost use Rattle.clear_tree.specs.Built.{kept_what, IsShowable};

    ghost view = { λ n. record {
      parent = n.parent;
      name = n.name;
      entry = n.entry;
      long = n.long;
      what = kept_what n.what;
      foreign = n.foreign;
      shadowed = n.shadowed;
    } };

    ghost invariant = { λ n. IsShowable n.name (kept_what n.what) };
}

impl Node {
    /// A node without a foreign entry: its parent's number, its name, what it is, its entry in the folder of its parent,
    /// whether that is the long place, and whether it is shadowed.
    pub fn new(parent: u64, name: Text, what: What, entry: Text, long: bool, shadowed: bool) -> Node
        requires name { IsClearName name }
        requires folder { HasHostFolder (kept_what what) }
        ensures { result ≡ record {
          parent = parent;
          name = name;
          entry = entry;
          long = long;
          what = kept_what what;
          foreign = false;
          shadowed = shadowed;
        } }
    {
        Node {
            parent,
            name,
            entry,
            long,
            what,
            foreign: false,
            shadowed,
        }
    }

    /// The root, over the folder of these 32 characters.
    pub(crate) fn root(alloc: Global, folder: [u8; 32]) -> Result<Node, AllocError>
        requires { IsTrue (is_path (host_folder folder)) }
        ensures { IfOk result (λ node. node ≡ root_node folder) }
    {
        let name = Vec::from_slice(alloc, "/".as_bytes())?;
        let identifier = Text::from_vec(Vec::new(alloc));
        Ok(Node {
            parent: 0,
            name: Text::from_vec(name),
            entry: Text::from_vec(Vec::new(alloc)),
            long: false,
            what: What::Dir { identifier, folder },
            foreign: false,
            shadowed: false,
        })
    }

    /// The number of the directory that it is in; the root's is its own.
    pub fn parent(&self) -> u64
        ensures { result ≡ self.now.parent }
    {
        self.parent
    }

    /// The name's bytes, a text of at most 1,024 bytes.
    pub fn name(&self) -> &[u8]
        ensures bytes { result.now ≡ self.now.name }
        ensures text { IsUtf8 self.now.name }
        ensures short { length self.now.name ≤ name_limit }
    {
        self.name.as_bytes()
    }

    /// The same as a text, which a map of names takes as a key.
    pub fn name_text(&self) -> &Text
        ensures bytes { result.now ≡ self.now.name }
        ensures text { IsUtf8 self.now.name }
        ensures short { length self.now.name ≤ name_limit }
    {
        &self.name
    }

    /// The entry in the folder of the parent.
    pub fn entry(&self) -> &[u8]
        ensures { result.now ≡ self.now.entry }
    {
        self.entry.as_bytes()
    }

    /// Whether the entry is the long place.
    pub fn is_long(&self) -> bool
        ensures { result ≡ self.now.long }
    {
        self.long
    }

    /// What it is.
    pub fn what(&self) -> &What
        ensures { kept_what result.now ≡ self.now.what }
    {
        &self.what
    }

    /// Whether its folder has entries that aren't the vault's.
    pub fn is_foreign(&self) -> bool
        ensures { result ≡ self.now.foreign }
    {
        self.foreign
    }

    /// Whether another entry stands for its name, or its own folder has further entries.
    pub fn is_shadowed(&self) -> bool
        ensures { result ≡ self.now.shadowed }
    {
        self.shadowed
    }

    /// The 32 characters of a directory's folder.
    pub fn folder(&self) -> Option<&[u8; 32]>
        ensures value { option_copied result ≡ folder_in self.now.what }
        ensures path { IfSome result (λ folder. IsTrue (is_path (host_folder folder.now))) }
    {
        match &self.what {
            What::Dir { folder, .. } => Some(folder),
            _ => None,
        }
    }

    /// Gives it another name, and the entry of that name.
    pub fn rename(&mut self, name: Text, entry: Text, long: bool)
        requires { IsClearName name }
        ensures { self.new ≡ renamed_node name entry long self.old }
    {
        self.name = name;
        self.entry = entry;
        self.long = long;
    }

    /// Says of a file how many bytes its host file has.
    pub fn resize(&mut self, size: u64)
        requires { IsFile self.old.what }
        ensures { self.new ≡ sized_node size self.old }
    {
        self.what = What::File { size };
    }

    pub(crate) fn mark_foreign(&mut self, foreign: bool)
        ensures { self.new ≡ marked_node foreign self.old }
    {
        self.foreign = foreign;
    }
}
