//! Laws of the tree in memory: it follows the tree of the disk, and no change of it touches what belongs to no node.
//!
//! # What is held
//!
//! The tree in memory follows the tree of a vault's disk: it holds that tree, and after each change it holds the tree after it.
//!
//! ```
//! // From a tree that holds a disk's: a node that is made in both keeps it so.
//! live_tree_laws::making_holds();
//! live_tree_laws::removing_holds();
//! ```
//!
//! Its functions are laws: they do nothing, and their clauses hold.
//!
//! # What belongs to no node
//!
//! What other programs keep among a vault's data stays as it is: no change of the tree touches what is in the vault's folder `d` and belongs to no
//! node of it.
//!
//! ```
//! // From the disk of a tree: after the deeds of a removal every stray is there, as it was.
//! live_tree_laws::removals_keep_strays();
//! ```
//!
//! Its functions are laws: they do nothing, and their clauses hold.
#![tactic(auto)]

ghost use Rattle.live_tree_laws.specs.Contents.{DatingKeepsContents, MakingKeepsContents, RemovingKeepsContents, RenamingKeepsContents, WritingKeepsContents};
ghost use Rattle.live_tree_laws.specs.Found.{ContentsAreHeld, HeldRowsHaveShape, NodesHaveBytes, NodesHaveRows, PathsAreOfNodes, PlacesAreHeld, RowsAreOfNodes};
ghost use Rattle.live_tree_laws.specs.HeldLaws.{ChildlessHaveNoChild, FreeNamesAreFree, MakingHolds, RemovingHolds, RenamingHolds};
ghost use Rattle.live_tree_laws.specs.Loading.{LoadingHolds};
ghost use Rattle.live_tree_laws.specs.Writing.{ContentsChange, DatingHolds, FilesStandAtPlaces, WritingHolds};
ghost use Rattle.live_tree_laws.specs.StrayLaws.{CreatedDirectoryKeeps, CreatedFileKeeps, KeptBesideJournal, RemovedDirectoryKeeps, RemovedFileKeeps, RemovedLinkKeeps, RenamedDirectoryKeeps, RenamedFileKeeps, RenamedLinkKeeps, RewrittenFileKeeps};

/// A name is free in a directory's number just if no node of the tree has it there, and a number has no nodes in it just if its
/// path has none below it. It does nothing.
pub fn names_are_held()
    ensures free { FreeNamesAreFree }
    ensures childless { ChildlessHaveNoChild }
{}

/// A node is made in a directory. It does nothing.
pub fn making_holds()
    ensures { MakingHolds }
{}

/// A node without nodes in it is removed. It does nothing.
pub fn removing_holds()
    ensures { RemovingHolds }
{}

/// A node is given another name, with all that is in it. It does nothing.
pub fn renaming_holds()
    ensures { RenamingHolds }
{}

/// The rows of what is held have the shape of the tree; a number has a row just if it has a node, and leads to its path. It
/// does nothing.
pub fn held_rows_have_shape()
    ensures shape { HeldRowsHaveShape }
    ensures rows { NodesHaveRows }
    ensures nodes { RowsAreOfNodes }
{}

/// Files and links have their host files, with their bytes and their sizes, and nothing else has one; so the contents that are
/// right for the tree are those of the host files. It does nothing.
pub fn held_paths()
    ensures bytes { NodesHaveBytes }
    ensures nodes { PathsAreOfNodes }
    ensures contents { ContentsAreHeld }
{}

/// A node's place is the folder that is held of its parent, with the entry that is held of the node; and a file's host file is at
/// its place. It does nothing.
pub fn places_are_held()
    ensures places { PlacesAreHeld }
    ensures files { FilesStandAtPlaces }
{}

/// What is kept of a disk, as it is loaded, holds a tree of the disk. It does nothing.
pub fn loading_holds()
    ensures { LoadingHolds }
{}

/// A file is written. It does nothing.
pub fn writing_holds()
    ensures { WritingHolds }
{}

/// A node's mtime is set, which changes no node of the disk. It does nothing.
pub fn dating_holds()
    ensures { DatingHolds }
{}

/// If the host file of a file has other bytes, the tree of the disk has them, and nothing else changes. It does nothing.
pub fn contents_change()
    ensures { ContentsChange }
{}

/// After each change the contents that were right for the tree are so, but for those of the node that is made or written. It
/// does nothing.
pub fn contents_stay()
    ensures made { MakingKeepsContents }
    ensures removed { RemovingKeepsContents }
    ensures renamed { RenamingKeepsContents }
    ensures written { WritingKeepsContents }
    ensures dated { DatingKeepsContents }
{}

/// A file or a directory is made, at its short or its long place. It does nothing.
pub fn creations_keep_strays()
    ensures file { CreatedFileKeeps }
    ensures directory { CreatedDirectoryKeeps }
{}

/// A file, a link or an empty directory is removed. It does nothing.
pub fn removals_keep_strays()
    ensures file { RemovedFileKeeps }
    ensures link { RemovedLinkKeeps }
    ensures directory { RemovedDirectoryKeeps }
{}

/// A node is renamed, a directory with all that is in it. It does nothing.
pub fn renames_keep_strays()
    ensures file { RenamedFileKeeps }
    ensures link { RenamedLinkKeeps }
    ensures directory { RenamedDirectoryKeeps }
{}

/// A file gets other bytes. It does nothing.
pub fn rewriting_keeps_strays()
    ensures { RewrittenFileKeeps }
{}

/// The journal is written. It does nothing.
pub fn the_journal_keeps_strays()
    ensures { KeptBesideJournal }
{}
