//! The changes of a vault's tree: the deeds of each create, remove and rename, and the laws that if the tree's step doesn't
//! refuse one and no place is taken, they can be done, again after a stop too, and leave the disk of the tree after it.
//!
//! ```
//! // From the tree of a disk: a new file's one deed at a short place puts its header.
//! tree_deed_laws::creates_file();
//! tree_deed_laws::removes_file();
//! ```
//!
//! Its functions are laws: they do nothing, and their clauses hold.
#![tactic(auto)]

ghost use Rattle.tree_deed_laws.specs.Changes.{CreatesDirectory, CreatesFile, DoesAgain, EntriesAreOfPlaces, RemovesDirectory, RemovesFile, RemovesLink, RenamesDirectory, RenamesFile, RenamesLink, StaysBeside};
ghost use Rattle.tree_deed_laws.specs.Shapes.{ClearRowsHaveTree, DirectoryFollows, EmptyVaultHasTree, FileFollows, RemovalFollows, RenameFollows, ShapesAreOfClearRows, StepMakesDirectory, StepMakesFile, StepRemoves, StepRenames};

/// A file is made, at its short or its long place. It does nothing.
pub fn creates_file()
    ensures { CreatesFile }
{}

/// A directory is made, with a folder of its own. It does nothing.
pub fn creates_directory()
    ensures { CreatesDirectory }
{}

/// A file is removed, from its short or its long place. It does nothing.
pub fn removes_file()
    ensures { RemovesFile }
{}

/// A link is removed. It does nothing.
pub fn removes_link()
    ensures { RemovesLink }
{}

/// An empty directory is removed, with its folder and the copy of its identifier there. It does nothing.
pub fn removes_directory()
    ensures { RemovesDirectory }
{}

/// A file is renamed, from either place to either: its bytes move whole, and a node folder is made or removed. It does
/// nothing.
pub fn renames_file()
    ensures { RenamesFile }
{}

/// A link is renamed. It does nothing.
pub fn renames_link()
    ensures { RenamesLink }
{}

/// A directory is renamed, with all that is in it: its `dir.c9r` moves, its folder stays. It does nothing.
pub fn renames_directory()
    ensures { RenamesDirectory }
{}

/// Done again on whatever a stop left of them, the deeds lead to the disk of the same tree. It does nothing.
pub fn does_again()
    ensures { DoesAgain }
{}

/// If the step makes a file or a directory, the rows after it have the shape of the tree that the deeds lead to. It does
/// nothing.
pub fn creations_follow()
    ensures file { FileFollows }
    ensures directory { DirectoryFollows }
{}

/// If the step removes a node, the rows after it have the shape of the tree that the deeds lead to. It does nothing.
pub fn removals_follow()
    ensures { RemovalFollows }
{}

/// If the step gives a node a new name, the rows after it have the shape of the tree that the deeds lead to. It does
/// nothing.
pub fn renames_follow()
    ensures { RenameFollows }
{}

/// The same by requests: if the answer of a create, a remove or a change of name is no refusal and no place is taken, the
/// deeds lead to the disk of a tree whose shape the step's rows have. It does nothing.
pub fn steps_follow()
    ensures file { StepMakesFile }
    ensures directory { StepMakesDirectory }
    ensures removed { StepRemoves }
    ensures renamed { StepRenames }
{}

/// What the journal's two files hold does not matter to the tree. It does nothing.
pub fn stays_beside()
    ensures { StaysBeside }
{}

/// The rows that a disk stands for have the shape of its tree, and there is such a disk; and rows of that shape are, by path, those
/// that the disk stands for. It does nothing.
pub fn clear_rows_have_shape()
    ensures have { ClearRowsHaveTree }
    ensures some { EmptyVaultHasTree }
    ensures same { ShapesAreOfClearRows }
{}

/// Each node's entry is that of its place. It does nothing.
pub fn entries_are_of_places()
    ensures { EntriesAreOfPlaces }
{}
