//! Laws of versions: nothing that a client sees depends on more of them than their low 32 bits.
//!
//! # Rows
//!
//! Of a node's version, which counts its changes, a qid shows no more than the low 32 bits. No answer of the plain file tree, now or
//! later, depends on the rest: rows that are the same but for versions beyond 2^32 are answered alike in every legal history.
//! So a store may keep each version as 32 bits.
//!
//! ```
//! // Of rows whose versions wrap at 2^32: each answer is that of the rows whose versions don't.
//! version_laws::steps_see_no_further();
//! ```
//!
//! Its functions are laws: they do nothing, and their clauses hold.
//!
//! # Shapes
//!
//! The shape of a tree's rows does not depend on versions: rows that are the same but for versions beyond 2^32 have the shape of the
//! same tree, and paths lead to the same rows of them.
//!
//! ```
//! // What is proved of rows whose versions count each change holds of those whose versions wrap at 2^32.
//! version_laws::shapes_see_no_versions();
//! ```
//!
//! `shapes_see_no_versions` is a law: it does nothing, and its clauses hold.
#![tactic(auto)]

ghost use Rattle.version_laws.specs.RowVersions.{AllAnsweredInBoth, AnsweredInBoth, EarlyRefusalsAreSame, LegalInBoth, PlacesAreSame, RowsAfterAreSame, RowsThenAreSame, StepsAreSame};
ghost use Rattle.version_laws.specs.ShapeVersions.{DistinctAreApart, HaveShapeToo, PathsLeadToSameRows, ShapesAreSame};

/// From rows that are the same but for versions beyond 2^32 each request has the same answer and the same refusal before the work,
/// and leads to rows that are so too. It does nothing.
pub fn steps_see_no_further()
    ensures step { StepsAreSame }
    ensures early { EarlyRefusalsAreSame }
{}

/// The same of one entry of a history: what puts a node at a new place, which answers there may be, and the rows
/// after it. It does nothing.
pub fn entries_see_no_further()
    ensures places { PlacesAreSame }
    ensures answered { AnsweredInBoth }
    ensures rows { RowsThenAreSame }
{}

/// The same of all entries: a history that is legal from the one rows is legal from the others. It does nothing.
pub fn histories_see_no_further()
    ensures rows { RowsAfterAreSame }
    ensures answered { AllAnsweredInBoth }
    ensures legal { LegalInBoth }
{}

/// Of rows that are the same but for versions beyond 2^32: paths lead to the same rows, their shapes are the same, and if the one
/// have the shape of a tree the others have it too, if no two of them differ in the version alone; which is so if no number occurs
/// twice. It does nothing.
pub fn shapes_see_no_versions()
    ensures paths { PathsLeadToSameRows }
    ensures same { ShapesAreSame }
    ensures have { HaveShapeToo }
    ensures apart { DistinctAreApart }
{}
