//! Laws of an open vault: which history it stands for, and which places can be taken in it.
//!
//! # Histories of a store
//!
//! What an open vault stands for: one legal history of the plain file tree, and at each moment of it a prefix of the history to which a
//! stop recovers. Each turn of a store, read-only, waiting, committed, failed or stopped, adds one entry.
//!
//! ```
//! // Of a turn whose change was committed: whatever the store stood for, it stands for that with this entry.
//! store_laws::turns_add_entries();
//! ```
//!
//! Its functions are laws: they do nothing, and their clauses hold.
//!
//! # Places that are taken
//!
//! Which places can be taken in a vault none of whose directories holds a foreign entry: the long place of a name, if it is that of another name
//! too, and what a new directory's identifier needs.
//!
//! ```
//! // Of an answer that a place is taken: it isn't a short place, where nothing but the node of that name can be.
//! store_laws::unmarked_places_are_anothers();
//! ```
//!
//! `unmarked_places_are_anothers` is a law: it does nothing, and its clauses hold.
#![tactic(auto)]

ghost use Rattle.store_laws.specs.Ends.{ClosingsRecover, FailedOpeningsRecover, FoundIsKept, OpeningsStand, StoresAreWhole, StoresRecover};
ghost use Rattle.store_laws.specs.Turns.{BrokenTurnsAdd, ChangedTurnsAdd, FlushedTurnsAdd, FlushesStand, QuietTurnsAdd, StoppedTurnsAdd, UnflushedTurnsAdd};
ghost use Rattle.store_laws.specs.Places.{HistoriesStayUnmarked, PlacesAreAnothers};

/// Each turn adds an entry to whatever history the store stood for: one that changes nothing on the disk, even if a write waits, one whose change is committed,
/// one whose commit fails, and one of a store that stopped. It does nothing.
pub fn turns_add_entries()
    ensures quiet { QuietTurnsAdd }
    ensures changed { ChangedTurnsAdd }
    ensures broken { BrokenTurnsAdd }
    ensures stopped { StoppedTurnsAdd }
{}

/// What a store stands for, it stands for once what waits is committed, and an entry that is added then is added to that; if the commit
/// fails an entry is added that says so. It does nothing.
pub fn flushes_stand()
    ensures stand { FlushesStand }
    ensures add { FlushedTurnsAdd }
    ensures failed { UnflushedTurnsAdd }
{}

/// A vault whose journal is opened and whose tree is loaded stands for no entries, from the rows on of what its folder recovers to;
/// if it isn't opened a stop recovers to what was found. Of what isn't the vault's data the disk that was found recovers to what stays so. It does nothing.
pub fn openings_stand()
    ensures stand { OpeningsStand }
    ensures failed { FailedOpeningsRecover }
    ensures kept { FoundIsKept }
{}

/// A stop at any moment recovers to a prefix of the history that holds all that was synced; of a store none of whose commits failed and in
/// which nothing waits the disk shows all entries; and if the commit of what waits fails at the end, a stop still recovers to a prefix. It
/// does nothing.
pub fn stores_recover()
    ensures recover { StoresRecover }
    ensures whole { StoresAreWhole }
    ensures cut_short { ClosingsRecover }
{}

/// If the rows from which a history begins have no mark of foreign entries, no rows of it have one; and a place that is taken in such rows is
/// the long one of another name, or one of the identifier that was drawn for a new directory. It does nothing.
pub fn unmarked_places_are_anothers()
    ensures stay { HistoriesStayUnmarked }
    ensures anothers { PlacesAreAnothers }
{}
