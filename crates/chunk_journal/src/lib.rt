//! A write-ahead journal in a folder: a batch of deeds is done wholly or not at all, whenever a stop
//! happens.
//!
//! ```text
//! let mut journal = Journal::open(alloc, folder)?; // does what a stop left behind an open gate
//! let len = journal.read(&path, 0, &mut buffer)?;
//! journal.commit(&deeds)?; // all of them, or none
//! let folder = journal.into_folder();
//! ```
//!
//! The file `served.journal`: gate\[1\], length\[8\], and that many bytes of a batch; then the letters `BATCHSUM` and the SHA-256
//! of the open gate, the length and the batch; and if the batch reshapes files, the letters `HEADERS1` and of each `Reshape` in turn the first 68 bytes of
//! its file before the batch, or zeros if it had fewer or if the deed changes them. What follows is ignored, and so is all behind the batch if other
//! letters are there.
//! The gate is open exactly as 0x01. A commit puts the batch and its sum after the closed gate, opens the gate, does the deeds phase
//! by phase and closes the gate, with a sync after each. The first journal is made at `served.journal.new` and moved to its place. Opening does what is
//! left of an open gate's batch, or says at which byte the journal is damaged. It does nothing if a file that the batch reshapes has another header than
//! the journal kept, since another program saved that file anew.
//!
//! A folder that is only to be read is asked by `needs_recovery` whether there is such a batch, by `left_batch` which, and by `changed_since`
//! whether the file of one of its deeds was saved anew.
//!
//! The changes that a run which is killed leaves unsynced name no path but those that `loose_paths` gives.
//!
//! `empty_journal` leaves no bytes of what was committed in the file. An empty file stands for a closed gate.
//!
//! Laws: `recovering_is_undamaged`, `undamaged_recovers`, `recovering_is_unique`, `opening_stays_found`, `journals_stay_undamaged`
//! and `tidy_logs_are_flushed`, which do nothing.
#![tactic(auto)]

mod cut;
mod fault;
mod first;
mod headers;
mod journal;
mod loose;
mod reading;
mod recovery;
mod running;
mod stage;
mod steps;
mod sum;

ghost use Rattle.std.specs.Prelude.{◌≡◌, ◌⊎◌, ℕ, suc, List, Contains};
ghost use Rattle.outside.specs.Disk.{Disk, Path, IsFolder};
ghost use Rattle.outside.specs.Images.{Log, Synced, adds, now, moment, IsImage, IsSound, LeavesOnly};
ghost use Rattle.deeds.specs.Deeds.{PlainDeed, DoesAll, in_order};
ghost use Rattle.outside.specs.Unsynced.{touched, unsynced};
ghost use Rattle.chunk_journal.specs.Journal.{new_file, HoldsBatch, RecoversTo, RecoversLike, Recovered, IsAlike, IsReopenable, AnyMoment, IsLoose, IsTidy, TidySince};
ghost use Rattle.chunk_journal.specs.Opening.{IsDamagedAt, LeavesFolder, HasFileBytes, IsOpenable, IsOpening, StaysOpening, HasOpened};
ghost use Rattle.chunk_journal.specs.Commits.{StaysFound, StaysAsFound, StaysOpenable};
ghost use Rattle.chunk_journal.specs.Flushed.{IsFirm, IsFlushedWhole};

pub use cut::empty_journal;
pub use fault::{Device, JournalErr};
pub use headers::changed_since;
pub use journal::Journal;
pub use loose::loose_paths;
pub use recovery::{left_batch, needs_recovery};

/// What recovers to a disk, with no folder where the first journal is made, isn't damaged: so no stop of a commit or of an
/// opening leaves a damaged journal. It does nothing.
pub fn recovering_is_undamaged()
    ensures { (image disk : Disk) (at : ℕ) → RecoversTo image disk → (IsFolder image new_file → ⊥) → IsDamagedAt image at → ⊥ }
{}

/// What isn't damaged recovers to some disk, if the journal's file, where one is there, has bytes and a file's length: that it
/// recovers to none is absurd. It does nothing.
pub fn undamaged_recovers()
    ensures { (disk : Disk) → HasFileBytes disk → ((at : ℕ) → IsDamagedAt disk at → ⊥)
        → ((found : Disk) → RecoversTo disk found → ⊥) → ⊥ }
{}

/// An image holds one batch alone, and recovers to one disk alone, even if its batch may not fit; if it fits, to the same. It does nothing.
pub fn recovering_is_unique()
    ensures batch { (disk : Disk) (one other : List PlainDeed) → HoldsBatch disk one → HoldsBatch disk other → one ≡ other }
    ensures disk { (image one other : Disk) → RecoversTo image one → RecoversTo image other → one ≡ other }
    ensures applied { (image one other : Disk) → Recovered image one → Recovered image other → one ≡ other }
    ensures whole { (image disk : Disk) → RecoversTo image disk → Recovered image disk }
{}

/// If the disk that an opening finds is reopenable, each image since its first sync recovers to what that disk recovers to,
/// what is unsynced is loose, and the calls go on from there; if it ended well, what reads give is that. It does nothing.
pub fn opening_stays_found()
    ensures stays { (old new : Log) → StaysOpening old new → IsReopenable (now old) → StaysFound old new }
    ensures applied { (old new : Log) → StaysOpening old new → IsReopenable (now old) → StaysAsFound old new }
    ensures tidy { (old new : Log) → StaysOpening old new → IsReopenable (now old) → TidySince (suc (moment old)) new }
    ensures later { (old new : Log) (found : Disk) → IsOpening old new → IsReopenable (now old) → RecoversTo (now old) found
        → LeavesOnly (adds old Synced) new (RecoversLike found) }
    ensures opened { (old new : Log) (found : Disk) → HasOpened old new → RecoversTo (now old) found → IsAlike found (now new) }
{}

/// Where no disk that a stop may leave as an opening begins has a damaged journal, and each can be opened again, it is so at each
/// moment of the opening, however that ends; and from its first sync on where it is so of what reads gave. So it is at each moment of
/// a commit. Of such a disk no opening answers that the journal is damaged, however often they are stopped. What recovers and can be
/// opened again is one. It does nothing.
pub fn journals_stay_undamaged()
    ensures opening { (old new : Log) → StaysOpening old new → ((image : Disk) → IsImage old image → IsOpenable image)
        → LeavesOnly old new IsOpenable }
    ensures since { (old new : Log) → StaysOpening old new → IsOpenable (now old) → StaysOpenable old new }
    ensures commit { (deeds : List PlainDeed) (old new : Log) (after : Disk) → AnyMoment deeds old new
        → DoesAll (in_order deeds) (now old) after → LeavesOnly old new IsOpenable }
    ensures answer { (disk : Disk) (at : ℕ) → IsOpenable disk → IsDamagedAt disk at ⊎ LeavesFolder disk at → ⊥ }
    ensures recovers { (image disk : Disk) → RecoversTo image disk → IsReopenable image → IsOpenable image }
{}

/// A log each of whose calls was as it can be is tidy if the changes since its last sync name loose paths alone. Then a stop leaves what reads give
/// elsewhere; and all is on the disk once the loose paths are flushed as they are read. It does nothing.
pub fn tidy_logs_are_flushed()
    ensures tidy { (log : Log) → IsSound log.start log.calls
        → ((path : Path) → Contains (touched (unsynced log.calls)) path → IsLoose (now log) path) → IsTidy log }
    ensures firm { (log : Log) → IsTidy log → IsFirm log }
    ensures flushed { (log : Log) → IsTidy log → IsFlushedWhole log }
{}
