//! How what a history stands for goes on, and what follows of each stop.

ghost use Rattle.crash_laws.specs.Crash.{IsBlind};
ghost use Rattle.crash_laws.specs.Laws.{BaseHolds, Begins, BeginsNow, Breaks, ClosesSafely, ClosesWhole, Commits, Continues, CrashMore, Idles, IdlesKept, LivesOn, MomentHolds, OpeningFails, RecoversToTrees, RunningSafe, RunsOn, Settles, SettlesBroken, StablesFollow, StateIsBroken, StateIsTidy, StateRecovers, StateRuns, StaysBroken, StaysStopped, StopsAreSound, WholesAreSound};

use crate::shape::ShowsRows;

/// An entry that changes no disk: a refusal, a look, a fault, or a write that stays pending. It does nothing.
pub fn idles<S: ShowsRows>(shape: &S)
    ensures { Idles (S.shows shape.now) }
{}

/// The same with nothing pending, as a sync, or an mtime that is kept in memory alone. It does nothing.
pub fn idles_kept<S: ShowsRows>(shape: &S)
    ensures { IdlesKept (S.shows shape.now) }
{}

/// What is pending is committed, with no entry yet. It does nothing.
pub fn settles<S: ShowsRows>(shape: &S)
    ensures { IsBlind (S.shows shape.now) → Settles (S.shows shape.now) }
{}

/// That commit failed. It does nothing.
pub fn settles_broken<S: ShowsRows>(shape: &S)
    ensures { IsBlind (S.shows shape.now) → SettlesBroken (S.shows shape.now) }
{}

/// An entry's own deeds are committed, with nothing pending. It does nothing.
pub fn commits<S: ShowsRows>(shape: &S)
    ensures { IsBlind (S.shows shape.now) → Commits (S.shows shape.now) }
{}

/// That commit failed: a stop may leave the entry's change. It does nothing.
pub fn breaks<S: ShowsRows>(shape: &S)
    ensures { IsBlind (S.shows shape.now) → Breaks (S.shows shape.now) }
{}

/// An entry of a store that stopped. It does nothing.
pub fn stays_broken<S: ShowsRows>(shape: &S)
    ensures { StaysBroken (S.shows shape.now) }
{}

/// The present moment of a store that runs: its one image is what reads give. It does nothing.
pub fn running_safe<S: ShowsRows>(shape: &S)
    ensures { RunningSafe (S.shows shape.now) }
{}

/// An image's prefix is one of the history with an entry more. It does nothing.
pub fn crash_more<S: ShowsRows>(shape: &S)
    ensures { CrashMore (S.shows shape.now) }
{}

/// Calls that change nothing leave what the history stands for. It does nothing.
pub fn lives_on<S: ShowsRows>(shape: &S)
    ensures { LivesOn (S.shows shape.now) }
{}

/// Which of the two states it is, is known from the tally: broken if a commit failed. It does nothing.
pub fn states_follow<S: ShowsRows>(shape: &S)
    ensures runs { StateRuns (S.shows shape.now) }
    ensures broken { StateIsBroken (S.shows shape.now) }
    ensures runs_on { RunsOn (S.shows shape.now) }
    ensures stays_stopped { StaysStopped (S.shows shape.now) }
{}

/// An opened folder begins a history of no entries. If it wasn't opened, a stop recovers to what was found. It does nothing.
pub fn begins<S: ShowsRows>(shape: &S)
    ensures found { IsBlind (S.shows shape.now) → Begins (S.shows shape.now) }
    ensures now { IsBlind (S.shows shape.now) → BeginsNow (S.shows shape.now) }
    ensures failed { IsBlind (S.shows shape.now) → OpeningFails (S.shows shape.now) }
{}

/// A stop at any moment recovers to a prefix of the history that holds all that was synced; and what is unsynced is loose. It does
/// nothing.
pub fn stops_recover<S: ShowsRows>(shape: &S)
    ensures prefix { StateRecovers (S.shows shape.now) }
    ensures tidy { StateIsTidy (S.shows shape.now) }
{}

/// What is pending is committed at the end: then all entries are on the disk. Whether it failed or not, a stop recovers to a
/// prefix. It does nothing.
pub fn closes<S: ShowsRows>(shape: &S)
    ensures whole { IsBlind (S.shows shape.now) → ClosesWhole (S.shows shape.now) }
    ensures safe { IsBlind (S.shows shape.now) → ClosesSafely (S.shows shape.now) }
{}

/// What is stable is on the disk of a store that runs, and no entry's moment is past. It does nothing.
pub fn tallies_hold<S: ShowsRows>(shape: &S)
    ensures stable { BaseHolds (S.shows shape.now) }
    ensures moment { MomentHolds }
{}

/// How many entries no stop undoes once one has ended: none fewer than before, and that one too if it is to be held. It does
/// nothing.
pub fn stables_follow()
    ensures { StablesFollow }
{}

/// An entry more of a legal history. It does nothing.
pub fn continues()
    ensures { Continues }
{}

/// What a folder recovers to is a tree, if its batch can be done again. It does nothing.
pub fn recovers_to_trees()
    ensures { RecoversToTrees }
{}

/// What a stop leaves, if it recovers to a prefix of a history or to all of it, is sound to whoever opens it next: no folder is
/// in the place of either of the journal's files, and a batch that it holds can be done again. It does nothing.
pub fn stops_are_sound<S: ShowsRows>(shape: &S)
    ensures prefix { StopsAreSound (S.shows shape.now) }
    ensures whole { WholesAreSound (S.shows shape.now) }
{}
