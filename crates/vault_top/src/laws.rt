ghost use Rattle.std.specs.Prelude.{◌≡◌, ◌⊎◌, ℕ, List, true, Option, Some, IsSome};
ghost use Rattle.outside.specs.Disk.{Disk, IsTree};
ghost use Rattle.outside.specs.Images.{Log, now};
ghost use Rattle.chunk_journal.specs.Opening.{IsOpenable};
ghost use Rattle.clear_tree.specs.Laws.{root_rows};
ghost use Rattle.tree_loading.specs.Clear.{IsClear};
ghost use Rattle.vault_make.specs.Draws.{NewSecrets};
ghost use Rattle.vault_make.specs.Vault.{IsNewVault};
ghost use Rattle.shared_tree.specs.declared.workers.Worker.{Worker};
ghost use Rattle.vault_top.specs.declared.program.Ended.{Ended};
ghost use Rattle.vault_top.specs.Span.{Course, SourceView, SinkView, Given, Views, Span, IsOnlyRead};
ghost use Rattle.vault_top.specs.Opening.{HasDamagedJournal};
ghost use Rattle.vault_top.specs.Ending.{Ending, IsDemonstration, HasReason};
ghost use Rattle.vault_words.specs.Jobs.{Demonstration, Making, Serving, demo, make, serve};
ghost use Rattle.vault_top.specs.Words.{Ask, AreRefused};
ghost use Rattle.vault_top.specs.Sound.{IsSound, IsSoundRun, IsSoundToMake, IsFaultless, IsServedOrFull, IsMadeOrFull, IsHeldOrFull, IsBadOrFull, SomeRandomFailed, IsHeldSoundly, HasServedSoundly};
ghost use Rattle.vault_top.specs.Stopped.{NewVaultsAreOpenable, NewVaultsAreSound, KeepsOpenable, KilledVaultsAreFlushed, StoppedVaultsAreOpenable, StoppedVaultsAreSound, TidyLogsAreFlushed, UnopenedVaultsAreFlushed, UnopenedVaultsAreSound};

use outside::{Clock, Entropy, Folder, Listener};

/// Of a sound vault, if the words ask for serving it and nothing failed, the program's ending is that the vault was served, or that
/// memory ran out. It does nothing.
pub fn a_sound_vault_is_served<D: Folder, N: Listener, E: Entropy, K: Clock>()
    ensures { (views : Views D N N.Conn E K) (span : Span N.Conn) (ending : Ending) → IsSound span → IsFaultless span
        → HasReason views span ending → IsServedOrFull ending }
{}

/// A run with a sound job, be it to serve a sound vault, to make one in an empty folder or to hold a demonstration, in which nothing failed,
/// the sink neither, ends with the status 0 or 5. It does nothing.
pub fn a_sound_run_ends_with_0_or_5<D: Folder, N: Listener, E: Entropy, K: Clock>()
    ensures { (views : Views D N N.Conn E K) (words : List (List ℕ)) (secret : Course SourceView) (second : Option ℕ) (folder : D)
        (workers workers' : List (Worker N E K)) (sink : Course SinkView) (ended : Ended D)
        → IsSoundRun views words secret second folder workers workers' sink ended → (ended.status ≡ 0) ⊎ (ended.status ≡ 5) }
{}

/// If a vault was served, the folder tells and nothing failed, each request was answered as the step says, unless a place is taken or memory runs out where
/// it may, and of one that was served read-only each that changes nothing; if no directory of the vault held foreign entries, a place that is taken is the long
/// one of another name, or one of the identifier that was drawn for a new directory; and each session of whole messages, over a link that never failed, was
/// done, or memory ran out before it read anything. It does nothing.
pub fn a_sound_run_answers_as_the_step<D: Folder, N: Listener, E: Entropy, K: Clock>()
    ensures { (views : Views D N N.Conn E K) (span : Span N.Conn) (ending : Ending) (reason : HasReason views span ending)
        → IsSome span.given.folder.before.log → IsFaultless span → (SomeRandomFailed span.workers → ⊥) → HasServedSoundly views span ending reason }
{}

/// In an empty folder, if the words ask for making a vault, the secret has a password and nothing failed, the program's ending is that a
/// vault was made, or that memory ran out. It does nothing.
pub fn an_empty_folder_becomes_a_vault<D: Folder, N: Listener, E: Entropy, K: Clock>()
    ensures { (views : Views D N N.Conn E K) (span : Span N.Conn) (ending : Ending) → IsSoundToMake span → IsFaultless span
        → (SomeRandomFailed span.workers → ⊥) → HasReason views span ending → IsMadeOrFull ending }
{}

/// A disk on which is a new vault stands for its root alone, at whatever second the vault is unlocked. It does
/// nothing.
pub fn a_new_vault_is_its_root()
    ensures { (password : List ℕ) (secrets : NewSecrets) (disk : Disk) (now : ℕ) → IsTree disk → IsNewVault password secrets disk
        → IsClear secrets.keys disk now (root_rows now) }
{}

/// What a stop leaves of a vault that was served is found sound by whoever opens it next: no folder is in the place of either of the
/// journal's files, and a batch that the journal holds can be done again. So is what an opening leaves that failed, and a new vault. It
/// does nothing.
pub fn a_stopped_vault_is_soundly_found()
    ensures stopped { StoppedVaultsAreSound }
    ensures unopened { UnopenedVaultsAreSound }
    ensures new { NewVaultsAreSound }
{}

/// A folder of which each call was as it can be, and whose journal isn't damaged on any disk that a stop may leave of it, nor holds a batch
/// that can't be done again, is so at each moment of a run, unless that is to make a vault: whatever stops it, the next run doesn't answer that
/// the journal is damaged, however often runs were stopped. So it is of a vault that was served from its opening on, whatever was found, and of
/// a new one. It does nothing.
pub fn no_stop_damages_a_journal<D: Folder, N: Listener, E: Entropy, K: Clock>()
    ensures run { (views : Views D N N.Conn E K) (span : Span N.Conn) (ending : Ending) → HasReason views span ending
        → ((making : Making) → Ask span.words (make making) → ⊥) → KeepsOpenable span.given.folder.before.log span.given.folder.after.log }
    ensures next { (given : Given) (log : Log) (at : ℕ) → given.folder.before.log ≡ Some log → IsOpenable (now log)
        → HasDamagedJournal given at → ⊥ }
    ensures stopped { StoppedVaultsAreOpenable }
    ensures new { NewVaultsAreOpenable }
{}

/// The changes that a run which is killed leaves unsynced name loose paths alone: the journal's two files, and the paths that the batch names
/// which the journal holds. Flushed there, on a host that lives on, all is on the disk as it is read. It does nothing.
pub fn a_killed_run_is_flushed_at_loose_paths()
    ensures tidy { TidyLogsAreFlushed }
    ensures served { KilledVaultsAreFlushed }
    ensures unopened { UnopenedVaultsAreFlushed }
{}

/// If the words ask for a demonstration, the program's ending is that it was held, or that memory ran out. It does nothing.
pub fn a_demonstration_is_held<D: Folder, N: Listener, E: Entropy, K: Clock>()
    ensures { (views : Views D N N.Conn E K) (span : Span N.Conn) (d : Demonstration) (ending : Ending) → Ask span.words (demo d)
        → HasReason views span ending → IsHeldOrFull ending }
{}

/// If a demonstration was held and none of the objects failed that it has of its own, each request was answered as the step says, unless a place is taken or
/// memory runs out where it may, and each client's session was served out. What the program was given beside the words doesn't matter. It does nothing.
pub fn a_demonstration_answers_as_the_step<N: Listener>()
    ensures { (span : Span N.Conn) (text : List ℕ) (is : IsDemonstration span text) → IsHeldSoundly span text is }
{}

/// If the words ask for a vault to be served read-only, nothing of its folder is changed, whatever the run comes to: its count of changing calls stays, and so does its
/// log. It does nothing.
pub fn a_read_only_run_changes_nothing<D: Folder, N: Listener, E: Entropy, K: Clock>()
    ensures { (views : Views D N N.Conn E K) (span : Span N.Conn) (ending : Ending) (serving : Serving) → Ask span.words (serve serving) → serving.read_only ≡ true
        → HasReason views span ending → IsOnlyRead span.given.folder.before span.given.folder.after }
{}

/// If the words are refused, the program's ending is that they are bad, or that memory ran out: so the status is 1 if and only if they
/// are, but for memory. It does nothing.
pub fn refused_words_are_bad<D: Folder, N: Listener, E: Entropy, K: Clock>()
    ensures { (views : Views D N N.Conn E K) (span : Span N.Conn) (ending : Ending) → AreRefused span.words
        → HasReason views span ending → IsBadOrFull ending }
{}
