//! What the definitions say of all words.

ghost use Rattle.std.specs.Prelude.{◌≡◌, List};
ghost use Rattle.clap.specs.Words.{Text};
ghost use Rattle.vault_words.specs.Jobs.{AsksFor, IsRefused, Job};
ghost use Rattle.vault_words.specs.Texts.{demo_help, help, make_help, recover_help, serve_help, sync_help, version};

use crate::texts::{DEMO_HELP, HELP, MAKE_HELP, RECOVER_HELP, SERVE_HELP, SYNC_HELP, VERSION};

/// Words ask for one thing: a job, help, the version, or they are refused. It does nothing.
pub fn words_ask_for_one_thing()
    ensures one { (words : List Text) (job other : Job) → AsksFor job words → AsksFor other words → job ≡ other }
    ensures taken { (words : List Text) (job : Job) → AsksFor job words → IsRefused words → ⊥ }
{}

/// The texts of the code are those of the definitions. It does nothing.
pub fn texts_are_the_definitions()
    ensures help { HELP.now ≡ help }
    ensures serve { SERVE_HELP.now ≡ serve_help }
    ensures make { MAKE_HELP.now ≡ make_help }
    ensures demo { DEMO_HELP.now ≡ demo_help }
    ensures sync { SYNC_HELP.now ≡ sync_help }
    ensures recover { RECOVER_HELP.now ≡ recover_help }
    ensures version { VERSION.now ≡ version }
{}
