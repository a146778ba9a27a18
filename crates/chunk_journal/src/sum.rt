//! The sum behind a batch, by which a batch that was changed since is known.

ghost use Rattle.std.specs.Prelude.{◌≡◌, ◌≢◌, ◌∷◌, [], take, IsTrue, IsFalse};
ghost use Rattle.sha2.specs.Sha256.{sha256};
ghost use Rattle.deeds.specs.Grammar.{IsBatch, behind_gate};
ghost use Rattle.deeds.specs.Plain.{plains};
ghost use Rattle.chunk_journal.specs.Journal.{sum_mark};
ghost use Rattle.chunk_journal.specs.Stages.{sum_behind};

use crate::steps::OPEN;
use deeds::{Deed, spelled_len, write_batch};
use sha2::{Digest, Sha256};

// The letters before a sum.
const MARK: [u8; 8] = *b"BATCHSUM";

/// How many bytes a sum has, its letters among them.
pub const SUM_LEN: usize = 40;

// As many bytes are spelled at once.
const PIECE_LEN: usize = 4096;

// The SHA-256 of the open gate, the length and the batch.
fn digest_of(deeds: &[Deed]) -> [u8; 32]
    requires { IsBatch (plains deeds.now) }
    ensures { result ≡ sha256 (1 ∷ behind_gate (plains deeds.now)) }
{
    let mut hasher = Sha256::new();
    hasher.update(&[OPEN]);
    let mut piece = [0; PIECE_LEN];
    let len = 8 + spelled_len(deeds);
    let mut at = 0;
    while at < len {
        let n = write_batch(deeds, at, &mut piece);
        hasher.update(&piece[..n]);
        at += n;
    }
    hasher.finalize()
}

/// What is written behind a batch: the letters `BATCHSUM`, and the SHA-256 of the open gate, the length and the batch.
pub fn sum_behind(deeds: &[Deed]) -> [u8; SUM_LEN]
    requires { IsBatch (plains deeds.now) }
    ensures { result ≡ sum_behind (plains deeds.now) }
{
    let mut sum = [0; SUM_LEN];
    sum[..8].copy_from_slice(&MARK);
    sum[8..].copy_from_slice(&digest_of(deeds));
    sum
}

/// Whether what is found behind a batch, up to the length of a sum, is no sum, or this one.
pub fn is_no_other(found: &[u8], sum: &[u8; SUM_LEN]) -> bool
    ensures yes { IsTrue result → take 8 found.now ≡ sum_mark → found.now ≡ sum.now }
    ensures no { IsFalse result → take 8 found.now ≡ sum_mark }
    ensures other { IsFalse result → found.now ≢ sum.now }
{
    !found.starts_with(&MARK) || found == sum.as_slice()
}
