// The words of the command line.

ghost use Rattle.std.specs.Prelude.{◌≤◌, IfOk};

use ctrmac_chunks::Damaged;
use gcm_mode::BadTag;
use outside::Failed;
use scrypt_kdf::ScryptErr;
use std::alloc::AllocError;
use std::io;
use thiserror::Error;

/// Why nothing is printed.
#[derive(Debug, Drop, Error)]
pub(crate) enum BenchErr {
    #[error("the words are: scrypt N R P TIMES, gcm seal|open|key|header BYTES TIMES, ctrmac seal|open BYTES TIMES, siv lanes|blocks|tag BYTES TIMES")]
    Words,
    #[error("{0}")]
    Scrypt(#[from] ScryptErr),
    #[error("{0}")]
    Tag(#[from] BadTag),
    #[error("{0}")]
    Chunk(#[from] Damaged),
    #[error("{0}")]
    Entropy(#[from] Failed),
    #[error("{0}")]
    Io(#[from] io::Error),
    #[error("out of memory")]
    Alloc(#[from] AllocError),
}

/// The most bytes of a text: 1 MiB.
const MAX_LEN: u64 = 0x10_0000;

/// A word.
pub(crate) fn word(words: &[String], at: usize) -> Result<&str, BenchErr> {
    match words.get(at) {
        Some(word) => Ok(word.as_str()),
        None => Err(BenchErr::Words),
    }
}

/// A word as a number.
pub(crate) fn number(words: &[String], at: usize) -> Result<u64, BenchErr> {
    word(words, at)?.parse::<u64>().map_err(|_| BenchErr::Words)
}

/// A word as the bytes of a text.
pub(crate) fn length(words: &[String], at: usize) -> Result<usize, BenchErr>
    ensures { IfOk result (λ len. len ≤ MAX_LEN) }
{
    let len = number(words, at)?;
    if len > MAX_LEN {
        return Err(BenchErr::Words);
    }
    Ok(len as usize)
}
