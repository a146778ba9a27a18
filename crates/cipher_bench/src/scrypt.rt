// Keys by scrypt, of a fixed password and salt.

ghost use Rattle.std.specs.Prelude.{◌≡◌, ◌<◌, IfOk, IsErrOf, IsOk};
ghost use Rattle.scrypt_kdf.specs.Scrypt.{IsCost, IsTooLarge, scrypt};

use crate::words::{BenchErr, number};
use scrypt_kdf::{ScryptErr, scrypt};
use std::alloc::Global;

/// How many words it has: the cost, the block size, the parallelization, and how many times a key is derived.
pub(crate) const WORDS: usize = 4;

const PASSWORD: &[u8] = b"password";

const SALT: &[u8] = b"NaCl";

// The bytes of the key.
const LEN: usize = 64;

// The key after so many derivations.
fn key(alloc: Global, n: u64, r: u64, p: u64, repetitions: u64) -> Result<[u8; LEN], ScryptErr>
    ensures derived { IfOk result (λ key. 0 < repetitions → key ≡ scrypt PASSWORD.now SALT.now n r p LEN) }
    ensures idle { repetitions ≡ 0 → IsOk result }
    ensures bad_cost { IsErrOf result ScryptErr.BadCost → IsCost n r p → ⊥ }
    ensures too_large { IsErrOf result ScryptErr.TooLarge → IsTooLarge n r p }
{
    let mut key = [0; LEN];
    for _repetition in 0..repetitions {
        scrypt(alloc, PASSWORD, SALT, n, r, p, &mut key)?;
    }
    Ok(key)
}

/// The key that is derived, in hexadecimal digits.
pub(crate) fn measured(alloc: Global, words: &[String]) -> Result<String, BenchErr> {
    let n = number(words, 0)?;
    let r = number(words, 1)?;
    let p = number(words, 2)?;
    let repetitions = number(words, 3)?;
    let key = key(alloc, n, r, p, repetitions)?;
    Ok(hex::encode(alloc, key.as_slice())?)
}
