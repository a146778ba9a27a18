//! AES key wrap (RFC 3394) of keys of 32 bytes under keys of 32 bytes.
//!
//! ```
//! let wrapped = wrap(&[1; 32], &[7; 32]);
//! assert_eq!(unwrap(&[1; 32], &wrapped), Ok([7; 32]));
//! assert_eq!(unwrap(&[2; 32], &wrapped), Err(BadWrap));
//! ```
//!
//! Not promised: that the time taken is independent of the keys (AES indexes tables by secret
//! bytes; the check value is compared without an early end), or that keys are wiped from memory.
#![tactic(auto)]

ghost use Rattle.std.specs.Prelude.{◌≡◌, ◌↔◌, Some, None, IsOk, IfOk, OnErr};
ghost use Rattle.aes_block.specs.Aes.{aes, inverse_aes};
ghost use Rattle.key_wrap.specs.Wrap.{check_value, part, unwrapped, unwrapped_after, wrapped};

use crate::steps::{unwrap_step, wrap_step};
use aes_block::{Key256, bytes_equal};
use thiserror::Error;

mod laws;
mod steps;

pub use laws::unwrapping_is_exact;

// The check value (RFC 3394, 2.2.3.1).
const CHECK_VALUE: [u8; 8] = [0xa6; 8];

// The number of steps: six for each 8 bytes of the key.
const STEPS: usize = 24;

/// The bytes that were to be unwrapped aren't a key wrapped under that key.
#[derive(Clone, Copy, Debug, PartialEq, Eq, Error)]
#[error("not a key wrapped under this key")]
pub struct BadWrap;

/// Wraps a key of 32 bytes under the key-encryption key `kek` (RFC 3394, 2.2.1).
pub fn wrap(kek: &[u8; 32], key: &[u8; 32]) -> [u8; 40]
    ensures { result ≡ wrapped (aes kek.now) key.now }
{
    let cipher = Key256::new(kek);
    let mut state = [0; 40];
    state[..8].copy_from_slice(&CHECK_VALUE);
    state[8..].copy_from_slice(key);
    for taken in 0..STEPS {
        wrap_step(&cipher, &mut state, taken + 1);
    }
    state
}

/// Unwraps a key that was wrapped under the key-encryption key `kek` (RFC 3394, 2.2.2). It fails
/// if and only if the check value is wrong: `kek` is another key, or `wrapped` was changed.
pub fn unwrap(kek: &[u8; 32], wrapped: &[u8; 40]) -> Result<[u8; 32], BadWrap>
    ensures accepted { IsOk result
        ↔ (part (unwrapped_after (inverse_aes kek.now) wrapped.now STEPS) 0 ≡ check_value) }
    ensures key { IfOk result (λ key. unwrapped (inverse_aes kek.now) wrapped.now ≡ Some key) }
    ensures refused { OnErr result (unwrapped (inverse_aes kek.now) wrapped.now ≡ None) }
{
    let cipher = Key256::new(kek);
    let mut state = *wrapped;
    for taken in 0..STEPS {
        unwrap_step(&cipher, &mut state, STEPS - taken);
    }
    if !bytes_equal(&state[..8], &CHECK_VALUE) {
        return Err(BadWrap);
    }
    let mut key = [0; 32];
    key.copy_from_slice(&state[8..]);
    Ok(key)
}
