// The steps of wrapping and unwrapping (RFC 3394, 2.2.1 and 2.2.2).

ghost use Rattle.std.specs.Prelude.{◌≡◌, ◌≤◌, ◌<◌, ◌+◌, ◌*◌, ◌++◌, length, take, drop};
ghost use Rattle.aes_block.specs.Aes.{aes, inverse_aes};
ghost use Rattle.aes_block.specs.Bytes.{bytes_of, xor_bytes};
ghost use Rattle.key_wrap.specs.Wrap.{turn, unwrap_step, wrap_step};

use aes_block::{BlockKey, Key256, xor_onto};

// The offset of the 8 bytes that step `step`, counted from 1, works on.
fn offset(step: usize) -> usize
    requires { 0 < step }
    ensures { result ≡ 8 * turn step }
{
    8 * ((step - 1) % 4 + 1)
}

// The block of two halves.
fn joined(first: &[u8], second: &[u8]) -> [u8; 16]
    requires first { length first.now ≡ 8 }
    requires second { length second.now ≡ 8 }
    ensures { result ≡ first.now ++ second.now }
{
    let mut block = [0; 16];
    block[..8].copy_from_slice(first);
    block[8..].copy_from_slice(second);
    block
}

// 8 bytes xored with the number of a step.
fn with_counter(bytes: &[u8], step: usize) -> [u8; 8]
    requires { length bytes.now ≡ 8 }
    ensures { result ≡ xor_bytes bytes.now (bytes_of 8 step) }
{
    let counter = (step as u64).to_be_bytes();
    let mut xored = [0; 8];
    xored.copy_from_slice(bytes);
    xor_onto(&mut xored, &counter);
    xored
}

// Writes 8 bytes into the state at `at`.
fn write_part(state: &mut [u8; 40], at: usize, part: &[u8])
    requires room { at ≤ 32 }
    requires part { length part.now ≡ 8 }
    ensures { state.new ≡ take at state.old ++ part.now ++ drop (at + 8) state.old }
{
    state[at..at + 8].copy_from_slice(part);
}

/// Takes step `step`, counted from 1.
pub(crate) fn wrap_step(kek: &Key256, state: &mut [u8; 40], step: usize)
    requires { 0 < step }
    ensures { state.new ≡ wrap_step (aes kek.now) step state.old }
{
    let at = offset(step);
    let before = *state;
    let mut block = joined(&before[..8], &before[at..at + 8]);
    kek.encrypt(&mut block);
    write_part(state, at, &block[8..]);
    let check = with_counter(&block[..8], step);
    write_part(state, 0, &check);
}

/// Takes step `step`, counted from 1, back.
pub(crate) fn unwrap_step(kek: &Key256, state: &mut [u8; 40], step: usize)
    requires { 0 < step }
    ensures { state.new ≡ unwrap_step (inverse_aes kek.now) step state.old }
{
    let at = offset(step);
    let check = with_counter(&state[..8], step);
    let mut block = joined(&check, &state[at..at + 8]);
    kek.decrypt(&mut block);
    write_part(state, at, &block[8..]);
    write_part(state, 0, &block[..8]);
}
