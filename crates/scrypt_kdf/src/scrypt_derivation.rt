ghost use Rattle.std.specs.Prelude.{◌≡◌, ◌↔◌, ◌*◌, ◌^◌, ◌<◌, length, IsErrOf, IsTrue, OnErr, OnOk};
ghost use Rattle.scrypt_kdf.specs.Scrypt.{IsCost, IsTooLarge, mixed_parts, scrypt};

use crate::derivation::pbkdf2;
use crate::mixing::{PART, ROW, mix_each};
use std::alloc::{AllocError, Global};
use thiserror::Error;

// How often 128 bytes may be in the table, or in the parts: 2^30 bytes.
const MAX_COUNT: u64 = (1 << 30) / PART as u64;

/// Why a key can't be derived by scrypt.
#[derive(Clone, Copy, Debug, PartialEq, Eq, Error)]
pub enum ScryptErr {
    /// The cost isn't a power of two above 1, or the block size or the parallelization is 0.
    #[error("the cost isn't a power of two above 1, or a size is 0")]
    BadCost,
    /// The table of 128·cost·r bytes, or the parts of 128·r·p, would have more than 2^30 bytes.
    #[error("the table or the parts would have more than 2^30 bytes")]
    TooLarge,
    /// Memory ran out.
    #[error("out of memory")]
    Memory,
}

// Whether the cost is a power of two above 1, and there is a block and a part.
fn is_cost(cost: u64, r: u64, p: u64) -> bool
    ensures { IsTrue result ↔ IsCost cost r p }
{
    if cost < 2 || r == 0 || p == 0 {
        return false;
    }
    cost.is_power_of_two()
}

// Whether 128·a·b bytes are too many.
fn is_above(a: u64, b: u64) -> bool
    ensures { IsTrue result ↔ (2 ^ 30 < 128 * a * b) }
{
    a.checked_mul(b).is_none_or(|count| count > MAX_COUNT)
}

// ROMix of each of `p` parts of 128·r bytes, in one table.
fn mix_parts(
    alloc: Global,
    cost: usize,
    r: usize,
    p: usize,
    parts: &mut [u8],
) -> Result<(), AllocError>
    requires cost { IsCost cost r p }
    requires large { IsTooLarge cost r p → ⊥ }
    requires long { length parts.old ≡ 128 * r * p }
    ensures { OnOk result (parts.new ≡ mixed_parts cost r p parts.old) }
{
    let mut table = vec![in alloc; 0u32; ROW * r * cost]?;
    let mut x = vec![in alloc; 0u32; ROW * r]?;
    let mut y = vec![in alloc; 0u32; ROW * r]?;
    mix_each(cost, r, p, parts, &mut table, &mut x, &mut y);
    Ok(())
}

// The derivation, for a cost and sizes that are taken.
fn derive(
    alloc: Global,
    password: &[u8],
    salt: &[u8],
    cost: usize,
    r: usize,
    p: usize,
    out: &mut [u8],
) -> Result<(), AllocError>
    requires cost { IsCost cost r p }
    requires large { IsTooLarge cost r p → ⊥ }
    ensures derived { OnOk result (out.new ≡ scrypt password.now salt.now cost r p (length out.old)) }
    ensures refused { OnErr result (out.new ≡ out.old) }
{
    let mut buffer = vec![in alloc; 0u8; PART * r * p]?;
    let parts = buffer.as_mut_slice();
    pbkdf2(password, salt, 1, parts);
    mix_parts(alloc, cost, r, p, parts)?;
    pbkdf2(password, parts, 1, out);
    Ok(())
}

/// Fills `out` with what scrypt (RFC 7914) makes of a password and a salt of any lengths, with the
/// cost `cost` (the RFC's N), block size `r` in units of 128 bytes, and parallelization `p`. One
/// table of 128·cost·r bytes is taken. `BadCost` is tested first, then `TooLarge`; after an error
/// `out` is as it was.
pub fn scrypt(
    alloc: Global,
    password: &[u8],
    salt: &[u8],
    cost: u64,
    r: u64,
    p: u64,
    out: &mut [u8],
) -> Result<(), ScryptErr>
    ensures derived { OnOk result (out.new ≡ scrypt password.now salt.now cost r p (length out.old)) }
    ensures cost { OnOk result (IsCost cost r p) }
    ensures size { OnOk result (IsTooLarge cost r p → ⊥) }
    ensures bad_cost { IsErrOf result ScryptErr.BadCost ↔ (IsCost cost r p → ⊥) }
    ensures too_large { IsErrOf result ScryptErr.TooLarge ↔ (IsCost cost r p × IsTooLarge cost r p) }
    ensures refused { OnErr result (out.new ≡ out.old) }
{
    if !is_cost(cost, r, p) {
        return Err(ScryptErr::BadCost);
    }
    if is_above(cost, r) || is_above(r, p) {
        return Err(ScryptErr::TooLarge);
    }
    derive(
        alloc,
        password,
        salt,
        cost as usize,
        r as usize,
        p as usize,
        out,
    )
    .map_err(|_| ScryptErr::Memory)
}
