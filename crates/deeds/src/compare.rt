ghost use Rattle.std.specs.Prelude.{◌≡◌, ◌↔◌, IfOk, IsErrOf, IsTrue, length, take, drop};
ghost use Rattle.outside.specs.Calls.{HasCause, Told};
ghost use Rattle.outside.specs.Images.{now};
ghost use Rattle.deeds.specs.Deeds.{OfFiles};

use outside::{FolderErr, Reads};
use vault_path::VaultPath;

// As many bytes are compared at once.
const PIECE_LEN: usize = 4096;

// Whether two files have the same bytes in the piece that begins at byte `at`.
fn same_piece<F: Reads>(
    folder: &mut F,
    one: &VaultPath,
    other: &VaultPath,
    at: u64,
) -> Result<bool, FolderErr>
    ensures same { IfOk result (λ same. Told (F.log folder.old)
        (λ log. OfFiles one.now other.now (λ a b. IsTrue same ↔ (take 4096 (drop at a) ≡ take 4096 (drop at b))) (now log))) }
    ensures unfit { IsErrOf result FolderErr.Unfit → Told (F.log folder.old) (λ log. OfFiles one.now other.now (λ a b. ⊥) (now log)) }
    ensures log { F.log folder.new ≡ F.log folder.old }
    ensures no_memory { IsErrOf result FolderErr.Memory → ⊥ }
    ensures cause { HasCause (F.faults folder.old) (F.faults folder.new) (IsErrOf result FolderErr.Failed) }
{
    let mut first = [0; PIECE_LEN];
    let mut second = [0; PIECE_LEN];
    let n = folder.read(one, at, &mut first)?;
    let m = folder.read(other, at, &mut second)?;
    Ok(first[..n] == second[..m])
}

/// Whether two files of this length have the same bytes. `Unfit` only if one of them isn't there.
pub fn same_bytes<F: Reads>(
    folder: &mut F,
    one: &VaultPath,
    other: &VaultPath,
    len: u64,
) -> Result<bool, FolderErr>
    ensures same { IfOk result (λ same. Told (F.log folder.old)
        (λ log. OfFiles one.now other.now (λ a b. length a ≡ len → length b ≡ len → (IsTrue same ↔ (a ≡ b))) (now log))) }
    ensures unfit { IsErrOf result FolderErr.Unfit → Told (F.log folder.old) (λ log. OfFiles one.now other.now (λ a b. ⊥) (now log)) }
    ensures log { F.log folder.new ≡ F.log folder.old }
    ensures no_memory { IsErrOf result FolderErr.Memory → ⊥ }
    ensures cause { HasCause (F.faults folder.old) (F.faults folder.new) (IsErrOf result FolderErr.Failed) }
{
    let mut at = 0;
    while at < len {
        if !same_piece(folder, one, other, at)? {
            return Ok(false);
        }
        at += (len - at).min(PIECE_LEN as u64);
    }
    Ok(true)
}
