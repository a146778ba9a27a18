//! The vault of a demonstration.

ghost use Rattle.std.specs.Prelude.{◌≡◌, ◌++◌, ◌∷◌, [], length, IfOk, OnOk};
ghost use Rattle.hex.specs.Hex.{encode_lower};
ghost use Rattle.outside.specs.Changes.{MakeDir, done};
ghost use Rattle.outside.specs.Images.{now};
ghost use Rattle.demonstration.specs.Objects.{IsEmptyVault, key_bytes, key_line};
ghost use Rattle.demonstration.specs.declared.vault.TheConstants.{KEYS_LEN};

use crate::words::stream_seed;
use outside::{Entropy, Folder};
use outside_mem::{MemFolder, SeedEntropy};
use std::alloc::{AllocError, Global};
use vault_keys::VaultKeys;
use vault_names::folder_of;
use vault_path::VaultPath;

// The stream whose first bytes are the vault's keys.
const KEY_STREAM: u64 = 0;

// The two keys of a vault in bytes.
const KEYS_LEN: usize = 64;

/// The secret of the vault of a seed: its two keys, the first 64 bytes of stream 0, as hexadecimal digits, and LF.
///
/// # Errors
///
/// Out of memory.
pub fn key_line(alloc: Global, seed: u64) -> Result<Vec<u8>, AllocError>
    ensures { IfOk result (λ line. line.items ≡ key_line seed) }
{
    let mut bytes = [0; KEYS_LEN];
    draw_keys(alloc, seed, &mut bytes)?;
    digits_of(alloc, &bytes)
}

fn draw_keys(alloc: Global, seed: u64, bytes: &mut [u8]) -> Result<(), AllocError>
    requires { length bytes.old ≡ KEYS_LEN }
    ensures { OnOk result (bytes.new ≡ key_bytes seed) }
{
    match SeedEntropy::from_seed(alloc, stream_seed(seed, KEY_STREAM)).fill(bytes) {
        Ok(()) => Ok(()),
        Err(_) => Err(AllocError),
    }
}

fn digits_of(alloc: Global, bytes: &[u8]) -> Result<Vec<u8>, AllocError>
    ensures { IfOk result (λ line. line.items ≡ encode_lower bytes.now ++ 10 ∷ []) }
{
    let mut line = hex::encode(alloc, bytes)?.into_bytes();
    line.push(b'\n')?;
    Ok(line)
}

/// A folder in memory that holds the root's folder of a vault with these keys and nothing else.
///
/// # Errors
///
/// Out of memory.
pub fn empty_vault(alloc: Global, keys: &VaultKeys) -> Result<MemFolder, AllocError>
    ensures { IfOk result (IsEmptyVault keys.now) }
{
    // The root's folder lies three deep.
    let root = folder_of(keys, b"");
    let mut folder = MemFolder::new(alloc)?;
    make_dir(&mut folder, &root.parent().parent())?;
    make_dir(&mut folder, &root.parent())?;
    make_dir(&mut folder, &root)?;
    Ok(folder)
}

// Makes a folder in one in memory, which fails only if there is no memory.
fn make_dir(folder: &mut MemFolder, path: &VaultPath) -> Result<(), AllocError>
    ensures made { OnOk result (now folder.new.log ≡ done (MakeDir path.now) (now folder.old.log)) }
    ensures faults { OnOk result (folder.new.plan.faults ≡ folder.old.plan.faults) }
{
    match folder.make_dir(path) {
        Ok(()) => Ok(()),
        Err(_) => Err(AllocError),
    }
}
