ghost use Rattle.std.specs.Prelude.{◌≡◌, length, Some, Ok, IfOk, OnOk};
ghost use Rattle.std.specs.String.{string_bytes};
ghost use Rattle.aes_block.specs.Aes.{aes, inverse_aes};
ghost use Rattle.base64.specs.GeneralPurpose.{decode_of, encode_of};
ghost use Rattle.base64.specs.Engines.{standard};
ghost use Rattle.key_wrap.specs.Wrap.{unwrapped, wrapped};
ghost use Rattle.scrypt_kdf.specs.Scrypt.{scrypt};
ghost use Rattle.serde_json.specs.View.{view};
ghost use Rattle.masterkey_file.specs.KeyFile.{key_file, keys_of, new_block_size, new_cost, new_parallelization, version_mac};
ghost use Rattle.masterkey_file.specs.Written.{value_of_texts};

use aes_block::Key256;
use base64::engine::general_purpose::STANDARD;
use hmac_sha::hmac256;
use key_wrap::{unwrapping_is_exact, wrap};
use scrypt_kdf::scrypt;
use serde_json::{Value, json};
use std::alloc::{AllocError, Global};
use vault_keys::VaultKeys;

// scrypt's cost, block size and parallelization.
const COST: u64 = 32768;

const BLOCK_SIZE: u64 = 8;

const PARALLELIZATION: u64 = 1;

// The version, which says that the vault's format is in its configuration.
const VERSION: u32 = 999;

/// Writes the masterkey file of these keys under a password (UTF-8 in the form NFC) as compact JSON, its members in the order
/// of their names: scrypt (RFC 7914) has the cost 32768, the block size 8 and one part, the keys are wrapped (RFC 3394), and
/// the version 999 is there with its HMAC-SHA-256 under the MAC key, of the version as 4 bytes, most significant first.
pub fn write(
    alloc: Global,
    keys: &VaultKeys,
    password: &[u8],
    salt: &[u8; 8],
) -> Result<Vec<u8>, AllocError>
    ensures bytes { IfOk result (λ v. v.items ≡ key_file keys.now password.now salt.now) }
    ensures reads_back { IfOk result (λ v. keys_of v.items password.now ≡ Ok keys.now) }
{
    let kek = new_wrapping_key(alloc, password, salt)?;
    let mac_key = wrapped_text(alloc, &kek, keys.mac_key())?;
    let encryption_key = wrapped_text(alloc, &kek, keys.encryption_key())?;
    let salt = STANDARD.encode(alloc, salt)?;
    let version_mac = STANDARD.encode(alloc, &version_mac(keys))?;
    let value = file_value(alloc, &mac_key, &encryption_key, &salt, &version_mac)?;
    let text = value.to_string(alloc)?;
    Ok(text.into_bytes())
}

// The key that wraps the others.
fn new_wrapping_key(alloc: Global, password: &[u8], salt: &[u8; 8]) -> Result<[u8; 32], AllocError>
    ensures { IfOk result (λ key. key ≡ scrypt password.now salt.now new_cost new_block_size new_parallelization 32) }
{
    let mut key = [0; 32];
    // The cost and the sizes are good, so only memory can run out.
    scrypt(
        alloc,
        password,
        salt,
        COST,
        BLOCK_SIZE,
        PARALLELIZATION,
        &mut key,
    )
    .map_err(|_| AllocError)?;
    Ok(key)
}

// A key wrapped, in base64.
fn wrapped_text(alloc: Global, kek: &[u8; 32], key: &Key256) -> Result<String, AllocError>
    ensures text { IfOk result (λ s. string_bytes s ≡ encode_of standard (wrapped (aes kek.now) key.now)) }
    ensures reads_back { let bytes = wrapped (aes kek.now) key.now in
        OnOk result (decode_of standard (encode_of standard bytes) ≡ Ok bytes) }
    ensures opens { unwrapped (inverse_aes kek.now) (wrapped (aes kek.now) key.now) ≡ Some key.now }
    ensures long { length (wrapped (aes kek.now) key.now) ≡ 40 }
{
    STANDARD.encode(alloc, &wrapped(kek, &key.bytes()))
}

// A key wrapped, from which it can be unwrapped.
fn wrapped(kek: &[u8; 32], key: &[u8; 32]) -> [u8; 40]
    ensures wrapped { result ≡ wrapped (aes kek.now) key.now }
    ensures opens { unwrapped (inverse_aes kek.now) (wrapped (aes kek.now) key.now) ≡ Some key.now }
{
    unwrapping_is_exact();
    wrap(kek, key)
}

// The MAC of the version.
fn version_mac(keys: &VaultKeys) -> [u8; 32]
    ensures mac { result ≡ version_mac keys.now }
    ensures long { length (version_mac keys.now) ≡ 32 }
{
    hmac256(&keys.mac_key().bytes(), &VERSION.to_be_bytes())
}

// The value, by the texts of its members.
fn file_value(
    alloc: Global,
    mac_key: &str,
    encryption_key: &str,
    salt: &str,
    version_mac: &str,
) -> Result<Value, AllocError>
    ensures { IfOk result (λ v. view v ≡ value_of_texts mac_key.now encryption_key.now salt.now version_mac.now) }
{
    json!(in alloc; {
        "hmacMasterKey": mac_key,
        "primaryMasterKey": encryption_key,
        "scryptBlockSize": BLOCK_SIZE,
        "scryptCostParam": COST,
        "scryptSalt": salt,
        "version": VERSION as u64,
        "versionMac": version_mac
    })
}
