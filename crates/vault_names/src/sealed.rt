ghost use Rattle.std.specs.Prelude.{◌≡◌, ◌↔◌, ℕ, List, Some, None, IfOk, IfSome, IfNone, MatchOption};
ghost use Rattle.std.specs.Option.{option_copied};
ghost use Rattle.aes_block.specs.Aes.{aes};
ghost use Rattle.aes_block.specs.Bytes.{AreBytes};
ghost use Rattle.siv_mode.specs.Siv.{siv_opened};
ghost use Rattle.vault_names.specs.Sealed.{IsSealedName, before_suffix, decoded, opened_name, sealed_name, valid_name};

use crate::name::{BadName, Name, clear_name};
use base64::DecodeAllocError;
use base64::engine::general_purpose::URL_SAFE;
use siv_mode::TAG_LEN;
use std::alloc::{AllocError, Global};
use vault_keys::VaultKeys;
use vault_path::Text;

const SUFFIX: &str = ".c9r";

/// The sealed name of a clear name in the directory whose identifier is `parent`, the empty text for the root: sealed by
/// SIV (RFC 5297) with the identifier as the associated string, in base64url with padding (RFC 4648, section 5), and `.c9r`.
#[tactic(auto, unfolding(crate::specs::Sealed::sealed_name))]
pub fn seal_name(
    alloc: Global,
    keys: &VaultKeys,
    parent: &[u8],
    name: &Name,
) -> Result<Text, AllocError>
    ensures { IfOk result (λ text. text ≡ sealed_name keys.now parent.now name.now) }
{
    let clear = name.as_bytes();
    let mut sealed = vec![in alloc; 0u8; clear.len() + TAG_LEN]?;
    let mac = keys.mac_lanes();
    let ctr = keys.encryption_lanes();
    siv_mode::seal(mac, ctr, Some(parent), clear, &mut sealed);
    let mut text = URL_SAFE.encode(alloc, &sealed)?;
    text.push_str(SUFFIX)?;
    Ok(Text::from_vec(text.into_bytes()))
}

/// The clear name of a sealed name in the directory whose identifier is `parent` (RFC 5297, section 2.7, under the same
/// encoding). `None` is returned exactly if the text isn't what `seal_name` returns for any valid name: its suffix, its
/// base64, its tag or its clear name is another.
pub fn open_name(
    alloc: Global,
    keys: &VaultKeys,
    parent: &[u8],
    text: &[u8],
) -> Result<Option<Name>, AllocError>
    ensures found { IfOk result (λ name. IfSome name (λ n. IsSealedName keys.now parent.now text.now n)) }
    ensures none { IfOk result (λ name. IfNone name ((n : List ℕ) → IsSealedName keys.now parent.now text.now n → ⊥)) }
    ensures value { IfOk result (λ name. name ≡ opened_name keys.now parent.now text.now) }
{
    opening_undoes_sealing(keys);
    opened_name(alloc, keys, parent, text)
}

// The value of `open_name`, step by step.
#[tactic(auto, unfolding(crate::specs::Sealed::opened_name))]
fn opened_name(
    alloc: Global,
    keys: &VaultKeys,
    parent: &[u8],
    text: &[u8],
) -> Result<Option<Name>, AllocError>
    ensures { IfOk result (λ name. name ≡ opened_name keys.now parent.now text.now) }
{
    let Some(encoded) = before_suffix(text) else {
        return Ok(None);
    };
    let Some(sealed) = decode(alloc, encoded)? else {
        return Ok(None);
    };
    let Some(name) = unsealed(alloc, keys, parent, &sealed)? else {
        return Ok(None);
    };
    valid_name(alloc, &name)
}

/// A text opens to a name if and only if it is the sealed name of that valid name. It does nothing.
pub fn opening_undoes_sealing(keys: &VaultKeys)
    ensures { (parent text name : List ℕ) → AreBytes text →
        (opened_name keys.now parent text ≡ Some name) ↔ IsSealedName keys.now parent text name }
{
    siv_mode::opening_is_exact(keys);
}

// What is before the suffix, if the text ends with it.
fn before_suffix(text: &[u8]) -> Option<&[u8]>
    ensures { option_copied result ≡ before_suffix text.now }
{
    text.strip_suffix(SUFFIX.as_bytes())
}

// The bytes that a text in base64url encodes.
fn decode(alloc: Global, text: &[u8]) -> Result<Option<Vec<u8>>, AllocError>
    ensures { IfOk result (λ found. MatchOption found (decoded text.now ≡ None) (λ bytes. decoded text.now ≡ Some bytes.items)) }
{
    match URL_SAFE.decode(alloc, text) {
        Ok(bytes) => Ok(Some(bytes)),
        Err(DecodeAllocError::DecodeError(_)) => Ok(None),
        Err(DecodeAllocError::OutOfMemory) => Err(AllocError),
    }
}

// The text that bytes are the sealed form of.
fn unsealed(
    alloc: Global,
    keys: &VaultKeys,
    parent: &[u8],
    sealed: &[u8],
) -> Result<Option<Vec<u8>>, AllocError>
    ensures { let opened = siv_opened (aes keys.now.mac) (aes keys.now.enc) (Some parent.now) sealed.now in
        IfOk result (λ found. MatchOption found (opened ≡ None) (λ bytes. opened ≡ Some bytes.items)) }
{
    siv_mode::opening_is_exact(keys);
    let Some(len) = sealed.len().checked_sub(TAG_LEN) else {
        return Ok(None);
    };
    let mut name = vec![in alloc; 0u8; len]?;
    let mac = keys.mac_lanes();
    let ctr = keys.encryption_lanes();
    match siv_mode::open(mac, ctr, Some(parent), sealed, &mut name) {
        Ok(()) => Ok(Some(name)),
        Err(_) => Ok(None),
    }
}

// The name that bytes are, if they are a valid clear name as they stand.
fn valid_name(alloc: Global, bytes: &[u8]) -> Result<Option<Name>, AllocError>
    ensures { IfOk result (λ name. name ≡ valid_name bytes.now) }
{
    match clear_name(alloc, bytes) {
        Ok(name) if name.as_bytes() == bytes => Ok(Some(name)),
        Err(BadName::Memory) => Err(AllocError),
        _ => Ok(None),
    }
}
