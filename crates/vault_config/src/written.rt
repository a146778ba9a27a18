ghost use Rattle.std.specs.Prelude.{◌≡◌, ◌≤◌, ◌∷◌, ◌++◌, length, IfOk, OnOk, Ok, Some, false};
ghost use Rattle.std.specs.String.{string_bytes};
ghost use Rattle.serde_json.specs.Data.{depth};
ghost use Rattle.serde_json.specs.Read.{max_depth};
ghost use Rattle.serde_json.specs.View.{view};
ghost use Rattle.serde_json.specs.Written.{compact_text, has_float};
ghost use Rattle.vault_layout.specs.Limits.{max_threshold};
ghost use Rattle.json_members.specs.Members.{only_object};
ghost use Rattle.vault_config.specs.Token.{decoded, decoded_object, hs256, signature_of};
ghost use Rattle.vault_config.specs.Config.{config_file, config_of, identifier_of, piece_of, signed_text, signing_key, written_header, written_claims};

use crate::claims::{COMBO, FORMAT};
use crate::config::{KEY_ID, signing_key};
use base64::engine::general_purpose::URL_SAFE_NO_PAD;
use hmac_sha::hmac256;
use serde_json::{Value, json};
use std::alloc::{AllocError, Global};
use uuid::{Builder, Uuid};
use vault_keys::VaultKeys;

/// Writes a configuration under HS256: `threshold` is the longest sealed name, in characters, that isn't shortened, 1 to `MAX_THRESHOLD`,
/// and `jti` is written as a version 4 UUID of its 16 bytes (RFC 9562, section 5.4).
pub fn write(
    alloc: Global,
    keys: &VaultKeys,
    threshold: u32,
    jti: &[u8; 16],
) -> Result<Vec<u8>, AllocError>
    requires { (1 ≤ threshold) × (threshold ≤ max_threshold) }
    ensures bytes { IfOk result (λ v. v.items ≡ config_file keys.now threshold (identifier_of jti.now)) }
    ensures reads_back { IfOk result (λ v. config_of keys.now v.items ≡ Ok threshold) }
{
    let mut buffer = Uuid::encode_buffer();
    let id = Builder::from_random_bytes(*jti).into_uuid().hyphenated();
    let identifier = id.encode_lower(&mut buffer);
    let text = signed_text(alloc, threshold, identifier)?;
    let signature = signature(alloc, keys, text.as_bytes())?;
    let token = joined(text, &signature)?;
    Ok(token.into_bytes())
}

// The text that is signed: the header, a dot and the claims.
fn signed_text(alloc: Global, threshold: u32, identifier: &str) -> Result<String, AllocError>
    ensures text { IfOk result (λ s. string_bytes s ≡ signed_text threshold identifier.now) }
    ensures header { OnOk result (decoded_object (piece_of (compact_text written_header)) ≡ Some written_header) }
    ensures claims { let claims = written_claims threshold identifier.now in
        OnOk result (decoded_object (piece_of (compact_text claims)) ≡ Some claims) }
{
    let header = piece(alloc, &header(alloc)?)?;
    let claims = piece(alloc, &claims(alloc, threshold, identifier)?)?;
    joined(header, &claims)
}

// The signature of a text under HS256, as a piece of a token.
fn signature(alloc: Global, keys: &VaultKeys, text: &[u8]) -> Result<String, AllocError>
    ensures text { IfOk result (λ s. string_bytes s ≡ piece_of (signature_of hs256 (signing_key keys.now) text.now)) }
    ensures reads_back { let signature = signature_of hs256 (signing_key keys.now) text.now in
        IfOk result (λ s. decoded (string_bytes s) ≡ Some signature) }
    ensures long { length (signature_of hs256 (signing_key keys.now) text.now) ≡ 32 }
{
    let tag = hmac256(&signing_key(keys), text);
    URL_SAFE_NO_PAD.encode(alloc, &tag)
}

// A text with a piece after it, and a dot between them.
fn joined(mut text: String, piece: &str) -> Result<String, AllocError>
    ensures { IfOk result (λ s. string_bytes s ≡ string_bytes text ++ 46 ∷ piece.now) }
{
    text.push('.')?;
    text.push_str(piece)?;
    Ok(text)
}

fn header(alloc: Global) -> Result<Value, AllocError>
    ensures { IfOk result (λ v. view v ≡ written_header) }
{
    json!(in alloc; {"alg": "HS256", "kid": KEY_ID, "typ": "JWT"})
}

fn claims(alloc: Global, threshold: u32, identifier: &str) -> Result<Value, AllocError>
    ensures { IfOk result (λ v. view v ≡ written_claims threshold identifier.now) }
{
    json!(in alloc; {
        "cipherCombo": COMBO,
        "format": FORMAT,
        "jti": identifier,
        "shorteningThreshold": threshold as u64
    })
}

// A value as a piece of a token: its text in base64url without padding.
fn piece(alloc: Global, value: &Value) -> Result<String, AllocError>
    requires text { has_float (view value.now) ≡ false }
    requires depth { depth (view value.now) ≤ max_depth }
    ensures text { IfOk result (λ s. string_bytes s ≡ piece_of (compact_text (view value.now))) }
    ensures reads_back { IfOk result (λ s. decoded_object (string_bytes s) ≡ only_object (view value.now)) }
{
    let text = value.to_string(alloc)?;
    URL_SAFE_NO_PAD.encode(alloc, text.as_bytes())
}
