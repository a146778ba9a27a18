ghost use Rattle.std.specs.Prelude.{◌≡◌, [], ◌∷◌, ◌++◌, ◌==◌, codes, Some, None, IfOk, MatchOption, option_map, option_and_then};
ghost use Rattle.std.specs.List.{position};
ghost use Rattle.std.specs.Str.{bytes_eq};
ghost use Rattle.json_members.specs.Members.{text_at};
ghost use Rattle.vault_config.specs.Token.{pieces_of, token_of_pieces, decoded, decoded_object, algorithm_named, signature_of};
ghost use Rattle.vault_config.specs.Algorithms.{algorithm_data};

use aes_block::bytes_equal;
use base64::DecodeAllocError;
use base64::engine::general_purpose::URL_SAFE_NO_PAD;
use hmac_sha::{hmac256, hmac384, hmac512};
use json_members::{Object, ObjectErr};
use std::alloc::{AllocError, Global};

/// The algorithms that are accepted (RFC 7518, section 3.2).
#[derive(Clone, Copy)]
pub(crate) enum Algorithm {
    Hs256,
    Hs384,
    Hs512,
}

/// A token's pieces as they came, and the text that is signed: the header, a dot and the payload.
#[derive(Clone, Copy)]
pub(crate) struct Pieces<'a> {
    pub(crate) text: &'a [u8],
    pub(crate) header: &'a [u8],
    pub(crate) payload: &'a [u8],
    pub(crate) signature: &'a [u8],
}

/// The pieces of bytes that have three with dots between them.
pub(crate) fn three_pieces(bytes: &[u8]) -> Option<Pieces<'_>>
    ensures { MatchOption result (token_of_pieces (pieces_of bytes.now) ≡ None)
        (λ p. (pieces_of bytes.now ≡ p.header.now ∷ p.payload.now ∷ p.signature.now ∷ []) × (p.text.now ≡ p.header.now ++ 46 ∷ p.payload.now)) }
{
    let (header, rest) = around_dot(bytes)?;
    let (payload, signature) = around_dot(rest)?;
    match around_dot(signature) {
        Some(_) => None,
        None => Some(Pieces {
            text: &bytes[..header.len() + 1 + payload.len()],
            header,
            payload,
            signature,
        }),
    }
}

// What is before the first dot and after it.
fn around_dot(bytes: &[u8]) -> Option<(&[u8], &[u8])>
    ensures { MatchOption result (pieces_of bytes.now ≡ bytes.now ∷ [])
        (λ p. (pieces_of bytes.now ≡ p.0.now ∷ pieces_of p.1.now) × (bytes.now ≡ p.0.now ++ 46 ∷ p.1.now)) }
{
    let dot = dot(bytes)?;
    Some((&bytes[..dot], &bytes[dot + 1..]))
}

// Where the first dot is.
fn dot(bytes: &[u8]) -> Option<usize>
    ensures { result ≡ position (λ b. b == 46) bytes.now }
{
    bytes.iter().position(|b| *b == b'.')
}

/// The bytes that a piece encodes in base64url without padding.
pub(crate) fn decoded(alloc: Global, piece: &[u8]) -> Result<Option<Vec<u8>>, AllocError>
    ensures { IfOk result (λ found. MatchOption found (decoded piece.now ≡ None) (λ bytes. decoded piece.now ≡ Some bytes.items)) }
{
    match URL_SAFE_NO_PAD.decode(alloc, piece) {
        Ok(bytes) => Ok(Some(bytes)),
        Err(DecodeAllocError::DecodeError(_)) => Ok(None),
        Err(DecodeAllocError::OutOfMemory) => Err(AllocError),
    }
}

/// The JSON object that a piece encodes.
pub(crate) fn decoded_object(alloc: Global, piece: &[u8]) -> Result<Option<Object>, AllocError>
    ensures { IfOk result (λ found. found ≡ decoded_object piece.now) }
{
    let Some(bytes) = decoded(alloc, piece)? else {
        return Ok(None);
    };
    match Object::read(alloc, &bytes) {
        Ok(object) => Ok(Some(object)),
        Err(ObjectErr::NotObject) => Ok(None),
        Err(ObjectErr::Memory) => Err(AllocError),
    }
}

/// The algorithm that a header names, if it is accepted.
pub(crate) fn algorithm_of(header: &Object) -> Option<Algorithm>
    ensures { option_map algorithm_data result ≡ option_and_then algorithm_named (text_at (codes "alg") header.now) }
{
    match header.text("alg")? {
        "HS256" => Some(Algorithm::Hs256),
        "HS384" => Some(Algorithm::Hs384),
        "HS512" => Some(Algorithm::Hs512),
        _ => None,
    }
}

/// Whether bytes are the signature of a text under a key. The comparison takes as long wherever they differ.
pub(crate) fn is_signature(algorithm: Algorithm, key: &[u8], text: &[u8], signature: &[u8]) -> bool
    ensures { result ≡ bytes_eq (signature_of (algorithm_data algorithm) key.now text.now) signature.now }
{
    match algorithm {
        Algorithm::Hs256 => bytes_equal(&hmac256(key, text), signature),
        Algorithm::Hs384 => bytes_equal(&hmac384(key, text), signature),
        Algorithm::Hs512 => bytes_equal(&hmac512(key, text), signature),
    }
}
