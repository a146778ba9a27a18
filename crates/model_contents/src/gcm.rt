// GCM (SP 800-38D) with AES, a nonce of 12 bytes and a tag of 16.

ghost use Rattle.std.specs.Prelude.{◌≡◌, ◌⊎◌, ◌+◌, ◌*◌, ◌^◌, ◌<◌, ◌++◌, length, IfOk, OnOk, option_map};
ghost use Rattle.aes_block.specs.Aes.{aes};
ghost use Rattle.aes_block.specs.Bytes.{bytes_of, xor_bytes};
ghost use Rattle.gcm_mode.specs.Gcm.{counted, counter_block, gcm_opened, gcm_sealed, gcm_tag, hashed_text, keystream};
ghost use Rattle.gcm_mode.specs.Ghash.{zero_padded};

use crate::cipher::aes;
use crate::hash::ghash;
use crate::mac::xored;
use std::alloc::{AllocError, Global};

// Counter block `i` of a nonce, the counter modulo 2^32 (7.1, steps 2 and 3).
fn counter_block(nonce: [u8; 12], i: usize) -> [u8; 16]
    ensures { result ≡ counter_block nonce i }
{
    let counter = (i % (1 << 32)) as u32;
    let mut block = [0u8; 16];
    block[..12].copy_from_slice(&nonce);
    block[12..].copy_from_slice(&counter.to_be_bytes());
    block
}

// The encrypted counter blocks for `count` blocks of text (6.5).
fn keystream(
    alloc: Global,
    key: &[u8],
    nonce: [u8; 12],
    count: usize,
) -> Result<Vec<u8>, AllocError>
    requires keyed { (length key.now ≡ 16) ⊎ (length key.now ≡ 32) }
    requires within { count + 1 < 2 ^ 64 }
    ensures { IfOk result (λ stream. stream.items ≡ keystream (aes key.now) nonce count) }
{
    let mut stream = Vec::new(alloc);
    for i in 0..count {
        stream.extend_from_slice(&aes(key, counter_block(nonce, i + 2)))?;
    }
    Ok(stream)
}

// The bytes of two texts xored place by place.
fn xored_text(alloc: Global, text: &[u8], mask: &[u8]) -> Result<Vec<u8>, AllocError>
    ensures { IfOk result (λ out. out.items ≡ xor_bytes text.now mask.now) }
{
    let mut out = Vec::new(alloc);
    for (byte, masking) in text.iter().zip(mask) {
        out.push(byte ^ masking)?;
    }
    Ok(out)
}

// A text encrypted or decrypted, which is one (7.1, step 3).
#[tactic(auto, unfolding(gcm_mode::specs::Gcm::counted))]
fn counted(alloc: Global, key: &[u8], nonce: [u8; 12], text: &[u8]) -> Result<Vec<u8>, AllocError>
    requires { (length key.now ≡ 16) ⊎ (length key.now ≡ 32) }
    ensures { IfOk result (λ out. out.items ≡ counted (aes key.now) nonce text.now) }
{
    let stream = keystream(alloc, key, nonce, text.len().div_ceil(16))?;
    xored_text(alloc, text, &stream)
}

// Adds a text and zero bytes up to a whole number of blocks.
fn push_padded(out: &mut Vec<u8>, text: &[u8]) -> Result<(), AllocError>
    ensures { OnOk result (out.new.items ≡ out.old.items ++ zero_padded text.now) }
{
    out.extend_from_slice(text)?;
    out.extend_from_slice(&[0; 16][..(16 - text.len() % 16) % 16])
}

// The length of a text in bits, modulo 2^64.
fn bit_length(text: &[u8]) -> [u8; 8]
    ensures { result ≡ bytes_of 8 (8 * length text.now) }
{
    (text.len() as u64).wrapping_mul(8).to_be_bytes()
}

// What GHASH runs over (7.1, steps 4 and 5).
fn hashed_text(alloc: Global, ad: &[u8], ciphertext: &[u8]) -> Result<Vec<u8>, AllocError>
    ensures { IfOk result (λ text. text.items ≡ hashed_text ad.now ciphertext.now) }
{
    let mut text = Vec::new(alloc);
    push_padded(&mut text, ad)?;
    push_padded(&mut text, ciphertext)?;
    text.extend_from_slice(&bit_length(ad))?;
    text.extend_from_slice(&bit_length(ciphertext))?;
    Ok(text)
}

// The tag of a ciphertext (7.1, steps 1, 5 and 6).
#[tactic(auto, unfolding(gcm_mode::specs::Gcm::gcm_tag))]
fn gcm_tag(
    alloc: Global,
    key: &[u8],
    nonce: [u8; 12],
    ad: &[u8],
    ciphertext: &[u8],
) -> Result<[u8; 16], AllocError>
    requires { (length key.now ≡ 16) ⊎ (length key.now ≡ 32) }
    ensures { IfOk result (λ tag. tag ≡ gcm_tag (aes key.now) nonce ad.now ciphertext.now) }
{
    let subkey = u128::from_be_bytes(aes(key, [0; 16]));
    let hash = ghash(subkey, &hashed_text(alloc, ad, ciphertext)?);
    Ok(xored(aes(key, counter_block(nonce, 1)), hash))
}

/// A text sealed by GCM (SP 800-38D, 7.1) with AES under a key of 16 or 32 bytes: the ciphertext, and after it the tag of 16 bytes.
#[tactic(auto, unfolding(gcm_mode::specs::Gcm::gcm_sealed))]
pub fn gcm_sealed(
    alloc: Global,
    key: &[u8],
    nonce: [u8; 12],
    ad: &[u8],
    text: &[u8],
) -> Result<Vec<u8>, AllocError>
    requires { (length key.now ≡ 16) ⊎ (length key.now ≡ 32) }
    ensures { IfOk result (λ sealed. sealed.items ≡ gcm_sealed (aes key.now) nonce ad.now text.now) }
{
    let mut sealed = counted(alloc, key, nonce, text)?;
    let tag = gcm_tag(alloc, key, nonce, ad, &sealed)?;
    sealed.extend_from_slice(&tag)?;
    Ok(sealed)
}

/// The text of a ciphertext and its tag, and None if and only if the tag isn't the ciphertext's (SP 800-38D, 7.2).
#[tactic(auto, unfolding(gcm_mode::specs::Gcm::gcm_opened))]
pub fn gcm_opened(
    alloc: Global,
    key: &[u8],
    nonce: [u8; 12],
    ad: &[u8],
    ciphertext: &[u8],
    tag: [u8; 16],
) -> Result<Option<Vec<u8>>, AllocError>
    requires { (length key.now ≡ 16) ⊎ (length key.now ≡ 32) }
    ensures { IfOk result (λ text. option_map (λ text. text.items) text ≡ gcm_opened (aes key.now) nonce ad.now ciphertext.now tag) }
{
    if gcm_tag(alloc, key, nonce, ad, ciphertext)? != tag {
        return Ok(None);
    }
    Ok(Some(counted(alloc, key, nonce, ciphertext)?))
}
