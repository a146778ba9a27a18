// S2V and SIV (RFC 5297) with AES, with no or one associated string.

ghost use Rattle.std.specs.Prelude.{◌≡◌, ◌⊎◌, ◌≤◌, ◌<◌, length, map, bit_xor, IfOk, option_map};
ghost use Rattle.std.specs.List.{zip};
ghost use Rattle.aes_block.specs.Aes.{aes};
ghost use Rattle.siv_mode.specs.Siv.{ad_of, counted, first_counter, keystream, mixed, s2v, siv_opened, siv_sealed, xored_end};

use crate::cipher::aes;
use crate::mac::{block_at, cmac, doubled, padded, xored};
use std::alloc::{AllocError, Global};

// All bits of a counter but the top one of each of its last two 32-bit words (2.5).
const KEPT: u128 = !(1 << 63 | 1 << 31);

// D after the associated string, if there is one (2.4).
fn mixed(key: &[u8], ad: Option<&[u8]>) -> [u8; 16]
    requires { (length key.now ≡ 16) ⊎ (length key.now ≡ 32) }
    ensures { result ≡ mixed (aes key.now) (ad_of ad.entry) }
{
    let start = cmac(key, &[0; 16]);
    match ad {
        Some(ad) => xored(doubled(start), cmac(key, ad)),
        None => start,
    }
}

// A text of at least 16 bytes with `d` xored onto its last 16 (2.4, "xorend").
fn xored_end(alloc: Global, text: &[u8], d: [u8; 16]) -> Result<Vec<u8>, AllocError>
    requires { 16 ≤ length text.now }
    ensures { IfOk result (λ end. end.items ≡ xored_end text.now d) }
{
    let (front, back) = text.split_at(text.len() - 16);
    let mut end = Vec::from_slice(alloc, front)?;
    end.extend_from_slice(&xored(block_at(back, 0), d))?;
    Ok(end)
}

/// The block that S2V (RFC 5297, 2.4) makes of an associated string, if there is one, and a text, with AES under a key of 16 or 32 bytes.
pub fn s2v(
    alloc: Global,
    key: &[u8],
    ad: Option<&[u8]>,
    text: &[u8],
) -> Result<[u8; 16], AllocError>
    requires { (length key.now ≡ 16) ⊎ (length key.now ≡ 32) }
    ensures { IfOk result (λ block. block ≡ s2v (aes key.now) (ad_of ad.entry) text.now) }
{
    let mixed = mixed(key, ad);
    if text.len() < 16 {
        Ok(cmac(key, &xored(doubled(mixed), padded(text))))
    } else {
        Ok(cmac(key, &xored_end(alloc, text, mixed)?))
    }
}

// The first counter of a tag (2.5).
fn first_counter(tag: [u8; 16]) -> u128
    ensures { result ≡ first_counter tag }
{
    u128::from_be_bytes(tag) & KEPT
}

// `count` encrypted counters, from `start` on, counting modulo 2^128 (2.5).
fn keystream(alloc: Global, key: &[u8], start: u128, count: usize) -> Result<Vec<u8>, AllocError>
    requires { (length key.now ≡ 16) ⊎ (length key.now ≡ 32) }
    ensures { IfOk result (λ stream. stream.items ≡ keystream (aes key.now) start count) }
{
    let mut stream = Vec::new(alloc);
    for i in 0..count {
        let counter = start.wrapping_add(i as u128);
        stream.extend_from_slice(&aes(key, counter.to_be_bytes()))?;
    }
    Ok(stream)
}

// Two texts xored, as far as the shorter goes.
fn xored_bytes(alloc: Global, a: &[u8], b: &[u8]) -> Result<Vec<u8>, AllocError>
    ensures { IfOk result (λ out. out.items ≡ map (λ p. bit_xor p.0 p.1) (zip a.now b.now)) }
{
    a.iter().zip(b.iter()).map(|(x, y)| *x ^ *y).collect(alloc)
}

// A text xored with the encrypted counters of a tag (2.5).
fn counted(alloc: Global, key: &[u8], tag: [u8; 16], text: &[u8]) -> Result<Vec<u8>, AllocError>
    requires { (length key.now ≡ 16) ⊎ (length key.now ≡ 32) }
    ensures { IfOk result (λ out. out.items ≡ counted (aes key.now) tag text.now) }
{
    let stream = keystream(alloc, key, first_counter(tag), text.len().div_ceil(16))?;
    xored_bytes(alloc, text, &stream)
}

/// A text sealed by SIV (RFC 5297, 2.6): its tag of 16 bytes, then the text encrypted. `mac` is the key of S2V, `ctr` that of the counters,
/// each of 16 or 32 bytes.
pub fn siv_sealed(
    alloc: Global,
    mac: &[u8],
    ctr: &[u8],
    ad: Option<&[u8]>,
    text: &[u8],
) -> Result<Vec<u8>, AllocError>
    requires mac { (length mac.now ≡ 16) ⊎ (length mac.now ≡ 32) }
    requires ctr { (length ctr.now ≡ 16) ⊎ (length ctr.now ≡ 32) }
    ensures { IfOk result (λ sealed. sealed.items ≡ siv_sealed (aes mac.now) (aes ctr.now) (ad_of ad.entry) text.now) }
{
    let tag = s2v(alloc, mac, ad, text)?;
    let mut sealed = Vec::from_slice(alloc, &tag)?;
    sealed.extend_from_slice(&counted(alloc, ctr, tag, text)?)?;
    Ok(sealed)
}

/// The text of a sealed text of at least 16 bytes, and None if and only if the tag isn't its text's (RFC 5297, 2.7).
pub fn siv_opened(
    alloc: Global,
    mac: &[u8],
    ctr: &[u8],
    ad: Option<&[u8]>,
    sealed: &[u8],
) -> Result<Option<Vec<u8>>, AllocError>
    requires mac { (length mac.now ≡ 16) ⊎ (length mac.now ≡ 32) }
    requires ctr { (length ctr.now ≡ 16) ⊎ (length ctr.now ≡ 32) }
    requires tagged { 16 ≤ length sealed.now }
    ensures { IfOk result (λ text. option_map (λ text. text.items) text ≡ siv_opened (aes mac.now) (aes ctr.now) (ad_of ad.entry) sealed.now) }
{
    let tag = block_at(sealed, 0);
    let text = counted(alloc, ctr, tag, &sealed[16..])?;
    if s2v(alloc, mac, ad, &text)? == tag {
        Ok(Some(text))
    } else {
        Ok(None)
    }
}
