// Rows of GCM (SP 800-38D).

use crate::row::{Call, RowErr, bytes, end, holds, key, same, word};
use gcm_mode::{BadTag, BulkGcmKey, GcmCipher, GcmKey};
use hex::FromHex;
use model_contents::{gcm_opened, gcm_sealed};
use std::alloc::Global;

// A text under a nonce with associated data, and what it is sealed to.
#[derive(Clone, Copy)]
struct Case<'a> {
    nonce: [u8; 12],
    ad: &'a [u8],
    text: &'a [u8],
    sealed: &'a [u8],
}

// Seals and opens by a key in use; a tag with a bit changed is refused, and the ciphertext stays.
fn both_ways<K: GcmCipher>(alloc: Global, key: &K, case: &Case) -> Result<(), RowErr> {
    let mut buf = Vec::from_slice(alloc, case.text)?;
    let tag = key.seal_in_place(&case.nonce, case.ad, buf.as_mut_slice());
    let (ciphertext, expected) = case.sealed.split_at(case.sealed.len().saturating_sub(16));
    same(Call::Seal, &buf, ciphertext)?;
    same(Call::Tag, &tag, expected)?;
    for i in 0..16usize {
        let mut changed = tag;
        changed[i] ^= 1;
        let refused = key.open_in_place(&case.nonce, case.ad, buf.as_mut_slice(), &changed);
        holds(Call::OpenChanged, refused == Err(BadTag))?;
        same(Call::LeftByOpen, &buf, ciphertext)?;
    }
    let opened = key.open_in_place(&case.nonce, case.ad, buf.as_mut_slice(), &tag);
    holds(Call::Open, opened == Ok(()))?;
    same(Call::Open, &buf, case.text)
}

// Seals and opens by the plain functions.
fn plain(alloc: Global, key: &[u8; 32], case: &Case) -> Result<(), RowErr> {
    let made = gcm_sealed(alloc, key, case.nonce, case.ad, case.text)?;
    same(Call::PlainSealed, &made, case.sealed)?;
    let (ciphertext, expected) = case.sealed.split_at(case.sealed.len().saturating_sub(16));
    let mut tag = [0; 16];
    if expected.len() != 16 {
        return Err(RowErr::Length);
    }
    tag.copy_from_slice(expected);
    let opened = match gcm_opened(alloc, key, case.nonce, case.ad, ciphertext, tag)? {
        Some(text) => text.as_slice() == case.text,
        None => false,
    };
    holds(Call::PlainOpened, opened)?;
    tag[15] ^= 1;
    let refused = gcm_opened(alloc, key, case.nonce, case.ad, ciphertext, tag)?;
    holds(Call::PlainOpenedChanged, refused.is_none())
}

/// key nonce associated text sealed-with-tag
pub(crate) fn gcm(alloc: Global, row: &str) -> Result<(), RowErr> {
    let mut fields = row.split(' ');
    let key = key(fields.next())?;
    let nonce = <[u8; 12] as FromHex>::from_hex(word(fields.next())?)?;
    let ad = bytes(alloc, fields.next())?;
    let text = bytes(alloc, fields.next())?;
    let sealed = bytes(alloc, fields.next())?;
    end(fields.next())?;
    let case = Case {
        nonce,
        ad: &ad,
        text: &text,
        sealed: &sealed,
    };
    both_ways(alloc, &GcmKey::new(&key), &case)?;
    both_ways(alloc, &BulkGcmKey::new(&key), &case)?;
    plain(alloc, &key, &case)
}

const LENGTHS: [u8; 600] = [0xa5; 600];

/// Texts of 0 to 600 bytes, and two behind the first bitsliced group, against the plain sealing. Gives how many there are.
pub(crate) fn check_lengths(alloc: Global) -> Result<u64, RowErr> {
    let key = [0x5a; 32];
    let mut count = 0u64;
    for len in 0..601usize {
        count = count.saturating_add(1);
        let ad = &LENGTHS[..len % 40];
        let text = &LENGTHS[..len];
        let sealed = gcm_sealed(alloc, &key, [7; 12], ad, text)?;
        let case = Case {
            nonce: [7; 12],
            ad,
            text,
            sealed: &sealed,
        };
        both_ways(alloc, &GcmKey::new(&key), &case)?;
        both_ways(alloc, &BulkGcmKey::new(&key), &case)?;
    }
    for len in [4095usize, 4096, 4097, 8300] {
        count = count.saturating_add(1);
        let text = vec![in alloc; 0x3c; len]?;
        let sealed = gcm_sealed(alloc, &key, [8; 12], &[], &text)?;
        let case = Case {
            nonce: [8; 12],
            ad: &[],
            text: &text,
            sealed: &sealed,
        };
        both_ways(alloc, &BulkGcmKey::new(&key), &case)?;
    }
    Ok(count)
}
