// Texts and keys of AES-256-GCM.

use crate::words::{BenchErr, length, number, word};
use gcm_mode::{BadTag, BulkGcmKey, GcmCipher, GcmKey};
use std::alloc::Global;

/// How many words it has: what (`seal`, `open`, `key` or `header`), the text's bytes, and how many times.
pub(crate) const WORDS: usize = 3;

const KEY: &[u8; 32] = b"0123456789abcdef0123456789abcdef";

const NONCE: &[u8; 12] = b"twelve bytes";

const ASSOCIATED: &[u8; 20] = b"twenty bytes of text";

// A nonce that the compiler doesn't know, as it doesn't know that of a chunk.
fn nonce_of(repetitions: u64) -> [u8; 12] {
    let mut nonce = *NONCE;
    nonce[11] = (repetitions & 0xff) as u8;
    nonce
}

// Seals the text, and what that gives, and so on.
fn sealed(key: &BulkGcmKey, text: &mut [u8], repetitions: u64) -> [u8; 16] {
    let nonce = nonce_of(repetitions);
    let mut tag = [0; 16];
    for _repetition in 0..repetitions {
        tag = key.seal_in_place(&nonce, ASSOCIATED, text);
    }
    tag
}

// Seals the text once, and opens that, each time copied into `room`.
fn opened(
    key: &BulkGcmKey,
    text: &mut [u8],
    room: &mut [u8],
    repetitions: u64,
) -> Result<[u8; 16], BadTag> {
    let nonce = nonce_of(repetitions);
    let tag = key.seal_in_place(&nonce, ASSOCIATED, text);
    for _repetition in 0..repetitions {
        if room.len() == text.len() {
            room.copy_from_slice(text);
        }
        key.open_in_place(&nonce, ASSOCIATED, room, &tag)?;
    }
    Ok(tag)
}

// Makes keys ready for long texts, each of the tag that the last gives the empty text.
fn keyed(repetitions: u64) -> [u8; 16] {
    let mut bytes = *KEY;
    for _repetition in 0..repetitions {
        let tag = BulkGcmKey::new(&bytes).seal_in_place(NONCE, ASSOCIATED, &mut []);
        bytes[..16].copy_from_slice(&tag);
    }
    let mut tag = [0; 16];
    tag.copy_from_slice(&bytes[..16]);
    tag
}

// Makes keys ready for one text of the length of a header's, and seals it.
fn header_keyed(repetitions: u64) -> [u8; 16] {
    let mut bytes = *KEY;
    for _repetition in 0..repetitions {
        let tag = GcmKey::new(&bytes).seal_in_place(NONCE, &[], &mut [0; 40]);
        bytes[..16].copy_from_slice(&tag);
    }
    let mut tag = [0; 16];
    tag.copy_from_slice(&bytes[..16]);
    tag
}

/// The last tag, in hexadecimal digits.
pub(crate) fn measured(alloc: Global, words: &[String]) -> Result<String, BenchErr> {
    let what = word(words, 0)?;
    let len = length(words, 1)?;
    let repetitions = number(words, 2)?;
    let mut text = vec![in alloc; 0u8; len]?;
    let mut room = vec![in alloc; 0u8; len]?;
    let key = BulkGcmKey::new(KEY);
    let tag = match what {
        "seal" => sealed(&key, text.as_mut_slice(), repetitions),
        "open" => opened(&key, text.as_mut_slice(), room.as_mut_slice(), repetitions)?,
        "key" => keyed(repetitions),
        "header" => header_keyed(repetitions),
        _ => return Err(BenchErr::Words),
    };
    Ok(format!(in alloc; "{:032x}", u128::from_be_bytes(tag))?)
}
