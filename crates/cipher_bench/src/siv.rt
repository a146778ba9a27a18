// Names sealed by SIV under a directory's identifier of 36 bytes.

use crate::words::{BenchErr, length, number, word};
use aes_block::BlockKey;
use siv_mode::{TAG_LEN, s2v, seal};
use std::alloc::Global;
use vault_keys::VaultKeys;

/// How many words it has: how (`lanes`; `blocks`, by AES a block at a time; or `tag`, which is S2V alone in lanes), the name's bytes, and
/// how many times.
pub(crate) const WORDS: usize = 3;

const IDENTIFIER: &[u8; 36] = b"01234567-89ab-cdef-0123-456789abcdef";

// Seals the name, and puts what that gives in its place. The tag is returned.
fn sealed_once<K: BlockKey>(mac: &K, ctr: &K, name: &mut [u8], room: &mut [u8]) -> [u8; 16] {
    let mut tag = [0; 16];
    if room.len() >= TAG_LEN && room.len() - TAG_LEN == name.len() {
        seal(mac, ctr, Some(IDENTIFIER), name, room);
        name.copy_from_slice(&room[TAG_LEN..]);
        tag.copy_from_slice(&room[..TAG_LEN]);
    }
    tag
}

// The last tag of so many.
fn sealed<K: BlockKey>(
    mac: &K,
    ctr: &K,
    name: &mut [u8],
    room: &mut [u8],
    repetitions: u64,
) -> [u8; 16] {
    let mut tag = [0; 16];
    for _repetition in 0..repetitions {
        tag = sealed_once(mac, ctr, name, room);
    }
    tag
}

// The tag of the name, and of the last tag before the name, and so on.
fn tagged<K: BlockKey>(mac: &K, name: &mut [u8], repetitions: u64) -> [u8; 16] {
    let mut tag = [0; 16];
    for _repetition in 0..repetitions {
        tag = s2v(mac, Some(IDENTIFIER), name);
        if name.len() > 0 {
            name[0] = tag[0];
        }
    }
    tag
}

/// The last tag, in hexadecimal digits.
pub(crate) fn measured(alloc: Global, words: &[String]) -> Result<String, BenchErr> {
    let how = word(words, 0)?;
    let len = length(words, 1)?;
    let repetitions = number(words, 2)?;
    let mut name = vec![in alloc; 0u8; len]?;
    let mut room = vec![in alloc; 0u8; len + TAG_LEN]?;
    let name = name.as_mut_slice();
    let room = room.as_mut_slice();
    let keys = VaultKeys::new(&[3; 32], &[5; 32]);
    let tag = match how {
        "lanes" => sealed(
            keys.mac_lanes(),
            keys.encryption_lanes(),
            name,
            room,
            repetitions,
        ),
        "blocks" => sealed(
            keys.mac_key(),
            keys.encryption_key(),
            name,
            room,
            repetitions,
        ),
        "tag" => tagged(keys.mac_lanes(), name, repetitions),
        _ => return Err(BenchErr::Words),
    };
    Ok(format!(in alloc; "{:032x}", u128::from_be_bytes(tag))?)
}
