// Rows of counter mode (SP 800-38A, 6.5).

use crate::row::{Call, RowErr, block, bytes, end, key, same};
use aes_block::{BlockKey, Key256};
use aes_kernels::LaneKey;
use ctr_mode::{BulkKey, apply_keystream};
use std::alloc::Global;

// Encrypts and decrypts by a key in use.
fn both_ways<K: BlockKey>(
    alloc: Global,
    key: &K,
    first: [u8; 16],
    text: &[u8],
    ciphertext: &[u8],
) -> Result<(), RowErr> {
    let first = u128::from_be_bytes(first);
    let mut buf = Vec::from_slice(alloc, text)?;
    apply_keystream(key, first, buf.as_mut_slice());
    same(Call::Counted, &buf, ciphertext)?;
    apply_keystream(key, first, buf.as_mut_slice());
    same(Call::Counted, &buf, text)
}

/// key first-counter text ciphertext
pub(crate) fn counted(alloc: Global, row: &str) -> Result<(), RowErr> {
    let mut fields = row.split(' ');
    let key = key(fields.next())?;
    let first = block(fields.next())?;
    let text = bytes(alloc, fields.next())?;
    let ciphertext = bytes(alloc, fields.next())?;
    end(fields.next())?;
    let bulk = BulkKey::new(Key256::new(&key));
    both_ways(alloc, &bulk, first, &text, &ciphertext)?;
    let lanes = LaneKey::new(Key256::new(&key));
    both_ways(alloc, &lanes, first, &text, &ciphertext)
}
