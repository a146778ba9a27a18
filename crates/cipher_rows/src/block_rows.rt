// Rows of the block cipher AES (FIPS 197).

use crate::row::{Call, RowErr, block, end, holds, key, number, same, word};
use aes_block::{BlockKey, Key128, Key256};
use aes_kernels::LaneKey;
use std::alloc::Global;

/// The most blocks that are encrypted together.
const MOST_BLOCKS: usize = 40;

/// key block encrypted
pub(crate) fn aes(alloc: Global, row: &str) -> Result<(), RowErr> {
    let mut fields = row.split(' ');
    let digits = word(fields.next())?;
    let clear = block(fields.next())?;
    let encrypted = block(fields.next())?;
    end(fields.next())?;
    if digits.len() == 32 {
        let bytes = block(Some(digits))?;
        both_ways(&Key128::new(&bytes), clear, encrypted)?;
        same(
            Call::PlainAes,
            &model_contents::aes(&bytes, clear),
            &encrypted,
        )
    } else {
        let bytes = key(Some(digits))?;
        let key = Key256::new(&bytes);
        both_ways(&key, clear, encrypted)?;
        together(alloc, &key, clear, encrypted)?;
        same(
            Call::PlainAes,
            &model_contents::aes(&bytes, clear),
            &encrypted,
        )
    }
}

fn both_ways<K: BlockKey>(key: &K, clear: [u8; 16], encrypted: [u8; 16]) -> Result<(), RowErr> {
    let mut block = clear;
    key.encrypt(&mut block);
    same(Call::Encrypt, &block, &encrypted)?;
    key.decrypt(&mut block);
    same(Call::Decrypt, &block, &clear)?;
    let mut blocks = [clear; 8];
    key.encrypt8(&mut blocks);
    for block in &blocks {
        same(Call::Encrypt8, block, &encrypted)?;
    }
    Ok(())
}

// The same block four and eight times, and from once to 40 times, by each kernel.
fn together(
    alloc: Global,
    key: &Key256,
    clear: [u8; 16],
    encrypted: [u8; 16],
) -> Result<(), RowErr> {
    let lanes = LaneKey::new(key.copied());
    let four = lanes.encrypted_four(&[clear; 4]);
    holds(Call::EncryptedFour, four == [encrypted; 4])?;
    let eight = aes_kernels::encrypted_eight(&aes_kernels::round_keys(key), &[clear; 8]);
    holds(Call::EncryptedEight, eight == [encrypted; 8])?;
    for count in 1..MOST_BLOCKS + 1 {
        let mut blocks = vec![in alloc; clear; count]?;
        lanes.encrypt_blocks(blocks.as_mut_slice());
        holds(
            Call::LaneBlocks,
            blocks.iter().all(|made| *made == encrypted),
        )?;
        let mut blocks = vec![in alloc; clear; count]?;
        aes_kernels::encrypt_blocks(key, blocks.as_mut_slice());
        holds(
            Call::BitBlocks,
            blocks.iter().all(|made| *made == encrypted),
        )?;
    }
    Ok(())
}

/// key round round-key
pub(crate) fn round_key(_alloc: Global, row: &str) -> Result<(), RowErr> {
    let mut fields = row.split(' ');
    let digits = word(fields.next())?;
    let round = number(fields.next())?;
    let wanted = block(fields.next())?;
    end(fields.next())?;
    if digits.len() == 32 && round <= 10 {
        let key = Key128::new(&block(Some(digits))?);
        same(Call::RoundKey, &key.round_key(round as usize), &wanted)
    } else if round <= 14 {
        let key = Key256::new(&key(Some(digits))?);
        same(Call::RoundKey, &key.round_key(round as usize), &wanted)
    } else {
        Err(RowErr::Number)
    }
}

/// The product of two bytes and the substitute of one, as FIPS 197 works them out (4.2 and 5.1.1).
pub(crate) fn check_bytes() -> Result<(), RowErr> {
    holds(
        Call::PlainProduct,
        model_contents::product(0x57, 0x83) == 0xc1,
    )?;
    holds(
        Call::PlainSubstituted,
        model_contents::substituted(0x53) == 0xed,
    )
}
