// Rows of message authentication codes: CMAC (SP 800-38B) and HMAC (RFC 2104).

use crate::row::{Call, RowErr, block, bytes, end, key, same, word};
use aes_block::{Key128, Key256};
use hmac_sha::{hmac256, hmac256_of_pieces, hmac384, hmac512};
use std::alloc::Global;

/// key text tag
pub(crate) fn cmac(alloc: Global, row: &str) -> Result<(), RowErr> {
    let mut fields = row.split(' ');
    let digits = word(fields.next())?;
    let text = bytes(alloc, fields.next())?;
    let tag = block(fields.next())?;
    end(fields.next())?;
    if digits.len() == 32 {
        let key = block(Some(digits))?;
        same(Call::Cmac, &siv_mode::cmac(&Key128::new(&key), &text), &tag)?;
        same(Call::PlainCmac, &model_contents::cmac(&key, &text), &tag)
    } else {
        let key = key(Some(digits))?;
        same(Call::Cmac, &siv_mode::cmac(&Key256::new(&key), &text), &tag)?;
        same(Call::PlainCmac, &model_contents::cmac(&key, &text), &tag)
    }
}

/// hash key text tag
pub(crate) fn hmac(alloc: Global, row: &str) -> Result<(), RowErr> {
    let mut fields = row.split(' ');
    let hash = word(fields.next())?;
    let key = bytes(alloc, fields.next())?;
    let text = bytes(alloc, fields.next())?;
    let tag = bytes(alloc, fields.next())?;
    end(fields.next())?;
    if hash == "sha256" {
        let (first, second) = text.split_at(text.len() / 2);
        same(Call::Hmac256, &hmac256(&key, &text), &tag)?;
        same(
            Call::Hmac256OfPieces,
            &hmac256_of_pieces(&key, first, second),
            &tag,
        )
    } else if hash == "sha384" {
        same(Call::Hmac384, &hmac384(&key, &text), &tag)
    } else if hash == "sha512" {
        same(Call::Hmac512, &hmac512(&key, &text), &tag)
    } else {
        Err(RowErr::Word)
    }
}
