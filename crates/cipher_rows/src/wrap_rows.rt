// Rows of AES key wrap (RFC 3394).

use crate::row::{Call, RowErr, end, key, same, word};
use hex::FromHex;
use key_wrap::{BadWrap, unwrap, wrap};
use std::alloc::Global;

/// kek key wrapped
pub(crate) fn key_wrap(_alloc: Global, row: &str) -> Result<(), RowErr> {
    let mut fields = row.split(' ');
    let kek = key(fields.next())?;
    let clear = key(fields.next())?;
    let wrapped = <[u8; 40] as FromHex>::from_hex(word(fields.next())?)?;
    end(fields.next())?;
    same(Call::Wrap, &wrap(&kek, &clear), &wrapped)?;
    match unwrap(&kek, &wrapped) {
        Ok(opened) => same(Call::Unwrap, &opened, &clear)?,
        Err(BadWrap) => return Err(RowErr::Differs(Call::Unwrap)),
    }
    for i in 0..40 {
        let mut changed = wrapped;
        changed[i] ^= 1;
        if unwrap(&kek, &changed) != Err(BadWrap) {
            return Err(RowErr::Differs(Call::UnwrapChanged));
        }
    }
    Ok(())
}
