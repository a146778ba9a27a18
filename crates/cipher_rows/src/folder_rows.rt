// Rows of the folders of directories.

use crate::row::{Call, RowErr, bytes, holds, keys, word};
use sha1::Sha1;
use std::alloc::Global;
use vault_names::{base32, folder_of};

/// An identifier of at most 1,000 bytes, and its folder with `/` between the parts.
pub(crate) fn folder(alloc: Global, row: &str) -> Result<(), RowErr> {
    let mut fields = row.split(' ');
    let identifier = bytes(alloc, fields.next())?;
    let mut parts = word(fields.next())?.split('/');
    if identifier.len() > 1000 {
        return Err(RowErr::Length);
    }
    let path = folder_of(&keys(), &identifier);
    if path.len() != 3 {
        return Err(RowErr::Differs(Call::Parts));
    }
    for index in 0..3 {
        holds(
            Call::Parts,
            path.part(index) == word(parts.next())?.as_bytes(),
        )?;
    }
    Ok(())
}

/// A text, and its SHA-1 hash in base32.
pub(crate) fn base32_digits(alloc: Global, row: &str) -> Result<(), RowErr> {
    let mut fields = row.split(' ');
    let text = bytes(alloc, fields.next())?;
    let digits = word(fields.next())?;
    let found = base32(&Sha1::digest(&text));
    holds(Call::Digits, found.as_slice() == digits.as_bytes())
}
