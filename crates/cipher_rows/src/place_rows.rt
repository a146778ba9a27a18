// Rows of places.

use crate::row::{Call, RowErr, bytes, holds, keys, number, word};
use std::alloc::Global;
use vault_names::{Place, clear_name, place_of, seal_name};

/// A threshold, a name, the characters of its sealed text in the root, and `short` or `long`.
pub(crate) fn place(alloc: Global, row: &str) -> Result<(), RowErr> {
    let mut fields = row.split(' ');
    let threshold = u32::try_from(number(fields.next())?).map_err(|_| RowErr::Number)?;
    let name = clear_name(alloc, &bytes(alloc, fields.next())?)?;
    let characters = number(fields.next())?;
    let long = word(fields.next())? == "long";
    let sealed = seal_name(alloc, &keys(), b"", &name)?;
    let text = sealed.as_bytes();
    holds(Call::SealedText, text.len() as u64 == characters)?;
    holds(
        Call::Place,
        (place_of(threshold, text) != Place::Short) == long,
    )
}
