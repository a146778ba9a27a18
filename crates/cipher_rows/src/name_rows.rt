// Rows of clear names and of sealed ones.

use crate::row::{Call, RowErr, bytes, holds, keys, word};
use base64::engine::general_purpose::URL_SAFE;
use std::alloc::Global;
use vault_names::{
    BadName, Place, clear_name, long_folder, open_name, place_of, reads_long, seal_name,
};

// The threshold of the vault that the names are of.
const THRESHOLD: u32 = 220;

/// The parent's identifier, a name in NFC, its sealed text, the folder of its long place, and `short` or `long`.
pub(crate) fn sealed(alloc: Global, row: &str) -> Result<(), RowErr> {
    let mut fields = row.split(' ');
    let parent = bytes(alloc, fields.next())?;
    let name = clear_name(alloc, &bytes(alloc, fields.next())?)?;
    let text = word(fields.next())?.as_bytes();
    let folder = word(fields.next())?.as_bytes();
    let long = word(fields.next())? == "long";
    let sealed = seal_name(alloc, &keys(), &parent, &name)?;
    holds(Call::SealedText, sealed.as_bytes() == text)?;
    let opened = open_name(alloc, &keys(), &parent, text)?;
    holds(Call::OpenedName, opened.is_some_and(|n| n == name))?;
    holds(Call::LongFolder, long_folder(text).as_slice() == folder)?;
    holds(
        Call::Place,
        (place_of(THRESHOLD, text) != Place::Short) == long,
    )?;
    holds(Call::FolderOfText, reads_long(folder, text))?;
    holds(Call::FolderOfAnother, !reads_long(folder, folder))
}

/// The parent's identifier, a text that isn't a sealed name there, and what is wrong with it.
pub(crate) fn refused_text(alloc: Global, row: &str) -> Result<(), RowErr> {
    let mut fields = row.split(' ');
    let parent = bytes(alloc, fields.next())?;
    let text = word(fields.next())?;
    let text = if text == "-" { "" } else { text };
    let opened = open_name(alloc, &keys(), &parent, text.as_bytes())?;
    holds(Call::OpenedName, opened.is_none())
}

/// Bytes that are sealed as a name is, and `opened` or `refused`.
pub(crate) fn sealed_bytes(alloc: Global, row: &str) -> Result<(), RowErr> {
    let mut fields = row.split(' ');
    let name = bytes(alloc, fields.next())?;
    let opens = word(fields.next())? == "opened";
    let keys = keys();
    let parent = b"parent";
    let mut sealed = vec![in alloc; 0u8; name.len().saturating_add(16)]?;
    if sealed.len() != name.len().saturating_add(16) {
        return Err(RowErr::Length);
    }
    siv_mode::seal(
        keys.mac_key(),
        keys.encryption_key(),
        Some(parent),
        &name,
        &mut sealed,
    );
    let mut text = URL_SAFE.encode(alloc, &sealed)?;
    text.push_str(".c9r")?;
    let opened = open_name(alloc, &keys, parent, text.as_bytes())?;
    holds(Call::OpenedName, opened.is_some() == opens)
}

/// Bytes, and the clear name that they stand for.
pub(crate) fn clear(alloc: Global, row: &str) -> Result<(), RowErr> {
    let mut fields = row.split(' ');
    let name = clear_name(alloc, &bytes(alloc, fields.next())?)?;
    let wanted = bytes(alloc, fields.next())?;
    holds(Call::Name, name.as_bytes() == wanted.as_slice())?;
    holds(
        Call::NameText,
        name.into_text().as_bytes() == wanted.as_slice(),
    )
}

/// Bytes, and why they stand for no clear name.
pub(crate) fn bad(alloc: Global, row: &str) -> Result<(), RowErr> {
    let mut fields = row.split(' ');
    let name = bytes(alloc, fields.next())?;
    let wanted = word(fields.next())?;
    let Err(fault) = clear_name(alloc, &name) else {
        return Err(RowErr::Differs(Call::Name));
    };
    let found = match fault {
        BadName::NotUtf8 => "not-utf8",
        BadName::Empty => "empty",
        BadName::Dots => "dots",
        BadName::Forbidden => "forbidden",
        BadName::TooLong(1025) => "too-long-1025",
        BadName::TooLong(_) => "too-long",
        BadName::Memory => "memory",
    };
    holds(Call::Fault, found == wanted)
}
