// Rows of content files under SIV_CTRMAC, of at most one chunk.

use crate::content_rows::Counter;
use crate::row::{Call, RowErr, bytes, end, holds, keys, same};
use ctrmac_chunks::{
    HEADER_LENGTH, SEALED_LENGTH, SEALING_LENGTH, new_header, open_chunk, open_header, seal_chunk,
};
use std::alloc::Global;
use vault_keys::VaultKeys;

// Whether a file's header opens, and its only chunk at this index opens to this plaintext.
fn opens(
    alloc: Global,
    keys: &VaultKeys,
    file: &[u8],
    index: u64,
    plaintext: &[u8],
) -> Result<bool, RowErr> {
    let (front, sealed) = file.split_at(file.len().min(HEADER_LENGTH));
    if front.len() != HEADER_LENGTH || sealed.len() > SEALED_LENGTH {
        return Err(RowErr::Length);
    }
    let mut head = [0; HEADER_LENGTH];
    head.copy_from_slice(front);
    let Ok(header) = open_header(keys, &head) else {
        return Ok(false);
    };
    if sealed.is_empty() {
        return Ok(plaintext.is_empty());
    }
    let mut out = vec![in alloc; 7u8; sealed.len()]?;
    let opened = open_chunk(&header, index, sealed, out.as_mut_slice());
    Ok(opened == Ok(plaintext.len()) && out.starts_with(plaintext))
}

// With a bit changed in any byte, a file doesn't open.
fn check_changes(
    alloc: Global,
    keys: &VaultKeys,
    file: &mut [u8],
    plaintext: &[u8],
) -> Result<(), RowErr> {
    for at in 0..file.len() {
        file[at] ^= 1;
        let changed = opens(alloc, keys, file, 0, plaintext)?;
        holds(Call::ChunkChanged, !changed)?;
        file[at] ^= 1;
    }
    Ok(())
}

/// plaintext file: it opens at its index alone, and with no bit changed
pub(crate) fn content(alloc: Global, row: &str) -> Result<(), RowErr> {
    let mut fields = row.split(' ');
    let plaintext = bytes(alloc, fields.next())?;
    let mut file = bytes(alloc, fields.next())?;
    end(fields.next())?;
    let keys = keys();
    holds(Call::Chunk, opens(alloc, &keys, &file, 0, &plaintext)?)?;
    if file.len() > HEADER_LENGTH {
        let moved = opens(alloc, &keys, &file, 1, &plaintext)?;
        holds(Call::ChunkElsewhere, !moved)?;
    }
    check_changes(alloc, &keys, file.as_mut_slice(), &plaintext)
}

/// What is sealed opens at its own index and under its own header alone.
pub(crate) fn check_round_trip() -> Result<(), RowErr> {
    let keys = keys();
    let mut entropy = Counter { next: 0 };
    let (header, _) = new_header(&keys, &mut entropy)?;
    let (other, _) = new_header(&keys, &mut entropy)?;
    let plaintext = *b"a chunk of a file";
    let mut sealed = [0; 17 + SEALING_LENGTH];
    let mut out = [0; 17];
    for index in [0, 1, 256, u64::MAX] {
        seal_chunk(&header, index, &plaintext, &mut entropy, &mut sealed)?;
        let opened = open_chunk(&header, index, &sealed, &mut out);
        holds(Call::Chunk, opened == Ok(17) && out == plaintext)?;
        let beside = open_chunk(&header, index ^ 1, &sealed, &mut out);
        holds(Call::ChunkElsewhere, beside.is_err())?;
        same(Call::LeftByChunk, &out, &[0; 17])?;
        let of_another = open_chunk(&other, index, &sealed, &mut out);
        holds(Call::ChunkElsewhere, of_another.is_err())?;
    }
    Ok(())
}
