// Rows of content files, of at most one chunk.

use crate::row::{Call, RowErr, bytes, end, holds, keys, same};
use file_chunks::{
    HEADER_LENGTH, SEALED_LENGTH, SEALING_LENGTH, clear_len, new_header, open_chunk, open_header,
    seal_chunk, span,
};
use model_contents::{Cell, Content, content_of};
use outside::{Entropy, Failed};
use std::alloc::Global;
use vault_keys::VaultKeys;

// Whether the plain content of a file is this: whether its header opens, and what its only chunk is.
fn is_content(content: &Content, opens: bool, cell: &Option<Cell>) -> bool {
    match content {
        Content::BadSize => false,
        Content::Chunks(header, cells) => {
            *header == opens
                && match cell {
                    None => cells.is_empty(),
                    Some(cell) => cells.len() == 1 && cells.first() == Some(cell),
                }
        }
    }
}

// The header opens and its only chunk opens to this plaintext, by what is in use.
fn check_opening(
    alloc: Global,
    keys: &VaultKeys,
    bytes: &[u8],
    plaintext: &[u8],
) -> Result<(), RowErr> {
    let mut head = [0; HEADER_LENGTH];
    let (front, sealed) = bytes.split_at(bytes.len().min(HEADER_LENGTH));
    if front.len() != HEADER_LENGTH {
        return Err(RowErr::Length);
    }
    head.copy_from_slice(front);
    let header = open_header(keys, &head)?;
    if sealed.len() < SEALING_LENGTH || sealed.len() > SEALED_LENGTH {
        return holds(Call::Chunk, sealed.is_empty() && plaintext.is_empty());
    }
    let mut out = vec![in alloc; 7u8; sealed.len()]?;
    let opened = open_chunk(&header, 0, sealed, out.as_mut_slice());
    holds(Call::Chunk, opened == Ok(plaintext.len()))?;
    holds(Call::Chunk, out.starts_with(plaintext))?;
    let moved = open_chunk(&header, 1, sealed, out.as_mut_slice());
    holds(Call::ChunkElsewhere, moved.is_err())
}

// A bit changed in the header, or in the chunk, damages it.
fn check_changes(
    alloc: Global,
    keys: &VaultKeys,
    bytes: &mut [u8],
    plaintext: &[u8],
) -> Result<(), RowErr> {
    for at in [0usize, 11, 12, 20, 67, 68, 79, 80, 95] {
        if at < bytes.len() && bytes.len() >= HEADER_LENGTH + SEALING_LENGTH {
            bytes[at] ^= 1;
            let content = content_of(alloc, keys, bytes)?;
            let damaged = Some(Cell::Damaged(plaintext.len()));
            let right = is_content(&content, HEADER_LENGTH <= at, &damaged);
            holds(Call::PlainContentChanged, right)?;
            bytes[at] ^= 1;
        }
    }
    Ok(())
}

/// plaintext file
pub(crate) fn content(alloc: Global, row: &str) -> Result<(), RowErr> {
    let mut fields = row.split(' ');
    let plaintext = bytes(alloc, fields.next())?;
    let mut file = bytes(alloc, fields.next())?;
    end(fields.next())?;
    let keys = keys();
    let cell = if file.len() == HEADER_LENGTH {
        None
    } else {
        Some(Cell::Good(Vec::from_slice(alloc, &plaintext)?))
    };
    let content = content_of(alloc, &keys, &file)?;
    holds(Call::PlainContent, is_content(&content, true, &cell))?;
    check_opening(alloc, &keys, &file, &plaintext)?;
    check_changes(alloc, &keys, file.as_mut_slice(), &plaintext)
}

/// The length of the content of a host file's size.
pub(crate) fn check_sizes() -> Result<(), RowErr> {
    for (size, length) in [
        (0, None),
        (67, None),
        (68, Some(0)),
        (69, None),
        (95, None),
        (96, Some(0)),
        (97, Some(1)),
        (32_864, Some(32_768)),
        (32_864 + 27, None),
        (32_864 + 28, Some(32_768)),
        (32_893, Some(32_769)),
        (u64::MAX, Some(18_430_994_932_531_850_987)),
    ] {
        holds(Call::Size, clear_len(size) == length)?;
    }
    Ok(())
}

/// The chunks that a slice meets.
pub(crate) fn check_spans() -> Result<(), RowErr> {
    for (at, count, met) in [
        (0u64, 0u64, (0, 0)),
        (32_768, 0, (1, 0)),
        (0, 1, (0, 1)),
        (32_767, 1, (0, 1)),
        (32_767, 2, (0, 2)),
        (0, 32_768, (0, 1)),
        (32_768, 32_768, (1, 1)),
        (65_535, 32_770, (1, 3)),
        (u64::MAX - 1, 1, (562_949_953_421_311, 1)),
    ] {
        let end = at.checked_add(count);
        holds(Call::Span, end.is_some() && span(at, count) == met)?;
    }
    Ok(())
}

/// Random bytes that count up.
#[derive(Drop)]
pub(crate) struct Counter {
    pub(crate) next: u8,
}

impl Entropy for Counter {
    ghost use Rattle.std.specs.Prelude.{None};

    ghost drawn = { λ _. None };

    ghost faults = { λ _. 0 };

    fn fill(&mut self, out: &mut [u8]) -> Result<(), Failed> {
        for byte in out.iter_mut() {
            *byte = self.next;
            self.next = self.next.wrapping_add(1);
        }
        Ok(())
    }
}

/// What is sealed opens at its own index alone.
pub(crate) fn check_round_trip() -> Result<(), RowErr> {
    let keys = keys();
    let mut entropy = Counter { next: 0 };
    let (header, bytes) = new_header(&keys, &mut entropy)?;
    let reopened = open_header(&keys, &bytes)?;
    let plaintext = *b"a chunk of a file";
    let mut sealed = [0; 17 + SEALING_LENGTH];
    let mut out = [0; 17];
    for index in [0, 1, 256, u64::MAX] {
        seal_chunk(&header, index, &plaintext, &mut entropy, &mut sealed)?;
        let opened = open_chunk(&reopened, index, &sealed, &mut out);
        holds(Call::Chunk, opened == Ok(17) && out == plaintext)?;
        let beside = open_chunk(&reopened, index ^ 1, &sealed, &mut out);
        holds(Call::ChunkElsewhere, beside.is_err())?;
        same(Call::LeftByChunk, &out, &[0; 17])?;
    }
    Ok(())
}
