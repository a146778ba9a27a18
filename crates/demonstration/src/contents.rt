//! The bytes of a content file.

ghost use Rattle.std.specs.Prelude.{◌≡◌, ℕ, List, length, Some, IfOk, IsErrOf};
ghost use Rattle.outside.specs.Calls.{Told};
ghost use Rattle.outside.specs.Images.{disk_in};
ghost use Rattle.tree_model.specs.Rows.{all_there, joined};
ghost use Rattle.file_chunks.specs.File.{content_of};
ghost use Rattle.content_reader.specs.Reading.{IsFileOf};
ghost use Rattle.demonstration.specs.Reading.{HasRead, IsUnread};
ghost use Rattle.demonstration.specs.declared.contents.TheConstants.{PIECE};

use crate::error::LeftErr;
use content_reader::{ContentReader, SealedFile, Slice};
use outside::Reads;
use std::alloc::{AllocError, Global};
use vault_keys::VaultKeys;

// How many bytes are read at once.
const PIECE: usize = 65_536;

/// All clear bytes of a content file.
pub(crate) fn read_whole<R: Reads>(
    alloc: Global,
    folder: &mut R,
    keys: &VaultKeys,
    reader: &mut ContentReader,
    file: &SealedFile,
) -> Result<Vec<u8>, LeftErr>
    ensures bytes { IfOk result (λ bytes. Told (disk_in (R.log folder.old)) (λ d. (sealed : List ℕ) → IsFileOf d file.now.path file.now.size sealed →
        all_there (joined (content_of keys.now sealed)) ≡ Some bytes.items)) }
    ensures damaged { IsErrOf result LeftErr.Damaged → IsUnread (disk_in (R.log folder.old)) keys.now file.now }
    ensures log { R.log folder.new ≡ R.log folder.old }
{
    keys.have_32_bytes();
    let mut bytes = Vec::new(alloc);
    let mut piece = zeros(alloc, PIECE)?;
    // The clear bytes are fewer than the sealed ones, so one of these reads is the last.
    for index in 0..file.size / PIECE as u64 + 1 {
        let at = index * PIECE as u64;
        let count = read_piece(folder, keys, reader, file, at, &mut piece, &mut bytes)?;
        if count < PIECE {
            return Ok(bytes);
        }
    }
    Err(LeftErr::Damaged)
}

fn zeros(alloc: Global, count: usize) -> Result<Vec<u8>, AllocError>
    ensures { IfOk result (λ zeros. length zeros.items ≡ count) }
{
    vec![in alloc; 0u8; count]
}

// Puts the bytes from a place on, as many as a piece has room for, after others, and returns their number.
fn read_piece<R: Reads>(
    folder: &mut R,
    keys: &VaultKeys,
    reader: &mut ContentReader,
    file: &SealedFile,
    at: u64,
    piece: &mut Vec<u8>,
    bytes: &mut Vec<u8>,
) -> Result<usize, LeftErr>
    requires { length piece.old.items ≡ PIECE }
    ensures room { length piece.new.items ≡ PIECE }
    ensures read { IfOk result (HasRead (disk_in (R.log folder.old)) keys.now file.now at bytes.old.items bytes.new.items) }
    ensures damaged { IsErrOf result LeftErr.Damaged → IsUnread (disk_in (R.log folder.old)) keys.now file.now }
    ensures log { R.log folder.new ≡ R.log folder.old }
{
    let slice = Slice {
        at,
        count: PIECE as u32,
    };
    let count = reader.read(folder, keys, file, slice, piece)?;
    bytes.extend_from_slice(&piece[..count as usize])?;
    Ok(count as usize)
}
