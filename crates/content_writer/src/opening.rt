ghost use Rattle.std.specs.Prelude.{◌≡◌, ◌≤◌, ◌*◌, ◌^◌, ◌<◌, ℕ, List, Some, IfOk, OnOk, IsErrOf};
ghost use Rattle.outside.specs.Calls.{Told};
ghost use Rattle.outside.specs.Images.{disk_in};
ghost use Rattle.file_chunks.specs.File.{clear_length};
ghost use Rattle.content_reader.specs.Reading.{IsFileOf};
ghost use Rattle.content_laws.specs.Laws.{IsOpened, IsUnopened};
ghost use Rattle.content_writer.specs.Sealing.{HasFaulted, IsOldPlaintext, IsDamagedChunk};

use crate::error::WriteErr;
use crate::plaintext::Plaintext;
use content_reader::SealedFile;
use file_chunks::{CHUNK_LENGTH, HEADER_LENGTH, Header, clear_len, open_header, reads_are_slices};
use outside::Reads;
use vault_keys::VaultKeys;
use vault_path::VaultPath;

/// A content file that is open: its header, and the length of its content in bytes.
#[derive(Drop)]
pub(crate) struct OpenFile {
    pub(crate) header: Header,
    pub(crate) length: u64,
}

/// Opens a host file whose size a content has. `Damaged` is returned if its header doesn't open, or isn't there
/// whole.
pub(crate) fn open_file<R: Reads>(
    folder: &mut R,
    keys: &VaultKeys,
    file: &SealedFile,
) -> Result<OpenFile, WriteErr>
    requires { (n : ℕ) × (clear_length file.now.size ≡ Some n) }
    ensures length { IfOk result (λ content. clear_length file.now.size ≡ Some content.length) }
    ensures opened { IfOk result (λ content. Told (disk_in (R.log folder.old)) (λ d. (bytes : List ℕ) → IsFileOf d file.now.path file.now.size bytes
        → IsOpened keys.now content.header content.length bytes)) }
    ensures unopened { IsErrOf result WriteErr.Damaged → Told (disk_in (R.log folder.old)) (λ d. (bytes : List ℕ) → IsFileOf d file.now.path file.now.size bytes
        → IsUnopened keys.now bytes) }
    ensures device { IsErrOf result WriteErr.Device → HasFaulted (disk_in (R.log folder.old)) file.now.path (R.faults folder.old) (R.faults folder.new) }
    ensures nothing_drawn { IsErrOf result WriteErr.Random → ⊥ }
    ensures log { R.log folder.new ≡ R.log folder.old }
    ensures changes { R.changes folder.new ≡ R.changes folder.old }
    ensures later { R.faults folder.old ≤ R.faults folder.new }
{
    keys.have_32_bytes();
    let length = clear_len(file.size).unwrap();
    let mut bytes = [0; HEADER_LENGTH];
    let count = folder.read(&file.path, 0, &mut bytes)?;
    if count < HEADER_LENGTH {
        return Err(WriteErr::Damaged);
    }
    let header = open_header(keys, &bytes)?;
    Ok(OpenFile { header, length })
}

/// Fetches the plaintext of the chunk of an index of an open file; past the end of its content there is none. `Damaged` is returned if
/// the chunk doesn't open, or isn't there whole; `plaintext` may hold anything after an error.
pub(crate) fn fetch<R: Reads>(
    folder: &mut R,
    path: &VaultPath,
    content: &OpenFile,
    index: u64,
    plaintext: &mut Plaintext,
) -> Result<(), WriteErr>
    requires index { index < 2 ^ 40 }
    ensures old { OnOk result (IsOldPlaintext (disk_in (R.log folder.old)) path.now content.now.header content.now.length index plaintext.new) }
    ensures damaged { IsErrOf result WriteErr.Damaged → IsDamagedChunk (disk_in (R.log folder.old)) path.now content.now.header content.now.length index }
    ensures device { IsErrOf result WriteErr.Device → HasFaulted (disk_in (R.log folder.old)) path.now (R.faults folder.old) (R.faults folder.new) }
    ensures nothing_drawn { IsErrOf result WriteErr.Random → ⊥ }
    ensures log { R.log folder.new ≡ R.log folder.old }
    ensures changes { R.changes folder.new ≡ R.changes folder.old }
    ensures later { R.faults folder.old ≤ R.faults folder.new }
{
    reads_are_slices();
    let more = content.length.saturating_sub(CHUNK_LENGTH as u64 * index);
    if more == 0 {
        plaintext.clear();
        return Ok(());
    }
    plaintext.open(folder, path, &content.header, index)?;
    if plaintext.bytes().len() as u64 != more.min(CHUNK_LENGTH as u64) {
        return Err(WriteErr::Damaged);
    }
    Ok(())
}
