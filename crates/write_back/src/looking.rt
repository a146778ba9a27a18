//! Looks at the files for which changes wait, before they are committed.

ghost use Rattle.std.specs.Prelude.{◌≡◌, ◌↔◌, None, IfOk, IsTrue, IsFalse, IsErr, option_map};
ghost use Rattle.std.specs.Str.{bytes_eq};
ghost use Rattle.outside.specs.Calls.{HasCause, Told};
ghost use Rattle.outside.specs.Disk.{IsFile};
ghost use Rattle.outside.specs.Images.{now};
ghost use Rattle.deeds.specs.Deeds.{CanDeed};
ghost use Rattle.deeds.specs.Plain.{plain, plain_ranges};
ghost use Rattle.pending_files.specs.Pending.{ArePending};
ghost use Rattle.pending_files.specs.Laid.{CanWait};
ghost use Rattle.write_back.specs.Headers.{AreHeaders, BeginsWith, CanHold, Fits};

use crate::headers::Headers;
use deeds::{Deed, Range};
use file_chunks::HEADER_LENGTH;
use outside::{FolderErr, Kind, Reads};
use pending_files::Pending;
use vault_path::VaultPath;

/// Whether the reshaping of a file can still be done: the file is there, each range begins within it, as it is by then, it ends up
/// with the bytes that it is to have, and it begins with its header, if that is given. Of any other deed: yes. It fails only if the
/// folder's count of faults rose.
pub fn fits<R: Reads>(
    folder: &mut R,
    deed: &Deed,
    header: Option<&[u8; HEADER_LENGTH]>,
) -> Result<bool, FolderErr>
    ensures fits { IfOk result (λ fits. Told (R.log folder.old) (λ log. IsTrue fits ↔ Fits (plain deed.now) (option_map (λ bytes. bytes.now) header.entry) (now log))) }
    ensures log { R.log folder.new ≡ R.log folder.old }
    ensures changes { R.changes folder.new ≡ R.changes folder.old }
    ensures cause { HasCause (R.faults folder.old) (R.faults folder.new) (IsErr result) }
{
    let Deed::Reshape(path, len, ranges) = deed else {
        return Ok(true);
    };
    let Some(Kind::File(held)) = folder.kind(path)? else {
        return Ok(false);
    };
    if !can_hold(*len, held, ranges) {
        return Ok(false);
    }
    match header {
        Some(header) => begins_with(folder, path, header),
        None => Ok(true),
    }
}

// Whether a file of this many bytes can be written in these ranges, in order, and then cut to a length.
fn can_hold(len: u64, mut held: u64, ranges: &[Range]) -> bool
    ensures { IsTrue result ↔ CanHold len held (plain_ranges ranges.now) }
{
    for range in ranges {
        let count = range.bytes.len() as u64;
        if held < range.at || len < count || len - count < range.at {
            return false;
        }
        held = held.max(range.at + count);
    }
    len <= held
}

// Whether the file at a path begins with its header.
fn begins_with<R: Reads>(
    folder: &mut R,
    path: &VaultPath,
    header: &[u8; HEADER_LENGTH],
) -> Result<bool, FolderErr>
    requires { Told (R.log folder.old) (λ log. IsFile (now log) path.now) }
    ensures begins { IfOk result (λ begins. Told (R.log folder.old) (λ log. IsTrue begins ↔ BeginsWith header.now path.now (now log))) }
    ensures log { R.log folder.new ≡ R.log folder.old }
    ensures changes { R.changes folder.new ≡ R.changes folder.old }
    ensures cause { HasCause (R.faults folder.old) (R.faults folder.new) (IsErr result) }
{
    let mut bytes = [0; HEADER_LENGTH];
    let count = folder.read(path, 0, &mut bytes)?;
    Ok(count == HEADER_LENGTH && are_same(&bytes, header))
}

fn are_same(bytes: &[u8; HEADER_LENGTH], header: &[u8; HEADER_LENGTH]) -> bool
    ensures { result ≡ bytes_eq bytes.now header.now }
{
    bytes == header
}

// The path of the file of a deed, if another program changed the file so that it doesn't fit any more.
fn changed_file<R: Reads>(
    folder: &mut R,
    deed: &Deed,
    headers: &Headers,
) -> Result<Option<VaultPath>, FolderErr>
    ensures unchanged { IfOk result (λ changed. Told (R.log folder.old) (λ log. CanDeed (plain deed.now) (now log) → AreHeaders headers.now (now log) → changed ≡ None)) }
    ensures log { R.log folder.new ≡ R.log folder.old }
    ensures changes { R.changes folder.new ≡ R.changes folder.old }
    ensures cause { HasCause (R.faults folder.old) (R.faults folder.new) (IsErr result) }
{
    let Deed::Reshape(path, _, _) = deed else {
        return Ok(None);
    };
    if fits(folder, deed, headers.of(path))? {
        return Ok(None);
    }
    Ok(Some(path.copied()))
}

/// Drops what waits for each file that another program changed, and reports it: whether there is one. A folder that tells what it
/// holds has none.
pub(crate) fn drop_changed<R: Reads>(
    folder: &mut R,
    pending: &mut Pending,
    headers: &Headers,
) -> Result<bool, FolderErr>
    requires waits { Told (R.log folder.old) (λ log. CanWait pending.old (now log)) }
    requires headers { Told (R.log folder.old) (λ log. AreHeaders headers.now (now log)) }
    ensures untold { IfOk result (λ dropped. Told (R.log folder.old) (λ log. IsFalse dropped)) }
    ensures kept { IfOk result (λ dropped. IsFalse dropped → pending.new ≡ pending.old) }
    ensures log { R.log folder.new ≡ R.log folder.old }
    ensures changes { R.changes folder.new ≡ R.changes folder.old }
    ensures cause { IfOk result (λ dropped. HasCause (R.faults folder.old) (R.faults folder.new) (IsTrue dropped)) }
    ensures failed { HasCause (R.faults folder.old) (R.faults folder.new) (IsErr result) }
{
    let mut dropped = false;
    for index in (0..pending.deeds().len()).rev() {
        let Some(deed) = pending.deeds().get(index) else {
            continue;
        };
        if let Some(path) = changed_file(folder, deed, headers)? {
            folder.report_changed(&path);
            pending.drop_file(&path);
            dropped = true;
        }
    }
    Ok(dropped)
}
