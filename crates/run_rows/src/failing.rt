// A folder whose calls fail.

use outside_mem::MemFolder;
use std::alloc::{AllocError, Global};

/// A folder of which so many calls fail from one on: that one before it does anything, or after a part of it.
pub(crate) fn failing_from(
    alloc: Global,
    folder: MemFolder,
    call: u64,
    count: u64,
    breaks: bool,
) -> Result<MemFolder, AllocError> {
    let mut failing = Vec::new(alloc);
    for further in 0..count {
        failing.push(call.saturating_add(further))?;
    }
    let folder = folder.failing_at(failing);
    if breaks {
        return Ok(folder.breaking_at(vec![in alloc; call]?));
    }
    Ok(folder)
}
