// Comparing what runs came to with their rows.

use crate::folders::holds;
use crate::plan::Row;
use crate::replies::{Likeness, compare_replies};
use crate::row::RowErr;
use crate::running::Ran;
use outside_mem::MemFolder;
use std::alloc::Global;
use std::rt::Files;

// Compares what a run came to with its row, but for its folder.
fn check_ended(alloc: Global, row: &Row<'_>, ran: &mut Ran) -> Result<(), RowErr> {
    if ran.report.taken() != row.report.as_slice() {
        return Err(RowErr::Differs("report"));
    }
    if ran.status as u64 != row.status {
        return Err(RowErr::Differs("status"));
    }
    if ran.secret.left().len() as u64 != row.left {
        return Err(RowErr::Differs("secret's rest"));
    }
    if compare_replies(alloc, row, &mut ran.workers)? != Likeness::Same {
        return Err(RowErr::Differs("replies"));
    }
    Ok(())
}

// Compares a run's folder after it with its row. If that doesn't say that it is changed, it consists of the parts that it began with.
fn check_folder<R: Files + Alloc>(
    rt: &R,
    alloc: Global,
    parts: &str,
    row: &Row<'_>,
    folder: &mut MemFolder,
) -> Result<(), RowErr> {
    if row.changed || holds(rt, alloc, parts, row.holds.unwrap_or(row.folder), folder)? {
        Ok(())
    } else {
        Err(RowErr::Differs("folder"))
    }
}

/// Compares what a run came to with its row, and takes out its folder.
pub(crate) fn check_run<R: Files + Alloc>(
    rt: &R,
    alloc: Global,
    parts: &str,
    row: &Row<'_>,
    ran: &mut Ran,
) -> Result<MemFolder, RowErr> {
    check_ended(alloc, row, ran)?;
    // What it holds is looked at by calls that don't fail.
    let mut folder = ran.take_folder()?.failing_at(Vec::new(alloc));
    check_folder(rt, alloc, parts, row, &mut folder)?;
    Ok(folder)
}

// Whether the report says that the folder failed.
fn tells_fault(report: &[u8]) -> bool {
    report == b"device fault: folder\n".as_slice()
        || report == b"serving\ndevice fault: folder\n".as_slice()
}

/// A run whose folder failed ends in a device fault, or it is as without the fault but for replies `device fault`.
pub(crate) fn is_fault_told(alloc: Global, row: &Row<'_>, ran: &mut Ran) -> Result<bool, RowErr> {
    if ran.status == 4 && tells_fault(ran.report.taken()) {
        return Ok(true);
    }
    Ok(
        ran.status as u64 == row.status
            && ran.report.taken() == row.report.as_slice()
            && compare_replies(alloc, row, &mut ran.workers)? == Likeness::Faulty,
    )
}
