//! Whether a vault's folder takes writes behind a file's first byte.

ghost use Rattle.std.specs.Prelude.{◌≡◌, false, IfOk};
ghost use Rattle.vault_top.specs.Span.{course, sink_in};
ghost use Rattle.vault_top.specs.Ending.{IsReported, refused};
ghost use Rattle.vault_top.specs.declared.cause.Cause.TheVariants.{FolderFault};

use crate::host::Host;
use host_calls::{Found, HostCalls};
use log::{Log, error};
use outside::{FolderErr, Sink};
use outside_real::StdCalls;
use std::alloc::AllocError;
use std::fs::File;
use std::rt::Files;
use vault_top::report_text;

// The status of a folder that failed.
const FAULT: u8 = 4;

// Writes a second piece behind the first byte of a file, each flushed, and says whether both are read.
fn holds_both<C: HostCalls>(calls: &mut C, probe: &str) -> Result<bool, FolderErr> {
    let made = calls.stat(probe, false)?;
    let Found::File(seen, _) = made else {
        return Ok(false);
    };
    calls.fsync(probe, made)?;
    calls.write_at(probe, seen, 1, b"b", false)?;
    calls.fsync(probe, made)?;
    let mut bytes = [0u8; 3];
    let count = calls.read_at(probe, seen, 0, &mut bytes)?;
    Ok(bytes[..count] == b"ab"[..])
}

// Whether a vault's folder takes what a commit writes. Where the folder is none of a vault, or no file can be made in it, `run` comes to that and reports it.
fn takes_pieces<R: Files<File = File> + AllocGlobal, L: Log>(
    host: Host<'_, R, L>,
    path: &str,
) -> Result<bool, AllocError> {
    let data = format!(in host.rt.alloc(); "{path}/d")?;
    let probe = format!(in host.rt.alloc(); "{path}/served.journal.probe")?;
    let mut calls = StdCalls::new(host.rt, host.log);
    if !matches!(calls.stat(&data, false), Ok(Found::Dir(_))) {
        return Ok(true);
    }
    // one that a stop has left
    let _ = calls.unlink(&probe);
    if calls.create(&probe, b"a").is_err() {
        return Ok(true);
    }
    let takes = matches!(holds_both(&mut calls, &probe), Ok(true));
    let _ = calls.unlink(&probe);
    Ok(takes)
}

/// Whether the folder at a path, whose lock is taken, can be served: to be read any can. A host may take a file only from its front on, as rclone's mounts do by
/// default, and each commit writes within one; so that is found out before, with a file of its own beside the journal. If not, it is told.
pub(crate) fn can_be_served<R: Files<File = File> + AllocGlobal, L: Log>(
    host: Host<'_, R, L>,
    path: &str,
    read_only: bool,
) -> Result<bool, AllocError>
    ensures { IfOk result (λ can. can ≡ false → read_only ≡ false) }
{
    if read_only || takes_pieces(host, path)? {
        return Ok(true);
    }
    error!(host.log; target: "vaultd", "{path} can't be written behind a file's first byte: mount it with --vfs-cache-mode writes, or serve it with --read-only");
    Ok(false)
}

/// Reports that a folder can't be served, and returns the program's status: those of a folder that failed.
pub(crate) fn report_unfit<O: Sink>(out: &mut O) -> u8
    ensures { IsReported (course (sink_in O.Sink) out.old out.new) (refused FolderFault) result }
{
    report_text(out, b"device fault: folder\n", FAULT, FAULT)
}
