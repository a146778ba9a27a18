//! Writing the report.

ghost use Rattle.std.specs.Prelude.{◌≡◌, ◌≤◌, List, ◌++◌, IfOk, OnOk, OnErr, IsErr, string_bytes, decimal};
ghost use Rattle.outside.specs.Calls.{Rose, HasCause, Changes};
ghost use Rattle.vault_top.specs.Lines.{line_text};
ghost use Rattle.vault_top.specs.Span.{course, sink_in};
ghost use Rattle.vault_top.specs.Report.{line, sessions_line, TakesPart};
ghost use Rattle.session_server.specs.declared.ending.SessionEnd as ends;
ghost use Rattle.session_server.specs.Ends.{AreCounts};
ghost use Rattle.vault_top.specs.Writing.{IsWritten};
ghost use Rattle.vault_top.specs.Ending.{refused, IsReported};

use crate::cause::Cause;
use crate::line::Line;
use itoa::Buffer;
use outside::{Failed, Sink};
use session_server::SessionCounts;
use std::alloc::{AllocError, Global};

/// Writes all bytes, unless the sink fails.
pub(crate) fn write_all<O: Sink>(out: &mut O, bytes: &[u8]) -> Result<(), Failed>
    ensures whole { OnOk result (Changes (O.taken out.old) (O.taken out.new) (λ old new. new ≡ old ++ bytes.now)) }
    ensures part { OnErr result (Changes (O.taken out.old) (O.taken out.new) (TakesPart bytes.now)) }
    ensures cause { HasCause (O.faults out.old) (O.faults out.new) (IsErr result) }
{
    let mut count = 0;
    while count < bytes.len() {
        let more = out.write(&bytes[count..])?;
        count += more;
    }
    Ok(())
}

/// Writes a text of the report, and returns the program's status: `whole`, or `cut` if the sink failed.
pub fn report<O: Sink>(out: &mut O, text: &[u8], whole: u8, cut: u8) -> u8
    ensures written { IsWritten (Rose (O.faults out.old) (O.faults out.new)) (O.taken out.old) (O.taken out.new) text.now whole cut result }
    ensures faults { O.faults out.old ≤ O.faults out.new }
{
    match write_all(out, text) {
        Ok(()) => whole,
        Err(_) => cut,
    }
}

/// Reports why the job isn't done, and returns the program's status, which is the cause's whether the line was taken or not.
pub(crate) fn refuse<O: Sink>(out: &mut O, cause: &Cause) -> u8
    ensures { IsReported (course (sink_in O.Sink) out.old out.new) (refused cause.now) result }
{
    let mut digits = Buffer::new();
    let status = cause.status();
    match write_line(out, &cause.line(&mut digits)) {
        Ok(()) => status,
        Err(_) => status,
    }
}

// Writes a line of the report, piece by piece, and its LF.
fn write_line<O: Sink>(out: &mut O, pieces: &Line<'_>) -> Result<(), Failed>
    ensures whole { OnOk result (Changes (O.taken out.old) (O.taken out.new) (λ old new. new ≡ old ++ line (line_text pieces.now))) }
    ensures part { OnErr result (Changes (O.taken out.old) (O.taken out.new) (TakesPart (line (line_text pieces.now)))) }
    ensures cause { HasCause (O.faults out.old) (O.faults out.new) (IsErr result) }
{
    write_all(out, pieces.head.as_bytes())?;
    write_all(out, pieces.detail)?;
    write_all(out, b"\n")
}

/// The report's last line, of the counts of how sessions ended.
pub(crate) fn counts_line(alloc: Global, counts: &SessionCounts) -> Result<String, AllocError>
    ensures { IfOk result (λ line. (ends : List ends.SessionEnd) → AreCounts counts.now ends → string_bytes line ≡ sessions_line ends) }
{
    let mut line = String::new(alloc);
    add_count(&mut line, "sessions ", counts.sessions)?;
    add_count(&mut line, " done ", counts.done)?;
    add_count(&mut line, " cut ", counts.cut)?;
    add_count(&mut line, " bad ", counts.bad)?;
    add_count(&mut line, " read ", counts.read)?;
    add_count(&mut line, " write ", counts.write)?;
    add_count(&mut line, " memory ", counts.memory)?;
    add_count(&mut line, " limit ", counts.limit)?;
    line.push_str("\n")?;
    Ok(line)
}

fn add_count(line: &mut String, word: &str, count: u32) -> Result<(), AllocError>
    ensures { OnOk result (string_bytes line.new ≡ string_bytes line.old ++ (word.now ++ decimal count)) }
{
    write!(line, "{word}{count}")
}
