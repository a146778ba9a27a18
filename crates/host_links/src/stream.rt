ghost use Rattle.std.specs.Prelude.{◌≡◌, ◌≤◌, ◌<◌, [], length, min, take, if◌then◌else◌, IfOk, OnErr, IsErr, None, Ok};
ghost use Rattle.std.specs.Io.KnownBytes.{Consumes, IsAtEnd};
ghost use Rattle.outside.specs.Calls.{HasCause, KeepsFrom, TakesFront, Told};
ghost use Rattle.host_links.specs.Behind.{source_reader, sink_writer};

use crate::ends::{Incoming, Outgoing, Untold};
use host_sockets::{Output, input};
use host_streams::{counted, read_one, told, write_some};
use log::Log;
use outside::{Failed, Sink, Source};
use std::io::{Input, Read};

/// A reader, a byte at a time: what follows the last byte that was asked for stays unread. It tells what the reader tells, and its faults to a logger.
#[derive(Drop)]
pub struct StdSource<I, L> {
    input: I,
    log: L,
    faults: u64,
}

impl<I: Read, L: Log> StdSource<Untold<I>, L> {
    /// The runtime's standard input, of which nothing is told.
    pub fn new<R: Input<Reader = I>>(rt: &R, log: L) -> StdSource<Untold<I>, L>
        ensures { ⟦<StdSource<Untold<I>, L> as Source>⟧.faults result ≡ 0 }
    {
        StdSource::over(Untold::new(input(rt)), log)
    }
}

impl<I: Incoming, L: Log> StdSource<I, L> {
    /// The source over a reader.
    pub fn over(input: I, log: L) -> StdSource<I, L>
        ensures reader { source_reader result ≡ input }
        ensures left { ⟦<StdSource<I, L> as Source>⟧.left result ≡ (if I.tells then I.Read.remaining input else None) }
        ensures faults { ⟦<StdSource<I, L> as Source>⟧.faults result ≡ 0 }
    {
        StdSource {
            input,
            log,
            faults: 0,
        }
    }
}

impl<I: Incoming, L: Log> Source for StdSource<I, L> {
    ghost left = { λ source. if I.tells then I.Read.remaining source.input else None };

    ghost faults = { λ source. source.faults };

    fn read(&mut self, out: &mut [u8]) -> Result<usize, Failed>
        ensures count { IfOk result (λ n. n ≤ min 1 (length out.old)) }
        ensures rest { IfOk result (λ n. KeepsFrom n out.old out.new) }
        ensures bytes { IfOk result (λ n. TakesFront (⟦<StdSource<I, L> as Source>⟧.left self.old) (⟦<StdSource<I, L> as Source>⟧.left self.new) (take n out.new)) }
        ensures end { result ≡ Ok 0 → 0 < length out.old → Told (⟦<StdSource<I, L> as Source>⟧.left self.old) (λ bytes. bytes ≡ []) }
        ensures failed { OnErr result (⟦<StdSource<I, L> as Source>⟧.left self.new ≡ ⟦<StdSource<I, L> as Source>⟧.left self.old) }
        ensures cause { HasCause (⟦<StdSource<I, L> as Source>⟧.faults self.old) (⟦<StdSource<I, L> as Source>⟧.faults self.new) (IsErr result) }

        // What is read, and nothing else, comes from the reader, whether the source tells or not.
        ensures reader { IfOk result (λ n. Consumes (I.Read.remaining (source_reader self.old)) (I.Read.remaining (source_reader self.new)) (take n out.new)) }
        ensures reader_end { result ≡ Ok 0 → 0 < length out.old → IsAtEnd (I.Read.remaining (source_reader self.new)) }
    {
        let answer = read_one(&mut self.input, out);
        let answer = told(&self.log, "read of the secret", answer);
        counted(&mut self.faults, answer)
    }
}

/// A place to write to. It tells what the writer tells, and its faults to a logger.
#[derive(Drop)]
pub struct StdSink<O, L> {
    output: O,
    log: L,
    faults: u64,
}

impl<R: Print, L: Log> StdSink<Output<R>, L> {
    /// The runtime's standard output, of which nothing is told. What it takes leaves at once.
    pub fn new(rt: R, log: L) -> StdSink<Output<R>, L>
        ensures { ⟦<StdSink<Output<R>, L> as Sink>⟧.faults result ≡ 0 }
    {
        StdSink::over(Output::new(rt), log)
    }
}

impl<O: Outgoing, L: Log> StdSink<O, L> {
    /// The sink over a writer.
    pub fn over(output: O, log: L) -> StdSink<O, L>
        ensures taken { ⟦<StdSink<O, L> as Sink>⟧.taken result ≡ (if O.tells then O.Write.contents output else None) }
        ensures faults { ⟦<StdSink<O, L> as Sink>⟧.faults result ≡ 0 }
    {
        StdSink {
            output,
            log,
            faults: 0,
        }
    }

    /// The writer, with what it has taken.
    pub fn into_writer(self) -> O
    where
        L: Drop,
        ensures { result ≡ sink_writer self }
    {
        self.output
    }
}

impl<O: Outgoing, L: Log> Sink for StdSink<O, L> {
    ghost taken = { λ sink. if O.tells then O.Write.contents sink.output else None };

    ghost faults = { λ sink. sink.faults };

    fn write(&mut self, piece: &[u8]) -> Result<usize, Failed> {
        let answer = write_some(&mut self.output, piece);
        let answer = told(&self.log, "write of the report", answer);
        counted(&mut self.faults, answer)
    }
}

// As many bytes of a line are kept.
const LINE_LEN: usize = 200;

/// A place that takes everything and writes nothing. It keeps the last line that it took, or its first 200 bytes. It never fails.
#[derive(Drop)]
pub struct LastLine {
    line: [u8; LINE_LEN],
    len: usize,
    is_over: bool,
}

impl LastLine {
    pub fn new() -> LastLine {
        LastLine {
            line: [0; LINE_LEN],
            len: 0,
            is_over: false,
        }
    }

    /// The last line, without its LF. It is empty if none was taken, or if it isn't UTF-8.
    pub fn text(&self) -> &str {
        let len = self.len.min(LINE_LEN);
        str::from_utf8(&self.line[..len]).unwrap_or("")
    }

    fn take(&mut self, byte: u8) {
        if self.is_over {
            self.len = 0;
            self.is_over = false;
        }
        if byte == b'\n' {
            self.is_over = true;
        } else if self.len < LINE_LEN {
            self.line[self.len] = byte;
            self.len += 1;
        }
    }
}

impl Sink for LastLine {
    ghost taken = { λ _. None };

    ghost faults = { λ _. 0 };

    fn write(&mut self, piece: &[u8]) -> Result<usize, Failed>
        ensures { result ≡ Ok (length piece.now) }
    {
        for byte in piece {
            self.take(*byte);
        }
        Ok(piece.len())
    }
}
