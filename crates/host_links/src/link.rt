ghost use Rattle.std.specs.Prelude.{◌≡◌, ◌≤◌, ◌<◌, [], length, take, if◌then◌else◌, IfOk, OnErr, IsErr, None, Ok};
ghost use Rattle.std.specs.Io.KnownBytes.{Consumes, IsAtEnd};
ghost use Rattle.outside.specs.Calls.{HasCause, KeepsFrom, TakesFront, Told};
ghost use Rattle.host_links.specs.Behind.{link_reader, link_writer};

use crate::ends::{Incoming, Outgoing, Untold};
use crate::traffic::{Peer, Traffic};
use host_sockets::{Output, input};
use host_streams::{counted, read_some, write_some};
use outside::{Failed, Link};
use std::io::Input;

/// A client at a reader and a writer. It tells what they tell.
#[derive(Drop)]
pub struct StreamLink<I, O> {
    input: I,
    output: O,
    traffic: Traffic,
    read_faults: u64,
    write_faults: u64,
}

/// The client at the standard streams of a runtime, of which nothing is told.
pub type HostLink<R> = StreamLink<Untold<<R as Input>::Reader>, Output<R>>;

impl<R: Input + Print> StreamLink<Untold<R::Reader>, Output<R>> {
    /// The link over the runtime's standard input and output.
    pub fn new(rt: R) -> HostLink<R>
        ensures reads { ⟦<HostLink<R> as Link>⟧.read_faults result ≡ 0 }
        ensures writes { ⟦<HostLink<R> as Link>⟧.write_faults result ≡ 0 }
    {
        let reader = input(&rt);
        StreamLink::over(Untold::new(reader), Output::new(rt))
    }
}

impl<I: Incoming, O: Outgoing> StreamLink<I, O> {
    /// The link over a reader and a writer.
    pub fn over(input: I, output: O) -> StreamLink<I, O>
        ensures left { ⟦<StreamLink<I, O> as Link>⟧.left result ≡ (if I.tells then I.Read.remaining input else None) }
        ensures taken { ⟦<StreamLink<I, O> as Link>⟧.taken result ≡ (if O.tells then O.Write.contents output else None) }
        ensures reads { ⟦<StreamLink<I, O> as Link>⟧.read_faults result ≡ 0 }
        ensures writes { ⟦<StreamLink<I, O> as Link>⟧.write_faults result ≡ 0 }
    {
        StreamLink {
            input,
            output,
            traffic: Traffic::of(Peer::Streams),
            read_faults: 0,
            write_faults: 0,
        }
    }

    pub(crate) fn traffic(&self) -> &Traffic {
        &self.traffic
    }

    /// The reader, with what is left in it, and the writer, with what it has taken.
    pub fn into_parts(self) -> (I, O)
        ensures input { result.0 ≡ link_reader self }
        ensures output { result.1 ≡ link_writer self }
    {
        (self.input, self.output)
    }
}

impl<I: Incoming, O: Outgoing> Link for StreamLink<I, O> {
    ghost left = { λ link. if I.tells then I.Read.remaining link.input else None };

    ghost taken = { λ link. if O.tells then O.Write.contents link.output else None };

    ghost read_faults = { λ link. link.read_faults };

    ghost write_faults = { λ link. link.write_faults };

    fn read(&mut self, out: &mut [u8]) -> Result<usize, Failed>
        ensures count { IfOk result (λ n. n ≤ length out.old) }
        ensures rest { IfOk result (λ n. KeepsFrom n out.old out.new) }
        ensures bytes { IfOk result (λ n. TakesFront (⟦<StreamLink<I, O> as Link>⟧.left self.old) (⟦<StreamLink<I, O> as Link>⟧.left self.new) (take n out.new)) }
        ensures end { result ≡ Ok 0 → 0 < length out.old → Told (⟦<StreamLink<I, O> as Link>⟧.left self.old) (λ bytes. bytes ≡ []) }
        ensures failed { OnErr result (⟦<StreamLink<I, O> as Link>⟧.left self.new ≡ ⟦<StreamLink<I, O> as Link>⟧.left self.old) }
        ensures cause { HasCause (⟦<StreamLink<I, O> as Link>⟧.read_faults self.old) (⟦<StreamLink<I, O> as Link>⟧.read_faults self.new) (IsErr result) }
        ensures taken { ⟦<StreamLink<I, O> as Link>⟧.taken self.new ≡ ⟦<StreamLink<I, O> as Link>⟧.taken self.old }
        ensures writes { ⟦<StreamLink<I, O> as Link>⟧.write_faults self.new ≡ ⟦<StreamLink<I, O> as Link>⟧.write_faults self.old }

        // What is read, and nothing else, comes from the reader, whether the link tells or not.
        ensures reader { IfOk result (λ n. Consumes (I.Read.remaining (link_reader self.old)) (I.Read.remaining (link_reader self.new)) (take n out.new)) }
        ensures reader_end { result ≡ Ok 0 → 0 < length out.old → IsAtEnd (I.Read.remaining (link_reader self.new)) }
    {
        let answer = read_some(&mut self.input, out);
        self.traffic.saw_read(out.len(), &answer);
        counted(&mut self.read_faults, answer)
    }

    fn write(&mut self, piece: &[u8]) -> Result<usize, Failed> {
        let answer = write_some(&mut self.output, piece);
        self.traffic.saw_write(&answer);
        counted(&mut self.write_faults, answer)
    }
}
