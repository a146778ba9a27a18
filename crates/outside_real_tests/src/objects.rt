//! The standard streams, random bytes and the clock.

use crate::script::Script;
use host_links::{HostLink, HostListen, LastLine, StdSink, StdSource, StreamLink};
use log::sink::Discard;
use outside::{Clock, Entropy, Failed, Link, Listener, Sink, Source};
use outside_real::{HostClock, OsEntropy};
use std::test::Fail;

#[test]
fn link_reads_and_writes_the_streams(rt: HostRuntime) {
    let mut link = HostLink::new(Script {
        input: b"abc",
        output_fails: false,
    });
    for (room, count, want) in [(2, 2, b"ab-"), (3, 1, b"c--"), (3, 0, b"---")] {
        let mut out = *b"---";
        assert_eq!(rt; link.read(&mut out[..room]), Ok(count), "{want:?}");
        assert!(rt; out.as_slice() == want.as_slice(), "{want:?}");
    }
    assert_eq!(rt; link.write(b"abc"), Ok(2));
}

#[test]
fn one_link_comes_once(rt: HostRuntime) -> Result<(), Fail> {
    let mut listen = HostListen::new(&rt, Discard);
    let link = listen.next()?.ok_or("the link")?;
    listen.back(link);
    assert!(rt; listen.next()?.is_none());
    Ok(())
}

#[test]
fn streams_take_some_or_fail(rt: HostRuntime) {
    assert_eq!(rt; StdSource::new(&rt, Discard).read(&mut []), Ok(0));
    for (output_fails, want) in [(false, Ok(2)), (true, Err(Failed))] {
        let script = Script {
            input: b"",
            output_fails,
        };
        let mut sink = StdSink::new(script, Discard);
        assert_eq!(rt; sink.write(b"abc"), want);
    }
    let mut last = LastLine::new();
    for (piece, text) in [
        (&b""[..], ""),
        (b"serving\nwrong", "wrong"),
        (b" password\n", "wrong password"),
        (b"\xff", ""),
        (b"\n\n", ""),
        (
            &[b'a'; 300],
            "aaaaaaaaaaaaaaaaaaaaaaaaaaaaaaaaaaaaaaaaaaaaaaaaaaaaaaaaaaaaaaaaaaaaaaaaaaaaaaaaaaaaaaaaaaaaaaaaaaaa\
                         aaaaaaaaaaaaaaaaaaaaaaaaaaaaaaaaaaaaaaaaaaaaaaaaaaaaaaaaaaaaaaaaaaaaaaaaaaaaaaaaaaaaaaaaaaaaaaaaaaaa",
        ),
    ] {
        assert_eq!(rt; last.write(piece), Ok(piece.len()), "{text}");
        assert_eq!(rt; last.text(), text);
    }
}

#[test]
fn bytes_in_memory_come_and_go(rt: HostRuntime) {
    let mut link = StreamLink::over(b"abc".as_slice(), Vec::new(rt.alloc()));
    let mut source = StdSource::over(b"abc".as_slice(), Discard);
    let mut sink = StdSink::over(Vec::new(rt.alloc()), Discard);
    let mut out = *b"---";
    assert_eq!(rt; link.read(&mut out[..2]), Ok(2));
    assert!(rt; out == *b"ab-");
    assert_eq!(rt; source.read(&mut out), Ok(1));
    assert_eq!(rt; source.read(&mut out[1..]), Ok(1));
    assert!(rt; out == *b"ab-");
    assert_eq!(rt; link.write(b"xyz"), Ok(3));
    assert_eq!(rt; sink.write(b"uv"), Ok(2));
    let (left, taken) = link.into_parts();
    assert!(rt; left == b"c".as_slice());
    assert!(rt; taken.as_slice() == b"xyz".as_slice());
    assert!(rt; sink.into_writer().as_slice() == b"uv".as_slice());
}

#[test]
fn draws_differ_and_the_clock_is_past_2024(rt: HostRuntime) -> Result<(), Fail> {
    let mut entropy = OsEntropy::new(&rt, Discard);
    let mut first = [0u8; 32];
    let mut second = [0u8; 32];
    entropy.fill(&mut first)?;
    entropy.fill(&mut second)?;
    assert_ne!(rt; first, second);
    let mut clock = HostClock::new(&rt);
    assert!(rt; clock.now() > 1_704_067_200);
    Ok(())
}
