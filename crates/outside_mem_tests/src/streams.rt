//! Sources, sinks, links and their listener, random bytes, the clock and the gate.
// The helpers have no contracts, so that what is known of an object doesn't grow from call to call.

use outside::{Clock, Entropy, Gate, Link, Listener, Sink, Source, Stage};
use outside_mem::{
    MemLink, MemListener, MemSink, MemSource, OpenGate, SeedEntropy, SetClock, TickingClock,
};
use std::test::Fail;

fn takes<S: Source>(source: &mut S, out: &mut [u8]) -> Option<usize> {
    source.read(out).ok()
}

fn gives<S: Sink>(sink: &mut S, piece: &[u8]) -> Option<usize> {
    sink.write(piece).ok()
}

#[test]
fn a_source_gives_pieces(rt: HostRuntime) -> Result<(), Fail> {
    let failing = [1].to_vec(rt.alloc())?;
    let bytes = b"hello".to_vec(rt.alloc())?;
    let mut source = MemSource::new(rt.alloc(), bytes)
        .in_pieces(3)
        .failing_at(failing);
    let mut out = [0; 8];
    for wanted in [Some(3), None, Some(2), Some(0)] {
        assert_eq!(rt; takes(&mut source, &mut out), wanted);
    }
    assert!(rt; out == *b"lol\0\0\0\0\0");
    assert!(rt; source.left().is_empty());
    assert_eq!(rt; source.fault_count(), 1);
    Ok(())
}

#[test]
fn a_sink_takes_pieces(rt: HostRuntime) -> Result<(), Fail> {
    let failing = [1].to_vec(rt.alloc())?;
    let mut sink = MemSink::new(rt.alloc()).in_pieces(2).failing_at(failing);
    for wanted in [Some(2), None, Some(2)] {
        assert_eq!(rt; gives(&mut sink, b"abc"), wanted);
    }
    assert!(rt; sink.taken() == b"abab".as_slice());
    assert_eq!(rt; sink.fault_count(), 1);
    Ok(())
}

fn link_of(rt: &HostRuntime, bytes: &[u8]) -> Result<MemLink, Fail> {
    let source = MemSource::new(rt.alloc(), bytes.to_vec(rt.alloc())?);
    Ok(MemLink::new(rt.alloc(), source, MemSink::new(rt.alloc()))?)
}

fn answers<L: Link>(link: &mut L, out: &mut [u8], answer: &[u8]) -> Option<usize> {
    link.write(answer).ok()?;
    link.read(out).ok()
}

#[test]
fn a_link_reads_and_writes(rt: HostRuntime) -> Result<(), Fail> {
    let mut link = link_of(&rt, b"hello")?;
    let mut out = [0; 8];
    assert_eq!(rt; answers(&mut link, &mut out, b"answer"), Some(5));
    assert!(rt; out == *b"hello\0\0\0");
    assert!(rt; link.source().left().is_empty());
    assert!(rt; link.sink().taken() == b"answer".as_slice());
    Ok(())
}

fn listener_of(rt: &HostRuntime, failing: &[u64]) -> Result<MemListener, Fail> {
    let mut links = Vec::new(rt.alloc());
    for bytes in [b"first.", b"second"] {
        links.push(link_of(rt, bytes)?)?;
    }
    let failing = failing.to_vec(rt.alloc())?;
    Ok(MemListener::new(rt.alloc(), links).failing_at(failing))
}

// Gives back the next link, if one comes.
fn turns<L: Listener>(listener: &mut L) -> bool {
    match listener.next() {
        Ok(Some(link)) => {
            listener.back(link);
            true
        }
        _ => false,
    }
}

fn last_sends(listener: &mut MemListener, wanted: &[u8]) -> bool {
    match listener.take_back() {
        Some(link) => link.source().left() == wanted,
        None => false,
    }
}

#[test]
fn links_come_and_go_back(rt: HostRuntime) -> Result<(), Fail> {
    let mut listener = listener_of(&rt, &[1])?;
    for comes in [true, false, true, false] {
        assert_eq!(rt; turns(&mut listener), comes);
    }
    assert!(rt; last_sends(&mut listener, b"second"));
    assert!(rt; last_sends(&mut listener, b"first."));
    assert!(rt; listener.take_back().is_none());
    assert_eq!(rt; listener.fault_count(), 1);
    Ok(())
}

fn draws<E: Entropy>(entropy: &mut E) -> Option<[u8; 4]> {
    let mut out = [0; 4];
    entropy.fill(&mut out).ok()?;
    Some(out)
}

// RFC 8439, A.1, vector 1: the key stream of a key of zeros.
#[test]
fn entropy_is_the_key_stream(rt: HostRuntime) -> Result<(), Fail> {
    let failing = [1].to_vec(rt.alloc())?;
    let mut entropy = SeedEntropy::from_seed(rt.alloc(), [0; 32]).failing_at(failing);
    let words = [
        Some([0x76, 0xb8, 0xe0, 0xad]),
        None,
        Some([0xa0, 0xf1, 0x3d, 0x90]),
        Some([0x40, 0x5d, 0x6a, 0xe5]),
    ];
    for word in words {
        assert_eq!(rt; draws(&mut entropy), word);
    }
    assert_eq!(rt; entropy.fault_count(), 1);
    Ok(())
}

#[test]
fn a_set_clock_stands(rt: HostRuntime) {
    let mut clock = SetClock::new(7);
    assert_eq!(rt; clock.now(), 7);
    assert_eq!(rt; clock.now(), 7);
    OpenGate.pass(Stage::Sealed);
}

#[test]
fn a_ticking_clock_counts_on_and_stays_at_its_end(rt: HostRuntime) {
    let mut clock = TickingClock::new(7);
    assert_eq!(rt; clock.now(), 7);
    assert_eq!(rt; clock.now(), 8);
    let mut last = TickingClock::new(u32::MAX);
    assert_eq!(rt; last.now(), u32::MAX);
    assert_eq!(rt; last.now(), u32::MAX);
}
