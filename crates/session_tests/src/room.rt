//! What a session has room for.

use crate::answers::{buffer, said, session_after};
use crate::frames::*;
use crate::obliging::Obliging;
use std::alloc::{AllocError, Global};
use std::test::Fail;

const TOO_MANY_FIDS: &[u8] = b"\x16\0\0\0\x6b\x01\0\x0d\0too many fids";

const WALKED_NOWHERE: &[u8] = b"\x09\0\0\0\x6f\x01\0\0\0";

// A walk from fid 0 by no names.
fn walk_to(newfid: u32) -> [u8; 17] {
    let mut frame = *b"\x11\0\0\0\x6e\x01\0\0\0\0\0\0\0\0\0\0\0";
    frame[11..15].copy_from_slice(&newfid.to_le_bytes());
    frame
}

#[test]
fn there_are_1024_fids(rt: HostRuntime) -> Result<(), Fail> {
    let mut out = buffer(rt.alloc())?;
    let mut tree = Obliging::new();
    let mut session = session_after(rt.alloc(), &mut Obliging::new(), 2, &mut out)?;
    for fid in 1..1024 {
        let answer = said(&mut session, &mut tree, &walk_to(fid), &mut out);
        assert_eq!(rt; answer, WALKED_NOWHERE, "{fid}");
    }
    let rows: [Row; 4] = [
        // Fid 1,024, by a walk and by an attach.
        (b"\x11\0\0\0\x6e\x01\0\0\0\0\0\0\x04\0\0\0\0", TOO_MANY_FIDS),
        (
            b"\x14\0\0\0\x68\x01\0\0\x04\0\0\xff\xff\xff\xff\x01\0u\0\0",
            TOO_MANY_FIDS,
        ),
        (CLUNK, CLUNK_SAID),
        (
            b"\x11\0\0\0\x6e\x01\0\0\0\0\0\0\x04\0\0\0\0",
            WALKED_NOWHERE,
        ),
    ];
    for (frame, expected) in rows {
        let answer = said(&mut session, &mut tree, frame, &mut out);
        assert_eq!(rt; answer, expected, "{frame:?}");
    }
    Ok(())
}

// 16 names of 1,024 bytes, from fid 0 to fid 1.
fn longest_walk(alloc: Global) -> Result<Vec<u8>, AllocError> {
    let mut frame = b"\x31\x40\0\0\x6e\x01\0\0\0\0\0\x01\0\0\0\x10\0".to_vec(alloc)?;
    for _ in 0..16 {
        frame.extend_from_slice(b"\0\x04")?;
        frame.extend_from_slice(&[b'a'; 1024])?;
    }
    Ok(frame)
}

#[test]
fn the_longest_walk_has_a_qid_for_each_name(rt: HostRuntime) -> Result<(), Fail> {
    let mut out = buffer(rt.alloc())?;
    let mut session = session_after(rt.alloc(), &mut Obliging::new(), 2, &mut out)?;
    let frame = longest_walk(rt.alloc())?;
    let answer = said(&mut session, &mut Obliging::new(), &frame, &mut out);
    assert_eq!(rt;
        answer.get(..9),
        Some(b"\xd9\0\0\0\x6f\x01\0\x10\0".as_slice())
    );
    assert_eq!(rt; answer.len(), 217);
    for qid in answer.get(9..).unwrap_or(&[]).chunks(13) {
        assert_eq!(rt; qid, b"\0\0\0\0\0\x01\0\0\0\0\0\0\0".as_slice());
    }
    Ok(())
}

#[test]
fn the_largest_read_fills_the_largest_size(rt: HostRuntime) -> Result<(), Fail> {
    let mut out = buffer(rt.alloc())?;
    let mut session = session_after(rt.alloc(), &mut Obliging::new(), 4, &mut out)?;
    // 65,536 bytes and 2^32 - 1 bytes of fid 1, the latter from 2^64 - 1 on.
    let rows: [(&[u8], u64); 2] = [
        (
            b"\x17\0\0\0\x74\x01\0\x01\0\0\0\0\0\0\0\0\0\0\0\0\0\x01\0",
            0,
        ),
        (
            b"\x17\0\0\0\x74\x01\0\x01\0\0\0\xff\xff\xff\xff\xff\xff\xff\xff\xff\xff\xff\xff",
            u64::MAX,
        ),
    ];
    for (frame, at) in rows {
        let mut tree = Obliging::new();
        let answer = said(&mut session, &mut tree, frame, &mut out);
        assert_eq!(rt;
            answer.get(..11),
            Some(b"\x0b\0\x01\0\x75\x01\0\0\0\x01\0".as_slice())
        );
        assert_eq!(rt; answer.len(), 65547);
        assert!(rt; answer.iter().skip(11).all(|b| *b == b'x'));
        assert_eq!(rt; tree.at, at);
    }
    Ok(())
}
