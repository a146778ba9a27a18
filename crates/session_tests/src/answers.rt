//! How a session answers frames.

use crate::frames::*;
use session_core::{MAX_MESSAGE, Session};
use std::alloc::{AllocError, Global};
use std::process::Abort;
use tree_model::TreeObject;

/// The answer to a frame, or nothing if it is none.
pub fn said<'a, B: TreeObject>(
    session: &mut Session,
    tree: &mut B,
    frame: &[u8],
    out: &'a mut [u8],
) -> &'a [u8] {
    if out.len() < MAX_MESSAGE || !is_frame(frame) || frame.len() > session.limit() as usize {
        return &[];
    }
    let size = session.answer(frame, tree, 100, out);
    &out[..size]
}

/// Room for the largest answer.
pub fn buffer(alloc: Global) -> Result<Vec<u8>, AllocError> {
    vec![in alloc; 0u8; MAX_MESSAGE]
}

/// A session that has answered the first of these messages: VERSION, ATTACH, WALK and OPEN.
pub fn session_after<B: TreeObject>(
    alloc: Global,
    tree: &mut B,
    count: usize,
    out: &mut [u8],
) -> Result<Session, AllocError> {
    let mut session = Session::new(alloc)?;
    for frame in [VERSION, ATTACH, WALK, OPEN].iter().take(count) {
        let _answer = said(&mut session, tree, frame, out);
    }
    Ok(session)
}

/// After the first messages of a session, each row's frame has its answer.
pub fn expect_answers<B: TreeObject>(
    rt: &impl Abort,
    alloc: Global,
    tree: &mut B,
    count: usize,
    rows: &[Row],
) -> Result<(), AllocError> {
    let mut out = buffer(alloc)?;
    let mut session = session_after(alloc, tree, count, &mut out)?;
    for (frame, expected) in rows {
        let answer = said(&mut session, tree, frame, &mut out);
        assert_eq!(rt; answer, *expected, "{frame:?}");
    }
    Ok(())
}
