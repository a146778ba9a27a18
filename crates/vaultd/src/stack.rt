//! Room on the stack.

use std::fs::File;
use std::io::Read;
use std::rt::Files;

// Bytes: more than a commit takes.
const ROOM: usize = 256 << 10;

/// Has the host give the first thread room on its stack, so that one that has none left ends the program before anything is begun, and not amid a commit. A call
/// of the host fills the room, which no compiler can leave out.
#[inline(never)]
pub(crate) fn take_room<R: Files<File = File>>(rt: &R) {
    let mut room = [0u8; ROOM];
    if let Ok(mut zeros) = File::open(rt, "/dev/zero") {
        let _ = zeros.read(&mut room);
    }
}
