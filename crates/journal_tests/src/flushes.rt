//! Changes of a content file that wait over a journal: what reads give of them, and what a flush leaves.

ghost use Rattle.std.specs.Prelude.{◌≤◌, length, IsTrue};
ghost use Rattle.content_laws.specs.Rewriting.{CanPutChunks};
ghost use Rattle.write_back.specs.Sealed.{rewriting_of};

use crate::contents::{FULL, HEADER, folder_with, path_of, three_parts};
use chunk_journal::Journal;
use outside::{FolderErr, Kind, Reads};
use outside_mem::MemFolder;
use pending_files::Pending;
use std::test::Fail;
use untold_folder::Untelling;
use vault_path::VaultPath;
use write_back::{Headers, SealedChunks, WriteBack};

type Back = WriteBack<Untelling<MemFolder>>;

// A change of one chunk of a file of a header, a full chunk and 100 bytes more, or a cut where the chunk has no bytes; the file's
// size before and after; and the four bytes that are then read at a place.
struct Step {
    first: u64,
    chunk: &'static [u8],
    before: u64,
    size: u64,
    place: u64,
    shows: [u8; 4],
}

const STEPS: [Step; 5] = [
    Step {
        first: 1,
        chunk: &[9; 16],
        before: 32_964,
        size: 32_880,
        place: 32_862,
        shows: [2, 2, 9, 9],
    },
    Step {
        first: 1,
        chunk: &[7; 20],
        before: 32_880,
        size: 32_884,
        place: 32_880,
        shows: [7, 7, 7, 7],
    },
    Step {
        first: 1,
        chunk: &[],
        before: 32_884,
        size: 32_868,
        place: 32_864,
        shows: [7, 7, 7, 7],
    },
    Step {
        first: 0,
        chunk: &[],
        before: 32_868,
        size: 72,
        place: 66,
        shows: [1, 1, 2, 2],
    },
    Step {
        first: 0,
        chunk: &[8; 5],
        before: 72,
        size: 73,
        place: 67,
        shows: [1, 8, 8, 8],
    },
];

// Setting up is two changing calls. The one flush makes the journal in two, puts its batch in one piece behind the gate, the sum
// behind that and the file's header behind both, opens the gate, writes the one chunk that no later step cut off and cuts the file, and closes the gate.
const CALLS: u64 = 2 + 2 + 3 + 1 + 2 + 1;

// A call of the folder, counted from 0, that fails in the flush of the first step, and what the file then shows once its journal
// is opened again.
struct Failure {
    call: u64,
    size: u64,
    shows: [u8; 4],
}

// Setting up is calls 0 and 1, and opening 2 to 4. The flush looks at the file by call 5 and for the journal by call 6, makes that
// by 7 to 10, puts the batch and its sum behind the gate by 11 and 12, reads the file's header and puts that behind them by 13 to 15, opens the gate
// by 16 and 17, and then begins the deed.
const FAILURES: [Failure; 9] = [
    Failure {
        call: 5,
        size: 32_964,
        shows: [2, 2, 3, 3],
    },
    Failure {
        call: 6,
        size: 32_964,
        shows: [2, 2, 3, 3],
    },
    Failure {
        call: 11,
        size: 32_964,
        shows: [2, 2, 3, 3],
    },
    Failure {
        call: 12,
        size: 32_964,
        shows: [2, 2, 3, 3],
    },
    Failure {
        call: 13,
        size: 32_964,
        shows: [2, 2, 3, 3],
    },
    Failure {
        call: 14,
        size: 32_964,
        shows: [2, 2, 3, 3],
    },
    Failure {
        call: 16,
        size: 32_964,
        shows: [2, 2, 3, 3],
    },
    Failure {
        call: 17,
        size: 32_880,
        shows: [2, 2, 9, 9],
    },
    Failure {
        call: 18,
        size: 32_880,
        shows: [2, 2, 9, 9],
    },
];

fn opened(rt: &HostRuntime, folder: MemFolder) -> Result<Back, Fail> {
    let journal = Journal::open(rt.alloc(), Untelling::over(folder))
        .ok()
        .ok_or("an opened journal")?;
    Ok(WriteBack::new(
        journal,
        Pending::new(rt.alloc())?,
        Headers::new(rt.alloc())?,
    ))
}

fn change_of(step: &Step) -> SealedChunks<'static> {
    SealedChunks {
        first: step.first,
        sealed: step.chunk,
        size: step.size,
    }
}

/// Whether the change is a cut or one chunk, and can be made of a file of this length.
pub fn fits(len: u64, change: &SealedChunks<'_>) -> bool
    ensures can { IsTrue result → CanPutChunks change.now.size len change.now.first (rewriting_of change.now).sealed }
    ensures few { IsTrue result → length (rewriting_of change.now).sealed ≤ 1 }
{
    if change.sealed.is_empty() {
        return change.size <= len;
    }
    if change.first > 63 || change.sealed.len() > FULL {
        return false;
    }
    let place = HEADER as u64 + FULL as u64 * change.first;
    place <= len && change.size == place + change.sealed.len() as u64
}

// Puts a change where it fits and there is room: whether it did.
fn puts(back: &mut Back, path: &VaultPath, len: u64, change: &SealedChunks<'_>) -> bool {
    if !fits(len, change) || !back.room(path, 1) {
        return false;
    }
    back.put(path, len, change);
    true
}

/// The size of a file, where it has these bytes at a place.
pub fn size_showing<R: Reads>(
    folder: &mut R,
    path: &VaultPath,
    place: u64,
    shows: [u8; 4],
) -> Result<Option<u64>, FolderErr> {
    let mut out = [0; 4];
    let count = folder.read(path, place, &mut out)?;
    Ok(match folder.kind(path)? {
        Some(Kind::File(size)) if count == 4 && out == shows => Some(size),
        _ => None,
    })
}

#[test]
fn what_waits_is_read_and_one_flush_does_it(rt: HostRuntime) -> Result<(), Fail> {
    let path = path_of(b"f")?;
    let mut back = opened(&rt, folder_with(&rt, &path, &three_parts(&rt)?)?)?;
    for step in &STEPS {
        assert!(rt; puts(&mut back, &path, step.before, &change_of(step)));
        assert_eq!(rt;
            size_showing(&mut back, &path, step.place, step.shows)?,
            Some(step.size)
        );
    }
    assert!(rt; !back.is_idle());
    assert!(rt; back.flush().is_ok());
    assert!(rt; back.is_idle());
    assert!(rt; back.flush().is_ok());
    let mut folder = back.into_folder().folder;
    assert_eq!(rt; folder.change_count(), CALLS);
    let mut wanted = Vec::new(rt.alloc());
    wanted.resize(HEADER, 1)?;
    wanted.resize(73, 8)?;
    wanted.resize(80, 0)?;
    let mut bytes = [0; 80];
    assert_eq!(rt; folder.read(&path, 0, &mut bytes)?, 73);
    assert!(rt; bytes.as_slice() == wanted.as_slice());
    Ok(())
}

#[test]
fn a_65th_chunk_has_room_after_a_flush(rt: HostRuntime) -> Result<(), Fail> {
    let path = path_of(b"f")?;
    let mut back = opened(&rt, folder_with(&rt, &path, &[1; HEADER])?)?;
    let chunk = [5; FULL];
    for index in 0..64 {
        let len = HEADER as u64 + FULL as u64 * index;
        let change = SealedChunks {
            first: index,
            sealed: &chunk,
            size: len + FULL as u64,
        };
        assert!(rt; puts(&mut back, &path, len, &change), "chunk {index}");
    }
    assert!(rt; back.room(&path, 0) && !back.room(&path, 1));
    assert!(rt; back.flush().is_ok());
    assert!(rt; back.room(&path, 1));
    assert_eq!(rt;
        size_showing(&mut back, &path, 2_099_008, [5; 4])?,
        Some(2_099_012)
    );
    Ok(())
}

#[test]
fn nothing_waits_after_a_flush_that_fails(rt: HostRuntime) -> Result<(), Fail> {
    let path = path_of(b"f")?;
    let bytes = three_parts(&rt)?;
    let step = &STEPS[0];
    for failure in &FAILURES {
        let calls = vec![in rt.alloc(); failure.call]?;
        let folder = folder_with(&rt, &path, &bytes)?.failing_at(calls);
        let mut back = opened(&rt, folder)?;
        assert!(rt; puts(&mut back, &path, step.before, &change_of(step)));
        assert!(rt; back.flush().is_err(), "call {}", failure.call);
        assert!(rt; back.is_idle());
        let mut again = opened(&rt, back.into_folder().folder)?;
        assert_eq!(rt;
            size_showing(&mut again, &path, step.place, failure.shows)?,
            Some(failure.size),
            "call {}",
            failure.call
        );
    }
    Ok(())
}
