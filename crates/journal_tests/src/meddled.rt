//! Files that another program takes away, cuts or replaces while changes of them wait.

use crate::contents::{HEADER, folder_with, path_of, three_parts};
use crate::flushes::{fits, size_showing};
use chunk_journal::Journal;
use outside::{Folder, Reads};
use outside_mem::MemFolder;
use pending_files::Pending;
use std::test::Fail;
use untold_folder::{Meddled, Meddling};
use vault_path::VaultPath;
use write_back::{FlushErr, Headers, SealedChunks, WriteBack};

type Back = WriteBack<Meddled<MemFolder>>;

// What another program does to a file: the last has a header of this byte's copies, and is else as the file was.
#[derive(Clone, Copy, Debug)]
enum Deed {
    Remove,
    Cut(u64),
    Replace(u8),
}

// What is done to a file for which a change waits; whether that is dropped; and the size that the file then has, if there is one, and
// the four bytes at a place.
struct Row {
    deed: Deed,
    dropped: bool,
    size: Option<u64>,
    place: u64,
    shows: [u8; 4],
}

// The change puts 16 bytes in place of the last 100 of the file's 32,964, at byte 32,864.
const ROWS: [Row; 5] = [
    Row {
        deed: Deed::Remove,
        dropped: true,
        size: None,
        place: 0,
        shows: [0; 4],
    },
    Row {
        deed: Deed::Cut(32_863),
        dropped: true,
        size: Some(32_863),
        place: 32_859,
        shows: [2, 2, 2, 2],
    },
    Row {
        deed: Deed::Cut(32_864),
        dropped: false,
        size: Some(32_880),
        place: 32_862,
        shows: [2, 2, 9, 9],
    },
    Row {
        deed: Deed::Replace(4),
        dropped: true,
        size: Some(32_964),
        place: 66,
        shows: [4, 4, 2, 2],
    },
    Row {
        deed: Deed::Replace(1),
        dropped: false,
        size: Some(32_880),
        place: 32_862,
        shows: [2, 2, 9, 9],
    },
];

const CHANGE: SealedChunks<'static> = SealedChunks {
    first: 1,
    sealed: &[9; 16],
    size: 32_880,
};

const CUT: SealedChunks<'static> = SealedChunks {
    first: 1,
    sealed: &[],
    size: 32_868,
};

// What the other program does, over a file of these bytes.
fn meddling_of(deed: Deed, mut bytes: Vec<u8>) -> Meddling {
    match deed {
        Deed::Remove => Meddling::Remove,
        Deed::Cut(len) => Meddling::Cut(len),
        Deed::Replace(byte) => {
            for one in bytes.iter_mut().take(HEADER) {
                *one = byte;
            }
            Meddling::Replace(bytes)
        }
    }
}

// A journal over a folder with two such files, of which the first will be meddled with when a flush looks at it.
fn opened(rt: &HostRuntime, path: &VaultPath, other: &VaultPath, deed: Deed) -> Result<Back, Fail> {
    let bytes = three_parts(rt)?;
    let mut folder = folder_with(rt, path, &bytes)?;
    folder.put(other, &bytes)?;
    let folder = Meddled::over(folder, path.copied(), meddling_of(deed, bytes));
    let journal = Journal::open(rt.alloc(), folder)
        .ok()
        .ok_or("an opened journal")?;
    Ok(WriteBack::new(
        journal,
        Pending::new(rt.alloc())?,
        Headers::new(rt.alloc())?,
    ))
}

// Puts a change of a file of this length, whose header the next flush looks for, where the change fits: whether it did.
fn puts(back: &mut Back, path: &VaultPath, len: u64, change: &SealedChunks<'_>) -> bool {
    if !fits(len, change) || !back.room(path, 1) || back.keep_header(path).is_err() {
        return false;
    }
    back.put(path, len, change);
    true
}

// Whether the gate of the journal is open.
fn is_open(back: &mut Back) -> Result<bool, Fail> {
    let journal = VaultPath::root()
        .join(b"served.journal")
        .ok()
        .ok_or("a good part")?;
    if back.kind(&journal)?.is_none() {
        return Ok(false);
    }
    let mut gate = [0; 1];
    Ok(back.read(&journal, 0, &mut gate)? == 1 && gate[0] == 1)
}

#[test]
fn what_waits_for_a_changed_file_alone_is_dropped(rt: HostRuntime) -> Result<(), Fail> {
    let path = path_of(b"f")?;
    let other = path_of(b"g")?;
    for row in &ROWS {
        for beside in [false, true] {
            let mut back = opened(&rt, &path, &other, row.deed)?;
            assert!(rt; puts(&mut back, &path, 32_964, &CHANGE));
            if beside {
                assert!(rt; puts(&mut back, &other, 32_964, &CHANGE));
            }
            let wanted = if row.dropped {
                Err(FlushErr::Dropped)
            } else {
                Ok(())
            };
            assert!(rt; back.flush() == wanted, "{:?}", row.deed);
            assert!(rt; back.is_idle());
            assert!(rt; !is_open(&mut back)?);
            let size = match back.kind(&path)? {
                Some(_) => size_showing(&mut back, &path, row.place, row.shows)?,
                None => None,
            };
            assert_eq!(rt; size, row.size, "{:?}", row.deed);
            let (len, shows) = if beside {
                (32_880, [2, 2, 9, 9])
            } else {
                (32_964, [2, 2, 3, 3])
            };
            assert_eq!(rt; size_showing(&mut back, &other, 32_862, shows)?, Some(len));
            assert!(rt; puts(&mut back, &other, len, &CUT));
            assert!(rt; back.flush().is_ok());
            assert_eq!(rt;
                size_showing(&mut back, &other, 32_862, shows)?,
                Some(32_868)
            );
        }
    }
    Ok(())
}
