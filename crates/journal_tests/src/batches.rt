use deeds::{BatchErr, read_batch, write_batch};
use std::test::Fail;

// The offset of a batch in the bytes after the gate: its length comes first.
const LENGTH_LEN: usize = 8;

// One deed that makes the folder `d`.
const MAKES_D: [u8; 8] = [0, 0, 0, 1, 1, 1, 1, b'd'];

/// Puts the file `d/f` with two bytes, moves it to `g`, reshapes `h`, and removes `f` and the folder `d`.
pub const FIVE_DEEDS: [u8; 66] = [
    0, 0, 0, 5, // five deeds
    2, 2, 1, b'd', 1, b'f', 0, 0, 0, 2, 7, 8, // puts
    3, 2, 1, b'd', 1, b'f', 1, 1, b'g', // moves
    6, 1, 1, b'h', 0, 0, 0, 0, 0, 0, 0, 9, 0, 0, 0, 1, // reshapes to nine bytes by one range
    0, 0, 0, 0, 0, 0, 0, 4, 0, 0, 0, 5, 1, 2, 3, 4, 5, // five bytes from 4 on
    4, 1, 1, b'f', // removes a file
    5, 1, 1, b'd', // removes a folder
];

#[test]
fn batches_that_are_whole_are_written_as_they_were_read(rt: HostRuntime) -> Result<(), Fail> {
    let rows: [&[u8]; 3] = [&[0, 0, 0, 0], &MAKES_D, &FIVE_DEEDS];
    for bytes in rows {
        let deeds = read_batch(rt.alloc(), bytes).ok().ok_or("a batch")?;
        let mut out = [0; 100];
        let n = write_batch(&deeds, LENGTH_LEN, &mut out);
        assert!(rt; &out[..n] == bytes, "{bytes:?}");
    }
    Ok(())
}

#[test]
fn the_first_bad_place_is_named(rt: HostRuntime) -> Result<(), Fail> {
    let rows: [(&[u8], usize); 16] = [
        (&[], 0),
        (&[0, 0, 0], 0),
        (&[0, 0, 0, 1], 4),
        (&[0, 0, 0, 1, 1, 1, 1], 4),
        (&[0, 0, 0, 2, 1, 1, 1, b'd'], 8),
        (&[0, 0, 0, 1, 1, 1, 1, b'd', 0], 8),
        (&[0, 0, 0, 0, 1, 1, 1, b'd'], 4),
        (&[0, 0, 0, 1, 1, 0], 4),
        (&[0, 0, 0, 1, 7, 1, 1, b'd'], 4),
        (&[0, 0, 0, 1, 1, 1, 2, b'd'], 4),
        (&[0, 0, 0, 1, 1, 1, 0], 4),
        (&[0, 0, 0, 1, 1, 1, 1, b'/'], 4),
        (&[0, 0, 0, 1, 1, 2, 2, b'.', b'.', 1, b'd'], 4),
        (
            &[
                0, 0, 0, 1, 1, 7, 1, b'a', 1, b'a', 1, b'a', 1, b'a', 1, b'a', 1, b'a', 1, b'a',
            ],
            4,
        ),
        (&[0, 0, 0, 1, 2, 1, 1, b'f', 0, 0, 0, 2, 7], 4),
        (
            &[
                0, 0, 0, 1, 6, 1, 1, b'f', 0, 0, 0, 0, 0, 0, 0, 1, 0, 0, 0, 1, 0, 0, 0, 0, 0, 0, 0,
                0, 0, 0, 0, 2, 7, 8,
            ],
            4,
        ),
    ];
    for (bytes, place) in rows {
        let found = match read_batch(rt.alloc(), bytes) {
            Err(BatchErr::Bad(at)) => Some(at),
            Ok(_) | Err(BatchErr::Memory) => None,
        };
        assert_eq!(rt; found, Some(place), "{bytes:?}");
    }
    Ok(())
}
