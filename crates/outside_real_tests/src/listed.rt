//! Files that list what no path of std can name.

use host_calls::HostCalls;
use log::sink::Discard;
use outside_real::StdCalls;
use std::alloc::Allocator;
use std::fs::{File, Metadata, OpenOptions};
use std::io;
use std::io::{Error, ErrorKind};
use std::rt::Files;
use std::test::Fail;

// A host with one folder, of these names, each ended by a NUL. All else fails.
#[derive(Drop)]
struct Listed {
    names: &'static [u8],
}

fn refused<T>() -> io::Result<T> {
    Err(Error::from(ErrorKind::Unsupported))
}

impl Files for Listed {
    type File = File;

    type Dir = &'static [u8];

    fn open_file(&self, _how: &OpenOptions, _path: &str) -> io::Result<File> {
        refused()
    }

    fn open_dir(&self, _path: &str) -> io::Result<&'static [u8]> {
        Ok(self.names)
    }

    fn metadata(&self, _path: &str) -> io::Result<Metadata> {
        refused()
    }

    fn symlink_metadata(&self, _path: &str) -> io::Result<Metadata> {
        refused()
    }

    fn copy(&self, _from: &str, _to: &str) -> io::Result<u64> {
        refused()
    }

    fn rename(&self, _from: &str, _to: &str) -> io::Result<()> {
        refused()
    }

    fn remove_file(&self, _path: &str) -> io::Result<()> {
        refused()
    }

    fn create_dir(&self, _path: &str) -> io::Result<()> {
        refused()
    }

    fn remove_dir(&self, _path: &str) -> io::Result<()> {
        refused()
    }

    fn remove_dir_all<B: Allocator>(&self, _alloc: B, _path: &str) -> io::Result<()> {
        refused()
    }
}

// Names that aren't UTF-8, of which one is the bytes ff 2e, are listed as one name, U+FFFD, once, though one has that name itself.
#[test]
fn names_that_are_no_text_are_one(rt: HostRuntime) -> Result<(), Fail> {
    let rows: [(&'static [u8], &[&[u8]]); 4] = [
        (b"", &[]),
        (b".\0..\0a\0\xc3\xa9\0", &[b"a", b"\xc3\xa9"]),
        (b"\xff.\0a\0b\xfe\0c\0", &[b"a", b"c", b"\xef\xbf\xbd"]),
        (b"\xef\xbf\xbd\0\xff\0a\0", &[b"a", b"\xef\xbf\xbd"]),
    ];
    for (names, want) in rows {
        let listed = StdCalls::new(&Listed { names }, Discard).list(rt.alloc(), "v")?;
        assert_eq!(rt; listed.len(), want.len(), "{names:?}");
        for (name, bytes) in listed.iter().zip(want) {
            assert!(rt; name.as_bytes() == *bytes, "{names:?}");
        }
    }
    Ok(())
}
