//! A secret's file, by its mode and by what it is.

use host_links::SecretSource;
use log::sink::Discard;
use outside::{Failed, Source};
use std::fs::{File, Permissions};
use std::io::Stdin;
use std::os::fd::AsRawFd;
use std::os::unix::fs::{PermissionsExt, symlink};
use std::test::Fail;
use std::{fs, io, process};

// How many bytes the first read of it gives.
fn first_read(rt: &HostRuntime, path: &str) -> Result<usize, Failed> {
    let mut source: SecretSource<Stdin, File, Discard> = SecretSource::file(rt, Discard, path);
    source.read(&mut [0; 4])
}

#[test]
fn a_secret_is_read_if_its_owner_alone_can(rt: HostRuntime) -> Result<(), Fail> {
    let id = process::id(rt.process());
    let place = format!(in rt.alloc(); "/tmp/outside_real-secret-{id}")?;
    fs::create_dir(&rt, place.as_str())?;
    let path = format!(in rt.alloc(); "{place}/secret")?;
    for (mode, text, want) in [
        (0o600, "pw\n", 1),
        (0o400, "pw\n", 1),
        (0o600, "", 0),
        (0o640, "pw\n", 0),
        (0o604, "pw\n", 0),
        (0o601, "pw\n", 0),
        (0o644, "pw\n", 0),
    ] {
        fs::write(&rt, path.as_str(), text)?;
        fs::set_permissions(&rt, path.as_str(), Permissions::from_mode(mode))?;
        assert_eq!(rt; first_read(&rt, path.as_str()), Ok(want), "{mode:o}");
        fs::remove_file(&rt, path.as_str())?;
    }
    fs::remove_dir(&rt, place.as_str())?;
    Ok(())
}

// Nobody writes to the pipe: to open it would wait forever.
#[test]
fn no_other_thing_is_a_secret(rt: HostRuntime) -> Result<(), Fail> {
    let id = process::id(rt.process());
    let place = format!(in rt.alloc(); "/tmp/outside_real-no_secret-{id}")?;
    fs::create_dir(&rt, place.as_str())?;
    let path = format!(in rt.alloc(); "{place}/secret")?;
    fs::write(&rt, path.as_str(), "pw\n")?;
    fs::set_permissions(&rt, path.as_str(), Permissions::from_mode(0o600))?;
    let link = format!(in rt.alloc(); "{place}/link")?;
    symlink(&rt, "secret", link.as_str())?;
    let none = format!(in rt.alloc(); "{place}/none")?;
    let (reader, writer) = io::pipe(&rt)?;
    drop(writer);
    let descriptor = reader.as_raw_fd();
    let pipe = format!(in rt.alloc(); "/proc/self/fd/{descriptor}")?;
    for (path, want) in [
        (link.as_str(), Ok(1)),
        (place.as_str(), Ok(0)),
        (pipe.as_str(), Ok(0)),
        ("/dev/null", Ok(0)),
        (none.as_str(), Err(Failed)),
    ] {
        assert_eq!(rt; first_read(&rt, path), want, "{path}");
    }
    fs::remove_dir_all(&rt, place.as_str())?;
    Ok(())
}
