//! Summaries.

use demonstration::{DemoRow, summary};
use sha2::{Digest, Sha256};
use std::alloc::{AllocError, Global};
use std::process::Abort;
use std::test::Fail;

fn directory(alloc: Global, path: &[u8]) -> Result<DemoRow, AllocError> {
    Ok(DemoRow {
        path: path.to_vec(alloc)?,
        is_dir: true,
        len: 99,
        hash: [7; 32],
    })
}

fn file(alloc: Global, path: &[u8], bytes: &[u8]) -> Result<DemoRow, AllocError> {
    Ok(DemoRow {
        path: path.to_vec(alloc)?,
        is_dir: false,
        len: bytes.len() as u64,
        hash: Sha256::digest(bytes),
    })
}

fn is_line(rt: &impl Abort, line: &[u8], wanted: &[u8]) {
    assert!(rt; line == wanted);
}

#[test]
fn nothing_is_left(rt: HostRuntime) -> Result<(), Fail> {
    let line = summary(rt.alloc(), 1, 0, 1, &[])?;
    is_line(
        &rt,
        &line,
        b"clients 1 requests 0 entries 1 bytes 0 rows e3b0c44298fc1c149afbf4c8996fb92427ae41e4649b934ca495991b7852b855",
    );
    Ok(())
}

#[test]
fn directories_and_files_are_left(rt: HostRuntime) -> Result<(), Fail> {
    let nodes = [
        directory(rt.alloc(), b"c00")?,
        file(rt.alloc(), b"c00/f1", b"hello")?,
        file(rt.alloc(), b"c00/f7", b"")?,
        directory(rt.alloc(), b"c01")?,
    ];
    let line = summary(rt.alloc(), 4, 200, 12345, &nodes)?;
    is_line(
        &rt,
        &line,
        b"clients 4 requests 200 entries 12345 bytes 5 rows 0963a3be2afd533178b206ad99329b5fce928206a198e5019ec15f71cdd264df",
    );
    Ok(())
}

#[test]
fn numbers_are_the_largest(rt: HostRuntime) -> Result<(), Fail> {
    let mut first = file(rt.alloc(), b"a", b"")?;
    first.len = u64::MAX;
    let mut second = file(rt.alloc(), b"b", b"")?;
    second.len = u64::MAX;
    let line = summary(rt.alloc(), u32::MAX, u32::MAX, u64::MAX, &[first, second])?;
    is_line(
        &rt,
        &line,
        b"clients 4294967295 requests 4294967295 entries 18446744073709551615 bytes 36893488147419103230 rows 1bb389e4853f745c3676c1cf6637a5ffbb35031593df4e6cb3e4fef4cd2f598c",
    );
    Ok(())
}
