//! A client at a socket of this host.

use host_links::{SocketLink, SocketListen, address_named, host_at_port_0};
use host_sockets::{Address, Socket, Wire};
use log::sink::{Discard, Lines, Memory};
use log::{Level, Logged};
use outside::{Failed, Link, Listener};
use std::fs;
use std::net::{Net, TcpListener, TcpStream};
use std::os::unix::fs::FileTypeExt;
use std::rt::Clock;
use std::test::Fail;
use std::thread::{Threads, join, sleep};
use std::time::Duration;

// For how many seconds the server waits for a byte.
const IDLE: u64 = 2;

// Serves one client, which is answered whenever a `?` came, up to the end of what it sends: what is told of it.
fn serve<R: Clock + Net + AllocGlobal>(rt: &R, socket: &Socket) -> Lines {
    let log = Logged::new(rt, Level::Info, Memory::new(rt.alloc()));
    let mut listen = SocketListen::new(rt, &log, socket, IDLE, None);
    if let Ok(Some(mut link)) = listen.next() {
        let mut byte = [0u8; 1];
        for _ in 0..100 {
            match link.read(&mut byte) {
                Ok(1) if byte[0] == b'?' => {
                    let _ = link.write(b"ok");
                }
                Ok(1) => {}
                Ok(_) | Err(Failed) => break,
            }
        }
        listen.back(link);
    }
    drop(listen);
    let (_, lines) = log.into_parts();
    lines.into_lines()
}

// Sends these pieces, half a second after each other, and reads so many bytes, or up to the end if the server closes the connection: how many they were.
fn ask<R: Clock + Net<Listener = TcpListener, Stream = TcpStream>>(
    rt: &R,
    address: &Address,
    pieces: &[&[u8]],
    most: usize,
) -> Option<usize> {
    let mut link = SocketLink::over(Wire::connect(rt, address).ok()?);
    for piece in pieces {
        link.write(piece).ok()?;
        sleep(rt, Duration::from_millis(500));
    }
    let mut count = 0usize;
    for _ in 0..most {
        let more = link.read(&mut [0u8; 8]).ok()?;
        count = count.saturating_add(more);
        if more == 0 || count >= most {
            break;
        }
    }
    Some(count)
}

// A client asks a server of this host: what is told of it, and how many bytes it was sent.
fn meet<R: Clock + Net<Listener = TcpListener, Stream = TcpStream> + Threads + AllocGlobal + Sync>(
    rt: &R,
    socket: &Socket,
    address: &Address,
    pieces: &[&[u8]],
    most: usize,
) -> (Lines, Option<usize>) {
    join(rt, || serve(rt, socket), || ask(rt, address, pieces, most))
}

// A client of a server.
#[derive(Clone, Copy)]
struct Row {
    address: &'static str,
    pieces: &'static [&'static [u8]],
    // How many bytes it waits for before it leaves.
    most: usize,
    // How many it is sent.
    sent: usize,
    // What is told once it is gone.
    left: &'static str,
}

// One that sends half a message and stays, one that is slow, and one that leaves.
#[test]
fn clients_come_and_go(rt: HostRuntime) -> Result<(), Fail> {
    let rows = [
        Row {
            address: "unix:socket_of_half",
            pieces: &[b"hal"],
            most: 100,
            sent: 0,
            left: "left: 0 requests, 3 bytes read, 0 bytes written; idle for 2 seconds",
        },
        Row {
            address: "unix:socket_of_slow",
            pieces: &[b"s", b"l", b"o", b"w", b"?"],
            most: 100,
            sent: 2,
            left: "left: 1 requests, 5 bytes read, 2 bytes written; idle for 2 seconds",
        },
        Row {
            address: "127.0.0.1:0",
            pieces: &[b"one?", b"two?"],
            most: 4,
            sent: 4,
            left: "left: 2 requests, 8 bytes read, 4 bytes written; it closed the connection",
        },
    ];
    for row in rows {
        let name = row.address;
        let socket = Socket::bind(&rt, &Discard, address_named(rt.alloc(), name)?);
        let address = match socket.port() {
            Some(port) => Address::Host(format!(in rt.alloc(); "127.0.0.1:{port}")?),
            None => address_named(rt.alloc(), name)?,
        };
        let (lines, count) = meet(&rt, &socket, &address, row.pieces, row.most);
        assert_eq!(rt; count, Some(row.sent), "{name}");
        let lines = lines.as_slice();
        assert_eq!(rt; lines.len(), 2, "{name}");
        assert!(rt; lines[0].as_str().ends_with(" connected"), "{name}");
        assert!(rt; lines[1].as_str().ends_with(row.left), "{name}");
        let _ = socket.close(&rt);
    }
    Ok(())
}

// What the system says of ENOENT and EADDRINUSE.
#[test]
fn a_socket_that_could_not_be_bound_fails(rt: HostRuntime) -> Result<(), Fail> {
    let held = Socket::bind(
        &rt,
        &Discard,
        address_named(rt.alloc(), "unix:socket_that_is_held")?,
    );
    for (address, want) in [
        ("no port", "invalid socket address"),
        (
            "unix:no/such/folder/s",
            "No such file or directory (os error 2)",
        ),
        (
            "unix:socket_that_is_held",
            "Address already in use (os error 98)",
        ),
    ] {
        let log = Logged::new(&rt, Level::Error, Memory::new(rt.alloc()));
        let socket = Socket::bind(&rt, &log, address_named(rt.alloc(), address)?);
        assert!(rt; !socket.is_bound(), "{address}");
        let mut listen = SocketListen::new(&rt, Discard, &socket, 0, None);
        assert!(rt; listen.next().is_err(), "{address}");
        let (_, lines) = log.into_parts();
        let lines = lines.into_lines();
        let want = format!(in rt.alloc(); "[ERROR vaultd] listen at {address}: {want}")?;
        assert!(rt; lines.as_slice() == [want].as_slice(), "{address}");
        assert!(rt; socket.close(&rt).is_none());
    }
    assert!(rt; held.close(&rt).is_some());
    Ok(())
}

#[test]
fn a_unix_socket_is_a_file_until_it_is_closed(rt: HostRuntime) -> Result<(), Fail> {
    let path = "socket_until_closed";
    let name = format!(in rt.alloc(); "unix:{path}")?;
    for _ in 0..2 {
        let socket = Socket::bind(&rt, &Discard, address_named(rt.alloc(), name.as_str())?);
        assert!(rt; socket.is_bound());
        assert!(rt; fs::symlink_metadata(&rt, path)?.file_type().is_socket());
        let other = Socket::bind(&rt, &Discard, address_named(rt.alloc(), name.as_str())?);
        assert!(rt; !other.is_bound());
        assert!(rt; other.close(&rt).is_none());
        let removed = socket.close(&rt).ok_or("a file that was removed")?;
        assert!(rt; removed.as_str() == path);
        assert!(rt; fs::symlink_metadata(&rt, path).is_err());
    }
    Ok(())
}

#[test]
fn a_socket_bound_since_is_left_by_one_that_closes(rt: HostRuntime) -> Result<(), Fail> {
    let path = "socket_bound_anew";
    let name = format!(in rt.alloc(); "unix:{path}")?;
    let earlier = Socket::bind(&rt, &Discard, address_named(rt.alloc(), name.as_str())?);
    fs::remove_file(&rt, path)?;
    let later = Socket::bind(&rt, &Discard, address_named(rt.alloc(), name.as_str())?);
    let _ = earlier.close(&rt);
    assert!(rt; fs::symlink_metadata(&rt, path)?.file_type().is_socket());
    let _ = later.close(&rt);
    assert!(rt; fs::symlink_metadata(&rt, path).is_err());
    Ok(())
}

#[test]
fn addresses_name_paths_or_hosts(rt: HostRuntime) -> Result<(), Fail> {
    for (text, path, host) in [
        ("unix:a/b", "a/b", ""),
        ("unix:", "", ""),
        ("[::1]:0", "", "[::1]:0"),
        ("Unix:a", "", "Unix:a"),
    ] {
        match address_named(rt.alloc(), text)? {
            Address::Path(named) => assert!(rt; named.as_str() == path && host == "", "{text}"),
            Address::Host(named) => assert!(rt; named.as_str() == host && path == "", "{text}"),
        }
    }
    assert_eq!(rt; host_at_port_0("[::1]:0"), Some("[::1]"));
    assert_eq!(rt; host_at_port_0("[::1]:80"), None);
    Ok(())
}
