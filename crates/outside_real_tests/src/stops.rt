//! A server that ends while clients are there.

use host_links::{SocketLink, SocketListen, address_named};
use host_sockets::{Socket, Wire};
use log::sink::Discard;
use outside::{Link, Listener};
use std::net::Net;
use std::rt::Clock;
use std::sync::atomic::{AtomicBool, Ordering};
use std::test::Fail;
use std::thread::{join, sleep};
use std::time::Duration;

// A client sends a request, and reads what it is answered.
fn asked(client: &mut SocketLink<'_>, link: &mut SocketLink<'_>) -> Option<usize> {
    let mut byte = [0u8; 1];
    client.write(b"?").ok()?;
    match link.read(&mut byte) {
        Ok(1) => {
            link.write(b"ok").ok()?;
            client.read(&mut [0u8; 8]).ok()
        }
        Ok(count) => Some(count),
        Err(_) => None,
    }
}

#[test]
fn a_client_is_answered_once_more_before_its_end(rt: HostRuntime) -> Result<(), Fail> {
    let stopped = AtomicBool::new(false);
    let address = address_named(rt.alloc(), "unix:socket_that_stops")?;
    let socket = Socket::bind(
        &rt,
        &Discard,
        address_named(rt.alloc(), "unix:socket_that_stops")?,
    );
    let mut listen = SocketListen::new(&rt, Discard, &socket, 0, Some(&stopped));
    let mut client = SocketLink::over(Wire::connect(&rt, &address)?);
    let Ok(Some(mut link)) = listen.next() else {
        return Err(Fail::from("a link"));
    };
    assert_eq!(rt; asked(&mut client, &mut link), Some(2));
    stopped.store(true, Ordering::SeqCst);
    assert_eq!(rt; asked(&mut client, &mut link), Some(2));
    assert_eq!(rt; asked(&mut client, &mut link), Some(0));
    listen.back(link);
    assert!(rt; matches!(listen.next(), Ok(None)));
    let _ = socket.close(&rt);
    Ok(())
}

#[test]
fn a_client_that_sends_nothing_more_is_cut_off(rt: HostRuntime) -> Result<(), Fail> {
    let stopped = AtomicBool::new(false);
    let address = address_named(rt.alloc(), "unix:socket_of_the_silent")?;
    let socket = Socket::bind(
        &rt,
        &Discard,
        address_named(rt.alloc(), "unix:socket_of_the_silent")?,
    );
    let mut listen = SocketListen::new(&rt, Discard, &socket, 0, Some(&stopped));
    let _client = Wire::connect(&rt, &address)?;
    let Ok(Some(mut link)) = listen.next() else {
        return Err(Fail::from("a link"));
    };
    stopped.store(true, Ordering::SeqCst);
    assert!(rt; link.read(&mut [0u8; 1]) == Ok(0));
    listen.back(link);
    let _ = socket.close(&rt);
    Ok(())
}

// Waits for a client whom nobody sends.
fn wait_for_one<R: Clock + Net>(rt: &R, socket: &Socket, stopped: &AtomicBool) -> bool {
    let mut listen = SocketListen::new(rt, Discard, socket, 0, Some(stopped));
    matches!(listen.next(), Ok(None))
}

#[test]
fn one_that_waits_for_a_client_is_woken(rt: HostRuntime) -> Result<(), Fail> {
    for name in [
        "unix:socket_that_wakes",
        "127.0.0.1:0",
        "[::]:0",
        "0.0.0.0:0",
    ] {
        let socket = Socket::bind(&rt, &Discard, address_named(rt.alloc(), name)?);
        if !socket.is_bound() {
            // (a host without IPv6)
            continue;
        }
        let stopped = AtomicBool::new(false);
        let (ended, ()) = join(
            &rt,
            || wait_for_one(&rt, &socket, &stopped),
            || {
                sleep(&rt, Duration::from_millis(300));
                stopped.store(true, Ordering::SeqCst);
                let _ = socket.wake(&rt);
            },
        );
        assert!(rt; ended, "{name}");
        let _ = socket.close(&rt);
    }
    Ok(())
}
