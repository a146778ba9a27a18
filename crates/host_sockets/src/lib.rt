//! Sockets of the host, and its standard input and output: what of them is trusted, and nothing else.
//!
//! ```
//! let socket = Socket::bind(&rt, &log, Address::Path(path)); // a new file, of mode 0600
//! if socket.is_bound() {
//!     let (mut wire, peer) = socket.accept(30)?; // the next client, whose reads wait for half a minute
//!     let count = wire.read(&mut buffer)?;
//! }
//! let removed = socket.close(&rt); // that file, if it was bound
//! ```
//!
//! No clause can say what a host's call does. Proved of these functions is that they are safe and end, that counts of bytes stay within the
//! buffers, that a socket is at the address that it was asked for, and which file `close` says that it removed. Believed is:
//!
//! - `bind_host`: it binds and listens at that host and port, and an answer of Ok is a listener there.
//! - `is_left_behind`: that a path is a socket's file, and that a connection to it is refused, as it is only if nobody listens there. It isn't waited for: a
//!   server that listens sees one connection that is closed at once, or none if it lets nobody in at the moment.
//! - `bind_owned`: a file is removed only if it is left behind so; a new file is bound, which fails if anything is there; its mode is 0600 as soon as it is
//!   bound, or it is removed again.
//! - `Socket::bind`: the listener is at the address that is kept with it.
//! - `Socket::port`: the port at which the listener is.
//! - `Socket::accept`: each client that connects is given once, with the address that it has over TCP, and there what is written is sent at once. A read
//!   that no byte comes to for so many seconds fails, and a write that takes none for a minute; both say by their kind that it was for that.
//! - `Socket::wake`: an `accept` that waits returns, though nobody has come. It isn't waited for, so a host that lets nobody in at the moment needs none.
//! - `Socket::close`: the file that was bound is removed, if it is at its path still, and no other; it is removed before the listener closes, so that nobody can
//!   have found it left behind.
//! - `Wire::connect`: the other end is the server at that address. For how long the host tries is its own matter.
//! - `Wire`: what is read is what the other end sent, in order, each byte once, and 0 its end; what is written is sent to it so. Dropping it closes the connection.
//! - `input`, `Output`: the runtime's standard input and standard output.
//!
//! Between binding a Unix socket and giving it its mode others may connect, if the host has no mask: std has none to set.
#![tactic(auto)]

mod address;
mod socket;
mod standard;
mod wire;

pub use address::Address;
pub use socket::Socket;
pub use standard::{Output, input};
pub use wire::{WAIT, Wire};
