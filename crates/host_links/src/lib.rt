//! Clients of the host behind the traits of `outside`: links, sources and sinks over readers and writers, and sockets.
//!
//! ```
//! let mut link = StreamLink::over(&b"bytes of a client"[..], Vec::new(rt.alloc()));
//! let count = link.read(&mut buffer)?; // of bytes in memory all is told
//! ```
//!
//! A link, a source and a sink are over any reader and writer, and tell what these tell. Over bytes in memory (`StreamLink::over`, `StdSource::over`,
//! `StdSink::over`) all that their traits say of contents is proved of the code that serves the standard streams.
//!
//! No clause can say what a standard stream or a socket of `host_sockets` gives or takes. What is proved of each call over them is its shape: it is safe, its
//! counts stay within the buffers, and it answers that it failed only after raising the object's count of faults.
//!
//! Clients over TCP or a Unix socket connect to a `Socket`, which several `SocketListen` share, one for each
//! worker.
//!
//! Each fault is told to a logger once: of the secret's source, of the report's sink and of accepting a client as an error, and how a client ended as a line
//! that is for who asks for more, with the requests that were answered and the bytes that went each way. No line has a byte of what was read or written.
#![tactic(auto)]

mod address;
mod ends;
mod link;
mod listen;
mod secret;
mod socket;
mod stream;
mod traffic;

pub use address::{address_named, host_at_port_0};
pub use ends::{Incoming, Outgoing, Untold};
pub use link::{HostLink, StreamLink};
pub use listen::HostListen;
pub use secret::SecretSource;
pub use socket::{SocketLink, SocketListen};
pub use stream::{LastLine, StdSink, StdSource};
