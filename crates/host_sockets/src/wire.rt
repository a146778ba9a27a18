use crate::address::Address;
use std::io;
use std::io::{Read, Write};
use std::net::{Net, TcpStream};
use std::os::unix::net::UnixStream;
use std::time::Duration;

/// For how many seconds a write waits until the other end takes a byte, and a client until its server sends one.
pub const WAIT: u64 = 60;

/// A connection, of which nothing is told.
#[derive(Drop)]
pub enum Wire {
    Tcp(TcpStream),
    Unix(UnixStream),
}

impl Wire {
    /// Connects to a server as its client. Over TCP what is written is sent at once. A read that no byte comes to for a minute fails, and so does a write that
    /// takes none.
    pub fn connect<R: Net<Stream = TcpStream>>(rt: &R, address: &Address) -> io::Result<Wire> {
        let wire = match address {
            Address::Path(path) => Wire::Unix(UnixStream::connect(rt, path.as_str())?),
            Address::Host(host) => Wire::of_host(TcpStream::connect(rt, host.as_str())?)?,
        };
        wire.set_waits(WAIT)?;
        Ok(wire)
    }

    pub(crate) fn of_host(stream: TcpStream) -> io::Result<Wire> {
        stream.set_nodelay(true)?;
        Ok(Wire::Tcp(stream))
    }

    // Has a read wait for so many seconds, or as long as it takes if that is 0, and a write for a minute.
    pub(crate) fn set_waits(&self, seconds: u64) -> io::Result<()> {
        let to_read = (seconds > 0).then_some(Duration::from_secs(seconds));
        let to_write = Some(Duration::from_secs(WAIT));
        match self {
            Wire::Tcp(stream) => {
                stream.set_read_timeout(to_read)?;
                stream.set_write_timeout(to_write)
            }
            Wire::Unix(stream) => {
                stream.set_read_timeout(to_read)?;
                stream.set_write_timeout(to_write)
            }
        }
    }
}

impl Read for Wire {
    fn read(&mut self, buf: &mut [u8]) -> io::Result<usize> {
        match self {
            Wire::Tcp(stream) => stream.read(buf),
            Wire::Unix(stream) => stream.read(buf),
        }
    }
}

impl Write for Wire {
    fn write(&mut self, buf: &[u8]) -> io::Result<usize> {
        match self {
            Wire::Tcp(stream) => stream.write(buf),
            Wire::Unix(stream) => stream.write(buf),
        }
    }

    // It has no buffer.
    fn flush(&mut self) -> io::Result<()> {
        Ok(())
    }
}
