ghost use Rattle.std.specs.Prelude.{◌≡◌, option_map, string_bytes};
ghost use Rattle.host_sockets.specs.Bound.{address_of, file_of, is_bound};

use crate::address::Address;
use crate::wire::Wire;
use host_streams::told;
use log::Log;
use mio::net::{TcpStream as TcpProbe, UnixStream as UnixProbe};
use std::fs::{Files, Permissions};
use std::net::{Net, SocketAddr, TcpListener, TcpStream};
use std::os::unix::fs::{FileTypeExt, MetadataExt, PermissionsExt};
use std::os::unix::net::UnixListener;
use std::{fs, io};

// The mode of a Unix socket's file: its owner's alone.
const SOCKET_MODE: u32 = 0o600;

// Which file is at a path: its device, and its number there.
type FileId = (u64, u64);

#[derive(Drop)]
enum Door {
    Tcp(TcpListener),
    Unix(UnixListener, FileId),
}

// Whether a path is a socket's file that nobody listens at. A server that was stopped leaves its own. It is connected to without waiting: a server that
// lets nobody in at the moment is there all the same.
fn is_left_behind<R: Files + Net>(rt: &R, path: &str) -> bool {
    let Ok(found) = fs::symlink_metadata(rt, path) else {
        return false;
    };
    if !found.file_type().is_socket() {
        return false;
    }
    match UnixProbe::connect(rt, path) {
        Ok(_) => false,
        Err(error) => error.kind() == io::ErrorKind::ConnectionRefused,
    }
}

fn file_at<R: Files>(rt: &R, path: &str) -> io::Result<FileId> {
    let found = fs::symlink_metadata(rt, path)?;
    Ok((found.dev(), found.ino()))
}

// Leaves a file to its owner alone, and says which it is.
fn owned<R: Files>(rt: &R, path: &str) -> io::Result<FileId> {
    fs::set_permissions(rt, path, Permissions::from_mode(SOCKET_MODE))?;
    file_at(rt, path)
}

// Binds a new file at a path, and leaves it to its owner alone.
fn bind_owned<R: Files + Net>(rt: &R, path: &str) -> io::Result<Door> {
    if is_left_behind(rt, path) {
        fs::remove_file(rt, path)?;
    }
    let listener = UnixListener::bind(rt, path)?;
    let file = owned(rt, path).inspect_err(|_| drop(fs::remove_file(rt, path)))?;
    Ok(Door::Unix(listener, file))
}

// Removes the file that was bound at a path, unless another is there by now.
fn remove_bound<R: Files>(rt: &R, path: &str, bound: FileId) {
    if file_at(rt, path).is_ok_and(|found| found == bound) {
        let _ = fs::remove_file(rt, path);
    }
}

fn bind_host<R: Net<Listener = TcpListener, Stream = TcpStream>>(
    rt: &R,
    address: &str,
) -> io::Result<Door> {
    let listener = TcpListener::bind(rt, address)?;
    Ok(Door::Tcp(listener))
}

/// A socket that clients connect to, if it could be bound at its address. Several listeners may share it.
#[derive(Drop)]
pub struct Socket {
    door: Option<Door>,
    address: Address,
}

impl Socket {
    /// A socket at an address: over TCP; or a Unix socket at a path where nothing is yet, or a socket's file that nobody listens at. That is a new file, whose
    /// mode is 0600 as soon as it is bound, and which stays there until `close`. If a server is listening there, one probe connection is made, and closed at
    /// once. Of several that find a file left behind at once, a later one may remove what an earlier has bound, unless a lock keeps them apart. Why it can't be
    /// bound is told to the logger.
    pub fn bind<R: Files + Net<Listener = TcpListener, Stream = TcpStream>, L: Log>(
        rt: &R,
        log: &L,
        address: Address,
    ) -> Socket
        ensures { address_of result ≡ address }
    {
        let bound = match &address {
            Address::Path(path) => bind_owned(rt, path.as_str()),
            Address::Host(host) => bind_host(rt, host.as_str()),
        };
        let door = told(log, format_args!("listen at {address}"), bound).ok();
        Socket { door, address }
    }

    /// Whether clients can connect.
    pub fn is_bound(&self) -> bool
        ensures { result ≡ is_bound self.now }
    {
        self.door.is_some()
    }

    /// The port of a TCP socket, which the host picks if port 0 was asked for.
    pub fn port(&self) -> Option<u16> {
        match &self.door {
            Some(Door::Tcp(listener)) => Some(listener.local_addr().ok()?.port()),
            Some(Door::Unix(..)) | None => None,
        }
    }

    /// The next client, which is waited for, and where it connects from if it isn't this host. Over TCP what is written is sent at once. A read of it that no
    /// byte comes to for `idle` seconds fails, unless that is 0, and a write that takes none for a minute. Without a listener there is none.
    pub fn accept(&self, idle: u64) -> io::Result<(Wire, Option<SocketAddr>)> {
        let (wire, peer) = match &self.door {
            Some(Door::Tcp(listener)) => {
                let (stream, peer) = listener.accept()?;
                (Wire::of_host(stream)?, Some(peer))
            }
            Some(Door::Unix(listener, _)) => (Wire::Unix(listener.accept()?.0), None),
            None => return Err(io::Error::from(io::ErrorKind::NotConnected)),
        };
        wire.set_waits(idle)?;
        Ok((wire, peer))
    }

    /// Has one `accept` that waits return: with a connection to itself, which isn't waited for and is closed at once.
    pub fn wake<R: Net>(&self, rt: &R) -> io::Result<()> {
        match &self.door {
            Some(Door::Tcp(door)) => drop(TcpProbe::connect(rt, door.local_addr()?)),
            Some(Door::Unix(door, _)) => drop(UnixProbe::connect_addr(rt, &door.local_addr()?)),
            None => {}
        }
        Ok(())
    }

    /// Closes it, once the file is removed that it was bound at, and says which that was. What is at its path by now instead is left there.
    pub fn close<R: Files>(self, rt: &R) -> Option<String>
        ensures { option_map string_bytes result ≡ file_of self }
    {
        let Socket { door, address } = self;
        let Some(door) = door else {
            return None;
        };
        match address {
            Address::Path(path) => {
                if let Door::Unix(_, bound) = &door {
                    remove_bound(rt, path.as_str(), *bound);
                }
                Some(path)
            }
            Address::Host(_) => None,
        }
    }
}
