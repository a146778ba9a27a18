//! The real host: the calls by which a folder of it is read and changed, its random bytes and its clock. What of them is trusted, and nothing else.
//!
//! ```
//! let mut host = StdCalls::new(&rt, &log);
//! host.create("/srv/vault/a", b"some bytes")?; // a new file, of mode 0600
//! let folder = host.stat("/srv/vault", true)?;
//! host.fsync("/srv/vault", folder)?; // its name is on the disk
//! ```
//!
//! No clause can say what a host's call does, so none of these objects tells proofs anything. Proved of their functions is the shape: they are safe and end,
//! counts of bytes stay within the buffers and the rest of a buffer is as it was, what only looks or flushes fails by `Failed` alone (a listing by `Memory`
//! too) and a change never by `Memory`, and random bytes fail only once their count of faults rose, which saturates at 2^64 - 1. Believed is that each call
//! of `StdCalls` does what its clauses in `host_calls` say of a story, which are the words of the system's manual:
//!
//! - `stat`: one stat(2) of the folder itself, one lstat(2) of what is in it. A folder or a file is at the path, with its device, its number and its
//!   length; or nothing, if that or a folder on the way is missing; or something else, which no other call then takes. Two files that are there at once
//!   differ in device or number.
//! - `list`: opendir(3), readdir(3). Each name in the folder comes once, `.` and `..` don't. Those that aren't UTF-8 come as one name, U+FFFD. A folder that
//!   may not be listed (EACCES) is none, as if no folder were there.
//! - `read_at`: open(2), twice fstat(2), lseek(2), and read(2) until the buffer is full or all bytes have come that the file had. What comes are the bytes
//!   of the file.
//! - `mkdir`: one mkdir(2), of mode 0700 as far as the mask lets it be. There is a new empty folder.
//! - `create`: open(2) with O_CREAT and O_EXCL, of mode 0600 as far as the mask lets it be, and write(2) until all is written. There is a new file of these
//!   bytes, whose number no name has, nor one that a power cut could bring back; after a failure it may be missing or have the first of its bytes.
//! - `write_at`: open(2), fstat(2), lseek(2), write(2) until all is written, and, if these are to be the last bytes, ftruncate(2). The rest of the file is
//!   as it was; after a failure the first of the bytes may be there.
//! - `set_len`: open(2), fstat(2), ftruncate(2). What follows `len` is cut.
//! - `rename`: one rename(2), which leaves two names of one file as they are. Else the file has the new name and not the old one.
//! - `unlink`, `rmdir`: one unlink(2), one rmdir(2). The name is gone.
//! - `fsync`: open(2), fstat(2), and of a file fdatasync(2), which brings its length to the disk too, of a folder fsync(2). A power cut no longer takes away
//!   what the file's bytes and length, or the folder's entries, are now: the disk doesn't say that it has what it hasn't. Until then it leaves each change of a
//!   name whole or not at all, and each write or cut of a file whole, in part or not at all, in their order. A kill of the program takes nothing away.
//! - After a failure of `mkdir`, `set_len`, `rename`, `unlink` or `rmdir`, its change was made whole or not at all.
//! - `lock`: open(2) and flock(2), which doesn't wait. While the lock is taken nobody else takes it, unless both share it; it is given back once what took it is
//!   dropped, or the program ends.
//! - `did`, `broke`, `synced`: they do nothing.
//! - ENOENT, ENOTDIR, EISDIR and ENOTEMPTY mean that the path isn't what the change needs and that nothing changed. A call that a signal cuts short is made again.
//! - `secret_file`: one stat(2), open(2), fstat(2). What is opened is the file that was seen, whose mode gives nothing to the group or to others; a folder, a
//!   FIFO or a device isn't opened.
//! - `OsEntropy`: `/dev/urandom` gives bytes that nobody can foresee. It is opened by the first draw.
//! - `HostClock`: the seconds since 1970 are right; if they can't be told it says 0.
//!
//! Each fault of the host is told to a logger once, as an error: the call, the path and the host's own words; so is a folder that may not be listed. A change
//! that doesn't fit, and a path at which nothing is, are no faults. A folder on a file system that has no locks is a warning.
//!
//! And that nobody else changes the folder meanwhile. If another process does, no file outside of it is cut or written by way of a link at the end of a path:
//! what is opened is compared (device, number, kind) with what was seen before a byte is read or written, a new file is made only if there is nothing, and no
//! file is cut by opening. These stay open, as std has neither `openat` nor flags for `open`: a file that is swapped for a FIFO just before a read, a flush or the
//! opening of a secret makes that call wait for a writer; a folder on the way that is swapped for a link is followed; a rename or a removal takes what has the name by then.
#![tactic(auto)]

mod calls;
mod clock;
mod entropy;
mod found;
mod opened;

pub use calls::StdCalls;
pub use clock::HostClock;
pub use entropy::OsEntropy;
pub use opened::{SecretFileErr, secret_file};
