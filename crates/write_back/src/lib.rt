//! Changes of contents as deeds, and a journal whose deeds of contents wait in memory.
//!
//! # Deeds of contents
//!
//! A sealed change of a content file, as the deed that does it.
//!
//! ```text
//! let change = SealedChunks { first: 0, sealed: &sealed, size: 32_864 }; // one full chunk behind the header
//! put_chunks(&mut pending, &path, &change);
//! journal.commit(pending.deeds())?;
//! put_behind(&mut pending, &path, 32_864, &later); // another change, of the file as it will be
//! ```
//!
//! `deeds_rewrite`, `waiting_rewrites` and `chunks_are_cut` are laws: they do nothing, and their clauses hold. They say what the
//! deed of a change leaves on a disk, alone and after others that wait, and that sealed chunks which lie one after the other are
//! cut at their borders.
//!
//! # What waits
//!
//! A journal whose writes of contents wait in memory until they are committed together.
//!
//! ```text
//! let mut back = WriteBack::new(journal, Pending::new(alloc)?, Headers::new(alloc)?);
//! back.keep_header(&path)?; // the next flush looks for it, and reads show it while changes of the file wait
//! if !back.room(&path, 1) {
//!     back.flush()?; // all that waits, in one batch; no header is kept then
//! }
//! back.put(&path, 68, &change); // reads of `back` show it from now on
//! let count = back.read(&path, 68, &mut buffer)?;
//! back.flush()?;
//! back.journal().commit(&deeds)?; // a batch of its own, while nothing waits
//! ```
//!
//! A flush first looks at each file for which changes wait, since another program may have taken it away, cut it, or put another in its
//! place: whether it is there, can be written and then is as long as it is to be, and whether it begins with the 68 bytes that
//! `keep_header` found. What waits for a file of which that isn't so is dropped and reported as a fault of the folder, and the rest is
//! committed: `FlushErr::Dropped`. A folder that tells its contents is changed by nobody else, so there nothing is dropped. A file
//! that is changed between the look and the commit isn't noticed; `fits` is the look alone.
//!
//! `flushed_disks` is a law: it does nothing, and its clauses hold. It says what a flush leaves on the disk.
#![tactic(auto)]

mod back;
mod behind;
mod deed_laws;
mod fault;
mod flush_laws;
mod headers;
mod looking;
mod putting;

pub use back::WriteBack;
pub use behind::put_behind;
pub use deed_laws::{chunks_are_cut, deeds_rewrite, waiting_rewrites};
pub use fault::FlushErr;
pub use flush_laws::flushed_disks;
pub use headers::Headers;
pub use looking::fits;
pub use putting::{SealedChunks, put_chunks};
