//! Room for one fid and for the last name of a directory that it has open.

ghost use Rattle.std.specs.Prelude.{◌≡◌, ◌≤◌, ◌<◌, ◌^◌, true, length, is_some, MatchOption};
ghost use Rattle.std.specs.String.{string_bytes, string_capacity};

use crate::last_name::last_name;
use std::alloc::{AllocError, Global};
use std::marker::Model;

// The longest name of a tree, in bytes.
const NAME_ROOM: usize = 1024;

/// Where a fid is put: at a node, open with a mode or not.
#[derive(Clone, Copy)]
pub(crate) struct Place {
    pub node: u64,
    pub is_dir: bool,
    pub mode: Option<u8>,
}

/// A fid that is open: its node, its mode, and of the last Rread its offset, its count, and the name in its last stat.
#[derive(Clone, Copy)]
pub(crate) struct OpenFid<'a> {
    pub node: u64,
    pub is_dir: bool,
    pub mode: u8,
    pub offset: u64,
    pub count: u32,
    pub last: Option<&'a str>,
}

// How a fid is open; the name is in the slot.
#[derive(Clone, Copy)]
struct Opening {
    mode: u8,
    offset: u64,
    count: u32,
    has_last: bool,
}

/// A fid. Clauses see its `Fid`; the room for the name stays.
#[derive(Drop)]
pub(crate) struct Slot {
    node: u64,
    is_dir: bool,
    opening: Option<Opening>,
    last: String,
}

// Puts a name into the room for it.
fn keep(room: &mut String, name: &str)
    requires fits { length name.now ≤ string_capacity room.old }
    ensures name { string_bytes room.new ≡ name.now }
    ensures room { string_capacity room.old ≤ string_capacity room.new }
{
    room.clear();
    if room.push_str(name).is_err() {
        unreachable!();
    }
}

impl Model for Slot {
    ghost use Rattle.session_core.specs.State.{Fid, fid_code};

    ghost Value = { Fid };

    ghost coded = { fid_code };

    ghost use Rattle.session_core.specs.Slot.{slot_view, HasRoom};

    ghost view = { slot_view };

    ghost invariant = { HasRoom };
}

impl Slot {
    ghost use Rattle.tree_model.specs.Asked.{AreStats};
    ghost use Rattle.session_core.specs.Outcome.{read_on};
    ghost use Rattle.session_core.specs.Slot.{plain_open_fid, placed};

    /// A slot that no fid has yet.
    pub fn new(alloc: Global) -> Result<Slot, AllocError> {
        Ok(Slot {
            node: 0,
            is_dir: false,
            opening: None,
            last: String::with_capacity(alloc, NAME_ROOM)?,
        })
    }

    pub fn node(&self) -> u64
        ensures { result ≡ self.now.node }
    {
        self.node
    }

    /// The fid if it is open.
    pub fn open_fid(&self) -> Option<OpenFid<'_>>
        ensures { MatchOption result (self.now.opened ≡ None) (λ fid. self.now ≡ plain_open_fid fid) }
    {
        let opening = self.opening?;
        let last = if opening.has_last {
            Some(self.last.as_str())
        } else {
            None
        };
        Some(OpenFid {
            node: self.node,
            is_dir: self.is_dir,
            mode: opening.mode,
            offset: opening.offset,
            count: opening.count,
            last,
        })
    }

    /// Where the fid is, if it isn't open.
    pub fn closed_place(&self) -> Option<Place>
        ensures { MatchOption result (is_some self.now.opened ≡ true) (λ place. (self.now ≡ placed place) × (place.mode ≡ None)) }
    {
        match self.opening {
            Some(_) => None,
            None => Some(Place {
                node: self.node,
                is_dir: self.is_dir,
                mode: None,
            }),
        }
    }

    pub fn put(&mut self, place: &Place)
        ensures { self.new ≡ placed place.now }
    {
        self.node = place.node;
        self.is_dir = place.is_dir;
        self.opening = place.mode.map(|mode| Opening {
            mode,
            offset: 0,
            count: 0,
            has_last: false,
        });
    }

    /// After bytes from an offset on were read: a directory's are whole stats.
    pub fn read_on(&mut self, offset: u64, bytes: &[u8])
        requires small { length bytes.now < 2 ^ 32 }
        requires stats { self.old.is_dir ≡ true → AreStats (length bytes.now) bytes.now }
        ensures { self.new ≡ read_on offset bytes.now self.old }
    {
        if !self.is_dir {
            return;
        }
        let Some(opening) = self.opening else {
            return;
        };
        let has_last = match last_name(bytes) {
            Some(name) => {
                keep(&mut self.last, name);
                true
            }
            None => offset != 0 && opening.has_last,
        };
        self.opening = Some(Opening {
            mode: opening.mode,
            offset,
            count: bytes.len() as u32,
            has_last,
        });
    }
}
