ghost use Rattle.std.specs.Prelude.{◌≡◌, ◌≤◌, length, take, is_some, IfOk};

use crate::change::Change;
use crate::exchange::exchange;
use crate::fids::FidTable;
use std::alloc::{AllocError, Global};
use std::marker::Model;
use tree_model::TreeObject;

/// The largest message, in bytes: a read of 65,536 bytes and 24 bytes for its header.
pub const MAX_MESSAGE: usize = 65560;

/// One session: the agreed size of messages and the fids in use. Clauses see its `State`.
#[derive(Drop)]
pub struct Session {
    size: Option<u32>,
    fids: FidTable,
}

impl Model for Session {
    ghost use Rattle.session_core.specs.State.{State, state_code};

    ghost Value = { State };

    ghost coded = { state_code };

    ghost use Rattle.session_core.specs.Inside.{session_view, IsSession};

    ghost view = { session_view };

    ghost invariant = { IsSession };
}

impl Session {
    ghost use Rattle.ninep_wire.specs.Reading.{IsFrame};
    ghost use Rattle.session_core.specs.State.{fresh, limit, least_message, most_message, HasGoodSize};
    ghost use Rattle.session_core.specs.Change.{changed, size_after, CanChange};
    ghost use Rattle.session_core.specs.Session.{HasAnswered};

    /// A session before its first message, with room for 1,024 fids and a name of 1,024 bytes for each. It is refused if
    /// memory ran out.
    pub fn new(alloc: Global) -> Result<Session, AllocError>
        ensures { IfOk result (λ session. session ≡ fresh) }
    {
        Ok(Session {
            size: None,
            fids: FidTable::new(alloc)?,
        })
    }

    /// The largest message that may come next, in bytes: the agreed size, or 65,560 before one.
    pub fn limit(&self) -> u32
        ensures value { result ≡ limit self.now }
        ensures bounds { (least_message ≤ result) × (result ≤ most_message) }
    {
        self.size.unwrap_or(MAX_MESSAGE as u32)
    }

    pub(crate) fn has_size(&self) -> bool
        ensures { result ≡ is_some self.now.size }
    {
        self.size.is_some()
    }

    pub(crate) fn fids(&self) -> &FidTable
        ensures { result.now ≡ self.now.fids }
    {
        &self.fids
    }

    /// Changes the session; `bytes` begin with those that were read, if any were.
    pub(crate) fn change(&mut self, change: &Change, bytes: &[u8])
        requires { CanChange self.old change.now bytes.now }
        ensures value { self.new ≡ changed self.old change.now bytes.now }
        ensures size { self.new.size ≡ size_after self.old change.now }
        ensures good { HasGoodSize self.new }
    {
        match *change {
            Change::Nothing => {}
            Change::Version(size) => {
                self.fids.clear();
                self.size = size;
            }
            Change::Set(fid, place) => self.fids.set(fid, &place),
            Change::Free(fid) => self.fids.remove(fid),
            Change::ReadOn { fid, offset, count } => {
                self.fids.read_on(fid, offset, &bytes[..count as usize]);
            }
        }
    }

    /// Answers one whole message, which came at a second since 1970-01-01: the R-message is put at the front of `out`, and its
    /// size in bytes is returned. At most one request is made of the object, and no memory is taken.
    ///
    /// The frame has at most as many bytes as `limit` says, and `out` has room for 65,560.
    pub fn answer<B: TreeObject>(
        &mut self,
        frame: &[u8],
        object: &mut B,
        now: u32,
        out: &mut [u8],
    ) -> usize
        requires frame { IsFrame frame.now }
        requires size { length frame.now ≤ limit self.old }
        requires room { most_message ≤ length out.old }
        ensures answered { HasAnswered B.stands self.old self.new object.old object.new frame.now now (take result out.new) }
        ensures size { (7 ≤ result) × (result ≤ limit self.new) }
        ensures bounds { limit self.new ≤ most_message }
    {
        prove!(frame.len() <= self.limit() as usize);
        exchange(self, frame, object, now, out)
    }
}
