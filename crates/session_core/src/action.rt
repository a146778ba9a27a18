//! What a session does on a message: it answers at once, or asks the tree.

ghost use Rattle.std.specs.Prelude.{◌≡◌, ℕ, ◌+◌, ◌≤◌, ◌<◌, List, length, true, IfOk, MatchResult};
ghost use Rattle.std.specs.FinMap as map;
ghost use Rattle.tree_model.specs.Asked.{plain_change, write_limit};
ghost use Rattle.tree_model.specs.Names.{names_in, IsWalk};
ghost use Rattle.ninep_wire.specs.TMessage as t;
ghost use Rattle.ninep_wire.specs.TMessage.{t_fields};
ghost use Rattle.ninep_wire.specs.Plain.{plain_t, HasNames};
ghost use Rattle.session_core.specs.State.{Opened, Fid, most_message};
ghost use Rattle.session_core.specs.Slot.{placed, plain_opened, plain_open_fid};
ghost use Rattle.session_core.specs.Action as acts;
ghost use Rattle.session_core.specs.Action.{refuses, with_fid, with_closed, with_open, with_unused, with_newfid, is_protocol, version_action, attach_action, read_action, touches_nothing, agreed_action, action_without, action_of};
ghost use Rattle.session_core.specs.Denial.{denial_text};
ghost use Rattle.session_core.specs.Change.{CanSet};
ghost use Rattle.session_core.specs.Forms.{plain_action, IsRequestOf, IsActionOf, IsAskable, IsFormed};

use crate::change::Change;
use crate::session::{MAX_MESSAGE, Session};
use crate::slot::{OpenFid, Place};
use crate::texts::{Denial, denial_text};
use ninep_wire::{RMessage, TMessage};
use tree_model::{Names, Request, StatChange};

// No fid (NOFID, intro(5)).
const NO_FID: u32 = u32::MAX;

// The number of the root.
const ROOT: u64 = 0;

// The smallest size of messages that is agreed to, in bytes.
const MIN_MESSAGE: u32 = 2048;

/// How many bytes of a message a read leaves to its header (iounit, open(5)).
pub(crate) const HEADER_ROOM: u32 = 24;

// The bits that a mode may have (open(5)): OREAD to OEXEC, and OTRUNC.
const MODE_BITS: u8 = 0x13;

// Those of them that say how a fid is open, and OWRITE and ORDWR among these.
const ACCESS_BITS: u8 = 3;

const WRITE: u8 = 1;

const READ_WRITE: u8 = 2;

// The bits that permissions may have (stat(5)): DMDIR, and rwx for owner, group and others.
const PERM_BITS: u32 = 0x8000_01ff;

const DMDIR: u32 = 0x8000_0000;

const PROTOCOL: &str = "9P2000";

const UNKNOWN_VERSION: &str = "unknown";

/// What is done on a message: an answer at once and what changes, or a request of the tree.
pub(crate) enum Action<'a> {
    Say(RMessage<'static>, Change),
    Ask(Request<'a>),
}

// ---- tests of fids

// The node of a fid in use.
fn node_of(session: &Session, fid: u32) -> Result<u64, Denial>
    ensures { MatchResult result
        (λ node. (found : Fid) × (map.get session.now.fids fid ≡ Some found) × (found.node ≡ node))
        (λ denial. (action : Fid → acts.Action) → with_fid session.now fid action ≡ refuses (denial_text denial) session.now) }
{
    match session.fids().get(fid) {
        Some(slot) => Ok(slot.node()),
        None => Err(Denial::UnknownFid),
    }
}

// Where a fid is that is in use and not open.
fn closed_fid(session: &Session, fid: u32) -> Result<Place, Denial>
    ensures { MatchResult result
        (λ place. (map.get session.now.fids fid ≡ Some (placed place)) × (place.mode ≡ None))
        (λ denial. (action : Fid → acts.Action) → with_closed session.now fid action ≡ refuses (denial_text denial) session.now) }
{
    let Some(slot) = session.fids().get(fid) else {
        return Err(Denial::UnknownFid);
    };
    match slot.closed_place() {
        Some(place) => Ok(place),
        None => Err(Denial::FidIsOpen),
    }
}

// A fid that is open.
fn open_fid(session: &Session, fid: u32) -> Result<OpenFid<'_>, Denial>
    ensures { MatchResult result
        (λ found. map.get session.now.fids fid ≡ Some (plain_open_fid found))
        (λ denial. (action : Fid → Opened → acts.Action) → with_open session.now fid action ≡ refuses (denial_text denial) session.now) }
{
    let Some(slot) = session.fids().get(fid) else {
        return Err(Denial::UnknownFid);
    };
    match slot.open_fid() {
        Some(found) => Ok(found),
        None => Err(Denial::FidIsNotOpen),
    }
}

// Whether a fid that isn't in use can be.
fn test_unused(session: &Session, fid: u32) -> Result<(), Denial>
    ensures { MatchResult result
        (λ _. ((action : acts.Action) → with_unused session.now fid action ≡ action) × CanSet session.now fid)
        (λ denial. (action : acts.Action) → with_unused session.now fid action ≡ refuses (denial_text denial) session.now) }
{
    if session.fids().get(fid).is_some() {
        return Err(Denial::FidInUse);
    }
    if session.fids().is_full() {
        return Err(Denial::TooManyFids);
    }
    Ok(())
}

// Whether a walk from a fid in use may set newfid.
fn test_newfid(session: &Session, fid: u32, newfid: u32) -> Result<(), Denial>
    requires { map.contains_key session.now.fids fid ≡ true }
    ensures { MatchResult result
        (λ _. ((action : acts.Action) → with_newfid session.now fid newfid action ≡ action) × CanSet session.now newfid)
        (λ denial. (action : acts.Action) → with_newfid session.now fid newfid action ≡ refuses (denial_text denial) session.now) }
{
    if newfid == NO_FID {
        return Err(Denial::UnknownFid);
    }
    if newfid == fid {
        return Ok(());
    }
    test_unused(session, newfid)
}

// ---- messages that ask

fn attach_request<'a>(session: &Session, fid: u32, afid: u32) -> Result<Request<'a>, Denial>
    ensures request { IsRequestOf session.now (attach_action session.now fid afid) result }
    ensures form { (uname aname : List ℕ) → IfOk result (IsAskable session.now (t.attach fid afid uname aname)) }
{
    if afid != NO_FID {
        return Err(Denial::AuthenticationNotRequired);
    }
    if fid == NO_FID {
        return Err(Denial::UnknownFid);
    }
    test_unused(session, fid)?;
    Ok(Request::Look { node: ROOT })
}

fn open_request<'a>(session: &Session, fid: u32, mode: u8) -> Result<Request<'a>, Denial>
    ensures request { IsRequestOf session.now (agreed_action session.now (t.open_fid fid mode)) result }
    ensures form { IfOk result (IsAskable session.now (t.open_fid fid mode)) }
{
    let place = closed_fid(session, fid)?;
    if mode & MODE_BITS != mode {
        return Err(Denial::NotPermitted);
    }
    Ok(Request::OpenNode {
        node: place.node,
        mode,
    })
}

fn create_request<'a>(
    session: &Session,
    fid: u32,
    name: &'a str,
    perm: u32,
    mode: u8,
) -> Result<Request<'a>, Denial>
    ensures request { IsRequestOf session.now (agreed_action session.now (t.create fid name.now perm mode)) result }
    ensures form { IfOk result (IsAskable session.now (t.create fid name.now perm mode)) }
{
    let place = closed_fid(session, fid)?;
    if perm & PERM_BITS != perm {
        return Err(Denial::NotPermitted);
    }
    if mode & MODE_BITS != mode {
        return Err(Denial::NotPermitted);
    }
    let is_dir = perm >= DMDIR;
    if is_dir && mode != 0 {
        return Err(Denial::IsADirectory);
    }
    Ok(Request::Create {
        node: place.node,
        name,
        is_dir,
        mode,
    })
}

// A read of at most so many bytes by a fid that is open for it.
fn read_from<'a>(
    session: &Session,
    found: &OpenFid<'a>,
    offset: u64,
    count: u32,
) -> Result<Request<'a>, Denial>
    ensures { IsRequestOf session.now (read_action session.now (plain_open_fid found.now) (plain_opened found.now) offset count) result }
{
    let node = found.node;
    if !found.is_dir {
        return Ok(Request::Read {
            node,
            at: offset,
            count,
        });
    }
    if offset == 0 {
        return Ok(Request::List {
            node,
            after: None,
            count,
        });
    }
    if found.offset.checked_add(u64::from(found.count)) != Some(offset) {
        return Err(Denial::BadOffset);
    }
    Ok(Request::List {
        node,
        after: found.last,
        count,
    })
}

fn read_request(session: &Session, fid: u32, offset: u64, count: u32) -> Result<Request<'_>, Denial>
    ensures request { IsRequestOf session.now (agreed_action session.now (t.read fid offset count)) result }
    ensures form { IfOk result (IsAskable session.now (t.read fid offset count)) }
{
    let found = open_fid(session, fid)?;
    if found.mode & ACCESS_BITS == WRITE {
        return Err(Denial::NotPermitted);
    }
    read_from(
        session,
        &found,
        offset,
        count.min(session.limit() - HEADER_ROOM),
    )
}

fn write_request<'a>(
    session: &Session,
    fid: u32,
    offset: u64,
    bytes: &'a [u8],
) -> Result<Request<'a>, Denial>
    requires { length bytes.now ≤ write_limit }
    ensures request { IsRequestOf session.now (agreed_action session.now (t.write fid offset bytes.now)) result }
    ensures form { IfOk result (IsAskable session.now (t.write fid offset bytes.now)) }
{
    let found = open_fid(session, fid)?;
    let access = found.mode & ACCESS_BITS;
    if access != WRITE && access != READ_WRITE {
        return Err(Denial::NotPermitted);
    }
    Ok(Request::Write {
        node: found.node,
        at: offset,
        bytes,
    })
}

fn remove_request<'a>(session: &Session, fid: u32) -> Result<Request<'a>, Denial>
    ensures request { IsRequestOf session.now (agreed_action session.now (t.remove fid)) result }
    ensures form { IfOk result (IsAskable session.now (t.remove fid)) }
{
    Ok(Request::Remove {
        node: node_of(session, fid)?,
    })
}

fn stat_request<'a>(session: &Session, fid: u32) -> Result<Request<'a>, Denial>
    ensures request { IsRequestOf session.now (agreed_action session.now (t.stat fid)) result }
    ensures form { IfOk result (IsAskable session.now (t.stat fid)) }
{
    Ok(Request::StatOf {
        node: node_of(session, fid)?,
    })
}

// Whether a wstat asks to change nothing, which is to commit all that is pending (stat(5)).
fn touches_nothing(change: &StatChange<'_>) -> bool
    ensures { result ≡ touches_nothing (plain_change change.now) }
{
    change.kind.is_none()
        && change.device.is_none()
        && change.qid.is_none()
        && change.mode.is_none()
        && change.accessed.is_none()
        && change.modified.is_none()
        && change.length.is_none()
        && change.name.is_none()
        && change.owner.is_none()
        && change.group.is_none()
        && change.modifier.is_none()
}

fn wstat_request<'a>(
    session: &Session,
    fid: u32,
    change: &StatChange<'a>,
) -> Result<Request<'a>, Denial>
    ensures request { IsRequestOf session.now (agreed_action session.now (t.wstat fid (plain_change change.now))) result }
    ensures form { IfOk result (IsAskable session.now (t.wstat fid (plain_change change.now))) }
{
    let node = node_of(session, fid)?;
    if touches_nothing(change) {
        return Ok(Request::Sync { node });
    }
    Ok(Request::Change {
        node,
        change: *change,
    })
}

// ---- messages that are answered at once

// Whether the protocol's name is before the first period of a version (version(5)).
fn is_protocol(version: &str) -> bool
    ensures { result ≡ is_protocol version.now }
{
    match version.split_once('.') {
        Some((name, _)) => name == PROTOCOL,
        None => version == PROTOCOL,
    }
}

fn version_action<'a>(session: &Session, msize: u32, version: &str) -> Action<'a>
    ensures action { (old : List ℕ) → plain_action old session.now result ≡ version_action msize version.now }
    ensures form { IsFormed session.now (t.version msize version.now) result }
{
    if msize < MIN_MESSAGE {
        let answer = RMessage::Error {
            ename: denial_text(Denial::MessageSizeTooSmall),
        };
        return Action::Say(answer, Change::Version(None));
    }
    let size = msize.min(MAX_MESSAGE as u32);
    let (version, agreed) = if is_protocol(version) {
        (PROTOCOL, Some(size))
    } else {
        (UNKNOWN_VERSION, None)
    };
    Action::Say(
        RMessage::Version {
            msize: size,
            version,
        },
        Change::Version(agreed),
    )
}

fn walk_action<'a>(
    session: &Session,
    fid: u32,
    newfid: u32,
    names: Names<'a>,
) -> Result<Action<'a>, Denial>
    requires { IsWalk names.count names.bytes.now }
    ensures action { IsActionOf session.now (agreed_action session.now (t.walk fid newfid (names_in names.entry.count names.entry.bytes.now))) result }
    ensures form { IfOk result (IsFormed session.now (t.walk fid newfid (names_in names.entry.count names.entry.bytes.now))) }
{
    let place = closed_fid(session, fid)?;
    test_newfid(session, fid, newfid)?;
    if names.count == 0 {
        let answer = RMessage::Walk {
            count: 0,
            qids: &[],
        };
        return Ok(Action::Say(answer, Change::Set(newfid, place)));
    }
    Ok(Action::Ask(Request::Walk {
        node: place.node,
        names,
    }))
}

fn clunk_action<'a>(session: &Session, fid: u32) -> Result<Action<'a>, Denial>
    ensures action { IsActionOf session.now (agreed_action session.now (t.clunk fid)) result }
    ensures form { IfOk result (IsFormed session.now (t.clunk fid)) }
{
    let _node = node_of(session, fid)?;
    Ok(Action::Say(RMessage::Clunk, Change::Free(fid)))
}

// ---- all messages

// Of a session that has agreed to a size.
fn agreed_action<'a>(session: &'a Session, message: &TMessage<'a>) -> Result<Action<'a>, Denial>
    requires names { HasNames message.now }
    requires size { length (t_fields (plain_t message.now)) + 7 ≤ most_message }
    ensures action { IsActionOf session.now (agreed_action session.now (plain_t message.now)) result }
    ensures form { IfOk result (IsFormed session.now (plain_t message.now)) }
{
    match *message {
        TMessage::Version { msize, version } => Ok(version_action(session, msize, version)),
        TMessage::Auth { .. } => Err(Denial::AuthenticationNotRequired),
        TMessage::Attach { fid, afid, .. } => Ok(Action::Ask(attach_request(session, fid, afid)?)),
        TMessage::Flush { .. } => Ok(Action::Say(RMessage::Flush, Change::Nothing)),
        TMessage::Walk { fid, newfid, names } => walk_action(session, fid, newfid, names),
        TMessage::Open { fid, mode } => Ok(Action::Ask(open_request(session, fid, mode)?)),
        TMessage::Create {
            fid,
            name,
            perm,
            mode,
        } => Ok(Action::Ask(create_request(session, fid, name, perm, mode)?)),
        TMessage::Read { fid, offset, count } => {
            Ok(Action::Ask(read_request(session, fid, offset, count)?))
        }
        TMessage::Write { fid, offset, bytes } => {
            Ok(Action::Ask(write_request(session, fid, offset, bytes)?))
        }
        TMessage::Clunk { fid } => clunk_action(session, fid),
        TMessage::Remove { fid } => Ok(Action::Ask(remove_request(session, fid)?)),
        TMessage::Stat { fid } => Ok(Action::Ask(stat_request(session, fid)?)),
        TMessage::Wstat { fid, change } => {
            Ok(Action::Ask(wstat_request(session, fid, &change)?))
        }
    }
}

// Without a size that is agreed there is nothing but Tversion.
fn action_without<'a>(session: &Session, message: &TMessage<'_>) -> Result<Action<'a>, Denial>
    ensures action { IsActionOf session.now (action_without session.now (plain_t message.now)) result }
    ensures form { IfOk result (IsFormed session.now (plain_t message.now)) }
{
    match *message {
        TMessage::Version { msize, version } => Ok(version_action(session, msize, version)),
        _ => Err(Denial::NoVersion),
    }
}

// A refusal that changes nothing.
fn refuse<'a>(session: &Session, denial: Denial) -> Action<'a>
    ensures action { (old : List ℕ) → plain_action old session.now result ≡ refuses (denial_text denial) session.now }
    ensures form { (message : t.PlainTMessage) → IsFormed session.now message result }
{
    Action::Say(
        RMessage::Error {
            ename: denial_text(denial),
        },
        Change::Nothing,
    )
}

/// What a session does on a message of at most 65,560 bytes.
pub(crate) fn action_of<'a>(session: &'a Session, message: &TMessage<'a>) -> Action<'a>
    requires names { HasNames message.now }
    requires size { length (t_fields (plain_t message.now)) + 7 ≤ most_message }
    ensures action { (old : List ℕ) → plain_action old session.now result ≡ action_of session.now (plain_t message.now) }
    ensures form { IsFormed session.now (plain_t message.now) result }
{
    let action = if session.has_size() {
        agreed_action(session, message)
    } else {
        action_without(session, message)
    };
    match action {
        Ok(action) => action,
        Err(denial) => refuse(session, denial),
    }
}
