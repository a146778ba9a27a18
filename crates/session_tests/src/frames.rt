//! Frames and answers, written out by hand from their layouts in section 5 of the Plan 9 manual.

ghost use Rattle.std.specs.Prelude.{IsTrue, ◌↔◌};
ghost use Rattle.ninep_wire.specs.Reading.{IsFrame};

use byteorder::{ByteOrder, LittleEndian};

/// A frame and its answer.
pub type Row = (&'static [u8], &'static [u8]);

/// Whether bytes are a frame: at least 7, and the first four give their number.
pub fn is_frame(bytes: &[u8]) -> bool
    ensures { IsTrue result ↔ IsFrame bytes.now }
{
    bytes.len() >= 7 && LittleEndian::read_u32(bytes) as usize == bytes.len()
}

pub const VERSION: &[u8] = b"\x13\0\0\0\x64\xff\xff\x18\0\x01\0\x06\09P2000";

pub const VERSION_SAID: &[u8] = b"\x13\0\0\0\x65\xff\xff\x18\0\x01\0\x06\09P2000";

/// Of fid 0.
pub const ATTACH: &[u8] = b"\x14\0\0\0\x68\x01\0\0\0\0\0\xff\xff\xff\xff\x01\0u\0\0";

pub const ATTACH_SAID: &[u8] = b"\x14\0\0\0\x69\x01\0\x80\0\0\0\0\0\0\0\0\0\0\0\0";

/// From fid 0 to fid 1, by the name `a`.
pub const WALK: &[u8] = b"\x14\0\0\0\x6e\x01\0\0\0\0\0\x01\0\0\0\x01\0\x01\0a";

pub const WALK_SAID: &[u8] = b"\x16\0\0\0\x6f\x01\0\x01\0\0\0\0\0\0\x01\0\0\0\0\0\0\0";

/// Fid 1 for reading.
pub const OPEN: &[u8] = b"\x0c\0\0\0\x70\x01\0\x01\0\0\0\0";

pub const OPEN_SAID: &[u8] = b"\x18\0\0\0\x71\x01\0\0\0\0\0\0\x01\0\0\0\0\0\0\0\0\0\x01\0";

/// 5 bytes of fid 1, from its start.
pub const READ: &[u8] = b"\x17\0\0\0\x74\x01\0\x01\0\0\0\0\0\0\0\0\0\0\0\x05\0\0\0";

pub const READ_SAID: &[u8] = b"\x10\0\0\0\x75\x01\0\x05\0\0\0hello";

/// The same of a file that holds as many `x` as are read.
pub const READ_XS_SAID: &[u8] = b"\x10\0\0\0\x75\x01\0\x05\0\0\0xxxxx";

/// Nothing was read.
pub const READ_NONE: &[u8] = b"\x0b\0\0\0\x75\x01\0\0\0\0\0";

/// Fid 1.
pub const CLUNK: &[u8] = b"\x0b\0\0\0\x78\x01\0\x01\0\0\0";

pub const CLUNK_SAID: &[u8] = b"\x07\0\0\0\x79\x01\0";

/// A stat of fid 0 that touches nothing.
pub const SYNC: &[u8] =
    b"\x3e\0\0\0\x7e\x01\0\0\0\0\0\x31\0\x2f\0\xff\xff\xff\xff\xff\xff\xff\xff\xff\xff\xff\xff\xff\xff\xff\xff\xff\xff\xff\xff\xff\xff\xff\xff\xff\xff\xff\xff\xff\xff\xff\xff\xff\xff\xff\xff\xff\xff\xff\0\0\0\0\0\0\0\0";

pub const SYNC_SAID: &[u8] = b"\x07\0\0\0\x7f\x01\0";

pub const NOT_PERMITTED: &[u8] = b"\x16\0\0\0\x6b\x01\0\x0d\0not permitted";

pub const UNKNOWN_MESSAGE: &[u8] = b"\x18\0\0\0\x6b\x01\0\x0f\0unknown message";

pub const BAD_MESSAGE: &[u8] = b"\x14\0\0\0\x6b\x01\0\x0b\0bad message";

pub const NO_VERSION: &[u8] = b"\x13\0\0\0\x6b\x01\0\x0a\0no version";

pub const UNKNOWN_FID: &[u8] = b"\x14\0\0\0\x6b\x01\0\x0b\0unknown fid";

pub const FID_IN_USE: &[u8] = b"\x13\0\0\0\x6b\x01\0\x0a\0fid in use";

pub const FID_IS_OPEN: &[u8] = b"\x14\0\0\0\x6b\x01\0\x0b\0fid is open";

pub const FID_IS_NOT_OPEN: &[u8] = b"\x18\0\0\0\x6b\x01\0\x0f\0fid is not open";

pub const BAD_OFFSET: &[u8] = b"\x13\0\0\0\x6b\x01\0\x0a\0bad offset";

pub const NO_AUTHENTICATION: &[u8] = b"\x24\0\0\0\x6b\x01\0\x1b\0authentication not required";
