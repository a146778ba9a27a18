//! The last name in the bytes of a directory.

ghost use Rattle.std.specs.Prelude.{◌≡◌, ℕ, ◌+◌, ◌≤◌, List, length, take, drop, Option, IfSome};
ghost use Rattle.std.specs.Option.{option_or, option_copied};
ghost use Rattle.std.specs.Str.{IsUtf8};
ghost use Rattle.byteorder.specs.Endian.{little_number};
ghost use Rattle.tree_model.specs.Names.{name_limit};
ghost use Rattle.tree_model.specs.Asked.{AreStats};
ghost use Rattle.session_core.specs.Outcome.{last_name};
ghost use Rattle.session_core.specs.Stats.{StartsWithStat};
ghost use Rattle.session_core.specs.declared.last_name.TheConstants.{NAME_LENGTH_OFFSET, NAME_OFFSET, SIZE_LENGTH};

use byteorder::{ByteOrder, LittleEndian};

// Where a name's length is in a stat, and where the name (stat(5)).
const NAME_LENGTH_OFFSET: usize = 41;

const NAME_OFFSET: usize = 43;

// The bytes of a stat's size, which doesn't count itself.
const SIZE_LENGTH: usize = 2;

// The name in the stat that is first in bytes, and what follows the stat.
fn first_name(bytes: &[u8]) -> (&[u8], &[u8])
    requires { StartsWithStat bytes.now }
    ensures name { result.0.now ≡ take (little_number 2 (drop NAME_LENGTH_OFFSET bytes.now)) (drop NAME_OFFSET bytes.now) }
    ensures rest { result.1.now ≡ drop (SIZE_LENGTH + little_number 2 bytes.now) bytes.now }
{
    let size = LittleEndian::read_u16(bytes) as usize;
    let (_, names) = bytes.split_at(NAME_LENGTH_OFFSET);
    let length = LittleEndian::read_u16(names) as usize;
    let (_, text) = bytes.split_at(NAME_OFFSET);
    let (name, _) = text.split_at(length);
    let (_, rest) = bytes.split_at(SIZE_LENGTH + size);
    (name, rest)
}

// The name in the last of whole stats, if there is one.
fn last_name_bytes(stats: &[u8]) -> Option<&[u8]>
    requires { AreStats (length stats.now) stats.now }
    ensures last { (given : Option (List ℕ)) → last_name (length stats.now) given stats.now ≡ option_or (option_copied result) given }
    ensures good { IfSome result (λ name. IsUtf8 name.now × (length name.now ≤ name_limit)) }
{
    let mut last = None;
    let mut rest = stats;
    while !rest.is_empty() {
        let (name, others) = first_name(rest);
        last = Some(name);
        rest = others;
    }
    last
}

/// The same as text.
pub(crate) fn last_name(stats: &[u8]) -> Option<&str>
    requires { AreStats (length stats.now) stats.now }
    ensures last { (given : Option (List ℕ)) → last_name (length stats.now) given stats.now ≡ option_or (option_copied result) given }
    ensures short { IfSome result (λ name. length name.now ≤ name_limit) }
{
    let name = last_name_bytes(stats)?;
    match str::from_utf8(name) {
        Ok(text) => Some(text),
        Err(_) => unreachable!(),
    }
}
