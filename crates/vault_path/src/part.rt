ghost use Rattle.std.specs.Prelude.{refl, ℕ, List, ◌≡◌, ◌≤◌, [], ◌∷◌, ◌&&◌, nat_le, length, take};
ghost use Rattle.std.specs.List.{list_all};
ghost use Rattle.std.specs.Cmp.{partial_equiv_from_equiv};
ghost use Rattle.std.specs.Cmp.Lexicographic.{slice_cmp, texts_ties, texts_po, nat_list_eq_equiv, nat_list_cmp_total};
ghost use Rattle.std.specs.Ordering.{nat_cmp, as_partial_cmp};
ghost use Rattle.std.specs.Str.{bytes_eq};
ghost use Rattle.vault_path.specs.Parts.{is_part_byte, is_part};
ghost use Rattle.vault_path.specs.declared.part.TheConstants.{MAX_PART_LEN};

use std::cmp::Ordering;
use std::marker::Model;

const MAX_PART_LEN: usize = 255;

/// Up to 255 bytes, kept in place.
#[derive(Drop)]
pub struct Part {
    bytes: [u8; MAX_PART_LEN],
    used: usize,
}

impl Model for Part {
    ghost use Rattle.std.specs.Prelude.{ℕ, List, ◌≤◌, take};
    ghost use Rattle.vault_path.specs.declared.part.TheConstants.{MAX_PART_LEN};

    ghost Value = { List ℕ };

    ghost view = { λ a. take a.used a.bytes };

    ghost invariant = { λ a. a.used ≤ MAX_PART_LEN };
}

impl Part {
    /// No bytes, which is no part of a path yet.
    pub fn empty() -> Part
        ensures { result ≡ [] }
    {
        Part {
            bytes: [0; MAX_PART_LEN],
            used: 0,
        }
    }

    /// The part of these bytes.
    pub fn from_bytes(part: &[u8]) -> Part
        requires { length part.now ≤ MAX_PART_LEN }
        ensures { result ≡ part.now }
    {
        let mut bytes = [0; MAX_PART_LEN];
        bytes[..part.len()].copy_from_slice(part);
        Part {
            bytes,
            used: part.len(),
        }
    }

    /// Its bytes.
    pub fn as_bytes(&self) -> &[u8]
        ensures { result.now ≡ self.now }
    {
        &self.bytes[..self.used]
    }

    /// The same part once more.
    pub fn copied(&self) -> Part
        ensures { result ≡ self.now }
    {
        Part {
            bytes: self.bytes,
            used: self.used,
        }
    }
}

impl PartialEq for Part {
    ghost eq = { bytes_eq };

    ghost laws = { partial_equiv_from_equiv nat_list_eq_equiv };

    fn eq(&self, other: &Part) -> bool {
        self.as_bytes() == other.as_bytes()
    }
}

impl Eq for Part {
    ghost laws = { nat_list_eq_equiv };
}

impl Ord for Part {
    ghost cmp = { slice_cmp nat_cmp };

    ghost total = { nat_list_cmp_total };

    ghost matches_partial_cmp = { λ _ _. refl };

    ghost matches_eq = { texts_ties };

    fn cmp(&self, other: &Part) -> Ordering {
        self.as_bytes().cmp(&other.as_bytes())
    }
}

impl PartialOrd for Part {
    ghost partial_cmp = { as_partial_cmp (slice_cmp nat_cmp) };

    ghost laws = { texts_po };

    fn partial_cmp(&self, other: &Part) -> Option<Ordering> {
        Some(self.cmp(other))
    }
}

fn is_host_byte(byte: u8) -> bool
    ensures { result ≡ is_part_byte byte }
{
    matches!(byte, b'A'..=b'Z' | b'a'..=b'z' | b'0'..=b'9' | b'-' | b'_' | b'=' | b'.')
}

/// Whether the bytes are a part: 1 to 255 of `A-Z a-z 0-9 - _ = .`, and neither `.` nor `..`.
pub fn is_host_part(part: &[u8]) -> bool
    ensures { result ≡ is_part part.now }
{
    has_fit_len(part) && has_host_bytes(part) && !is_dot(part) && !is_dots(part)
}

fn has_host_bytes(part: &[u8]) -> bool
    ensures { result ≡ list_all is_part_byte part.now }
{
    part.iter().all(|byte| is_host_byte(*byte))
}

fn has_fit_len(part: &[u8]) -> bool
    ensures { result ≡ (nat_le 1 (length part.now) && nat_le (length part.now) MAX_PART_LEN) }
{
    !part.is_empty() && part.len() <= MAX_PART_LEN
}

fn is_dot(part: &[u8]) -> bool
    ensures { result ≡ bytes_eq part.now (46 ∷ []) }
{
    part == b".".as_slice()
}

fn is_dots(part: &[u8]) -> bool
    ensures { result ≡ bytes_eq part.now (46 ∷ 46 ∷ []) }
{
    part == b"..".as_slice()
}
