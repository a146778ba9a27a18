ghost use Rattle.std.specs.Prelude.{None, Err, IsSomeAnd, refl, ◌≡◌, ◌==◌, ◌||◌, Ok, IfOk, IfErr, MatchResult};
ghost use Rattle.std.specs.Cmp.{partial_equiv_from_equiv};
ghost use Rattle.std.specs.Cmp.Lexicographic.{slice_cmp, texts_ties, texts_po, nat_list_eq_equiv, nat_list_cmp_total};
ghost use Rattle.std.specs.List.{list_any};
ghost use Rattle.std.specs.Ordering.{nat_cmp, as_partial_cmp};
ghost use Rattle.std.specs.Str.{bytes_eq};
ghost use Rattle.tree_model.specs.Names.{IsClearName, form_fault, checked_name, clear_name as clear_name_of};
ghost use Rattle.vault_names.specs.Faults.{IsFault};

use nfc_text::nfc;
use std::alloc::{AllocError, Global};
use std::cmp::Ordering;
use std::marker::Model;
use std::str;
use thiserror::Error;
use vault_path::Text;

// The longest clear name, in bytes of its form NFC.
const NAME_LIMIT: usize = 1024;

/// A valid clear name: UTF-8 in the form NFC (UAX 15), 1 to 1,024 bytes, without `/` and NUL, and neither `.` nor `..`.
/// Names are ordered by their bytes, which clauses see.
#[derive(Debug, Drop)]
pub struct Name {
    text: String,
}

impl Model for Name {
    ghost use Rattle.std.specs.Prelude.{ℕ, List};
    ghost use Rattle.std.specs.String.{string_bytes};
    ghost use Rattle.tree_model.specs.Names.{IsClearName};

    ghost Value = { List ℕ };

    ghost view = { λ n. string_bytes n.text };

    ghost invariant = { λ n. IsClearName (string_bytes n.text) };
}

impl Name {
    /// The name as a text.
    pub fn as_str(&self) -> &str
        ensures text { result.now ≡ self.now }
        ensures clear { IsClearName self.now }
    {
        self.text.as_str()
    }

    /// The name's bytes in UTF-8.
    pub fn as_bytes(&self) -> &[u8]
        ensures bytes { result.now ≡ self.now }
        ensures clear { IsClearName self.now }
    {
        self.text.as_bytes()
    }

    /// The name's bytes, as a text of their own. It takes no memory.
    pub fn into_text(self) -> Text
        ensures { result ≡ self }
    {
        Text::from_vec(self.text.into_bytes())
    }
}

impl PartialEq for Name {
    ghost eq = { bytes_eq };

    ghost laws = { partial_equiv_from_equiv nat_list_eq_equiv };

    fn eq(&self, other: &Name) -> bool {
        self.as_bytes() == other.as_bytes()
    }
}

impl Eq for Name {
    ghost laws = { nat_list_eq_equiv };
}

impl Ord for Name {
    ghost cmp = { slice_cmp nat_cmp };

    ghost total = { nat_list_cmp_total };

    ghost matches_partial_cmp = { λ _ _. refl };

    ghost matches_eq = { texts_ties };

    fn cmp(&self, other: &Name) -> Ordering {
        self.as_bytes().cmp(&other.as_bytes())
    }
}

impl PartialOrd for Name {
    ghost partial_cmp = { as_partial_cmp (slice_cmp nat_cmp) };

    ghost laws = { texts_po };

    fn partial_cmp(&self, other: &Name) -> Option<Ordering> {
        Some(self.cmp(other))
    }
}

/// Why bytes are no clear name. The tests are made in this order: those for `Empty`, `Dots` and `Forbidden` on the text and again
/// on its form NFC, that for `TooLong` on the form NFC.
#[derive(Clone, Copy, Debug, PartialEq, Eq, Error)]
pub enum BadName {
    /// The bytes aren't UTF-8.
    #[error("the name isn't UTF-8")]
    NotUtf8,
    /// There is no byte.
    #[error("the name is empty")]
    Empty,
    /// The name is `.` or `..`.
    #[error("the name is `.` or `..`")]
    Dots,
    /// The name holds `/` or NUL.
    #[error("the name holds `/` or NUL")]
    Forbidden,
    /// The name has more than 1,024 bytes: this many.
    #[error("the name has {0} bytes, more than 1024")]
    TooLong(usize),
    /// Memory ran out, which says nothing of the name.
    #[error("out of memory")]
    Memory,
}

impl From<AllocError> for BadName {
    ghost use Rattle.std.specs.Prelude.{◌≡◌};
    ghost use Rattle.vault_names.specs.declared.name.BadName.TheVariants.{Memory};

    ghost from_gives = { λ _ e. e ≡ Memory };

    fn from(_: AllocError) -> BadName {
        BadName::Memory
    }
}

/// The clear name that bytes stand for: their form NFC, if that is a valid name.
pub fn clear_name(alloc: Global, bytes: &[u8]) -> Result<Name, BadName>
    ensures name { IfOk result (λ name. clear_name_of bytes.now ≡ Ok name) }
    ensures fault { IfErr result (λ e. IsFault e (clear_name_of bytes.now)) }
{
    let Ok(text) = str::from_utf8(bytes) else {
        return Err(BadName::NotUtf8);
    };
    // What the bytes alone refuse needs no memory for their form NFC.
    check_form(text)?;
    let text = nfc(alloc, text)?;
    check(text.as_str())?;
    Ok(Name { text })
}

// Whether a name in NFC is in bounds.
fn check(name: &str) -> Result<(), BadName>
    ensures { MatchResult result (λ _. checked_name name.now ≡ Ok name.now) (λ e. IsFault e (checked_name name.now)) }
{
    check_form(name)?;
    if name.len() > NAME_LIMIT {
        Err(BadName::TooLong(name.len()))
    } else {
        Ok(())
    }
}

/// What keeps a text from being a name whatever its length is. It takes no memory.
pub fn check_form(name: &str) -> Result<(), BadName>
    ensures { MatchResult result (λ _. form_fault name.now ≡ None)
        (λ e. IsSomeAnd (form_fault name.now) (λ fault. IsFault e (Err fault))) }
{
    if name.is_empty() {
        Err(BadName::Empty)
    } else if name == "." || name == ".." {
        Err(BadName::Dots)
    } else if holds_forbidden(name) {
        Err(BadName::Forbidden)
    } else {
        Ok(())
    }
}

// Whether a name holds `/` or NUL.
fn holds_forbidden(name: &str) -> bool
    ensures { result ≡ list_any (λ b. (b == 47) || (b == 0)) name.now }
{
    name.bytes().any(|byte| byte == b'/' || byte == 0)
}
