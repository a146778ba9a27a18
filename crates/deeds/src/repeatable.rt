ghost use Rattle.std.specs.Prelude.{◌≡◌, ◌↔◌, ◌≢◌, IsTrue};
ghost use Rattle.deeds.specs.Deeds.{names, NotIn, NoneIn, Unnamed, ApartFrom, AreApart};
ghost use Rattle.deeds.specs.Plain.{plain, plains};
ghost use Rattle.deeds.specs.Repeatable.{journal_file, new_file, IsRepeatable};

use crate::deed::Deed;
use vault_layout::{JOURNAL_FILE, NEW_JOURNAL_FILE};
use vault_path::VaultPath;

/// The journal's file.
pub fn journal_path() -> VaultPath
    ensures { result ≡ journal_file }
{
    match VaultPath::root().join(JOURNAL_FILE) {
        Ok(path) => path,
        Err(_) => unreachable!(),
    }
}

/// Where the first journal is made.
pub fn new_path() -> VaultPath
    ensures { result ≡ new_file }
{
    match VaultPath::root().join(NEW_JOURNAL_FILE) {
        Ok(path) => path,
        Err(_) => unreachable!(),
    }
}

/// Whether no path is named by two of the deeds, and none of the journal's two files by any: they can then be done again on
/// whatever a stop left of them.
pub fn is_repeatable(deeds: &[Deed]) -> bool
    ensures { IsTrue result ↔ IsRepeatable (plains deeds.now) }
{
    all_apart(deeds) && is_unnamed(&journal_path(), deeds) && is_unnamed(&new_path(), deeds)
}

// Whether no path is named by two of the deeds.
fn all_apart(deeds: &[Deed]) -> bool
    ensures { IsTrue result ↔ AreApart (plains deeds.now) }
{
    for index in 0..deeds.len() {
        if !is_apart_from(&deeds[index], &deeds[index + 1..]) {
            return false;
        }
    }
    true
}

// Whether a deed names no path of the others.
fn is_apart_from(deed: &Deed, others: &[Deed]) -> bool
    ensures { IsTrue result ↔ ApartFrom (plain deed.now) (plains others.now) }
{
    for other in others {
        if !are_apart(deed, other) {
            return false;
        }
    }
    true
}

// Whether none of the deeds names the path.
fn is_unnamed(path: &VaultPath, deeds: &[Deed]) -> bool
    ensures { IsTrue result ↔ Unnamed path.now (plains deeds.now) }
{
    for deed in deeds {
        if !is_beside(path, deed) {
            return false;
        }
    }
    true
}

// Whether two deeds name different paths.
fn are_apart(one: &Deed, other: &Deed) -> bool
    ensures { IsTrue result
        ↔ (NoneIn (names (plain one.now)) (names (plain other.now)) × NoneIn (names (plain other.now)) (names (plain one.now))) }
{
    match one {
        Deed::MakeDir(path) => is_beside(path, other),
        Deed::Put(path, _) => is_beside(path, other),
        Deed::Rename(from, to) => is_beside(from, other) && is_beside(to, other),
        Deed::Remove(path) => is_beside(path, other),
        Deed::RemoveDir(path) => is_beside(path, other),
        Deed::Reshape(path, _, _) => is_beside(path, other),
    }
}

// Whether a deed doesn't name the path.
fn is_beside(path: &VaultPath, deed: &Deed) -> bool
    ensures { IsTrue result ↔ NotIn path.now (names (plain deed.now)) }
{
    match deed {
        Deed::MakeDir(named) => differ(path, named),
        Deed::Put(named, _) => differ(path, named),
        Deed::Rename(from, to) => differ(path, from) && differ(path, to),
        Deed::Remove(named) => differ(path, named),
        Deed::RemoveDir(named) => differ(path, named),
        Deed::Reshape(named, _, _) => differ(path, named),
    }
}

// Whether two paths differ.
fn differ(one: &VaultPath, other: &VaultPath) -> bool
    ensures { IsTrue result ↔ (one.now ≢ other.now) }
{
    one != other
}
