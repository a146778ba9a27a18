ghost use Rattle.std.specs.Prelude.{refl, ℕ, List, ◌≢◌, ◌-◌, take, MatchOption, ◌≡◌, ◌↔◌, ◌<◌, ◌≤◌, [], ◌∷◌, ◌++◌, length, IsOk, IfOk, OnOk, OnErr, IsTrue, Some, slice_get};
ghost use Rattle.std.specs.Cmp.{partial_equiv_from_equiv, po};
ghost use Rattle.std.specs.Cmp.Lexicographic.{pointwise, slice_cmp, lists_per, lists_equiv, lists_total, lists_ties, texts_ties, nat_list_eq_equiv, nat_list_cmp_total};
ghost use Rattle.std.specs.Ordering.{nat_cmp, as_partial_cmp};
ghost use Rattle.std.specs.Str.{bytes_eq};
ghost use Rattle.vault_path.specs.Parts.{is_part, is_path};

use crate::part::{Part, is_host_part};
use std::cmp::Ordering;
use std::fmt;
use std::fmt::Write;
use std::marker::Model;
use thiserror::Error;

const MAX_PARTS: usize = 6;

/// A part that isn't 1 to 255 of `A-Z a-z 0-9 - _ = .`, is `.` or `..`, or would be the seventh of its path.
#[derive(Clone, Copy, Debug, PartialEq, Eq, Error)]
#[error("a part of a host path is bad")]
pub struct BadPart;

/// A host path inside the vault's folder: 0 to 6 parts, kept in place. Clauses see the list of its parts.
#[derive(Drop)]
pub struct VaultPath {
    parts: [Part; 6],
    count: usize,
}

impl Model for VaultPath {
    ghost use Rattle.std.specs.Prelude.{◌≡◌, ℕ, List, length, take, IsTrue};
    ghost use Rattle.vault_path.specs.Parts.{is_path};

    ghost Value = { List (List ℕ) };

    ghost view = { λ a. take a.count a.parts };

    ghost invariant = { λ a. (length (take a.count a.parts) ≡ a.count) × IsTrue (is_path (take a.count a.parts)) };
}

impl VaultPath {
    /// The folder itself.
    pub fn root() -> VaultPath
        ensures { result ≡ [] }
    {
        let parts = [
            Part::empty(),
            Part::empty(),
            Part::empty(),
            Part::empty(),
            Part::empty(),
            Part::empty(),
        ];
        VaultPath { parts, count: 0 }
    }

    /// The path one part further. It fails if and only if this is no part of a path or would be the seventh.
    pub fn join(&self, part: &[u8]) -> Result<VaultPath, BadPart>
        ensures exact { IsOk result ↔ IsTrue (is_path (self.now ++ part.now ∷ [])) }
        ensures path { IfOk result (λ path. path ≡ self.now ++ part.now ∷ []) }
    {
        let mut path = self.copied();
        path.push(part)?;
        Ok(path)
    }

    /// The path one part further, if that is known to be a path.
    pub fn joined(&self, part: &[u8]) -> VaultPath
        requires { IsTrue (is_path (self.now ++ part.now ∷ [])) }
        ensures { result ≡ self.now ++ part.now ∷ [] }
    {
        match self.join(part) {
            Ok(further) => further,
            Err(_) => unreachable!(),
        }
    }

    /// The same path once more. It takes no memory.
    pub fn copied(&self) -> VaultPath
        ensures { result ≡ self.now }
    {
        let parts = [
            self.parts[0].copied(),
            self.parts[1].copied(),
            self.parts[2].copied(),
            self.parts[3].copied(),
            self.parts[4].copied(),
            self.parts[5].copied(),
        ];
        VaultPath {
            parts,
            count: self.count,
        }
    }

    /// How many parts there are: at most 6, and all of them good.
    pub fn len(&self) -> usize
        ensures count { result ≡ length self.now }
        ensures few { result ≤ 6 }
        ensures path { IsTrue (is_path self.now) }
    {
        self.count
    }

    /// Whether it is the folder itself.
    pub fn is_empty(&self) -> bool
        ensures { IsTrue result ↔ (self.now ≡ []) }
    {
        self.count == 0
    }

    /// A part, from the folder down.
    pub fn part(&self, index: usize) -> &[u8]
        requires { index < length self.now }
        ensures at { slice_get self.now index ≡ Some result.now }
        ensures good { IsTrue (is_part result.now) }
    {
        let parts = &self.parts;
        parts[index].as_bytes()
    }

    /// The path without its last part; that of the folder itself is its own.
    pub fn parent(&self) -> VaultPath
        ensures { result ≡ take (length self.now - 1) self.now }
    {
        let mut above = self.copied();
        above.pop();
        above
    }

    /// The last part, if the path without it is this folder.
    pub fn name_in(&self, folder: &VaultPath) -> Option<&[u8]>
        ensures { MatchOption result ((name : List ℕ) → self.now ≢ folder.now ++ name ∷ []) (λ name. self.now ≡ folder.now ++ name.now ∷ []) }
    {
        let (name, front) = self.parts().split_last()?;
        if front == folder.parts() {
            Some(name.as_bytes())
        } else {
            None
        }
    }

    fn parts(&self) -> &[Part]
        ensures { result.now ≡ self.now }
    {
        &self.parts[..self.count]
    }

    fn pop(&mut self)
        ensures { self.new ≡ take (length self.old - 1) self.old }
    {
        if self.count > 0 {
            self.count -= 1;
        }
    }

    // Goes one part further, and stays as it is if that can't be.
    fn push(&mut self, part: &[u8]) -> Result<(), BadPart>
        ensures exact { IsOk result ↔ IsTrue (is_path (self.old ++ part.now ∷ [])) }
        ensures path { OnOk result (self.new ≡ self.old ++ part.now ∷ []) }
        ensures same { OnErr result (self.new ≡ self.old) }
    {
        if self.count == MAX_PARTS || !is_host_part(part) {
            return Err(BadPart);
        }
        self.parts[self.count] = Part::from_bytes(part);
        self.count += 1;
        Ok(())
    }
}

impl fmt::Debug for VaultPath {
    fn fmt<W: fmt::Write>(&self, f: &mut fmt::Formatter<W>) -> fmt::Result {
        for part in self.parts() {
            f.write_str("/")?;
            write_part(f, part.as_bytes())?;
        }
        Ok(())
    }
}

fn write_part<W: fmt::Write>(f: &mut fmt::Formatter<W>, part: &[u8]) -> fmt::Result {
    for byte in part {
        f.write_char(char::from(*byte))?;
    }
    Ok(())
}

impl PartialEq for VaultPath {
    ghost eq = { pointwise bytes_eq };

    ghost laws = { lists_per (partial_equiv_from_equiv nat_list_eq_equiv) };

    fn eq(&self, other: &VaultPath) -> bool {
        self.parts() == other.parts()
    }
}

impl Eq for VaultPath {
    ghost laws = { lists_equiv nat_list_eq_equiv };
}

impl Ord for VaultPath {
    ghost cmp = { slice_cmp (slice_cmp nat_cmp) };

    ghost total = { lists_total nat_list_cmp_total };

    ghost matches_partial_cmp = { λ _ _. refl };

    ghost matches_eq = { lists_ties (slice_cmp nat_cmp) (texts_ties) };

    fn cmp(&self, other: &VaultPath) -> Ordering {
        self.parts().cmp(&other.parts())
    }
}

impl PartialOrd for VaultPath {
    ghost partial_cmp = { as_partial_cmp (slice_cmp (slice_cmp nat_cmp)) };

    ghost laws = { po (lists_total nat_list_cmp_total) (lists_ties (slice_cmp nat_cmp) (texts_ties)) };

    fn partial_cmp(&self, other: &VaultPath) -> Option<Ordering> {
        Some(self.cmp(other))
    }
}
