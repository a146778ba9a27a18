//! The headers of files for which changes wait.

ghost use Rattle.std.specs.Prelude.{◌≡◌, ◌<◌, ◌≤◌, ◌+◌, ◌-◌, ◌++◌, ◌∷◌, [], Some, None, IfOk, IsTrue, MatchOption, length, take, drop, min, vec_len, vec_capacity};
ghost use Rattle.outside.specs.Calls.{KeepsFrom};
ghost use Rattle.write_back.specs.Headers.{plain_headers, header_of};
ghost use Rattle.write_back.specs.declared.headers.TheConstants.{MOST};

use file_chunks::HEADER_LENGTH;
use std::alloc::{AllocError, Global};
use std::marker::Model;
use vault_path::VaultPath;

// The most headers: of as many files changes wait.
const MOST: usize = 64;

// The first bytes of the file at a path.
#[derive(Drop)]
struct Kept {
    path: VaultPath,
    header: [u8; HEADER_LENGTH],
}

/// The first 68 bytes of files for which changes wait, at most 64 of them. Clauses see each path with its bytes.
#[derive(Drop)]
pub struct Headers {
    kept: Vec<Kept>,
}

impl Model for Headers {
    ghost use Rattle.std.specs.Prelude.{ℕ, List, ◌≤◌, vec_capacity};
    ghost use Rattle.outside.specs.Disk.{Path};
    ghost use Rattle.write_back.specs.Headers.{plain_headers};
    ghost use Rattle.write_back.specs.declared.headers.TheConstants.{MOST};

    ghost Value = { List (Path × List ℕ) };

    ghost view = { λ headers. plain_headers headers.kept.items };

    ghost invariant = { λ headers. MOST ≤ vec_capacity headers.kept };
}

impl Headers {
    /// None yet, and the room for all.
    pub fn new(alloc: Global) -> Result<Headers, AllocError>
        ensures { IfOk result (λ headers. headers ≡ []) }
    {
        let kept = Vec::with_capacity(alloc, MOST)?;
        Ok(Headers { kept })
    }

    /// Whether there is room for one more.
    pub fn has_room(&self) -> bool
        ensures { IsTrue result → length self.now < 64 }
    {
        self.kept.len() < MOST
    }

    /// The header that is kept of the file at a path, if one is.
    pub fn of(&self, path: &VaultPath) -> Option<&[u8; HEADER_LENGTH]>
        ensures { MatchOption result (header_of path.now self.now ≡ None) (λ header. header_of path.now self.now ≡ Some header.now) }
    {
        header_in(&self.kept, path)
    }

    /// Keeps one more. It takes no memory.
    pub fn keep(&mut self, path: &VaultPath, header: &[u8; HEADER_LENGTH])
        requires { length self.old < 64 }
        ensures { self.new ≡ self.old ++ (path.now, header.now) ∷ [] }
    {
        let kept = Kept {
            path: path.copied(),
            header: *header,
        };
        push_kept(&mut self.kept, kept);
    }

    /// Forgets all, and keeps the room.
    pub fn clear(&mut self)
        ensures { self.new ≡ [] }
    {
        self.kept.clear();
    }
}

// The header of the file at a path.
fn header_in<'a>(kept: &'a [Kept], path: &VaultPath) -> Option<&'a [u8; HEADER_LENGTH]>
    ensures { MatchOption result (header_of path.now (plain_headers kept.now) ≡ None) (λ header. header_of path.now (plain_headers kept.now) ≡ Some header.now) }
{
    for one in kept {
        if &one.path == path {
            return Some(&one.header);
        }
    }
    None
}

// Puts one more after the others.
fn push_kept(kept: &mut Vec<Kept>, one: Kept)
    requires few { vec_len kept.old < MOST }
    requires room { MOST ≤ vec_capacity kept.old }
    ensures kept { kept.new.items ≡ kept.old.items ++ one ∷ [] }
    ensures room { MOST ≤ vec_capacity kept.new }
{
    if kept.push(one).is_err() {
        unreachable!();
    }
}

/// Shows the bytes of a header from byte `at` on, as a read does of a file of `len` bytes that begins with it, and gives their
/// number. The window ends within the header.
pub(crate) fn shown_header(header: &[u8; HEADER_LENGTH], len: u64, at: u64, out: &mut [u8]) -> usize
    requires { at + length out.old ≤ HEADER_LENGTH }
    ensures count { result ≡ min (length out.old) (len - at) }
    ensures shown { take result out.new ≡ take result (drop at header.now) }
    ensures rest { KeepsFrom result out.old out.new }
{
    let count = len.saturating_sub(at).min(out.len() as u64) as usize;
    let start = at as usize;
    out[..count].copy_from_slice(&header[start..start + count]);
    count
}
