ghost use Rattle.std.specs.Prelude.{◌≡◌, ◌+◌, ◌≤◌, ◌∷◌, ◌++◌, length, IfOk, IsTrue, string_bytes, string_len};
ghost use Rattle.std.specs.String.{string_capacity};
ghost use Rattle.vault_path.specs.Parts.{is_part};
ghost use Rattle.host_calls.specs.HostPath.{joined};
ghost use Rattle.host_calls.specs.Calls.{IsTextOf};
ghost use Rattle.host_folder.specs.declared.path_buffer.TheConstants.{LONGEST_PARTS};

use std::alloc::{AllocError, Global};
use std::str;
use vault_path::VaultPath;

// What the longest part takes: 255 bytes after a slash.
const LONGEST_PART: usize = 256;

// What the parts of the longest path take, of which there are 6.
const LONGEST_PARTS: usize = 6 * LONGEST_PART;

/// A folder's own path, and room for the host's text of any path in it.
#[derive(Drop)]
pub(crate) struct PathBuffer {
    base: String,
    room: String,
    ghost roomy: { string_len base + LONGEST_PARTS ≤ string_capacity room },
}

impl PathBuffer {
    /// Reserves the room for the paths in a folder.
    pub(crate) fn new(alloc: Global, folder: &str) -> Result<PathBuffer, AllocError>
        ensures { IfOk result (λ paths. string_bytes paths.base ≡ folder.now) }
    {
        let base = String::from_str(alloc, folder)?;
        let room = match base.len().checked_add(LONGEST_PARTS) {
            Some(capacity) => String::with_capacity(alloc, capacity)?,
            None => return Err(AllocError),
        };
        Ok(PathBuffer { base, room })
    }

    /// Composes the host's text of a path. It takes no memory.
    pub(crate) fn compose(&mut self, path: &VaultPath)
        ensures text { IsTextOf (string_bytes self.old.base) (string_bytes self.new.room) path.now }
        ensures base { string_bytes self.new.base ≡ string_bytes self.old.base }
    {
        let _good = path.len();
        if self.base.is_empty() {
            self.room.clear();
        } else {
            compose(self.base.as_str(), &mut self.room, path);
        }
    }

    /// The folder's own path.
    pub(crate) fn base(&self) -> &str
        ensures { result.now ≡ string_bytes self.now.base }
    {
        self.base.as_str()
    }

    /// The text that was composed last.
    pub(crate) fn text(&self) -> &str
        ensures { result.now ≡ string_bytes self.now.room }
    {
        self.room.as_str()
    }
}

fn compose(base: &str, room: &mut String, path: &VaultPath)
    requires { length base.now + LONGEST_PARTS ≤ string_capacity room.old }
    ensures text { string_bytes room.new ≡ joined base.now path.now }
    ensures capacity { string_capacity room.old ≤ string_capacity room.new }
{
    room.clear();
    room.push_str(base).unwrap();
    for index in 0..path.len() {
        push_part(room, path.part(index));
    }
}

// Appends a slash and a part, for which there is room.
fn push_part(room: &mut String, part: &[u8])
    requires good { IsTrue (is_part part.now) }
    requires fits { string_len room.old + LONGEST_PART ≤ string_capacity room.old }
    ensures text { string_bytes room.new ≡ string_bytes room.old ++ 47 ∷ part.now }
    ensures len { string_len room.new ≤ string_len room.old + LONGEST_PART }
    ensures capacity { string_capacity room.old ≤ string_capacity room.new }
{
    room.push_str("/").unwrap();
    room.push_str(part_text(part)).unwrap();
}

fn part_text(part: &[u8]) -> &str
    requires { IsTrue (is_part part.now) }
    ensures text { result.now ≡ part.now }
    ensures len { length result.now ≤ 255 }
{
    str::from_utf8(part).unwrap()
}
