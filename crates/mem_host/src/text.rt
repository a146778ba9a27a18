ghost use Rattle.std.specs.Prelude.{◌≡◌, ◌<◌, ◌≤◌, ℕ, length, take, drop, IfSome};
ghost use Rattle.std.specs.List.{flat_map};
ghost use Rattle.mem_host.specs.Texts.{IsOnlyTextOf, IsPathOf};

use vault_path::VaultPath;

const SLASH: u8 = b'/';

/// The path that a text names in the folder whose own text is `top`, if it names one there.
pub fn path_of(top: &[u8], text: &[u8]) -> Option<VaultPath>
    requires { 0 < length top.now }
    ensures { IfSome result (IsOnlyTextOf top.now text.now) }
{
    let rest = text.strip_prefix(top)?;
    parts_of(rest)
}

// The path that has these parts, each after a slash.
fn parts_of(rest: &[u8]) -> Option<VaultPath>
    ensures { IfSome result (IsPathOf rest.now) }
{
    let mut path = VaultPath::root();
    let mut left = rest;
    while let Some((first, after)) = left.split_first() {
        if *first != SLASH {
            return None;
        }
        let end = part_len(after);
        match path.join(&after[..end]) {
            Ok(further) => path = further,
            Err(_) => return None,
        }
        left = &after[end..];
    }
    Some(path)
}

// How many bytes there are before the next slash.
fn part_len(bytes: &[u8]) -> usize
    ensures { result ≤ length bytes.now }
{
    bytes
        .iter()
        .position(|byte| *byte == SLASH)
        .unwrap_or(bytes.len())
}
