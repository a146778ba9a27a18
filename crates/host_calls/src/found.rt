ghost use Rattle.std.specs.Prelude.{◌≡◌, ◌↔◌, IsTrue};
ghost use Rattle.host_calls.specs.Same.{IsSame};

/// Which file or folder of the host it is.
#[derive(Clone, Copy, Debug, PartialEq, Eq)]
pub struct Inode {
    /// The device.
    pub dev: u64,
    /// Its number there.
    pub ino: u64,
}

/// What the host has at a path.
#[derive(Clone, Copy)]
pub enum Found {
    /// Nothing.
    Nothing,
    /// A folder.
    Dir(Inode),
    /// A file, with its length in bytes.
    File(Inode, u64),
    /// A link, a device, a FIFO or the like.
    Other,
}

/// Whether both are one file or one folder, whatever length it has now.
pub fn is_same(seen: Found, opened: Found) -> bool
    ensures { IsTrue result ↔ IsSame seen opened }
{
    match (seen, opened) {
        (Found::Dir(old), Found::Dir(new)) => old == new,
        (Found::File(old, _), Found::File(new, _)) => old == new,
        _ => false,
    }
}
