ghost use Rattle.std.specs.Prelude.{IsTrue};
ghost use Rattle.vault_path.specs.Parts.{is_part};

use vault_path::Text;

/// What an entry shows.
#[derive(Debug, Drop)]
pub enum Shown {
    /// A file, with the size of its host file in bytes.
    File(u64),
    /// A symbolic link, with the size of its host file in bytes.
    Link(u64),
    /// A directory, with the text of its `dir.c9r`, of which at most 1,001 bytes are kept.
    Directory(Text),
}

/// Where a node of a directory is in the directory's folder, and what it shows.
#[derive(Debug, Drop)]
pub struct FoundNode {
    /// Its entry in the folder.
    pub entry: Text,
    /// Whether that is the long place, a folder ending in `.c9s`.
    pub long: bool,
    /// What it shows.
    pub shown: Shown,
    /// Whether it has a twin, or its own folder has further entries.
    pub shadowed: bool,
    ghost part: { IsTrue (is_part entry) },
}
