/// What identifies a node to a client, 13 bytes in a message (intro(5)).
#[derive(Clone, Copy, Debug, PartialEq, Eq)]
pub struct Qid {
    /// The type byte: 0x80 for a directory, else 0.
    pub kind: u8,
    /// How often the node changed in this run, modulo 2^32.
    pub version: u32,
    /// The node's number.
    pub path: u64,
}

impl Qid {
    /// The type byte of a directory (QTDIR).
    pub const DIRECTORY: u8 = 0x80;

    /// The type byte of a file (QTFILE).
    pub const FILE: u8 = 0;
}

/// What a node's attributes are, as stat(5) lists them. Seconds are since 1970-01-01; the length is in bytes.
#[derive(Clone, Copy, Debug, PartialEq, Eq)]
pub struct Stat<'a> {
    /// For kernel use: 0.
    pub kind: u16,
    /// For kernel use: 0.
    pub device: u32,
    pub qid: Qid,
    /// Permissions in the low nine bits, and DMDIR for a directory.
    pub mode: u32,
    pub accessed: u32,
    pub modified: u32,
    pub length: u64,
    pub name: &'a str,
    pub owner: &'a str,
    pub group: &'a str,
    pub modifier: &'a str,
}

/// What a wstat asks to change: the fields that it touches (stat(5)).
#[derive(Clone, Copy, Debug, PartialEq, Eq)]
pub struct StatChange<'a> {
    pub kind: Option<u16>,
    pub device: Option<u32>,
    pub qid: Option<Qid>,
    pub mode: Option<u32>,
    pub accessed: Option<u32>,
    pub modified: Option<u32>,
    pub length: Option<u64>,
    pub name: Option<&'a str>,
    pub owner: Option<&'a str>,
    pub group: Option<&'a str>,
    pub modifier: Option<&'a str>,
}
