use crate::StatChange;

/// The names of a walk, as they are in a message: `count` of them, each its length as 2 bytes, least significant first,
/// and then that many bytes.
#[derive(Clone, Copy, Debug, PartialEq, Eq)]
pub struct Names<'a> {
    pub count: u16,
    pub bytes: &'a [u8],
}

/// What is asked of the tree. Nodes are named by their numbers, the root's being 0; modes are those of open(5).
#[derive(Clone, Copy)]
pub enum Request<'a> {
    /// The node's qid.
    Look {
        node: u64,
    },
    /// From a node along names, at most 16.
    Walk {
        node: u64,
        names: Names<'a>,
    },
    /// Opens a node: the mode's low two bits, and 0x10 to truncate.
    OpenNode {
        node: u64,
        mode: u8,
    },
    /// Makes a file or directory of this name in a directory, and opens it.
    Create {
        node: u64,
        name: &'a str,
        is_dir: bool,
        mode: u8,
    },
    /// The bytes of a file from offset `at` on, at most `count`.
    Read {
        node: u64,
        at: u64,
        count: u32,
    },
    /// The stats of a directory's nodes after the name `after`, if there is one, whole ones that fit into `count` bytes.
    List {
        node: u64,
        after: Option<&'a str>,
        count: u32,
    },
    /// Writes bytes at an offset of a file.
    Write {
        node: u64,
        at: u64,
        bytes: &'a [u8],
    },
    /// Removes a node.
    Remove {
        node: u64,
    },
    /// The node's stat.
    StatOf {
        node: u64,
    },
    /// Changes attributes of a node.
    Change {
        node: u64,
        change: StatChange<'a>,
    },
    /// Commits all that is pending.
    Sync {
        node: u64,
    },
}
