use tree_model::{Names, StatChange};

/// A T-message with its tag (intro(5)). Names and bytes are borrowed from the frame.
#[derive(Clone, Copy, Debug, PartialEq, Eq)]
pub struct Message<'a> {
    pub tag: u16,
    pub body: TMessage<'a>,
}

/// What a client asks (section 5 of the Plan 9 manual).
#[derive(Clone, Copy, Debug, PartialEq, Eq)]
pub enum TMessage<'a> {
    Version {
        msize: u32,
        version: &'a str,
    },
    Auth {
        afid: u32,
        uname: &'a str,
        aname: &'a str,
    },
    Attach {
        fid: u32,
        afid: u32,
        uname: &'a str,
        aname: &'a str,
    },
    Flush {
        oldtag: u16,
    },
    Walk {
        fid: u32,
        newfid: u32,
        names: Names<'a>,
    },
    Open {
        fid: u32,
        mode: u8,
    },
    Create {
        fid: u32,
        name: &'a str,
        perm: u32,
        mode: u8,
    },
    Read {
        fid: u32,
        offset: u64,
        count: u32,
    },
    Write {
        fid: u32,
        offset: u64,
        bytes: &'a [u8],
    },
    Clunk {
        fid: u32,
    },
    Remove {
        fid: u32,
    },
    Stat {
        fid: u32,
    },
    Wstat {
        fid: u32,
        change: StatChange<'a>,
    },
}
