//! Messages written out by hand from their layouts in section 5 of the Plan 9 manual.

ghost use Rattle.std.specs.Prelude.{◌≤◌, ◌+◌, length};
ghost use Rattle.ninep_wire.specs.Writing.{HasForm, r_size};

use crate::frames::is_frame;
use crate::one_file::STAT;
use ninep_wire::{Message, RMessage, TMessage, WireErr, read_message, write_reply, write_stat};
use std::process::Abort;
use tree_model::{Names, Qid, StatChange};

const UNTOUCHED: StatChange<'static> = StatChange {
    kind: None,
    device: None,
    qid: None,
    mode: None,
    accessed: None,
    modified: None,
    length: None,
    name: None,
    owner: None,
    group: None,
    modifier: None,
};

// A frame of each message that a client sends.
const FRAMES: [(&[u8], Message<'static>); 13] = [
    (
        b"\x13\0\0\0\x64\xff\xff\x18\0\x01\0\x06\09P2000",
        Message {
            tag: 0xffff,
            body: TMessage::Version {
                msize: 65560,
                version: "9P2000",
            },
        },
    ),
    (
        b"\x11\0\0\0\x66\x02\0\x05\0\0\0\x01\0u\x01\0a",
        Message {
            tag: 2,
            body: TMessage::Auth {
                afid: 5,
                uname: "u",
                aname: "a",
            },
        },
    ),
    (
        b"\x14\0\0\0\x68\x01\0\0\0\0\0\xff\xff\xff\xff\x01\0u\0\0",
        Message {
            tag: 1,
            body: TMessage::Attach {
                fid: 0,
                afid: 0xffff_ffff,
                uname: "u",
                aname: "",
            },
        },
    ),
    (
        b"\x09\0\0\0\x6c\x03\0\x04\0",
        Message {
            tag: 3,
            body: TMessage::Flush { oldtag: 4 },
        },
    ),
    (
        b"\x14\0\0\0\x6e\x01\0\0\0\0\0\x01\0\0\0\x01\0\x01\0a",
        Message {
            tag: 1,
            body: TMessage::Walk {
                fid: 0,
                newfid: 1,
                names: Names {
                    count: 1,
                    bytes: b"\x01\0a",
                },
            },
        },
    ),
    (
        b"\x0c\0\0\0\x70\x01\0\x01\0\0\0\0",
        Message {
            tag: 1,
            body: TMessage::Open { fid: 1, mode: 0 },
        },
    ),
    (
        b"\x13\0\0\0\x72\x01\0\x01\0\0\0\x01\0n\xa4\x01\0\0\x02",
        Message {
            tag: 1,
            body: TMessage::Create {
                fid: 1,
                name: "n",
                perm: 420,
                mode: 2,
            },
        },
    ),
    (
        b"\x17\0\0\0\x74\x01\0\x01\0\0\0\0\0\0\0\0\0\0\0\x05\0\0\0",
        Message {
            tag: 1,
            body: TMessage::Read {
                fid: 1,
                offset: 0,
                count: 5,
            },
        },
    ),
    (
        b"\x19\0\0\0\x76\x01\0\x01\0\0\0\0\x01\0\0\0\0\0\0\x02\0\0\0hi",
        Message {
            tag: 1,
            body: TMessage::Write {
                fid: 1,
                offset: 256,
                bytes: b"hi",
            },
        },
    ),
    (
        b"\x0b\0\0\0\x78\x01\0\x01\0\0\0",
        Message {
            tag: 1,
            body: TMessage::Clunk { fid: 1 },
        },
    ),
    (
        b"\x0b\0\0\0\x7a\x01\0\x01\0\0\0",
        Message {
            tag: 1,
            body: TMessage::Remove { fid: 1 },
        },
    ),
    (
        b"\x0b\0\0\0\x7c\x01\0\x01\0\0\0",
        Message {
            tag: 1,
            body: TMessage::Stat { fid: 1 },
        },
    ),
    (
        b"\x3f\0\0\0\x7e\x01\0\x01\0\0\0\x32\0\x30\0\xff\xff\xff\xff\xff\xff\xff\xff\xff\xff\xff\xff\xff\xff\xff\xff\xff\xff\xff\xa4\x01\0\0\xff\xff\xff\xff\x64\0\0\0\xff\xff\xff\xff\xff\xff\xff\xff\x01\0b\0\0\0\0\0\0",
        Message {
            tag: 1,
            body: TMessage::Wstat {
                fid: 1,
                change: StatChange {
                    mode: Some(420),
                    modified: Some(100),
                    name: Some("b"),
                    ..UNTOUCHED
                },
            },
        },
    ),
];

fn read(frame: &[u8]) -> Option<Result<Message<'_>, WireErr>> {
    if is_frame(frame) {
        Some(read_message(frame))
    } else {
        None
    }
}

#[test]
fn each_message_is_read(rt: HostRuntime) {
    for (frame, message) in FRAMES {
        assert_eq!(rt; read(frame), Some(Ok(message)));
    }
}

fn put_frame(bytes: &mut [u8], frame: &[u8], size: u32)
    requires frame { length frame.now ≤ length bytes.old }
    requires size { 4 ≤ length bytes.old }
{
    bytes[..frame.len()].copy_from_slice(frame);
    bytes[..4].copy_from_slice(&size.to_le_bytes());
}

// What is wrong with the first `len` bytes of a frame, or with a frame that zeros make so long.
fn fault_of(frame: &[u8], len: usize) -> Option<WireErr> {
    let mut bytes = [0; 128];
    if frame.len() > 128 || len > 128 {
        return None;
    }
    put_frame(&mut bytes, frame, len as u32);
    read(&bytes[..len])?.err()
}

#[test]
fn cut_frames_are_short_and_a_byte_more_is_long(rt: HostRuntime) {
    for (frame, _) in FRAMES {
        for len in 7..frame.len() {
            assert_eq!(rt;
                fault_of(frame, len),
                Some(WireErr::Short),
                "{frame:?} cut at {len}"
            );
        }
        assert_eq!(rt;
            fault_of(frame, frame.len().saturating_add(1)),
            Some(WireErr::Long),
            "{frame:?}"
        );
    }
}

#[test]
fn the_first_fault_is_answered(rt: HostRuntime) {
    let table: [(&[u8], WireErr); 9] = [
        (b"\x07\0\0\0\x6a\x01\0", WireErr::Kind(106)),
        (b"\x07\0\0\0\x65\x01\0", WireErr::Kind(101)),
        (
            b"\x11\0\0\0\x6e\x01\0\0\0\0\0\x01\0\0\0\x11\0",
            WireErr::Names(17),
        ),
        (
            b"\x0f\0\0\0\x66\x02\0\x05\0\0\0\x01\0\x80\x01",
            WireErr::Text,
        ),
        (
            b"\x11\0\0\0\x66\x02\0\x05\0\0\0\x01\0u\x01\0\x80",
            WireErr::Text,
        ),
        (b"\x0e\0\0\0\x7e\x01\0\x01\0\0\0\x01\0\0", WireErr::Short),
        (
            b"\x0f\0\0\0\x7e\x01\0\x01\0\0\0\x02\0\x01\0",
            WireErr::Short,
        ),
        (
            b"\x3f\0\0\0\x7e\x01\0\x01\0\0\0\x32\0\x2f\0\xff\xff\xff\xff\xff\xff\xff\xff\xff\xff\xff\xff\xff\xff\xff\xff\xff\xff\xff\xff\xff\xff\xff\xff\xff\xff\xff\xff\xff\xff\xff\xff\xff\xff\xff\xff\xff\xff\xff\0\0\0\0\0\0\0\0\0",
            WireErr::Long,
        ),
        (
            b"\x3f\0\0\0\x7e\x01\0\x01\0\0\0\x32\0\x30\0\xff\xff\xff\xff\xff\xff\xff\xff\xff\xff\xff\xff\xff\xff\xff\xff\xff\xff\xff\xff\xff\xff\xff\xff\xff\xff\xff\xff\xff\xff\xff\xff\xff\xff\xff\xff\xff\xff\xff\0\0\0\0\0\0\0\0\0",
            WireErr::Long,
        ),
    ];
    for (frame, fault) in table {
        assert_eq!(rt; read(frame), Some(Err(fault)), "{frame:?}");
    }
}

// Writes an answer with tag 1 over bytes that have `hello` at a place.
fn written(rt: &impl Abort, reply: &RMessage<'_>, place: usize, expected: &[u8])
    requires form { HasForm reply.now }
    requires room { r_size reply.now ≤ 64 }
    requires place { place + 5 ≤ 64 }
{
    let mut out = [0; 64];
    out[place..place + 5].copy_from_slice(b"hello");
    let size = write_reply(reply, 1, &mut out);
    assert_eq!(rt; &out[..size], expected);
}

#[test]
fn each_answer_is_written(rt: HostRuntime) {
    let root = Qid {
        kind: Qid::DIRECTORY,
        version: 0,
        path: 0,
    };
    let file = Qid {
        kind: Qid::FILE,
        version: 0,
        path: 1,
    };
    written(
        &rt,
        &RMessage::Version {
            msize: 65560,
            version: "9P2000",
        },
        0,
        b"\x13\0\0\0\x65\x01\0\x18\0\x01\0\x06\09P2000",
    );
    written(
        &rt,
        &RMessage::Attach { qid: root },
        0,
        b"\x14\0\0\0\x69\x01\0\x80\0\0\0\0\0\0\0\0\0\0\0\0",
    );
    written(
        &rt,
        &RMessage::Error { ename: "no" },
        0,
        b"\x0b\0\0\0\x6b\x01\0\x02\0no",
    );
    written(&rt, &RMessage::Flush, 0, b"\x07\0\0\0\x6d\x01\0");
    written(
        &rt,
        &RMessage::Walk {
            count: 1,
            qids: &[file, root],
        },
        0,
        b"\x16\0\0\0\x6f\x01\0\x01\0\0\0\0\0\0\x01\0\0\0\0\0\0\0",
    );
    written(
        &rt,
        &RMessage::Open {
            qid: file,
            iounit: 65536,
        },
        0,
        b"\x18\0\0\0\x71\x01\0\0\0\0\0\0\x01\0\0\0\0\0\0\0\0\0\x01\0",
    );
    written(
        &rt,
        &RMessage::Create {
            qid: file,
            iounit: 65536,
        },
        0,
        b"\x18\0\0\0\x73\x01\0\0\0\0\0\0\x01\0\0\0\0\0\0\0\0\0\x01\0",
    );
    written(
        &rt,
        &RMessage::Read { count: 5 },
        11,
        b"\x10\0\0\0\x75\x01\0\x05\0\0\0hello",
    );
    written(
        &rt,
        &RMessage::Write { count: 5 },
        0,
        b"\x0b\0\0\0\x77\x01\0\x05\0\0\0",
    );
    written(&rt, &RMessage::Clunk, 0, b"\x07\0\0\0\x79\x01\0");
    written(&rt, &RMessage::Remove, 0, b"\x07\0\0\0\x7b\x01\0");
    written(
        &rt,
        &RMessage::Stat { count: 5 },
        9,
        b"\x0e\0\0\0\x7d\x01\0\x05\0hello",
    );
    written(&rt, &RMessage::Wstat, 0, b"\x07\0\0\0\x7f\x01\0");
}

#[test]
fn a_stat_is_written(rt: HostRuntime) {
    let mut out = [0; 65];
    let size = write_stat(&STAT, &mut out);
    let expected =
        b"\x3f\0\0\0\0\0\0\0\0\0\0\0\0\x01\0\0\0\0\0\0\0\xa4\x01\0\0\x64\0\0\0\x64\0\0\0\x05\0\0\0\0\0\0\0\x01\0a\x05\0vault\x05\0vault\x05\0vault";
    assert_eq!(rt; &out[..size], expected.as_slice());
}
