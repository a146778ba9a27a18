//! What a client's requests send. Words are random, and say which request is made and of which file.

ghost use Rattle.std.specs.Prelude.{◌≡◌, ◌<◌, ◌++◌, OnOk};
ghost use Rattle.std.specs.List.{flat_map};
ghost use Rattle.demonstration.specs.Script as specs;
ghost use Rattle.demonstration.specs.Script.{sent};

use crate::messages::{
    push_clone, push_clunk, push_create, push_open, push_read, push_remove, push_untouched,
    push_walk_to_directory, push_walk_to_file, push_write,
};
use std::alloc::AllocError;

// The fid of a directory while it is made.
const DIRECTORY: u32 = 1;

// The fid of what a request walks to.
const TARGET: u32 = 2;

// rwxr-xr-x, of a directory (open(5)).
const DIRECTORY_PERM: u32 = 0x8000_01ED;

// rw-r--r--.
const FILE_PERM: u32 = 0x1A4;

// Modes of opening (open(5)).
const FOR_READING: u8 = 0;

const FOR_WRITING: u8 = 1;

// How many bytes a request reads or writes.
const COUNT: usize = 512;

fn directory_name(client: u32) -> [u8; 3]
    requires { client < 100 }
    ensures { result ≡ specs.directory_name client }
{
    [b'c', b'0' + (client / 10) as u8, b'0' + (client % 10) as u8]
}

fn file_name(word: u32) -> [u8; 2]
    ensures { result ≡ specs.file_in word }
{
    [b'f', b'0' + (word / 4 % 8) as u8]
}

fn number(word: u32) -> u32
    ensures { result ≡ specs.number_in word }
{
    word / 32 % 4096
}

fn offset(word: u32) -> u64
    ensures { result ≡ specs.offset_in word }
{
    16 * u64::from(number(word))
}

fn byte(word: u32) -> u8
    ensures { result ≡ specs.byte_in word }
{
    (word / 131_072 % 256) as u8
}

/// A client's first request.
pub(crate) fn make_directory(out: &mut Vec<u8>, client: u32) -> Result<(), AllocError>
    requires { client < 64 }
    ensures { OnOk result (out.new.items ≡ out.old.items ++ flat_map sent (specs.make_directory client)) }
{
    push_clone(out, DIRECTORY)?;
    push_create(
        out,
        DIRECTORY,
        &directory_name(client),
        DIRECTORY_PERM,
        FOR_READING,
    )?;
    push_clunk(out, DIRECTORY)
}

fn make_file(out: &mut Vec<u8>, client: u32, word: u32) -> Result<(), AllocError>
    requires { client < 64 }
    ensures { OnOk result (out.new.items ≡ out.old.items ++ flat_map sent (specs.make_file client word)) }
{
    push_walk_to_directory(out, TARGET, &directory_name(client))?;
    push_create(out, TARGET, &file_name(word), FILE_PERM, FOR_WRITING)?;
    push_clunk(out, TARGET)
}

fn write_file(out: &mut Vec<u8>, client: u32, word: u32) -> Result<(), AllocError>
    requires { client < 64 }
    ensures { OnOk result (out.new.items ≡ out.old.items ++ flat_map sent (specs.write_file client word)) }
{
    push_walk_to_file(out, TARGET, &directory_name(client), &file_name(word))?;
    push_open(out, TARGET, FOR_WRITING)?;
    push_write(out, TARGET, offset(word), &[byte(word); COUNT])?;
    push_clunk(out, TARGET)
}

fn read_file(out: &mut Vec<u8>, client: u32, word: u32) -> Result<(), AllocError>
    requires { client < 64 }
    ensures { OnOk result (out.new.items ≡ out.old.items ++ flat_map sent (specs.read_file client word)) }
{
    push_walk_to_file(out, TARGET, &directory_name(client), &file_name(word))?;
    push_open(out, TARGET, FOR_READING)?;
    push_read(out, TARGET, offset(word), COUNT as u32)?;
    push_clunk(out, TARGET)
}

fn remove_file(out: &mut Vec<u8>, client: u32, word: u32) -> Result<(), AllocError>
    requires { client < 64 }
    ensures { OnOk result (out.new.items ≡ out.old.items ++ flat_map sent (specs.remove_file client word)) }
{
    push_walk_to_file(out, TARGET, &directory_name(client), &file_name(word))?;
    push_remove(out, TARGET)
}

fn sync_directory(out: &mut Vec<u8>, client: u32) -> Result<(), AllocError>
    requires { client < 64 }
    ensures { OnOk result (out.new.items ≡ out.old.items ++ flat_map sent (specs.sync_directory client)) }
{
    push_walk_to_directory(out, TARGET, &directory_name(client))?;
    push_untouched(out, TARGET)?;
    push_clunk(out, TARGET)
}

/// A request for which a word was drawn.
#[tactic(auto, unfolding(crate::specs::Script::drawn_request))]
pub(crate) fn push_request(out: &mut Vec<u8>, client: u32, word: u32) -> Result<(), AllocError>
    requires { client < 64 }
    ensures { OnOk result (out.new.items ≡ out.old.items ++ flat_map sent (specs.drawn_request client word)) }
{
    match word % 4 {
        0 => make_file(out, client, word),
        1 => write_file(out, client, word),
        2 => read_file(out, client, word),
        _ if number(word) % 8 == 0 => remove_file(out, client, word),
        _ => sync_directory(out, client),
    }
}
