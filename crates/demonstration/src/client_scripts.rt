//! What a client sends.

ghost use Rattle.std.specs.Prelude.{◌≡◌, ◌+◌, ◌<◌, ◌++◌, IfOk, OnOk};
ghost use Rattle.std.specs.List.{flat_map};
ghost use Rattle.demonstration.specs.Script.{client_words, drawn_request, requests_of, script_of, sent, spelled_messages};

use crate::messages::{push_attach, push_version};
use crate::requests::{make_directory, push_request};
use crate::words::stream_seed;
use rand_chacha::ChaCha20Rng;
use rand_core::SeedableRng;
use rand_core::utils::NextWord;
use std::alloc::{AllocError, Global};

// The size of messages that a client asks for.
const MESSAGE_SIZE: u32 = 65_560;

/// The messages of one client, one after the other: it attaches, makes its directory, and then makes, writes, reads, syncs and
/// removes files in it, as the words of its stream say.
pub fn script(alloc: Global, seed: u64, client: u32, requests: u32) -> Result<Vec<u8>, AllocError>
    requires { client < 64 }
    ensures { IfOk result (λ sent. sent.items ≡ spelled_messages (script_of seed client requests)) }
{
    let mut out = Vec::new(alloc);
    push_version(&mut out, MESSAGE_SIZE)?;
    push_attach(&mut out)?;
    push_requests(&mut out, seed, client, requests)?;
    Ok(out)
}

fn push_requests(out: &mut Vec<u8>, seed: u64, client: u32, requests: u32) -> Result<(), AllocError>
    requires { client < 64 }
    ensures { OnOk result (out.new.items ≡ out.old.items ++ flat_map sent (requests_of seed client requests)) }
{
    let Some(more) = requests.checked_sub(1) else {
        return Ok(());
    };
    make_directory(out, client)?;
    draw_requests(out, seed, client, more)
}

// The requests after the first.
fn draw_requests(out: &mut Vec<u8>, seed: u64, client: u32, count: u32) -> Result<(), AllocError>
    requires { client < 64 }
    ensures { OnOk result (out.new.items ≡ out.old.items
        ++ flat_map sent (flat_map (drawn_request client) (client_words seed client count))) }
{
    let mut words = ChaCha20Rng::from_seed(stream_seed(seed, 1 + u64::from(client)));
    for _ in 0..count {
        push_request(out, client, words.next_word())?;
    }
    Ok(())
}
