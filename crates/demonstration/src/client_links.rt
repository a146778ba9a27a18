//! What a client sends, and what its worker draws from.

ghost use Rattle.std.specs.Prelude.{◌≡◌, ◌<◌, IfOk};
ghost use Rattle.demonstration.specs.Objects.{entropy_of, listener_of};

use crate::client_scripts::script;
use crate::words::stream_seed;
use outside_mem::{MemLink, MemListener, MemSink, MemSource, SeedEntropy};
use std::alloc::{AllocError, Global};

// The stream of the first worker's random source; those of the others follow.
const FIRST_STREAM: u64 = 1000;

/// A listener at which the link of one client comes in, and no other. The client, below 64, sends its script of so many requests.
///
/// # Errors
///
/// Out of memory.
pub fn client_listener(
    alloc: Global,
    seed: u64,
    client: u32,
    requests: u32,
) -> Result<MemListener, AllocError>
    requires { client < 64 }
    ensures { IfOk result (λ listener. listener ≡ listener_of seed client requests) }
{
    let source = MemSource::new(alloc, script(alloc, seed, client, requests)?);
    let link = MemLink::new(alloc, source, MemSink::new(alloc))?;
    let mut links = Vec::new(alloc);
    links.push(link)?;
    Ok(MemListener::new(alloc, links))
}

/// The random source of a client's worker: stream 1000 for the first client, and so on.
pub fn worker_entropy(alloc: Global, seed: u64, client: u32) -> SeedEntropy
    ensures { result ≡ entropy_of seed client }
{
    SeedEntropy::from_seed(alloc, stream_seed(seed, FIRST_STREAM + u64::from(client)))
}
