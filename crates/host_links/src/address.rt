ghost use Rattle.std.specs.Prelude.{◌≡◌, ◌++◌, ℕ, List, codes, IfOk, MatchOption};
ghost use Rattle.host_links.specs.Addresses.{IsNamedBy};

use host_sockets::Address;
use std::alloc::{AllocError, Global};

/// Where clients are to connect, by the text of an address: `unix:` and a path, or HOST:PORT.
pub fn address_named(alloc: Global, text: &str) -> Result<Address, AllocError>
    ensures { IfOk result (IsNamedBy text.now) }
{
    match text.strip_prefix("unix:") {
        Some(path) => Ok(Address::Path(String::from_str(alloc, path)?)),
        None => Ok(Address::Host(String::from_str(alloc, text)?)),
    }
}

/// The host of an address that asks for port 0: the port is the host's choice.
pub fn host_at_port_0(address: &str) -> Option<&str>
    ensures { MatchOption result ((host : List ℕ) → address.now ≡ host ++ codes ":0" → ⊥) (λ host. address.now ≡ host.now ++ codes ":0") }
{
    address.strip_suffix(":0")
}
