//! AES-CMAC (SP 800-38B), and S2V and SIV (RFC 5297) with no or one associated string, over any
//! block cipher on blocks of 16 bytes.
//!
//! ```
//! let keys = vault_keys::VaultKeys::new(&[1; 32], &[2; 32]);
//! let mut sealed = [0; TAG_LEN + 5];
//! let (mac, ctr) = (keys.mac_lanes(), keys.encryption_lanes());
//! seal(mac, ctr, Some(b"folder"), b"hello", &mut sealed);
//! open(mac, ctr, Some(b"folder"), &sealed, &mut [0; 5])?;
//! ```
//!
//! SIV is deterministic: the same text sealed twice under the same keys and string gives the same
//! bytes. Not promised: that the time taken is independent of keys and text (by reading it is with
//! keys in lanes, while `Key128` and `Key256` index a table by secret bytes; tags are compared
//! without an early end), or that keys are wiped from memory when they are dropped.
#![tactic(auto)]

mod blocks;
mod keystream;
mod laws;
mod mac;
mod siv;

pub use laws::opening_is_exact;
pub use mac::cmac;
pub use siv::{BadTag, TAG_LEN, open, s2v, seal};
