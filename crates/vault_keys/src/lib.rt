//! A vault's two keys, ready for use: by single blocks, and by lanes as names are sealed.
//!
//! ```
//! let keys = VaultKeys::new(&[1; 32], &[2; 32]);
//! let (mac, ctr) = (keys.mac_lanes(), keys.encryption_lanes());
//! ```
//!
//! Not promised: that keys are wiped from memory when they are dropped.
#![tactic(auto)]

mod keys;

pub use keys::VaultKeys;
