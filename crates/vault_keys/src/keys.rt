ghost use Rattle.std.specs.Prelude.{◌≡◌, length};
ghost use Rattle.aes_block.specs.Bytes.{AreBytes};

use aes_block::Key256;
use aes_kernels::LaneKey;
use std::marker::Model;

/// The two keys of a vault, each of 32 bytes, ready for use.
#[derive(Drop)]
pub struct VaultKeys {
    enc: LaneKey,
    mac: LaneKey,
}

impl Model for VaultKeys {
    ghost use Rattle.vault_keys.specs.Keys.{KeyPair};

    ghost Value = { KeyPair };

    ghost view = { λ k. record { enc = k.enc; mac = k.mac } };
}

impl VaultKeys {
    /// The encryption key and the MAC key, of 32 bytes each.
    pub fn new(enc: &[u8; 32], mac: &[u8; 32]) -> VaultKeys
        ensures enc { result.enc ≡ enc.now }
        ensures mac { result.mac ≡ mac.now }
    {
        VaultKeys {
            enc: LaneKey::new(Key256::new(enc)),
            mac: LaneKey::new(Key256::new(mac)),
        }
    }

    /// The same keys once more.
    pub fn copied(&self) -> VaultKeys
        ensures { result ≡ self.now }
    {
        VaultKeys {
            enc: self.enc.copied(),
            mac: self.mac.copied(),
        }
    }

    /// The encryption key.
    pub fn encryption_key(&self) -> &Key256
        ensures { result.now ≡ self.now.enc }
    {
        self.enc.key()
    }

    /// The encryption key, as names are encrypted by it.
    pub fn encryption_lanes(&self) -> &LaneKey
        ensures { result.now ≡ self.now.enc }
    {
        &self.enc
    }

    /// The MAC key.
    pub fn mac_key(&self) -> &Key256
        ensures { result.now ≡ self.now.mac }
    {
        self.mac.key()
    }

    /// The MAC key, as names are authenticated by it.
    pub fn mac_lanes(&self) -> &LaneKey
        ensures { result.now ≡ self.now.mac }
    {
        &self.mac
    }

    /// States that each key has 32 bytes. It does nothing.
    pub fn have_32_bytes(&self)
        ensures enc { length self.now.enc ≡ 32 }
        ensures mac { length self.now.mac ≡ 32 }
        ensures enc_bytes { AreBytes self.now.enc }
        ensures mac_bytes { AreBytes self.now.mac }
    {
        self.enc.key().has_32_bytes();
        self.mac.key().has_32_bytes();
    }
}
