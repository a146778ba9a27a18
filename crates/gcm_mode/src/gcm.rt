ghost use Rattle.std.specs.Prelude.{◌≡◌, ◌↔◌, ℕ, List, ◌++◌, replicate, Some, None, IsOk, OnOk, OnErr};
ghost use Rattle.aes_block.specs.Aes.{aes};
ghost use Rattle.aes_block.specs.Bytes.{number_of};
ghost use Rattle.gcm_mode.specs.Ghash.{ghash};
ghost use Rattle.gcm_mode.specs.Gcm.{counted, gcm_opened, gcm_sealed, gcm_tag, hashed_text};

use crate::ghash::{PlaceTable, ProductTable, hash_of};
use crate::stream::{count_over, tag_mask};
use aes_block::{BlockKey, Key256, blocks_equal, xor_onto};
use aes_kernels::LaneKey;
use std::marker::Model;
use thiserror::Error;

/// A tag that isn't the ciphertext's: it was changed, or sealed under another key, nonce or
/// associated data.
#[derive(Clone, Copy, Debug, PartialEq, Eq, Error)]
#[error("the tag differs")]
pub struct BadTag;

/// A key of AES-256 that is ready for GCM, with a nonce of 12 bytes and a tag of 16.
pub trait GcmCipher {
    /// The key's bytes.
    ghost key: { Self → List ℕ };

    /// The block cipher under the key.
    fn block_cipher(&self) -> &LaneKey
        ensures { result.now ≡ key self.now };

    /// GHASH under the hash subkey, which is the encrypted zero block, of associated data, a
    /// ciphertext and their lengths (SP 800-38D, 7.1, steps 1, 4 and 5).
    fn hash(&self, ad: &[u8], ciphertext: &[u8]) -> [u8; 16]
        ensures { result ≡ ghash (number_of (aes (key self.now) (replicate 16 0)))
            (hashed_text ad.now ciphertext.now) };

    /// The tag of a ciphertext (SP 800-38D, 7.1, steps 5 and 6).
    fn tag_of(&self, nonce: &[u8; 12], ad: &[u8], ciphertext: &[u8]) -> [u8; 16]
        ensures { result ≡ gcm_tag (aes (key self.now)) nonce.now ad.now ciphertext.now }
    {
        let mut tag = tag_mask(self.block_cipher(), nonce);
        xor_onto(&mut tag, &self.hash(ad, ciphertext));
        tag
    }

    /// Encrypts `buf` in place and returns the tag, 16 bytes (SP 800-38D, 7.1). A nonce of 12 bytes
    /// serves for one text under one key; the associated data, of any length, is in the tag alone.
    /// The standard allows up to 2^36 - 32 bytes in `buf`, since the counter of 32 bits wraps
    /// after them.
    fn seal_in_place(&self, nonce: &[u8; 12], ad: &[u8], buf: &mut [u8]) -> [u8; 16]
        ensures text { buf.new ≡ counted (aes (key self.now)) nonce.now buf.old }
        ensures tag { result ≡ gcm_tag (aes (key self.now)) nonce.now ad.now buf.new }
        // The same as one function of the text.
        ensures sealed { buf.new ++ result
            ≡ gcm_sealed (aes (key self.now)) nonce.now ad.now buf.old }
        // Opening it gives the text again.
        ensures opens { gcm_opened (aes (key self.now)) nonce.now ad.now buf.new result
            ≡ Some buf.old }
    {
        self.block_cipher().key().makes_blocks();
        count_over(self.block_cipher(), nonce, buf);
        self.tag_of(nonce, ad, buf)
    }

    /// Decrypts the ciphertext `buf` in place (SP 800-38D, 7.2), with the nonce and the associated
    /// data that it was sealed with and its tag of 16 bytes. It fails if and only if the tag
    /// differs; `buf` is as it was then.
    fn open_in_place(
        &self,
        nonce: &[u8; 12],
        ad: &[u8],
        buf: &mut [u8],
        tag: &[u8; 16],
    ) -> Result<(), BadTag>
        ensures accepted { IsOk result
            ↔ (gcm_tag (aes (key self.now)) nonce.now ad.now buf.old ≡ tag.now) }
        ensures text { OnOk result (buf.new ≡ counted (aes (key self.now)) nonce.now buf.old) }
        ensures refused { OnErr result (buf.new ≡ buf.old) }
        // The same as one function of the ciphertext and the tag.
        ensures opened { OnOk result
            (gcm_opened (aes (key self.now)) nonce.now ad.now buf.old tag.now ≡ Some buf.new) }
        ensures closed { OnErr result
            (gcm_opened (aes (key self.now)) nonce.now ad.now buf.old tag.now ≡ None) }
        // It is accepted if and only if sealing some text gives both.
        ensures exact { OnOk result (buf.old ++ tag.now
            ≡ gcm_sealed (aes (key self.now)) nonce.now ad.now buf.new) }
        ensures only { (text : List ℕ)
            → buf.old ++ tag.now ≡ gcm_sealed (aes (key self.now)) nonce.now ad.now text
            → IsOk result × (buf.new ≡ text) }
    {
        self.block_cipher().key().makes_blocks();
        let expected = self.tag_of(nonce, ad, buf);
        if !blocks_equal(&expected, tag) {
            return Err(BadTag);
        }
        count_over(self.block_cipher(), nonce, buf);
        Ok(())
    }
}

// The hash subkey of a key: the encrypted zero block (7.1, step 1).
fn subkey_of(key: &LaneKey) -> u128
    ensures { result ≡ number_of (aes key.now (replicate 16 0)) }
{
    key.key().makes_blocks();
    u128::from_be_bytes(key.encrypted_four(&[[0; 16]; 4])[0])
}

/// A key for a few short texts: soon made, and under 1 KiB. Clauses see the key's 32 bytes.
#[derive(Drop)]
pub struct GcmKey {
    cipher: LaneKey,
    subkey: ProductTable,
}

impl Model for GcmKey {
    ghost use Rattle.std.specs.Prelude.{◌≡◌, ℕ, List, replicate};
    ghost use Rattle.aes_block.specs.Aes.{aes};
    ghost use Rattle.aes_block.specs.Bytes.{number_of};

    ghost Value = { List ℕ };

    ghost view = { λ k. k.cipher };

    ghost invariant = { λ k. k.subkey ≡ number_of (aes k.cipher (replicate 16 0)) };
}

impl GcmKey {
    /// Makes a key of 32 bytes ready (SP 800-38D, 7.1, step 1).
    pub fn new(key: &[u8; 32]) -> GcmKey
        ensures { result ≡ key.now }
    {
        GcmKey::from(Key256::new(key))
    }
}

impl From<Key256> for GcmKey {
    ghost from_gives = { λ key made. made ≡ key };

    // Makes a key ready that was expanded before.
    fn from(key: Key256) -> GcmKey {
        let cipher = LaneKey::new(key);
        let subkey = ProductTable::new(subkey_of(&cipher));
        GcmKey { cipher, subkey }
    }
}

impl GcmCipher for GcmKey {
    ghost key = { λ k. k };

    fn block_cipher(&self) -> &LaneKey {
        &self.cipher
    }

    fn hash(&self, ad: &[u8], ciphertext: &[u8]) -> [u8; 16] {
        hash_of(&self.subkey, ad, ciphertext)
    }
}

/// A key for long texts, or many: it has a table of 8 KiB. Clauses see the key's 32 bytes.
#[derive(Drop)]
pub struct BulkGcmKey {
    cipher: LaneKey,
    subkey: PlaceTable,
}

impl Model for BulkGcmKey {
    ghost use Rattle.std.specs.Prelude.{◌≡◌, ℕ, List, replicate};
    ghost use Rattle.aes_block.specs.Aes.{aes};
    ghost use Rattle.aes_block.specs.Bytes.{number_of};

    ghost Value = { List ℕ };

    ghost view = { λ k. k.cipher };

    ghost invariant = { λ k. k.subkey ≡ number_of (aes k.cipher (replicate 16 0)) };
}

impl BulkGcmKey {
    /// Makes a key of 32 bytes ready (SP 800-38D, 7.1, step 1).
    pub fn new(key: &[u8; 32]) -> BulkGcmKey
        ensures { result ≡ key.now }
    {
        BulkGcmKey::from(Key256::new(key))
    }
}

impl From<Key256> for BulkGcmKey {
    ghost from_gives = { λ key made. made ≡ key };

    // Makes a key ready that was expanded before.
    fn from(key: Key256) -> BulkGcmKey {
        let cipher = LaneKey::new(key);
        let subkey = PlaceTable::new(subkey_of(&cipher));
        BulkGcmKey { cipher, subkey }
    }
}

impl GcmCipher for BulkGcmKey {
    ghost key = { λ k. k };

    fn block_cipher(&self) -> &LaneKey {
        &self.cipher
    }

    fn hash(&self, ad: &[u8], ciphertext: &[u8]) -> [u8; 16] {
        hash_of(&self.subkey, ad, ciphertext)
    }
}
