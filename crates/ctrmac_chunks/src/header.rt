ghost use Rattle.std.specs.Prelude.{◌≡◌, ◌⊎◌, ◌++◌, List, ℕ, length, replicate, Some, None, IfOk, OnErr, IsErr};
ghost use Rattle.outside.specs.Calls.{HasCause, Changes};
ghost use Rattle.ctrmac_chunks.specs.Header.{header_opens, sealed_header};
ghost use Rattle.ctrmac_chunks.specs.Chunk.{bound_to};

use crate::envelope::{Damaged, array_at, open_into, seal_into};
use crate::size::{HEADER_LENGTH, NONCE_LENGTH};
use aes_block::Key256;
use ctr_mode::BulkKey;
use outside::{Entropy, Failed};
use std::marker::Model;
use vault_keys::VaultKeys;

const KEY_LENGTH: usize = 32;

// How many bytes are before a content key. They are FF, and aren't looked at.
const UNUSED_LENGTH: usize = 8;

const PAYLOAD_LENGTH: usize = UNUSED_LENGTH + KEY_LENGTH;

// The length of a chunk's index in bytes.
const INDEX_LENGTH: usize = 8;

const BOUND_LENGTH: usize = NONCE_LENGTH + INDEX_LENGTH;

/// A file's header: its nonce, its content key ready for chunks, and the vault's MAC key, some 2,500 bytes in all. Clauses see
/// a `Head`.
#[derive(Drop)]
pub struct Header {
    nonce: [u8; NONCE_LENGTH],
    key: BulkKey,
    mac: [u8; KEY_LENGTH],
}

impl Model for Header {
    ghost use Rattle.ctrmac_chunks.specs.Header.{Head};

    ghost Value = { Head };

    ghost view = { λ h. record { nonce = h.nonce; key = h.key; mac = h.mac } };
}

impl Header {
    /// The content key.
    pub(crate) fn key(&self) -> &BulkKey
        ensures { result.now ≡ self.now.key }
    {
        &self.key
    }

    /// The vault's MAC key.
    pub(crate) fn mac_key(&self) -> &[u8]
        ensures { result.now ≡ self.now.mac }
    {
        &self.mac
    }

    /// What the chunk of this index is bound to.
    pub(crate) fn bound_to(&self, index: u64) -> [u8; BOUND_LENGTH]
        ensures { result ≡ bound_to self.now index }
    {
        let mut bound = [0; BOUND_LENGTH];
        bound[..NONCE_LENGTH].copy_from_slice(&self.nonce);
        bound[NONCE_LENGTH..].copy_from_slice(&index.to_be_bytes());
        bound
    }
}

// What is sealed into a header with this content key.
fn payload(key: &[u8; KEY_LENGTH]) -> [u8; PAYLOAD_LENGTH]
    ensures { result ≡ replicate UNUSED_LENGTH 255 ++ key.now }
{
    let mut payload = [0xFF; PAYLOAD_LENGTH];
    payload[UNUSED_LENGTH..].copy_from_slice(key);
    payload
}

/// A new header: draws a nonce of 16 bytes, then a content key of 32, and returns the header and its
/// 88 bytes. `Failed` is returned if a draw failed; nothing is drawn then, or the nonce alone.
pub fn new_header<E: Entropy>(
    keys: &VaultKeys,
    entropy: &mut E,
) -> Result<(Header, [u8; HEADER_LENGTH]), Failed>
    ensures bytes { IfOk result (λ h. h.1 ≡ sealed_header keys.now h.0) }
    ensures opens { IfOk result (λ h. header_opens keys.now h.1 ≡ Some h.0) }
    ensures drawn { IfOk result (λ h. Changes (E.drawn entropy.old) (E.drawn entropy.new)
        (λ old new. new ≡ old ++ h.0.nonce ++ h.0.key)) }
    ensures lengths { IfOk result (λ h.
        (length h.0.nonce ≡ NONCE_LENGTH) × (length h.0.key ≡ KEY_LENGTH)) }
    ensures partly { OnErr result ((E.drawn entropy.new ≡ E.drawn entropy.old)
        ⊎ Changes (E.drawn entropy.old) (E.drawn entropy.new)
        (λ old new. (nonce : List ℕ) × (length nonce ≡ NONCE_LENGTH) × (new ≡ old ++ nonce))) }
    ensures cause { HasCause (E.faults entropy.old) (E.faults entropy.new) (IsErr result) }
{
    let mut nonce = [0; NONCE_LENGTH];
    entropy.fill(&mut nonce)?;
    let mut key = [0; KEY_LENGTH];
    entropy.fill(&mut key)?;
    let mac = keys.mac_key().bytes();
    let mut bytes = [0; HEADER_LENGTH];
    seal_into(
        keys.encryption_lanes(),
        &mac,
        &[],
        &nonce,
        &payload(&key),
        &mut bytes,
    );
    let header = Header {
        nonce,
        key: BulkKey::new(Key256::new(&key)),
        mac,
    };
    Ok((header, bytes))
}

/// Opens the header in these 88 bytes. It fails if and only if its HMAC isn't the one of its bytes under the
/// MAC key.
pub fn open_header(keys: &VaultKeys, bytes: &[u8; HEADER_LENGTH]) -> Result<Header, Damaged>
    ensures opened { IfOk result (λ h. header_opens keys.now bytes.now ≡ Some h) }
    ensures lengths { IfOk result (λ h.
        (length h.nonce ≡ NONCE_LENGTH) × (length h.key ≡ KEY_LENGTH)) }
    ensures damaged { OnErr result (header_opens keys.now bytes.now ≡ None) }
{
    let mac = keys.mac_key().bytes();
    let mut payload = [0; PAYLOAD_LENGTH];
    open_into(keys.encryption_lanes(), &mac, &[], bytes, &mut payload)?;
    Ok(Header {
        nonce: array_at(bytes, 0),
        key: BulkKey::new(Key256::new(&array_at(&payload, UNUSED_LENGTH))),
        mac,
    })
}
