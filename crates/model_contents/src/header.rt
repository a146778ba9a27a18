ghost use Rattle.std.specs.Prelude.{◌≡◌, ◌≤◌, ◌+◌, IfOk, drop, length, option_map, take};
ghost use Rattle.file_chunks.specs.Header.{header_opens};
ghost use Rattle.model_contents.specs.Seen.{head_seen};

use crate::gcm::gcm_opened;
use file_chunks::{HEADER_LENGTH, NONCE_LENGTH, TAG_LENGTH};
use std::alloc::{AllocError, Global};
use vault_keys::VaultKeys;

const KEY_LENGTH: usize = 32;

// How many bytes are before the content key. They aren't looked at.
const UNUSED_LENGTH: usize = 8;

/// What a header says of its file: its nonce, and the content key.
#[derive(Clone, Copy, Debug, PartialEq, Eq)]
pub struct Head {
    pub nonce: [u8; NONCE_LENGTH],
    pub key: [u8; KEY_LENGTH],
}

/// The N bytes from `at` on.
pub(crate) fn array_at<const N: usize>(bytes: &[u8], at: usize) -> [u8; N]
    requires { at + N ≤ length bytes.now }
    ensures { result ≡ take N (drop at bytes.now) }
{
    let mut part = [0; N];
    part.copy_from_slice(&bytes[at..at + N]);
    part
}

/// The header in these 68 bytes; None if and only if they don't open under the encryption key
/// (vault format 8, file header).
pub fn header_opens(
    alloc: Global,
    keys: &VaultKeys,
    bytes: &[u8; HEADER_LENGTH],
) -> Result<Option<Head>, AllocError>
    ensures { IfOk result (λ head. option_map head_seen head ≡ header_opens keys.now bytes.now) }
{
    let key = keys.encryption_key().bytes();
    let end = HEADER_LENGTH - TAG_LENGTH;
    let nonce = array_at(bytes, 0);
    let ciphertext = &bytes[NONCE_LENGTH..end];
    let opened = gcm_opened(alloc, &key, nonce, &[], ciphertext, array_at(bytes, end))?;
    let Some(payload) = opened else {
        return Ok(None);
    };
    Ok(Some(Head {
        nonce,
        key: array_at(&payload, UNUSED_LENGTH),
    }))
}
