// What headers and chunks share: a nonce of 12 bytes, a ciphertext under GCM, and its tag of 16.
ghost use Rattle.std.specs.Prelude.{◌≡◌, ◌≤◌, ◌+◌, ◌++◌, length, take, drop, replicate, Some, None, OnOk, OnErr};
ghost use Rattle.file_chunks.specs.Envelope.{envelope_opens, sealed_envelope};

use crate::size::{NONCE_LENGTH, SEALING_LENGTH, TAG_LENGTH};
use gcm_mode::{BadTag, GcmCipher};
use thiserror::Error;

/// A header or chunk whose tag isn't the one of its bytes.
#[derive(Clone, Copy, Debug, PartialEq, Eq, Error)]
#[error("the tag differs")]
pub struct Damaged;

/// The N bytes from `at` on.
pub(crate) fn array_at<const N: usize>(bytes: &[u8], at: usize) -> [u8; N]
    requires { at + N ≤ length bytes.now }
    ensures { result ≡ take N (drop at bytes.now) }
{
    let mut part = [0; N];
    part.copy_from_slice(&bytes[at..at + N]);
    part
}

/// Seals a plaintext under a nonce into the front of `out`, which keeps the rest.
pub(crate) fn seal_into<K: GcmCipher>(
    key: &K,
    nonce: &[u8; NONCE_LENGTH],
    ad: &[u8],
    plaintext: &[u8],
    out: &mut [u8],
)
    requires { length plaintext.now + SEALING_LENGTH ≤ length out.old }
    ensures sealed { out.new ≡ sealed_envelope (K.key key.now) ad.now nonce.now plaintext.now
        ++ drop (length plaintext.now + SEALING_LENGTH) out.old }
    ensures nonce { take NONCE_LENGTH out.new ≡ nonce.now }
    ensures opens { envelope_opens (K.key key.now) ad.now (take (length plaintext.now + SEALING_LENGTH) out.new)
        ≡ Some plaintext.now }
{
    let end = NONCE_LENGTH + plaintext.len();
    out[..NONCE_LENGTH].copy_from_slice(nonce);
    out[NONCE_LENGTH..end].copy_from_slice(plaintext);
    let tag = key.seal_in_place(nonce, ad, &mut out[NONCE_LENGTH..end]);
    out[end..end + TAG_LENGTH].copy_from_slice(&tag);
}

/// Opens a nonce, a ciphertext and a tag. After `Damaged`, `out` holds zeros.
pub(crate) fn open_into<K: GcmCipher>(
    key: &K,
    ad: &[u8],
    sealed: &[u8],
    out: &mut [u8],
) -> Result<(), Damaged>
    requires { length sealed.now ≡ length out.old + SEALING_LENGTH }
    ensures opened { OnOk result (envelope_opens (K.key key.now) ad.now sealed.now ≡ Some out.new) }
    ensures damaged { OnErr result (envelope_opens (K.key key.now) ad.now sealed.now ≡ None) }
    ensures zeros { OnErr result (out.new ≡ replicate (length out.old) 0) }
{
    let end = NONCE_LENGTH + out.len();
    let nonce = array_at(sealed, 0);
    let tag = array_at(sealed, end);
    out.copy_from_slice(&sealed[NONCE_LENGTH..end]);
    match key.open_in_place(&nonce, ad, out, &tag) {
        Ok(()) => Ok(()),
        Err(BadTag) => {
            out.fill(0);
            Err(Damaged)
        }
    }
}
