// What headers and chunks share: a nonce of 16 bytes, a ciphertext under AES in counter mode, and their HMAC of 32.
ghost use Rattle.std.specs.Prelude.{◌≡◌, ◌≤◌, ◌+◌, ◌++◌, length, take, drop, replicate, Some, None, OnOk, OnErr};
ghost use Rattle.ctrmac_chunks.specs.Envelope.{envelope_opens, sealed_envelope};

use crate::size::{NONCE_LENGTH, SEALING_LENGTH, TAG_LENGTH};
use aes_block::{BlockKey, bytes_equal};
use ctr_mode::apply_keystream;
use hmac_sha::hmac256_of_pieces;
use thiserror::Error;

/// A header or chunk whose HMAC isn't the one of its bytes.
#[derive(Clone, Copy, Debug, PartialEq, Eq, Error)]
#[error("the HMAC differs")]
pub struct Damaged;

/// The N bytes from `at` on.
pub(crate) fn array_at<const N: usize>(bytes: &[u8], at: usize) -> [u8; N]
    requires { at + N ≤ length bytes.now }
    ensures { result ≡ take N (drop at bytes.now) }
{
    let mut part = [0; N];
    part.copy_from_slice(&bytes[at..at + N]);
    part
}

/// Seals a plaintext under a nonce into the front of `out`, which keeps the rest. The HMAC is of `bound` too.
pub(crate) fn seal_into<K: BlockKey>(
    key: &K,
    mac: &[u8],
    bound: &[u8],
    nonce: &[u8; NONCE_LENGTH],
    plaintext: &[u8],
    out: &mut [u8],
)
    requires { length plaintext.now + SEALING_LENGTH ≤ length out.old }
    ensures sealed { out.new ≡ sealed_envelope (K.cipher key.now) mac.now bound.now nonce.now plaintext.now
        ++ drop (length plaintext.now + SEALING_LENGTH) out.old }
    ensures nonce { take NONCE_LENGTH out.new ≡ nonce.now }
    ensures opens { envelope_opens (K.cipher key.now) mac.now bound.now (take (length plaintext.now + SEALING_LENGTH) out.new)
        ≡ Some plaintext.now }
{
    key.makes_blocks();
    let end = NONCE_LENGTH + plaintext.len();
    out[..NONCE_LENGTH].copy_from_slice(nonce);
    out[NONCE_LENGTH..end].copy_from_slice(plaintext);
    apply_keystream(
        key,
        u128::from_be_bytes(*nonce),
        &mut out[NONCE_LENGTH..end],
    );
    let tag = hmac256_of_pieces(mac, bound, &out[..end]);
    out[end..end + TAG_LENGTH].copy_from_slice(&tag);
}

/// Opens a nonce, a ciphertext and an HMAC, which is of `bound` too. After `Damaged`, `out` holds zeros.
pub(crate) fn open_into<K: BlockKey>(
    key: &K,
    mac: &[u8],
    bound: &[u8],
    sealed: &[u8],
    out: &mut [u8],
) -> Result<(), Damaged>
    requires { length sealed.now ≡ length out.old + SEALING_LENGTH }
    ensures opened { OnOk result (envelope_opens (K.cipher key.now) mac.now bound.now sealed.now ≡ Some out.new) }
    ensures damaged { OnErr result (envelope_opens (K.cipher key.now) mac.now bound.now sealed.now ≡ None) }
    ensures zeros { OnErr result (out.new ≡ replicate (length out.old) 0) }
{
    let end = NONCE_LENGTH + out.len();
    let tag = hmac256_of_pieces(mac, bound, &sealed[..end]);
    if !bytes_equal(&tag, &sealed[end..]) {
        out.fill(0);
        return Err(Damaged);
    }
    out.copy_from_slice(&sealed[NONCE_LENGTH..end]);
    apply_keystream(key, u128::from_be_bytes(array_at(sealed, 0)), out);
    Ok(())
}
