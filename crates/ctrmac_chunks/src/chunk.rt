ghost use Rattle.std.specs.Prelude.{◌≡◌, ◌≤◌, ◌+◌, ◌-◌, ◌++◌, length, take, drop, replicate, Some, None, IfOk, OnOk, OnErr, IsErr};
ghost use Rattle.outside.specs.Calls.{HasCause, Changes};
ghost use Rattle.ctrmac_chunks.specs.Chunk.{chunk_opens, sealed_chunk};

use crate::envelope::{Damaged, open_into, seal_into};
use crate::header::Header;
use crate::size::{CHUNK_LENGTH, NONCE_LENGTH, SEALED_LENGTH, SEALING_LENGTH};
use outside::{Entropy, Failed};

/// Seals the chunk of an index, at most 32,768 bytes, into the front of `out`: draws a nonce of 16
/// bytes. `out` keeps the rest. After `Failed`, which is returned if the draw failed, nothing is
/// drawn and `out` is as it was.
pub fn seal_chunk<E: Entropy>(
    header: &Header,
    index: u64,
    plaintext: &[u8],
    entropy: &mut E,
    out: &mut [u8],
) -> Result<(), Failed>
    requires plaintext { length plaintext.now ≤ CHUNK_LENGTH }
    requires room { length plaintext.now + SEALING_LENGTH ≤ length out.old }
    ensures sealed { OnOk result (out.new
        ≡ sealed_chunk header.now index (take NONCE_LENGTH out.new) plaintext.now
        ++ drop (length plaintext.now + SEALING_LENGTH) out.old) }
    ensures opens { OnOk result (
        chunk_opens header.now index (take (length plaintext.now + SEALING_LENGTH) out.new)
        ≡ Some plaintext.now) }
    ensures drawn { OnOk result (Changes (E.drawn entropy.old) (E.drawn entropy.new)
        (λ old new. new ≡ old ++ take NONCE_LENGTH out.new)) }
    ensures refused { OnErr result (out.new ≡ out.old) }
    ensures unspent { OnErr result (E.drawn entropy.new ≡ E.drawn entropy.old) }
    ensures cause { HasCause (E.faults entropy.old) (E.faults entropy.new) (IsErr result) }
{
    let mut nonce = [0; NONCE_LENGTH];
    entropy.fill(&mut nonce)?;
    let bound = header.bound_to(index);
    seal_into(
        header.key(),
        header.mac_key(),
        &bound,
        &nonce,
        plaintext,
        out,
    );
    Ok(())
}

/// Opens the chunk of an index, of at most 32,816 sealed bytes, into the front of `out`, which keeps
/// the rest, and returns the plaintext's length in bytes. It fails if and only if the chunk has less
/// than 48 bytes or its HMAC isn't the one for this header and index; the front holds zeros then.
pub fn open_chunk(
    header: &Header,
    index: u64,
    sealed: &[u8],
    out: &mut [u8],
) -> Result<usize, Damaged>
    requires sealed { length sealed.now ≤ SEALED_LENGTH }
    requires room { length sealed.now ≤ length out.old + SEALING_LENGTH }
    ensures count { IfOk result (λ n. n + SEALING_LENGTH ≡ length sealed.now) }
    ensures opened { IfOk result (λ n. chunk_opens header.now index sealed.now
        ≡ Some (take n out.new)) }
    ensures rest { drop (length sealed.now - SEALING_LENGTH) out.new
        ≡ drop (length sealed.now - SEALING_LENGTH) out.old }
    ensures damaged { OnErr result (chunk_opens header.now index sealed.now ≡ None) }
    ensures zeros { OnErr result (take (length sealed.now - SEALING_LENGTH) out.new
        ≡ replicate (length sealed.now - SEALING_LENGTH) 0) }
{
    if sealed.len() < SEALING_LENGTH {
        return Err(Damaged);
    }
    let count = sealed.len() - SEALING_LENGTH;
    let bound = header.bound_to(index);
    open_into(
        header.key(),
        header.mac_key(),
        &bound,
        sealed,
        &mut out[..count],
    )?;
    Ok(count)
}
