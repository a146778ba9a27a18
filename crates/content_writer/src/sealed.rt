ghost use Rattle.std.specs.Prelude.{◌≡◌, ◌≤◌, ◌<◌, [], length, OnOk, OnErr, IsErr};
ghost use Rattle.outside.specs.Calls.{HasCause};
ghost use Rattle.content_writer.specs.Sealed.{AreFull, chunks_of};
ghost use Rattle.content_writer.specs.Sealing.{IsPushed};

use file_chunks::{CHUNK_LENGTH, Header, SEALED_LENGTH, SEALING_LENGTH, seal_chunk};
use outside::{Entropy, Failed};
use std::alloc::{AllocError, Global};
use std::marker::Model;

/// The most chunks of one change.
pub(crate) const CHUNK_LIMIT: usize = 36;

/// Room for 36 sealed chunks that follow one another, one after the other. Clauses see a list of them.
#[derive(Drop)]
pub(crate) struct SealedChunks {
    bytes: Vec<u8>,
    used: usize,
}

impl Model for SealedChunks {
    ghost use Rattle.std.specs.Prelude.{◌≡◌, ◌≤◌, ◌*◌, ℕ, List, take, vec_len};
    ghost use Rattle.file_chunks.specs.declared.size.TheConstants.{SEALED_LENGTH};
    ghost use Rattle.content_writer.specs.declared.sealed.TheConstants.{CHUNK_LIMIT};
    ghost use Rattle.content_writer.specs.Sealed.{chunks_of};

    ghost Value = { List (List ℕ) };

    ghost view = { λ s. chunks_of SEALED_LENGTH (take s.used s.bytes.items) };

    ghost invariant = { λ s. (vec_len s.bytes ≡ CHUNK_LIMIT * SEALED_LENGTH) × (s.used ≤ CHUNK_LIMIT * SEALED_LENGTH) };
}

impl SealedChunks {
    /// Takes the room.
    pub(crate) fn new(alloc: Global) -> Result<SealedChunks, AllocError> {
        Ok(SealedChunks {
            bytes: vec![in alloc; 0u8; CHUNK_LIMIT * SEALED_LENGTH]?,
            used: 0,
        })
    }

    /// The chunks as they lie.
    pub(crate) fn bytes(&self) -> &[u8]
        ensures { chunks_of SEALED_LENGTH result.now ≡ self.now }
    {
        &self.bytes[..self.used]
    }

    /// Lets them go.
    pub(crate) fn clear(&mut self)
        ensures { self.new ≡ [] }
    {
        self.used = 0;
    }

    /// Seals a plaintext as the chunk of an index after the others, which are full: draws its nonce. After `Failed` nothing is drawn.
    pub(crate) fn push<E: Entropy>(
        &mut self,
        header: &Header,
        index: u64,
        plaintext: &[u8],
        entropy: &mut E,
    ) -> Result<(), Failed>
        requires plaintext { length plaintext.now ≤ CHUNK_LENGTH }
        requires full { AreFull self.old }
        requires room { length self.old < CHUNK_LIMIT }
        ensures pushed { OnOk result (IsPushed header.now index plaintext.now self.old self.new (E.drawn entropy.old) (E.drawn entropy.new)) }
        ensures unspent { OnErr result (E.drawn entropy.new ≡ E.drawn entropy.old) }
        ensures cause { HasCause (E.faults entropy.old) (E.faults entropy.new) (IsErr result) }
    {
        seal_chunk(
            header,
            index,
            plaintext,
            entropy,
            &mut self.bytes[self.used..],
        )?;
        self.used += plaintext.len() + SEALING_LENGTH;
        Ok(())
    }
}
