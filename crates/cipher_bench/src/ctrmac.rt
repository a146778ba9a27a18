// Chunks of content files under SIV_CTRMAC.

use crate::words::{BenchErr, length, number, word};
use ctrmac_chunks::{CHUNK_LENGTH, Header, SEALING_LENGTH, new_header, open_chunk, seal_chunk};
use outside::{Entropy, Failed};
use std::alloc::Global;
use vault_keys::VaultKeys;

/// How many words it has: what (`seal` or `open`), the chunk's bytes, and how many times.
pub(crate) const WORDS: usize = 3;

const KEY: &[u8; 32] = b"0123456789abcdef0123456789abcdef";

// Random bytes that count up.
#[derive(Drop)]
struct Counter {
    next: u8,
}

impl Entropy for Counter {
    ghost use Rattle.std.specs.Prelude.{None};

    ghost drawn = { λ _. None };

    ghost faults = { λ _. 0 };

    fn fill(&mut self, out: &mut [u8]) -> Result<(), Failed> {
        for byte in out.iter_mut() {
            *byte = self.next;
            self.next = self.next.wrapping_add(1);
        }
        Ok(())
    }
}

// Seals a text so many times, and then opens it so many times.
fn timed(
    header: &Header,
    text: &mut [u8],
    sealed: &mut [u8],
    seals: u64,
    opens: u64,
) -> Result<(), BenchErr> {
    if text.len() > CHUNK_LENGTH || sealed.len() != text.len() + SEALING_LENGTH {
        return Err(BenchErr::Words);
    }
    let mut entropy = Counter { next: 0 };
    for _seal in 0..seals {
        seal_chunk(header, 7, text, &mut entropy, sealed)?;
    }
    for _open in 0..opens {
        open_chunk(header, 7, sealed, text)?;
    }
    Ok(())
}

/// The last 16 bytes of the HMAC, in hexadecimal digits.
pub(crate) fn measured(alloc: Global, words: &[String]) -> Result<String, BenchErr> {
    let what = word(words, 0)?;
    let len = length(words, 1)?;
    let repetitions = number(words, 2)?;
    let (seals, opens) = match what {
        "seal" => (repetitions, 0),
        "open" => (1, repetitions),
        _ => return Err(BenchErr::Words),
    };
    let mut text = vec![in alloc; 0u8; len]?;
    let mut sealed = vec![in alloc; 0u8; len + SEALING_LENGTH]?;
    let keys = VaultKeys::new(KEY, KEY);
    let (header, _bytes) = new_header(&keys, &mut Counter { next: 0 })?;
    timed(
        &header,
        text.as_mut_slice(),
        sealed.as_mut_slice(),
        seals,
        opens,
    )?;
    let mut end = [0; 16];
    end.copy_from_slice(&sealed[len + SEALING_LENGTH - 16..]);
    Ok(format!(in alloc; "{:032x}", u128::from_be_bytes(end))?)
}
