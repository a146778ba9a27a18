ghost use Rattle.std.specs.Prelude.{◌≡◌};
ghost use Rattle.aes_block.specs.Aes.{aes, inverse_aes};

use aes_block::{BlockKey, Key256};
use aes_kernels::{LaneKey, RoundKeys, encrypted_eight, round_keys};
use std::marker::Model;

// How many blocks are encrypted at a time on planes of bits.
const EIGHT: usize = 8;

// A value of any type. Making a struct with arrays of vectors gets no generated proof, unless the type of that field is a parameter.
#[derive(Drop)]
struct Kept<T: Drop> {
    value: T,
}

#[inline(always)]
fn keep<T: Drop>(value: T) -> Kept<T>
    ensures { result.value ≡ value }
{
    Kept { value }
}

/// An AES key of 32 bytes, made ready for long texts: eight blocks at a time, and the last ones by lanes. Some 2,400 bytes. Clauses see its bytes.
#[derive(Drop)]
pub struct BulkKey {
    lanes: LaneKey,
    planes: Kept<RoundKeys>,
}

impl Model for BulkKey {
    ghost use Rattle.std.specs.Prelude.{ℕ, List};
    ghost use Rattle.aes_kernels.specs.Circuit.{AreRoundKeys};

    ghost Value = { List ℕ };

    ghost view = { λ k. k.lanes };

    ghost invariant = { λ k. AreRoundKeys k.lanes k.planes.value };
}

impl BulkKey {
    /// The same key, made ready.
    pub fn new(key: Key256) -> BulkKey
        ensures { result ≡ key }
    {
        let planes = keep(round_keys(&key));
        BulkKey {
            lanes: LaneKey::new(key),
            planes,
        }
    }
}

impl BlockKey for BulkKey {
    ghost cipher = { λ k block. aes k block };

    ghost inverse_cipher = { λ k block. inverse_aes k block };

    fn encrypt(&self, block: &mut [u8; 16]) {
        self.lanes.encrypt(block);
    }

    fn decrypt(&self, block: &mut [u8; 16]) {
        self.lanes.decrypt(block);
    }

    // Eight at a time, and the last ones by lanes.
    fn encrypt_blocks(&self, blocks: &mut [[u8; 16]]) {
        let groups = blocks.len() / EIGHT;
        for i in 0..groups {
            let at = EIGHT * i;
            let made = encrypted_eight(
                &self.planes.value,
                &[
                    blocks[at],
                    blocks[at + 1],
                    blocks[at + 2],
                    blocks[at + 3],
                    blocks[at + 4],
                    blocks[at + 5],
                    blocks[at + 6],
                    blocks[at + 7],
                ],
            );
            blocks[at] = made[0];
            blocks[at + 1] = made[1];
            blocks[at + 2] = made[2];
            blocks[at + 3] = made[3];
            blocks[at + 4] = made[4];
            blocks[at + 5] = made[5];
            blocks[at + 6] = made[6];
            blocks[at + 7] = made[7];
        }
        self.lanes.encrypt_blocks(&mut blocks[EIGHT * groups..]);
    }

    fn makes_blocks(&self) {
        self.lanes.makes_blocks();
    }
}
