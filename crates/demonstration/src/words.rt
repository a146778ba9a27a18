//! The random words of a demonstration.

ghost use Rattle.std.specs.Prelude.{◌≡◌};
ghost use Rattle.demonstration.specs.Words as words;

/// The 32 bytes that a stream of random words begins from.
#[tactic(auto, unfolding(crate::specs::Words::stream_seed))]
pub fn stream_seed(seed: u64, stream: u64) -> [u8; 32]
    ensures { result ≡ words.stream_seed seed stream }
{
    let mut bytes = [0; 32];
    bytes[..8].copy_from_slice(&seed.to_be_bytes());
    bytes[8..16].copy_from_slice(&stream.to_be_bytes());
    bytes
}
