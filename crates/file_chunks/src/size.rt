ghost use Rattle.std.specs.Prelude.{◌≡◌, ◌↔◌, ◌<◌, ◌≤◌, ◌+◌, ◌/◌, ◌^◌, ℕ};
ghost use Rattle.file_chunks.specs.File.{clear_length};
ghost use Rattle.file_chunks.specs.Sizes.{chunk_length, header_length, nonce_length, sealed_length, sealing_length, tag_length};

/// The length of a header in bytes.
pub const HEADER_LENGTH: usize = 68;

/// The length of a full chunk's plaintext in bytes.
pub const CHUNK_LENGTH: usize = 32768;

/// The length of a nonce in bytes.
pub const NONCE_LENGTH: usize = 12;

/// The length of a tag in bytes.
pub const TAG_LENGTH: usize = 16;

/// How many bytes sealing adds to a chunk: its nonce and its tag.
pub const SEALING_LENGTH: usize = NONCE_LENGTH + TAG_LENGTH;

/// The length of a full sealed chunk in bytes.
pub const SEALED_LENGTH: usize = CHUNK_LENGTH + SEALING_LENGTH;

/// The length of the content of a host file of this size, both in bytes; None if and only if
/// no content has it.
pub fn clear_len(size: u64) -> Option<u64>
    ensures { result ≡ clear_length size }
{
    let sealed = size.checked_sub(HEADER_LENGTH as u64)?;
    let last = sealed % SEALED_LENGTH as u64;
    if 0 < last && last < SEALING_LENGTH as u64 {
        return None;
    }
    let chunks = sealed.div_ceil(SEALED_LENGTH as u64);
    Some(sealed - SEALING_LENGTH as u64 * chunks)
}

/// The index of the first chunk that the slice of `count` bytes from `at` on meets, and how many
/// chunks it meets.
pub fn span(at: u64, count: u64) -> (u64, u64)
    requires { at + count < 2 ^ 64 }
    // Exactly the chunks in which some byte of the slice lies.
    ensures chunks { (k : ℕ) → ((result.0 ≤ k) × (k < result.0 + result.1))
        ↔ ((p : ℕ) × (at ≤ p) × (p < at + count) × (p / CHUNK_LENGTH ≡ k)) }
    ensures first { result.0 ≡ at / CHUNK_LENGTH }
{
    let first = at / CHUNK_LENGTH as u64;
    if count == 0 {
        return (first, 0);
    }
    let last = (at + count - 1) / CHUNK_LENGTH as u64;
    (first, last - first + 1)
}

/// The sizes of the code are those of the definitions. It does nothing.
pub fn sizes_are_the_formats()
    ensures header { HEADER_LENGTH ≡ header_length }
    ensures chunk { CHUNK_LENGTH ≡ chunk_length }
    ensures nonce { NONCE_LENGTH ≡ nonce_length }
    ensures tag { TAG_LENGTH ≡ tag_length }
    ensures sealing { SEALING_LENGTH ≡ sealing_length }
    ensures sealed { SEALED_LENGTH ≡ sealed_length }
{}
