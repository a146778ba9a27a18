ghost use Rattle.std.specs.Prelude.{◌≡◌};
ghost use Rattle.ctrmac_chunks.specs.Sizes.{chunk_length, header_length, nonce_length, sealed_length, sealing_length, tag_length};

/// The length of a header in bytes.
pub const HEADER_LENGTH: usize = 88;

/// The length of a full chunk's plaintext in bytes.
pub const CHUNK_LENGTH: usize = 32768;

/// The length of a nonce in bytes.
pub const NONCE_LENGTH: usize = 16;

/// The length of an HMAC in bytes.
pub const TAG_LENGTH: usize = 32;

/// How many bytes sealing adds to a chunk: its nonce and its HMAC.
pub const SEALING_LENGTH: usize = NONCE_LENGTH + TAG_LENGTH;

/// The length of a full sealed chunk in bytes.
pub const SEALED_LENGTH: usize = CHUNK_LENGTH + SEALING_LENGTH;

/// The sizes of the code are those of the definitions. It does nothing.
pub fn sizes_are_the_formats()
    ensures header { HEADER_LENGTH ≡ header_length }
    ensures chunk { CHUNK_LENGTH ≡ chunk_length }
    ensures nonce { NONCE_LENGTH ≡ nonce_length }
    ensures tag { TAG_LENGTH ≡ tag_length }
    ensures sealing { SEALING_LENGTH ≡ sealing_length }
    ensures sealed { SEALED_LENGTH ≡ sealed_length }
{}
