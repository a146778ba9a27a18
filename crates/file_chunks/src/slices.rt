ghost use Rattle.std.specs.Prelude.{◌≡◌, ◌↔◌, ◌⊎◌, ◌<◌, ◌≤◌, ◌+◌, ◌-◌, ◌*◌, ◌/◌, ◌%◌, ℕ, List, [], ◌++◌, length, take, drop, min, Some, None};
ghost use Rattle.std.specs.Option.{is_some, option_map, option_and_then};
ghost use Rattle.vault_keys.specs.Keys.{KeyPair};
ghost use Rattle.tree_model.specs.Rows.{Cell, Content, bad_size, chunks, content_length, slice_of};
ghost use Rattle.file_chunks.specs.Header.{Head, header_opens};
ghost use Rattle.file_chunks.specs.Chunk.{chunk_opens};
ghost use Rattle.file_chunks.specs.File.{IsKey, KeepsLength, clear_length, content_of, sealed_at};

use crate::size::{CHUNK_LENGTH, HEADER_LENGTH, SEALING_LENGTH};

/// A law of the content of host files, for each pair of keys, all bytes of a file and each slice:
/// which sizes are bad, how long the content is, and which bytes of which chunk the slice has. A
/// slice past its first chunk is two, one after the other. It does nothing.
pub fn reads_are_slices()
    // What GCM opens under AES-256 is as long as its ciphertext.
    ensures keeps { KeepsLength }
    ensures bad { (keys : KeyPair) (bytes : List ℕ)
        → (clear_length (length bytes) ≡ None) ↔ (content_of keys bytes ≡ bad_size) }
    ensures good { (keys : KeyPair) (bytes : List ℕ) (n : ℕ) → clear_length (length bytes) ≡ Some n
        → (cells : List Cell)
        × (content_of keys bytes ≡ chunks (is_some (header_opens keys (take HEADER_LENGTH bytes))) cells) }
    ensures len { (keys : KeyPair) (bytes : List ℕ) (n : ℕ) → IsKey keys.enc
        → clear_length (length bytes) ≡ Some n
        → content_length (content_of keys bytes) ≡ n }

    // A slice without a byte of the content.
    ensures empty { (keys : KeyPair) (bytes : List ℕ) (n at count : ℕ) → IsKey keys.enc
        → clear_length (length bytes) ≡ Some n
        → (n ≤ at) ⊎ (count ≡ 0) → slice_of (content_of keys bytes) at count ≡ Some [] }

    // The chunk of each byte is there, sealed.
    ensures sealed { (bytes : List ℕ) (n at : ℕ) → clear_length (length bytes) ≡ Some n → at < n
        → length (sealed_at bytes (at / CHUNK_LENGTH))
        ≡ min CHUNK_LENGTH (n - CHUNK_LENGTH * (at / CHUNK_LENGTH)) + SEALING_LENGTH }

    // The header doesn't open, or the chunk doesn't.
    ensures closed { (keys : KeyPair) (bytes : List ℕ) (n at count : ℕ) → IsKey keys.enc
        → clear_length (length bytes) ≡ Some n
        → at < n → 0 < count → header_opens keys (take HEADER_LENGTH bytes) ≡ None
        → slice_of (content_of keys bytes) at count ≡ None }
    ensures damaged { (keys : KeyPair) (bytes : List ℕ) (n at count : ℕ) (head : Head)
        → IsKey keys.enc → clear_length (length bytes) ≡ Some n
        → at < n → 0 < count → header_opens keys (take HEADER_LENGTH bytes) ≡ Some head
        → chunk_opens head (at / CHUNK_LENGTH) (sealed_at bytes (at / CHUNK_LENGTH)) ≡ None
        → slice_of (content_of keys bytes) at count ≡ None }

    // The chunk opens, and the slice goes no further, or the content doesn't.
    ensures opened { (keys : KeyPair) (bytes : List ℕ) (n at count : ℕ) (head : Head)
        (plaintext : List ℕ) → IsKey keys.enc
        → clear_length (length bytes) ≡ Some n → at < n
        → header_opens keys (take HEADER_LENGTH bytes) ≡ Some head
        → chunk_opens head (at / CHUNK_LENGTH) (sealed_at bytes (at / CHUNK_LENGTH))
        ≡ Some plaintext
        → (at % CHUNK_LENGTH + count ≤ CHUNK_LENGTH) ⊎ (n ≤ CHUNK_LENGTH * (at / CHUNK_LENGTH + 1))
        → slice_of (content_of keys bytes) at count
        ≡ Some (take count (drop (at % CHUNK_LENGTH) plaintext)) }

    // Two slices, one after the other, are one.
    ensures joined { (content : Content) (at first second : ℕ)
        → slice_of content at (first + second)
        ≡ option_and_then
        (λ front. option_map (λ back. front ++ back) (slice_of content (at + first) second))
        (slice_of content at first) }
{}
