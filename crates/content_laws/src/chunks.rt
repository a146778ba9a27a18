ghost use Rattle.std.specs.Prelude.{◌≡◌, ◌<◌, ◌≤◌, ◌+◌, ◌-◌, ◌*◌, ◌/◌, ◌%◌, ℕ, List, [], length, take, drop, min, Some, None};
ghost use Rattle.vault_keys.specs.Keys.{KeyPair};
ghost use Rattle.tree_model.specs.Rows.{good, joined};
ghost use Rattle.tree_model.specs.Contents.{sealed_chunk};
ghost use Rattle.file_chunks.specs.Header.{Head};
ghost use Rattle.file_chunks.specs.Chunk.{chunk_opens};
ghost use Rattle.file_chunks.specs.File.{content_of, sealed_at};
ghost use Rattle.content_laws.specs.Laws.{IsOpened, IsPartlyKept, after_write, patched_at};

use file_chunks::CHUNK_LENGTH;

/// What a write makes of the chunk of an index, by that chunk alone: its plaintext, if it opens;
/// nothing, if it begins at the content's end or past it; the write's bytes, if they replace each
/// byte of it, whether or not it opens. It does nothing.
pub fn written_chunk()
    ensures opened { (keys : KeyPair) (head : Head) (n : ℕ) (bytes : List ℕ) (at : ℕ) (input : List ℕ)
        (index : ℕ) (plaintext : List ℕ) → IsOpened keys head n bytes → CHUNK_LENGTH * index < n
        → chunk_opens head index (sealed_at bytes index) ≡ Some plaintext
        → sealed_chunk (after_write (content_of keys bytes) at input) index
        ≡ Some (good (patched_at index plaintext at input)) }
    ensures behind { (keys : KeyPair) (head : Head) (n : ℕ) (bytes : List ℕ) (at : ℕ) (input : List ℕ)
        (index : ℕ) → IsOpened keys head n bytes → n ≤ CHUNK_LENGTH * index
        → sealed_chunk (after_write (content_of keys bytes) at input) index
        ≡ Some (good (patched_at index [] at input)) }
    ensures replaced { (keys : KeyPair) (head : Head) (n : ℕ) (bytes : List ℕ) (at : ℕ) (input : List ℕ)
        (index : ℕ) → IsOpened keys head n bytes → at ≤ CHUNK_LENGTH * index
        → min n (CHUNK_LENGTH * (index + 1)) ≤ at + length input
        → sealed_chunk (after_write (content_of keys bytes) at input) index
        ≡ Some (good (take CHUNK_LENGTH (drop (CHUNK_LENGTH * index - at) input))) }
    ensures damaged { (keys : KeyPair) (head : Head) (n : ℕ) (bytes : List ℕ) (at : ℕ) (input : List ℕ)
        (index : ℕ) → IsOpened keys head n bytes → CHUNK_LENGTH * index < n
        → chunk_opens head index (sealed_at bytes index) ≡ None
        → IsPartlyKept n at (length input) index
        → sealed_chunk (after_write (content_of keys bytes) at input) index ≡ None }
{}

/// What a cut to m bytes keeps of the chunk that it goes through, by that chunk alone. It does
/// nothing.
pub fn cut_chunk()
    ensures opened { (keys : KeyPair) (head : Head) (n : ℕ) (bytes : List ℕ) (m : ℕ)
        (plaintext : List ℕ) → IsOpened keys head n bytes → m ≤ n → 0 < m % CHUNK_LENGTH
        → chunk_opens head (m / CHUNK_LENGTH) (sealed_at bytes (m / CHUNK_LENGTH)) ≡ Some plaintext
        → sealed_chunk (take m (joined (content_of keys bytes))) (m / CHUNK_LENGTH)
        ≡ Some (good (take (m % CHUNK_LENGTH) plaintext)) }
    ensures damaged { (keys : KeyPair) (head : Head) (n : ℕ) (bytes : List ℕ) (m : ℕ)
        → IsOpened keys head n bytes → m ≤ n → 0 < m % CHUNK_LENGTH
        → chunk_opens head (m / CHUNK_LENGTH) (sealed_at bytes (m / CHUNK_LENGTH)) ≡ None
        → sealed_chunk (take m (joined (content_of keys bytes))) (m / CHUNK_LENGTH) ≡ None }
{}
