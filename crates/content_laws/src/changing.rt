ghost use Rattle.std.specs.Prelude.{◌≡◌, ◌⊎◌, ◌<◌, ◌≤◌, ◌+◌, ◌-◌, ◌/◌, ◌%◌, ℕ, List, [], ◌∷◌, length, take, replicate, Some, None};
ghost use Rattle.vault_keys.specs.Keys.{KeyPair};
ghost use Rattle.tree_model.specs.Rows.{good, joined};
ghost use Rattle.tree_model.specs.Contents.{written, resized, sealed_chunk};
ghost use Rattle.file_chunks.specs.Header.{Head};
ghost use Rattle.file_chunks.specs.File.{clear_length, content_of};
ghost use Rattle.content_laws.specs.Rewriting.{Rewriting, IsSealed, sealed_size};
ghost use Rattle.content_laws.specs.Laws.{IsOpened, IsUnopened, IsMet, IsWrite, IsRewritten, after_write, cut_by};

use file_chunks::{CHUNK_LENGTH, SEALING_LENGTH};

/// Which sizes a host file of a content's length may have: that of its chunks, none of them empty,
/// and, if they are all full, that with an empty one after them. It does nothing.
pub fn sealed_sizes()
    ensures clear { (n : ℕ) → clear_length (sealed_size n) ≡ Some n }
    ensures sealed { (size n : ℕ) → clear_length size ≡ Some n
        → (size ≡ sealed_size n)
        ⊎ ((n % CHUNK_LENGTH ≡ 0) × (size ≡ sealed_size n + SEALING_LENGTH)) }
{}

/// Nothing is written into a file whose size is none of a content's, or whose header doesn't open,
/// and its length stays. It does nothing.
pub fn unopened_content()
    ensures written { (keys : KeyPair) (bytes input : List ℕ) (at : ℕ) → IsUnopened keys bytes
        → written (content_of keys bytes) at input ≡ None }
    ensures resized { (keys : KeyPair) (bytes : List ℕ) (n : ℕ) → IsUnopened keys bytes
        → resized (content_of keys bytes) n ≡ None }
{}

/// A write of at least one byte is made by sealing the chunks that it meets anew, each of them if
/// its bytes after the write are all there. It does nothing.
pub fn written_content()
    ensures content { (keys : KeyPair) (head : Head) (n : ℕ) (bytes : List ℕ) (at : ℕ) (input : List ℕ)
        (plaintexts : List (List ℕ)) (r : Rewriting)
        → IsOpened keys head n bytes → 0 < length input
        → IsWrite head n (content_of keys bytes) (length bytes) at input plaintexts r
        → IsRewritten keys bytes r (written (content_of keys bytes) at input) }
    ensures damaged { (keys : KeyPair) (head : Head) (n : ℕ) (bytes : List ℕ) (at : ℕ) (input : List ℕ)
        (index : ℕ) → IsOpened keys head n bytes → IsMet n at (length input) index
        → sealed_chunk (after_write (content_of keys bytes) at input) index ≡ None
        → written (content_of keys bytes) at input ≡ None }
{}

/// A content of n bytes is cut to m by cutting the host file, and by sealing the chunk that the cut
/// goes through anew, if what is kept of it is all there. Growth is a write of zeros at the end. It does nothing.
pub fn resized_content()
    ensures border { (keys : KeyPair) (head : Head) (n : ℕ) (bytes : List ℕ) (m : ℕ)
        → IsOpened keys head n bytes → m ≤ n → m % CHUNK_LENGTH ≡ 0
        → IsRewritten keys bytes (cut_by m []) (resized (content_of keys bytes) m) }
    ensures within { (keys : KeyPair) (head : Head) (n : ℕ) (bytes : List ℕ) (m : ℕ)
        (sealed plaintext : List ℕ)
        → IsOpened keys head n bytes → m ≤ n → 0 < m % CHUNK_LENGTH
        → sealed_chunk (take m (joined (content_of keys bytes))) (m / CHUNK_LENGTH)
        ≡ Some (good plaintext)
        → IsSealed head (m / CHUNK_LENGTH) sealed plaintext
        → IsRewritten keys bytes (cut_by m (sealed ∷ [])) (resized (content_of keys bytes) m) }
    ensures damaged { (keys : KeyPair) (head : Head) (n : ℕ) (bytes : List ℕ) (m : ℕ)
        → IsOpened keys head n bytes → m ≤ n → 0 < m % CHUNK_LENGTH
        → sealed_chunk (take m (joined (content_of keys bytes))) (m / CHUNK_LENGTH) ≡ None
        → resized (content_of keys bytes) m ≡ None }
    ensures grown { (keys : KeyPair) (head : Head) (n : ℕ) (bytes : List ℕ) (m : ℕ)
        → IsOpened keys head n bytes → n < m
        → resized (content_of keys bytes) m
        ≡ written (content_of keys bytes) n (replicate (m - n) 0) }
{}
