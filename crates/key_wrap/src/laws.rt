ghost use Rattle.std.specs.Prelude.{◌≡◌, ℕ, List, length, Some};
ghost use Rattle.aes_block.specs.Aes.{aes, inverse_aes};
ghost use Rattle.aes_block.specs.Bytes.{AreBytes};
ghost use Rattle.key_wrap.specs.Wrap.{unwrapped, wrapped};

/// States that unwrapping accepts exactly what wrapping gives, for each key-encryption key and each
/// key of 32 bytes: what was wrapped unwraps to its key, and a key has no second wrapped form. It
/// does nothing.
pub fn unwrapping_is_exact()
    ensures undone { (kek key : List ℕ)
        → length kek ≡ 32 → AreBytes kek → length key ≡ 32 → AreBytes key
        → unwrapped (inverse_aes kek) (wrapped (aes kek) key) ≡ Some key }
    ensures exact { (kek key form : List ℕ)
        → length kek ≡ 32 → AreBytes kek → length form ≡ 40 → AreBytes form
        → unwrapped (inverse_aes kek) form ≡ Some key → form ≡ wrapped (aes kek) key }
{}
