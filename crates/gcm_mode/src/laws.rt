ghost use Rattle.std.specs.Prelude.{◌≡◌, ◌↔◌, ℕ, List, ◌++◌, length, take, drop, Some};
ghost use Rattle.aes_block.specs.Bytes.{MakesBlocks};
ghost use Rattle.gcm_mode.specs.Gcm.{gcm_opened, gcm_sealed};

/// Opening what was sealed (SP 800-38D, 7.1 and 7.2) gives the text, and a ciphertext with a tag is
/// accepted if and only if sealing its text gives both, for each cipher that makes blocks.
/// It does nothing.
pub fn sealing_and_opening_agree()
    ensures opens { (cipher : List ℕ → List ℕ) (nonce ad text : List ℕ) → MakesBlocks cipher
        → gcm_opened cipher nonce ad (take (length text) (gcm_sealed cipher nonce ad text))
        (drop (length text) (gcm_sealed cipher nonce ad text)) ≡ Some text }
    ensures exact { (cipher : List ℕ → List ℕ) (nonce ad ciphertext tag text : List ℕ)
        → MakesBlocks cipher → length tag ≡ 16
        → (gcm_opened cipher nonce ad ciphertext tag ≡ Some text)
        ↔ (ciphertext ++ tag ≡ gcm_sealed cipher nonce ad text) }
{}
