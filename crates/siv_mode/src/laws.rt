ghost use Rattle.std.specs.Prelude.{◌≡◌, ◌↔◌, ◌+◌, ℕ, List, length, Option, Some};
ghost use Rattle.aes_block.specs.Aes.{aes};
ghost use Rattle.aes_block.specs.Bytes.{AreBytes};
ghost use Rattle.siv_mode.specs.Siv.{siv_sealed, siv_opened};

use aes_block::BlockKey;
use vault_keys::VaultKeys;

/// States what sealing and opening (RFC 5297, 2.6 and 2.7) under a vault's keys come to: a sealed
/// text has 16 bytes more than its text, sealing bytes gives bytes, and opening accepts exactly
/// what sealing gives. It does nothing.
pub fn opening_is_exact(keys: &VaultKeys)
    ensures long { (ad : Option (List ℕ)) (text : List ℕ)
        → length (siv_sealed (aes keys.now.mac) (aes keys.now.enc) ad text) ≡ length text + 16 }
    ensures bytes { (ad : Option (List ℕ)) (text : List ℕ) → AreBytes text
        → AreBytes (siv_sealed (aes keys.now.mac) (aes keys.now.enc) ad text) }
    ensures exact { (ad : Option (List ℕ)) (sealed text : List ℕ)
        → (siv_opened (aes keys.now.mac) (aes keys.now.enc) ad sealed ≡ Some text)
        ↔ (sealed ≡ siv_sealed (aes keys.now.mac) (aes keys.now.enc) ad text) }
{
    keys.mac_key().makes_blocks();
    keys.encryption_key().makes_blocks();
}
