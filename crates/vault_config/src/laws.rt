//! What the definition says of every file.

ghost use Rattle.std.specs.Prelude.{◌≡◌, ◌<◌, ℕ, List, length, Err};
ghost use Rattle.vault_layout.specs.Limits.{key_file_limit};
ghost use Rattle.vault_keys.specs.Keys.{KeyPair};
ghost use Rattle.vault_config.specs.Config.{config_of, too_long};

/// A file of more than `KEY_FILE_LIMIT` bytes is too long, whatever its bytes and the keys are: its length alone decides. It
/// does nothing.
pub fn a_long_file_is_too_long()
    ensures { (keys : KeyPair) (bytes : List ℕ) → key_file_limit < length bytes → config_of keys bytes ≡ Err (too_long (length bytes)) }
{}
