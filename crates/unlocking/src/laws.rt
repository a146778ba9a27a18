//! What the definition says of every secret and all files.

ghost use Rattle.std.specs.Prelude.{◌≡◌, ◌<◌, ℕ, List, length, None, Err};
ghost use Rattle.vault_layout.specs.Limits.{key_file_limit};
ghost use Rattle.vault_keys.specs.Keys.{KeyPair};
ghost use Rattle.masterkey_file.specs.Password.{password_of};
ghost use Rattle.unlocking.specs.FromFiles.{FoundFile, file, Cause, bad_secret, keys_found, masterkey_opened, vault_opened, unlocked, masterkey_too_long, vault_too_long};

/// A secret without a password is reported, whatever the files are: no file is looked at. It does
/// nothing.
pub fn a_bad_secret_is_told_first()
    ensures { (secret : List ℕ) (masterkey vault : FoundFile) → password_of secret ≡ None → unlocked secret masterkey vault ≡ Err bad_secret }
{}

/// The vault file isn't looked at before the masterkey file opened: until then the answer is the same whatever it is. It does
/// nothing.
pub fn the_vault_file_waits()
    ensures { (secret : List ℕ) (masterkey vault : FoundFile) (cause : Cause)
        → keys_found secret masterkey ≡ Err cause → unlocked secret masterkey vault ≡ Err cause }
{}

/// A file of more than `KEY_FILE_LIMIT` bytes is too long, whatever its bytes are: it needn't be read. It does nothing.
pub fn long_files_are_too_long()
    ensures masterkey { (password bytes : List ℕ) → key_file_limit < length bytes
        → masterkey_opened password (file bytes) ≡ Err (masterkey_too_long (length bytes)) }
    ensures vault { (keys : KeyPair) (bytes : List ℕ) → key_file_limit < length bytes
        → vault_opened keys (file bytes) ≡ Err (vault_too_long (length bytes)) }
{}
