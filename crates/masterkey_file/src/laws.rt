//! What the definitions say of every secret and every file.

ghost use Rattle.std.specs.Prelude.{◌≡◌, ◌+◌, ◌<◌, ℕ, List, ◌∷◌, ◌++◌, length, take, Err};
ghost use Rattle.vault_layout.specs.Limits.{key_file_limit, password_limit};
ghost use Rattle.masterkey_file.specs.KeyFile.{keys_of, too_long};
ghost use Rattle.masterkey_file.specs.Password.{password_of};

/// A file of more than `KEY_FILE_LIMIT` bytes is too long, whatever its bytes and the password are: its length alone decides. It
/// does nothing.
pub fn a_long_file_is_too_long()
    ensures { (bytes password : List ℕ) → key_file_limit < length bytes → keys_of bytes password ≡ Err (too_long (length bytes)) }
{}

/// A secret's password depends on nothing after its first LF, and on no more than its first `PASSWORD_LIMIT` + 1 bytes. It
/// does nothing.
pub fn a_password_is_in_the_first_line()
    ensures line { (line rest : List ℕ) → password_of (line ++ 10 ∷ rest) ≡ password_of line }
    ensures front { (secret : List ℕ) → password_of (take (password_limit + 1) secret) ≡ password_of secret }
{}
