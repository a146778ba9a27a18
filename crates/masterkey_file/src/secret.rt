ghost use Rattle.std.specs.Prelude.{◌≡◌, ◌==◌, ◌&&◌, nat_le, nat_lt, length, Some, None, IfOk, IsErrOf};
ghost use Rattle.std.specs.List.{position};
ghost use Rattle.std.specs.String.{string_bytes};
ghost use Rattle.vault_layout.specs.Limits.{password_limit};
ghost use Rattle.masterkey_file.specs.Password.{line_of, password_of};

use nfc_text::nfc;
use std::alloc::{AllocError, Global};
use std::error::Error;
use std::{fmt, str};
use vault_layout::PASSWORD_LIMIT;

/// Why a secret gives no password.
#[derive(Clone, Copy, Debug, PartialEq, Eq)]
pub enum PasswordErr {
    /// The first line is empty, has more than `PASSWORD_LIMIT` bytes, or isn't UTF-8.
    BadSecret,
    /// Memory ran out, which says nothing of the secret.
    Memory,
}

impl From<AllocError> for PasswordErr {
    ghost use Rattle.std.specs.Prelude.{◌≡◌};
    ghost use Rattle.masterkey_file.specs.declared.secret.PasswordErr.TheVariants.{Memory};

    ghost from_gives = { λ _ e. e ≡ Memory };

    fn from(_: AllocError) -> PasswordErr {
        PasswordErr::Memory
    }
}

impl fmt::Display for PasswordErr {
    ghost use Rattle.std.specs.Prelude.{Some};
    ghost use Rattle.masterkey_file.specs.Password.{secret_text};

    ghost output = { λ e. Some (secret_text e) };

    fn fmt<W: fmt::Write>(&self, f: &mut fmt::Formatter<W>) -> fmt::Result {
        f.write_str(match self {
            PasswordErr::BadSecret => "bad secret",
            PasswordErr::Memory => "out of memory",
        })
    }
}

impl Error for PasswordErr {}

/// The password in a secret: its first line, up to the first LF or the end, which has 1 to
/// `PASSWORD_LIMIT` bytes of UTF-8, in the form NFC (UAX 15). A CR in front of the LF is part of it.
pub fn password(alloc: Global, secret: &[u8]) -> Result<String, PasswordErr>
    ensures password { IfOk result (λ p. password_of secret.now ≡ Some (string_bytes p)) }
    ensures bad { IsErrOf result PasswordErr.BadSecret → password_of secret.now ≡ None }
{
    let line = first_line(secret);
    if !is_of_good_length(line) {
        return Err(PasswordErr::BadSecret);
    }
    let Ok(text) = str::from_utf8(line) else {
        return Err(PasswordErr::BadSecret);
    };
    Ok(nfc(alloc, text)?)
}

// Whether a line isn't empty and has no more bytes than the limit.
fn is_of_good_length(line: &[u8]) -> bool
    ensures { result ≡ (nat_lt 0 (length line.now) && nat_le (length line.now) password_limit) }
{
    !line.is_empty() && line.len() <= PASSWORD_LIMIT
}

// The bytes up to the first LF, or all of them.
fn first_line(bytes: &[u8]) -> &[u8]
    ensures { result.now ≡ line_of bytes.now }
{
    match line_end(bytes) {
        Some(end) => &bytes[..end],
        None => bytes,
    }
}

// Where the first LF is.
fn line_end(bytes: &[u8]) -> Option<usize>
    ensures { result ≡ position (λ b. b == 10) bytes.now }
{
    bytes.iter().position(|b| *b == b'\n')
}
