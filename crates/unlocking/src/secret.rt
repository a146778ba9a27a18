ghost use Rattle.std.specs.Prelude.{◌≡◌, ◌+◌, ◌<◌, ◌≤◌, length, take, drop, Some, None, IfOk, OnOk, OnErr, IsErr, IsErrOf};
ghost use Rattle.outside.specs.Calls.{HasCause, Told, Changes};
ghost use Rattle.std.specs.String.{string_bytes};
ghost use Rattle.masterkey_file.specs.Password.{line_of, password_of};
ghost use Rattle.vault_layout.specs.Limits.{password_limit};
ghost use Rattle.unlocking.specs.Secret.{raw_keys, IsAfterLine, TakesAtMost};
ghost use Rattle.unlocking.specs.Reading.{HasLine, HasNext};

use masterkey_file::{PasswordErr, password};
use outside::{Failed, Source};
use std::alloc::Global;
use thiserror::Error;
use vault_keys::VaultKeys;
use vault_layout::PASSWORD_LIMIT;

// How many digits the line has, and how many bytes a key.
const DIGITS: usize = 128;

const KEY_LEN: usize = 32;

/// Why the secret gives neither keys nor a password.
#[derive(Clone, Copy, Debug, PartialEq, Eq, Error)]
pub enum SecretErr {
    /// The source failed: its count of faults rose.
    #[error("the secret's source failed")]
    Device,
    /// The line isn't 128 hexadecimal digits, if keys are wanted; if a password is, it hasn't 1 to 1,024 bytes of UTF-8.
    #[error("bad secret")]
    Bad,
    /// Memory ran out.
    #[error("out of memory")]
    Memory,
}

impl From<Failed> for SecretErr {
    ghost use Rattle.std.specs.Prelude.{◌≡◌};
    ghost use Rattle.unlocking.specs.declared.secret.SecretErr.TheVariants.{Device};

    ghost from_gives = { λ _ e. e ≡ Device };

    fn from(_: Failed) -> SecretErr {
        SecretErr::Device
    }
}

impl From<PasswordErr> for SecretErr {
    ghost use Rattle.std.specs.Prelude.{◌≡◌};
    ghost use Rattle.unlocking.specs.Refusals.{of_password};

    ghost from_gives = { λ error gives. gives ≡ of_password error };

    fn from(error: PasswordErr) -> SecretErr {
        match error {
            PasswordErr::BadSecret => SecretErr::Bad,
            PasswordErr::Memory => SecretErr::Memory,
        }
    }
}

/// Reads the password from the first line of the secret: 1 to 1,024 bytes of UTF-8, which are put in the form NFC. It reads one byte at a
/// time, so that the bytes after the line's LF stay unread.
pub fn read_password<S: Source>(alloc: Global, secret: &mut S) -> Result<String, SecretErr>
    ensures password { IfOk result (λ p. Told (S.left secret.old) (λ bytes. password_of bytes ≡ Some (string_bytes p))) }
    ensures left { OnOk result (Changes (S.left secret.old) (S.left secret.new) IsAfterLine) }
    ensures bad { IsErrOf result SecretErr.Bad → Told (S.left secret.old) (λ bytes. password_of bytes ≡ None) }
    ensures begun { Changes (S.left secret.old) (S.left secret.new) (TakesAtMost (password_limit + 1)) }
    ensures cause { HasCause (S.faults secret.old) (S.faults secret.new) (IsErrOf result SecretErr.Device) }
{
    let mut line = [0u8; PASSWORD_LIMIT];
    let count = read_line(secret, &mut line)?;
    Ok(password(alloc, &line[..count])?)
}

/// Reads the keys from the first line of the secret, which holds 128 hexadecimal digits: the encryption key and then the MAC key. It reads
/// one byte at a time, so that the bytes after the line's LF stay unread.
pub fn read_keys<S: Source>(secret: &mut S) -> Result<VaultKeys, SecretErr>
    ensures keys { IfOk result (λ keys. Told (S.left secret.old) (λ bytes. raw_keys (line_of bytes) ≡ Some keys)) }
    ensures left { OnOk result (Changes (S.left secret.old) (S.left secret.new) IsAfterLine) }
    ensures bad { IsErrOf result SecretErr.Bad → Told (S.left secret.old) (λ bytes. raw_keys (line_of bytes) ≡ None) }
    ensures begun { OnErr result (Changes (S.left secret.old) (S.left secret.new) (TakesAtMost (DIGITS + 1))) }
    ensures cause { HasCause (S.faults secret.old) (S.faults secret.new) (IsErrOf result SecretErr.Device) }
{
    let mut line = [0u8; DIGITS];
    let count = read_line(secret, &mut line)?;
    match decode_keys(&line[..count]) {
        Some(keys) => Ok(keys),
        None => Err(SecretErr::Bad),
    }
}

// Reads a line of at most as many bytes as `line` has room for into its front, and returns their number. It takes the line's LF, or its
// first byte too many, and none after it.
fn read_line<S: Source>(secret: &mut S, line: &mut [u8]) -> Result<usize, SecretErr>
    ensures count { IfOk result (λ count. count ≤ length line.old) }
    ensures line { IfOk result (λ count. Changes (S.left secret.old) (S.left secret.new) (HasLine (take count line.new))) }
    ensures long { IsErrOf result SecretErr.Bad → Told (S.left secret.old) (λ bytes. length line.old < length (line_of bytes)) }
    ensures begun { OnErr result (Changes (S.left secret.old) (S.left secret.new) (TakesAtMost (length line.old + 1))) }
    ensures cause { HasCause (S.faults secret.old) (S.faults secret.new) (IsErrOf result SecretErr.Device) }
{
    let mut count = 0;
    loop {
        match next_byte(secret) {
            Ok(None) => return Ok(count),
            Ok(Some(b'\n')) => return Ok(count),
            Ok(Some(_)) if count == line.len() => return Err(SecretErr::Bad),
            Ok(Some(byte)) => {
                line[count] = byte;
                count += 1;
            }
            Err(failed) => return Err(SecretErr::from(failed)),
        }
    }
}

// The next byte, or None at the end.
fn next_byte<S: Source>(secret: &mut S) -> Result<Option<u8>, Failed>
    ensures byte { IfOk result (λ byte. Changes (S.left secret.old) (S.left secret.new) (HasNext byte)) }
    ensures failed { OnErr result (S.left secret.new ≡ S.left secret.old) }
    ensures cause { HasCause (S.faults secret.old) (S.faults secret.new) (IsErr result) }
{
    let mut byte = [0u8; 1];
    match secret.read(&mut byte)? {
        0 => Ok(None),
        _ => Ok(Some(byte[0])),
    }
}

// The keys that a line spells, if it is 128 hexadecimal digits.
fn decode_keys(line: &[u8]) -> Option<VaultKeys>
    ensures { result ≡ raw_keys line.now }
{
    let mut keys = [0u8; DIGITS / 2];
    if hex::decode_to_slice(line, &mut keys).is_err() {
        return None;
    }
    Some(keys_in(&keys))
}

// The encryption key and then the MAC key.
fn keys_in(bytes: &[u8; DIGITS / 2]) -> VaultKeys
    ensures enc { result.enc ≡ take 32 bytes.now }
    ensures mac { result.mac ≡ drop 32 bytes.now }
{
    let (enc, mac) = bytes.split_at(KEY_LEN);
    VaultKeys::new(&key(enc), &key(mac))
}

fn key(bytes: &[u8]) -> [u8; KEY_LEN]
    requires { length bytes.now ≡ 32 }
    ensures { result ≡ bytes.now }
{
    let mut key = [0u8; KEY_LEN];
    key.copy_from_slice(bytes);
    key
}
