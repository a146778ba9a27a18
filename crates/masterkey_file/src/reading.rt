ghost use Rattle.std.specs.Prelude.{◌≡◌, true, Ok, IfOk, IfErr, MatchResult};
ghost use Rattle.masterkey_file.specs.KeyFile.{is_good_cost, keys_in, keys_of, name_of, unwrapped_keys, wrapping_key};
ghost use Rattle.masterkey_file.specs.Faults.{IsFault, field_of};
ghost use Rattle.masterkey_file.specs.Steps.{IsCostFault, fields_data};

use crate::fields::{Fields, read_fields};
use json_members::ObjectErr;
use key_wrap::unwrap;
use scrypt_kdf::{ScryptErr, scrypt};
use std::alloc::{AllocError, Global};
use std::error::Error;
use std::fmt;
use vault_keys::VaultKeys;

/// A member of the masterkey file. It is shown as the name in JSON.
#[derive(Clone, Copy, Debug, PartialEq, Eq)]
pub enum FieldName {
    /// scrypt's salt.
    ScryptSalt,
    /// scrypt's cost, N.
    ScryptCostParam,
    /// scrypt's block size, r.
    ScryptBlockSize,
    /// The wrapped encryption key.
    PrimaryMasterKey,
    /// The wrapped MAC key.
    HmacMasterKey,
}

impl FieldName {
    /// The name in JSON.
    pub(crate) fn json_name(self) -> &'static str
        ensures { result.now ≡ name_of (field_of self) }
    {
        match self {
            FieldName::ScryptSalt => "scryptSalt",
            FieldName::ScryptCostParam => "scryptCostParam",
            FieldName::ScryptBlockSize => "scryptBlockSize",
            FieldName::PrimaryMasterKey => "primaryMasterKey",
            FieldName::HmacMasterKey => "hmacMasterKey",
        }
    }
}

impl fmt::Display for FieldName {
    ghost use Rattle.std.specs.Prelude.{Some};
    ghost use Rattle.masterkey_file.specs.KeyFile.{name_of};
    ghost use Rattle.masterkey_file.specs.Faults.{field_of};

    ghost output = { λ name. Some (name_of (field_of name)) };

    fn fmt<W: fmt::Write>(&self, f: &mut fmt::Formatter<W>) -> fmt::Result {
        f.write_str(self.json_name())
    }
}

/// Why no keys are read from a masterkey file. The tests are made in this order, those of the members in the order of
/// `FieldName`.
#[derive(Clone, Copy, Debug, PartialEq, Eq)]
pub enum KeyFileErr {
    /// The file has more than 65,536 bytes: this many.
    TooLong(usize),
    /// The file is no JSON object (RFC 8259) in UTF-8, or nests more than 127 deep, or has a number past binary64 or an unpaired
    /// surrogate somewhere.
    NotJson,
    /// This member is absent or of another kind: the cost and the block size are integers from 0 to 2^64 - 1 (one of 2^64 and
    /// more is of another kind), the others texts in base64 (RFC 4648, section 4) of at most 1,024 bytes for the salt and of 40
    /// bytes for each wrapped key.
    Field(FieldName),
    /// The cost isn't a power of two above 1, the block size is 0, or scrypt (RFC 7914) would take a table of more than 2^30
    /// bytes.
    Cost,
    /// The password is another: a wrapped key's check value isn't right (RFC 3394, section 2.2.2).
    WrongPassword,
    /// Memory ran out, which says nothing of the file and the password.
    Memory,
}

impl From<AllocError> for KeyFileErr {
    ghost use Rattle.std.specs.Prelude.{◌≡◌};
    ghost use Rattle.masterkey_file.specs.declared.reading.KeyFileErr.TheVariants.{Memory};

    ghost from_gives = { λ _ e. e ≡ Memory };

    fn from(_: AllocError) -> KeyFileErr {
        KeyFileErr::Memory
    }
}

impl From<ObjectErr> for KeyFileErr {
    ghost use Rattle.std.specs.Prelude.{◌≡◌};
    ghost use Rattle.masterkey_file.specs.Faults.{object_error};

    ghost from_gives = { λ error e. e ≡ object_error error };

    fn from(error: ObjectErr) -> KeyFileErr {
        match error {
            ObjectErr::NotObject => KeyFileErr::NotJson,
            ObjectErr::Memory => KeyFileErr::Memory,
        }
    }
}

impl From<ScryptErr> for KeyFileErr {
    ghost use Rattle.std.specs.Prelude.{◌≡◌};
    ghost use Rattle.masterkey_file.specs.Faults.{scrypt_error};

    ghost from_gives = { λ error e. e ≡ scrypt_error error };

    fn from(error: ScryptErr) -> KeyFileErr {
        match error {
            ScryptErr::BadCost | ScryptErr::TooLarge => KeyFileErr::Cost,
            ScryptErr::Memory => KeyFileErr::Memory,
        }
    }
}

impl fmt::Display for KeyFileErr {
    ghost use Rattle.std.specs.Prelude.{Some};
    ghost use Rattle.masterkey_file.specs.Faults.{error_text};

    ghost output = { λ e. Some (error_text e) };

    fn fmt<W: fmt::Write>(&self, f: &mut fmt::Formatter<W>) -> fmt::Result {
        match self {
            KeyFileErr::TooLong(length) => write!(f, "too long {length}"),
            KeyFileErr::NotJson => f.write_str("not JSON"),
            KeyFileErr::Field(name) => write!(f, "field {name}"),
            KeyFileErr::Cost => f.write_str("cost"),
            KeyFileErr::WrongPassword => f.write_str("wrong password"),
            KeyFileErr::Memory => f.write_str("out of memory"),
        }
    }
}

impl Error for KeyFileErr {}

/// Reads the vault's keys from the bytes of its masterkey file: a JSON object with scrypt's salt, cost and block size and the
/// two keys, each wrapped (RFC 3394) under a key of 32 bytes that scrypt (RFC 7914) makes of the password with one part.
/// Every other member is ignored, `version` and `versionMac` too. `password` is UTF-8 in the form NFC, as the function `password`
/// returns it. `KeyFileErr` gives each error's cause, in the order of the tests.
pub fn read(alloc: Global, bytes: &[u8], password: &[u8]) -> Result<VaultKeys, KeyFileErr>
    ensures keys { IfOk result (λ keys. keys_of bytes.now password.now ≡ Ok keys) }
    ensures fault { IfErr result (λ e. IsFault e (keys_of bytes.now password.now)) }
{
    let fields = read_fields(alloc, bytes)?;
    open_fields(alloc, &fields, password)
}

// The keys that a password opens in a file's members.
fn open_fields(alloc: Global, fields: &Fields, password: &[u8]) -> Result<VaultKeys, KeyFileErr>
    ensures keys { IfOk result (λ keys. keys_in password.now (fields_data fields.now) ≡ Ok keys) }
    ensures fault { IfErr result (λ e. IsFault e (keys_in password.now (fields_data fields.now))) }
{
    let kek = wrapping_key(alloc, fields, password)?;
    unwrap_keys(&kek, fields).ok_or(KeyFileErr::WrongPassword)
}

// The key that wraps the others.
fn wrapping_key(alloc: Global, fields: &Fields, password: &[u8]) -> Result<[u8; 32], KeyFileErr>
    ensures { MatchResult result
        (λ key. (is_good_cost fields.now.cost fields.now.block_size ≡ true) × (key ≡ wrapping_key password.now (fields_data fields.now)))
        (λ e. IsCostFault e (is_good_cost fields.now.cost fields.now.block_size)) }
{
    let mut key = [0; 32];
    scrypt(
        alloc,
        password,
        &fields.salt,
        fields.cost,
        fields.block_size,
        1,
        &mut key,
    )?;
    Ok(key)
}

// The keys that are wrapped under a key, if both check values are right.
fn unwrap_keys(kek: &[u8; 32], fields: &Fields) -> Option<VaultKeys>
    ensures { result ≡ unwrapped_keys kek.now (fields_data fields.now) }
{
    let encryption_key = unwrap(kek, &fields.wrapped_encryption_key).ok()?;
    let mac_key = unwrap(kek, &fields.wrapped_mac_key).ok()?;
    Some(VaultKeys::new(&encryption_key, &mac_key))
}
