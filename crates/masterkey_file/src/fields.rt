ghost use Rattle.std.specs.Prelude.{◌≡◌, nat_lt, length, Some, None, Ok, IfOk, MatchOption, MatchResult};
ghost use Rattle.std.specs.Option.{ok_or, option_and_then};
ghost use Rattle.std.specs.Result.{result_ok};
ghost use Rattle.base64.specs.GeneralPurpose.{decode_of};
ghost use Rattle.base64.specs.Engines.{standard};
ghost use Rattle.vault_layout.specs.Limits.{key_file_limit};
ghost use Rattle.json_members.specs.Members.{object_of, text_at, integer_at};
ghost use Rattle.masterkey_file.specs.KeyFile.{bad_field, bytes_at, fields_in, fields_of, fits_key, fits_salt, name_of, not_json};
ghost use Rattle.masterkey_file.specs.Faults.{IsFault, field_of};
ghost use Rattle.masterkey_file.specs.Steps.{fields_data};

use crate::reading::{FieldName, KeyFileErr};
use base64::DecodeAllocError;
use base64::engine::general_purpose::STANDARD;
use json_members::Object;
use std::alloc::{AllocError, Global};
use vault_layout::KEY_FILE_LIMIT;

// The longest salt, in bytes.
const SALT_LIMIT: usize = 1024;

/// What the members hold: scrypt's salt, cost and block size, and the two wrapped keys.
#[derive(Drop)]
pub(crate) struct Fields {
    pub(crate) salt: Vec<u8>,
    pub(crate) cost: u64,
    pub(crate) block_size: u64,
    pub(crate) wrapped_encryption_key: [u8; 40],
    pub(crate) wrapped_mac_key: [u8; 40],
}

/// The members of a file's object.
pub(crate) fn read_fields(alloc: Global, bytes: &[u8]) -> Result<Fields, KeyFileErr>
    ensures { MatchResult result
        (λ fields. fields_of bytes.now ≡ Ok (fields_data fields)) (λ e. IsFault e (fields_of bytes.now)) }
{
    if is_too_long(bytes) {
        return Err(KeyFileErr::TooLong(bytes.len()));
    }
    let object = Object::read(alloc, bytes)?;
    fields_in(alloc, &object)
}

// Whether a file isn't looked into for its length.
fn is_too_long(bytes: &[u8]) -> bool
    ensures { result ≡ nat_lt key_file_limit (length bytes.now) }
{
    bytes.len() > KEY_FILE_LIMIT
}

// The members of an object, in the order of their tests.
fn fields_in(alloc: Global, object: &Object) -> Result<Fields, KeyFileErr>
    ensures { MatchResult result
        (λ fields. fields_in object.now ≡ Ok (fields_data fields)) (λ e. IsFault e (fields_in object.now)) }
{
    Ok(Fields {
        salt: salt(alloc, object)?,
        cost: integer(object, FieldName::ScryptCostParam)?,
        block_size: integer(object, FieldName::ScryptBlockSize)?,
        wrapped_encryption_key: wrapped_key(alloc, object, FieldName::PrimaryMasterKey)?,
        wrapped_mac_key: wrapped_key(alloc, object, FieldName::HmacMasterKey)?,
    })
}

// The salt.
fn salt(alloc: Global, object: &Object) -> Result<Vec<u8>, KeyFileErr>
    ensures { let found = ok_or (bytes_at (field_of FieldName.ScryptSalt) fits_salt object.now) (bad_field (field_of FieldName.ScryptSalt)) in
        MatchResult result (λ bytes. found ≡ Ok bytes.items) (λ e. IsFault e found) }
{
    match decoded(alloc, object, FieldName::ScryptSalt)? {
        Some(bytes) if bytes.len() <= SALT_LIMIT => Ok(bytes),
        _ => Err(KeyFileErr::Field(FieldName::ScryptSalt)),
    }
}

// The integer of a member.
fn integer(object: &Object, name: FieldName) -> Result<u64, KeyFileErr>
    ensures { let found = ok_or (integer_at (name_of (field_of name)) object.now) (bad_field (field_of name)) in
        MatchResult result (λ n. found ≡ Ok n) (λ e. IsFault e found) }
{
    object
        .integer(name.json_name())
        .ok_or(KeyFileErr::Field(name))
}

// The wrapped key of a member.
fn wrapped_key(alloc: Global, object: &Object, name: FieldName) -> Result<[u8; 40], KeyFileErr>
    ensures { let found = ok_or (bytes_at (field_of name) fits_key object.now) (bad_field (field_of name)) in
        MatchResult result (λ key. found ≡ Ok key) (λ e. IsFault e found) }
{
    let Some(bytes) = decoded(alloc, object, name)? else {
        return Err(KeyFileErr::Field(name));
    };
    match bytes.as_array() {
        Some(key) => Ok(*key),
        None => Err(KeyFileErr::Field(name)),
    }
}

// The bytes of a member, if it is a text in base64.
fn decoded(alloc: Global, object: &Object, name: FieldName) -> Result<Option<Vec<u8>>, AllocError>
    ensures { let found = option_and_then (λ text. result_ok (decode_of standard text)) (text_at (name_of (field_of name)) object.now) in
        IfOk result (λ bytes. MatchOption bytes (found ≡ None) (λ bytes. found ≡ Some bytes.items)) }
{
    let Some(text) = object.text(name.json_name()) else {
        return Ok(None);
    };
    match STANDARD.decode(alloc, text.as_bytes()) {
        Ok(bytes) => Ok(Some(bytes)),
        Err(DecodeAllocError::DecodeError(_)) => Ok(None),
        Err(DecodeAllocError::OutOfMemory) => Err(AllocError),
    }
}
