//! The lines of what is wrong with the key files.

ghost use Rattle.std.specs.Prelude.{◌≡◌, ◌++◌, codes};
ghost use Rattle.masterkey_file.specs.KeyFile as masterkey;
ghost use Rattle.masterkey_file.specs.Faults.{field_of};
ghost use Rattle.vault_config.specs.Config as config;
ghost use Rattle.vault_config.specs.Faults.{claim_of};
ghost use Rattle.vault_config.specs.Faults as faults;
ghost use Rattle.unlocking.specs.Errors.{error_text, key_text};
ghost use Rattle.vault_top.specs.Lines.{line_text};

use crate::line::{Line, whole};
use itoa::Buffer;
use masterkey_file::{FieldName, KeyFileErr};
use unlocking::UnlockErr;
use vault_config::{ClaimName, ConfigErr};

/// The line of an error of unlocking.
pub(crate) fn key_files_line<'a>(error: UnlockErr, digits: &'a mut Buffer) -> Line<'a>
    ensures { line_text result ≡ error_text error }
{
    match error {
        UnlockErr::BadSecret => whole("bad secret"),
        UnlockErr::NoMasterkeyFile => whole("vault refused: no masterkey file"),
        UnlockErr::MasterkeyFile(error) => masterkey_line(error, digits),
        UnlockErr::NoVaultFile => whole("vault refused: no vault file"),
        UnlockErr::VaultFile(error) => vault_file_line(error, digits),
        UnlockErr::Memory => whole("out of memory"),
    }
}

fn masterkey_line<'a>(error: KeyFileErr, digits: &'a mut Buffer) -> Line<'a>
    ensures { line_text result ≡ key_text error }
{
    match error {
        KeyFileErr::TooLong(length) => Line {
            head: "vault refused: masterkey file: too long ",
            detail: digits.format(length).as_bytes(),
        },
        KeyFileErr::NotJson => whole("vault refused: masterkey file: not JSON"),
        KeyFileErr::Field(name) => Line {
            head: "vault refused: masterkey file: field ",
            detail: field_name(name).as_bytes(),
        },
        KeyFileErr::Cost => whole("vault refused: masterkey file: cost"),
        KeyFileErr::WrongPassword => whole("wrong password"),
        KeyFileErr::Memory => whole("vault refused: masterkey file: out of memory"),
    }
}

fn vault_file_line<'a>(error: ConfigErr, digits: &'a mut Buffer) -> Line<'a>
    ensures { line_text result ≡ codes "vault refused: vault file: " ++ faults.error_text error }
{
    match error {
        ConfigErr::TooLong(length) => Line {
            head: "vault refused: vault file: too long ",
            detail: digits.format(length).as_bytes(),
        },
        ConfigErr::NotToken => whole("vault refused: vault file: not a token"),
        ConfigErr::Algorithm => whole("vault refused: vault file: algorithm"),
        ConfigErr::Kid => whole("vault refused: vault file: kid"),
        ConfigErr::BadSignature => whole("vault refused: vault file: signature"),
        ConfigErr::Claim(name) => Line {
            head: "vault refused: vault file: claim ",
            detail: claim_name(name).as_bytes(),
        },
        ConfigErr::Format(format) => Line {
            head: "vault refused: vault file: format ",
            detail: digits.format(format).as_bytes(),
        },
        ConfigErr::Combo => whole("vault refused: vault file: combo"),
        ConfigErr::Memory => whole("vault refused: vault file: out of memory"),
    }
}

// A member's name in JSON.
fn field_name(name: FieldName) -> &'static str
    ensures { result.now ≡ masterkey.name_of (field_of name) }
{
    match name {
        FieldName::ScryptSalt => "scryptSalt",
        FieldName::ScryptCostParam => "scryptCostParam",
        FieldName::ScryptBlockSize => "scryptBlockSize",
        FieldName::PrimaryMasterKey => "primaryMasterKey",
        FieldName::HmacMasterKey => "hmacMasterKey",
    }
}

// A claim's name in JSON.
fn claim_name(name: ClaimName) -> &'static str
    ensures { result.now ≡ config.name_of (claim_of name) }
{
    match name {
        ClaimName::Format => "format",
        ClaimName::CipherCombo => "cipherCombo",
        ClaimName::ShorteningThreshold => "shorteningThreshold",
    }
}
