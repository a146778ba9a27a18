ghost use Rattle.std.specs.Prelude.{◌≡◌, ◌≤◌, codes, IfOk, IfErr, Ok, MatchResult};
ghost use Rattle.std.specs.Option.{ok_or};
ghost use Rattle.vault_layout.specs.Limits.{max_threshold};
ghost use Rattle.json_members.specs.Steps.{result_and_then};
ghost use Rattle.vault_config.specs.Config.{config_of, key_id, has_text, name_of, signature_checked, signing_key, token_checked, not_token};
ghost use Rattle.vault_config.specs.Token.{token_of};
ghost use Rattle.vault_config.specs.Faults.{IsFault, claim_of};
ghost use Rattle.vault_config.specs.Algorithms.{algorithm_data};

use crate::claims::check_claims;
use crate::token::{
    Algorithm, Pieces, algorithm_of, decoded, decoded_object, is_signature, three_pieces,
};
use json_members::Object;
use std::alloc::{AllocError, Global};
use std::error::Error;
use std::fmt;
use vault_keys::VaultKeys;
use vault_layout::KEY_FILE_LIMIT;

/// The name by which the header says that the key is the one in the file beside this one.
pub(crate) const KEY_ID: &str = "masterkeyfile:masterkey.cryptomator";

/// A claim of a configuration. It is shown as its name in JSON.
#[derive(Clone, Copy, Debug, PartialEq, Eq)]
pub enum ClaimName {
    /// The vault format.
    Format,
    /// The ciphers of names and contents.
    CipherCombo,
    /// The longest sealed name that isn't shortened.
    ShorteningThreshold,
}

impl ClaimName {
    /// The name in JSON.
    pub(crate) fn json_name(self) -> &'static str
        ensures { result.now ≡ name_of (claim_of self) }
    {
        match self {
            ClaimName::Format => "format",
            ClaimName::CipherCombo => "cipherCombo",
            ClaimName::ShorteningThreshold => "shorteningThreshold",
        }
    }
}

impl fmt::Display for ClaimName {
    ghost use Rattle.std.specs.Prelude.{Some};
    ghost use Rattle.vault_config.specs.Config.{name_of};
    ghost use Rattle.vault_config.specs.Faults.{claim_of};

    ghost output = { λ name. Some (name_of (claim_of name)) };

    fn fmt<W: fmt::Write>(&self, f: &mut fmt::Formatter<W>) -> fmt::Result {
        f.write_str(self.json_name())
    }
}

/// Why a configuration isn't accepted. The tests are made in this order.
#[derive(Clone, Copy, Debug, PartialEq, Eq)]
pub enum ConfigErr {
    /// The file has more than 65,536 bytes: this many.
    TooLong(usize),
    /// The file is no JSON Web Token in compact form (RFC 7519; RFC 7515, section 7.1): it hasn't three pieces, a piece is no
    /// base64url without padding (RFC 4648, section 5), or the header or the payload is no JSON object, has a number past
    /// binary64 or an unpaired surrogate somewhere, or nests more than 127 deep.
    NotToken,
    /// The header's `alg` is absent, or none of HS256, HS384 and HS512 (RFC 7518, section 3.2).
    Algorithm,
    /// The header's `kid` (RFC 7515, section 4.1.4) is absent, or isn't that of the masterkey file.
    Kid,
    /// The signature isn't that of the text under these keys (RFC 7515, section 5.2).
    BadSignature,
    /// This claim is absent or of another type, or the threshold isn't from 1 to `MAX_THRESHOLD`. The format and the threshold are integers from
    /// 0 to 2^64 - 1; a number with a fraction or an exponent is rounded to the nearest binary64 first.
    Claim(ClaimName),
    /// The vault format is another than 8: this.
    Format(u64),
    /// The cipher combination is another than SIV_GCM.
    Combo,
    /// Memory ran out, which says nothing of the configuration.
    Memory,
}

impl From<AllocError> for ConfigErr {
    ghost use Rattle.std.specs.Prelude.{◌≡◌};
    ghost use Rattle.vault_config.specs.declared.config.ConfigErr.TheVariants.{Memory};

    ghost from_gives = { λ _ e. e ≡ Memory };

    fn from(_: AllocError) -> ConfigErr {
        ConfigErr::Memory
    }
}

impl fmt::Display for ConfigErr {
    ghost use Rattle.std.specs.Prelude.{Some};
    ghost use Rattle.vault_config.specs.Faults.{error_text};

    ghost output = { λ e. Some (error_text e) };

    fn fmt<W: fmt::Write>(&self, f: &mut fmt::Formatter<W>) -> fmt::Result {
        match self {
            ConfigErr::TooLong(length) => write!(f, "too long {length}"),
            ConfigErr::NotToken => f.write_str("not a token"),
            ConfigErr::Algorithm => f.write_str("algorithm"),
            ConfigErr::Kid => f.write_str("kid"),
            ConfigErr::BadSignature => f.write_str("signature"),
            ConfigErr::Claim(name) => write!(f, "claim {name}"),
            ConfigErr::Format(format) => write!(f, "format {format}"),
            ConfigErr::Combo => f.write_str("combo"),
            ConfigErr::Memory => f.write_str("out of memory"),
        }
    }
}

impl Error for ConfigErr {}

/// What a vault's configuration says.
#[derive(Clone, Copy, Debug, PartialEq, Eq)]
pub struct Config {
    /// The longest sealed name, in characters, that isn't shortened: 1 to `MAX_THRESHOLD`.
    pub threshold: u32,
}

/// Reads the configuration of the vault with these keys: a JSON Web Token in compact form (RFC 7519), signed by HMAC under
/// both keys, the encryption key first. ASCII white space at the end (tab, LF, FF, CR, space), other header fields (`crit` too) and
/// other claims (`exp` and `nbf` too) are ignored. No claim is looked at before the signature. `ConfigErr` gives each error's cause, in the order of the tests.
pub fn read(alloc: Global, bytes: &[u8], keys: &VaultKeys) -> Result<Config, ConfigErr>
    ensures config { IfOk result (λ c. config_of keys.now bytes.now ≡ Ok c.threshold) }
    ensures range { IfOk result (λ c. (1 ≤ c.threshold) × (c.threshold ≤ max_threshold)) }
    ensures fault { IfErr result (λ e. IsFault e (config_of keys.now bytes.now)) }
{
    if bytes.len() > KEY_FILE_LIMIT {
        return Err(ConfigErr::TooLong(bytes.len()));
    }
    let threshold = read_token(alloc, bytes, keys)?;
    Ok(Config { threshold })
}

// The threshold of the configuration whose token bytes are.
fn read_token(alloc: Global, bytes: &[u8], keys: &VaultKeys) -> Result<u32, ConfigErr>
    ensures { let checked = result_and_then (token_checked keys.now) (ok_or (token_of bytes.now) not_token) in
        MatchResult result (λ n. checked ≡ Ok n) (λ e. IsFault e checked) }
{
    let Some(pieces) = three_pieces(bytes.trim_ascii_end()) else {
        return Err(ConfigErr::NotToken);
    };
    let Some(header) = decoded_object(alloc, pieces.header)? else {
        return Err(ConfigErr::NotToken);
    };
    let Some(claims) = decoded_object(alloc, pieces.payload)? else {
        return Err(ConfigErr::NotToken);
    };
    let Some(signature) = decoded(alloc, pieces.signature)? else {
        return Err(ConfigErr::NotToken);
    };
    check_token(keys, pieces.text, &header, &claims, &signature)
}

// The threshold that a token says, whose signed text and decoded pieces these are.
fn check_token(
    keys: &VaultKeys,
    text: &[u8],
    header: &Object,
    claims: &Object,
    signature: &[u8],
) -> Result<u32, ConfigErr>
    ensures { let checked = token_checked keys.now
        (record { text = text.now; header = header.now; claims = claims.now; signature = signature.now }) in
        MatchResult result (λ n. checked ≡ Ok n) (λ e. IsFault e checked) }
{
    match algorithm_of(header) {
        Some(algorithm) => check_signature(keys, algorithm, text, header, claims, signature),
        None => Err(ConfigErr::Algorithm),
    }
}

// The same under the algorithm that the header names.
fn check_signature(
    keys: &VaultKeys,
    algorithm: Algorithm,
    text: &[u8],
    header: &Object,
    claims: &Object,
    signature: &[u8],
) -> Result<u32, ConfigErr>
    ensures { let checked = signature_checked keys.now
        (record { text = text.now; header = header.now; claims = claims.now; signature = signature.now }) (algorithm_data algorithm) in
        MatchResult result (λ n. checked ≡ Ok n) (λ e. IsFault e checked) }
{
    if !has_key_id(header) {
        Err(ConfigErr::Kid)
    } else if is_signature(algorithm, &signing_key(keys), text, signature) {
        check_claims(claims)
    } else {
        Err(ConfigErr::BadSignature)
    }
}

// Whether the header names the key of the masterkey file.
fn has_key_id(header: &Object) -> bool
    ensures { result ≡ has_text (codes "kid") key_id header.now }
{
    match header.text("kid") {
        Some(kid) => kid == KEY_ID,
        None => false,
    }
}

/// What signs: both keys, the encryption key first.
pub(crate) fn signing_key(keys: &VaultKeys) -> [u8; 64]
    ensures { result ≡ signing_key keys.now }
{
    let mut key = [0; 64];
    key[..32].copy_from_slice(&keys.encryption_key().bytes());
    key[32..].copy_from_slice(&keys.mac_key().bytes());
    key
}
