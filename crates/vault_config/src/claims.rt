ghost use Rattle.std.specs.Prelude.{◌≡◌, Ok, MatchResult};
ghost use Rattle.vault_config.specs.Config.{claims_checked, combo_checked, threshold_of};
ghost use Rattle.vault_config.specs.Faults.{IsFault};

use crate::config::{ClaimName, ConfigErr};
use json_members::Object;
use vault_layout::MAX_THRESHOLD;

// The vault format that is served, and its ciphers of names and contents.
pub(crate) const FORMAT: u64 = 8;

pub(crate) const COMBO: &str = "SIV_GCM";

// The largest threshold, as claims have integers of 64 bits.
const MAX_CLAIMED_THRESHOLD: u64 = MAX_THRESHOLD as u64;

/// The threshold that claims say, tested in the order format, combination, threshold.
pub(crate) fn check_claims(claims: &Object) -> Result<u32, ConfigErr>
    ensures { MatchResult result (λ n. claims_checked claims.now ≡ Ok n) (λ e. IsFault e (claims_checked claims.now)) }
{
    match claims.integer(ClaimName::Format.json_name()) {
        Some(FORMAT) => check_combo(claims),
        Some(format) => Err(ConfigErr::Format(format)),
        None => Err(ConfigErr::Claim(ClaimName::Format)),
    }
}

// The threshold of claims whose format is known.
fn check_combo(claims: &Object) -> Result<u32, ConfigErr>
    ensures { MatchResult result (λ n. combo_checked claims.now ≡ Ok n) (λ e. IsFault e (combo_checked claims.now)) }
{
    match claims.text(ClaimName::CipherCombo.json_name()) {
        Some(combo) if combo == COMBO => threshold_of(claims),
        Some(_) => Err(ConfigErr::Combo),
        None => Err(ConfigErr::Claim(ClaimName::CipherCombo)),
    }
}

// The threshold, from 1 character up to the largest.
fn threshold_of(claims: &Object) -> Result<u32, ConfigErr>
    ensures { MatchResult result (λ n. threshold_of claims.now ≡ Ok n) (λ e. IsFault e (threshold_of claims.now)) }
{
    match claims.integer(ClaimName::ShorteningThreshold.json_name()) {
        Some(threshold @ 1..=MAX_CLAIMED_THRESHOLD) => Ok(threshold as u32),
        _ => Err(ConfigErr::Claim(ClaimName::ShorteningThreshold)),
    }
}
