//! Texts in the normal form C (UAX 15), of the version of Unicode that `unicode_normalization` has.
//!
//! ```
//! let text = nfc(rt.alloc(), "e\u{301}")?;
//! assert_eq!(text.as_str(), "\u{e9}");
//! ```
#![tactic(auto)]

ghost use Rattle.std.specs.Prelude.{◌≡◌, IfOk};
ghost use Rattle.std.specs.String.{string_bytes};
ghost use Rattle.nfc_text.specs.Nfc.{nfc_of};

use std::alloc::{AllocError, Global};
use unicode_normalization::to_nfc;

/// The form NFC of a text. It fails only if there is no memory.
#[tactic(auto, unfolding(crate::specs::Nfc::nfc_of))]
pub fn nfc(alloc: Global, text: &str) -> Result<String, AllocError>
    ensures { IfOk result (λ s. string_bytes s ≡ nfc_of text.now) }
{
    to_nfc(alloc, text)
}
