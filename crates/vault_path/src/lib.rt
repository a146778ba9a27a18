//! Host paths inside a vault's folder, kept in place, and texts.
//!
//! A path never leaves its folder: each part is checked, and there is none for `/`, `.` or `..`.
//!
//! ```
//! let keys = VaultPath::root().join(b"masterkey.cryptomator")?;
//! assert!(keys.parent().is_empty());
//! ```
#![tactic(auto)]

mod part;
mod path;
mod text;

pub use path::{BadPart, VaultPath};
pub use text::Text;
