//! Tests of the key files: of `json_members`, `masterkey_file`, `vault_config`, `unlocking` and `vault_words`, by values of other programs.
//!
//! ```
//! rt test
//! ```
#![tactic(auto)]

#[cfg(test)]
mod command_lines;
#[cfg(test)]
mod configurations;
#[cfg(test)]
mod masterkey_files;
#[cfg(test)]
mod objects;
#[cfg(test)]
mod unlocked_keys;
