ghost use Rattle.std.specs.Prelude.{◌≡◌, ◌≤◌, Ok, IfOk, IfErr, option_map};
ghost use Rattle.vault_layout.specs.Limits.{max_threshold};
ghost use Rattle.unlocking.specs.FromFiles.{bytes_in, masterkey_opened, unlocked, vault_opened};
ghost use Rattle.unlocking.specs.Errors.{IsCause};
ghost use Rattle.unlocking.specs.Found.{found_data, unlocked_data};

use crate::errors::UnlockErr;
use masterkey_file::password;
use std::alloc::Global;
use vault_keys::VaultKeys;

/// A file of the vault's root folder, as it is found.
#[derive(Clone, Copy)]
pub enum FoundFile<'a> {
    /// Nothing has the file's name.
    Absent,
    /// A folder, or what is neither a file nor a folder, has the file's name.
    Folder,
    /// A file with these bytes.
    File(&'a [u8]),
}

/// What unlocks a vault.
#[derive(Drop)]
pub struct Unlocked {
    /// The vault's keys.
    pub keys: VaultKeys,
    /// The longest sealed name, in characters, that isn't shortened: 1 to `MAX_THRESHOLD`.
    pub threshold: u32,
}

/// The keys that a password (UTF-8 in the form NFC) opens in the masterkey file. The errors are `NoMasterkeyFile`, `MasterkeyFile`
/// and `Memory`.
pub fn open_masterkey_file(
    alloc: Global,
    password: &[u8],
    found: FoundFile<'_>,
) -> Result<VaultKeys, UnlockErr>
    ensures keys { IfOk result (λ keys. masterkey_opened password.now (found_data found.entry) ≡ Ok keys) }
    ensures cause { IfErr result (λ e. IsCause e (masterkey_opened password.now (found_data found.entry))) }
{
    let Some(bytes) = file_bytes(found) else {
        return Err(UnlockErr::NoMasterkeyFile);
    };
    Ok(masterkey_file::read(alloc, bytes, password)?)
}

/// The keys with the threshold that the vault file says under them. The errors are `NoVaultFile`, `VaultFile` and `Memory`.
pub fn open_vault_file(
    alloc: Global,
    keys: VaultKeys,
    found: FoundFile<'_>,
) -> Result<Unlocked, UnlockErr>
    ensures unlocked { IfOk result (λ u. vault_opened keys (found_data found.entry) ≡ Ok (unlocked_data u)) }
    ensures range { IfOk result (λ u. (1 ≤ u.threshold) × (u.threshold ≤ max_threshold)) }
    ensures cause { IfErr result (λ e. IsCause e (vault_opened keys (found_data found.entry))) }
{
    let Some(bytes) = file_bytes(found) else {
        return Err(UnlockErr::NoVaultFile);
    };
    match vault_config::read(alloc, bytes, &keys) {
        Ok(config) => Ok(Unlocked {
            keys,
            threshold: config.threshold,
        }),
        Err(error) => Err(UnlockErr::from(error)),
    }
}

/// Unlocks a vault by a secret, whose first line is the password, and the two files as they are found. `UnlockErr` gives each
/// error's cause, in the order of the tests.
pub fn unlock_found(
    alloc: Global,
    secret: &[u8],
    masterkey: FoundFile<'_>,
    vault: FoundFile<'_>,
) -> Result<Unlocked, UnlockErr>
    ensures unlocked { let found = unlocked secret.now (found_data masterkey.entry) (found_data vault.entry) in
        IfOk result (λ u. found ≡ Ok (unlocked_data u)) }
    ensures range { IfOk result (λ u. (1 ≤ u.threshold) × (u.threshold ≤ max_threshold)) }
    ensures cause { let found = unlocked secret.now (found_data masterkey.entry) (found_data vault.entry) in
        IfErr result (λ e. IsCause e found) }
{
    let password = password(alloc, secret)?;
    let keys = open_masterkey_file(alloc, password.as_bytes(), masterkey)?;
    open_vault_file(alloc, keys, vault)
}

// The bytes of a file, if there is one.
fn file_bytes(found: FoundFile<'_>) -> Option<&[u8]>
    ensures { option_map (λ bytes. bytes.now) result ≡ bytes_in (found_data found.entry) }
{
    match found {
        FoundFile::File(bytes) => Some(bytes),
        FoundFile::Absent | FoundFile::Folder => None,
    }
}
