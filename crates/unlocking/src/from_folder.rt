ghost use Rattle.std.specs.Prelude.{◌≡◌, ◌≤◌, Ok, IfOk, IfErr, OnOk, OnErr, IsErrOf};
ghost use Rattle.outside.specs.Calls.{Changes, HasCause};
ghost use Rattle.outside.specs.Images.{disk_in};
ghost use Rattle.vault_layout.specs.Limits.{max_threshold};
ghost use Rattle.unlocking.specs.Errors.{IsCause};
ghost use Rattle.unlocking.specs.Found.{unlocked_data};
ghost use Rattle.unlocking.specs.FromFiles as key_unlock;
ghost use Rattle.unlocking.specs.FromFiles.{masterkey_opened, vault_opened};
ghost use Rattle.unlocking.specs.Finding.{IsFound};
ghost use Rattle.unlocking.specs.Secret.{IsAfterLine, TakesAtMost, taken_limit};
ghost use Rattle.unlocking.specs.Refusals.{IsRefusal, IsRefusedBy};
ghost use Rattle.unlocking.specs.FromFolder.{IsUnlocking, SeesFiles, unlocked_by};

use crate::errors::UnlockErr;
use crate::finding::{Found, find};
use crate::from_files::{FoundFile, Unlocked, open_masterkey_file, open_vault_file};
use crate::paths::{config_path, masterkey_path};
use crate::refusal::Refusal;
use crate::secret::{read_keys, read_password};
use masterkey_file::KeyFileErr;
use outside::{Folder, Source};
use std::alloc::Global;
use vault_config::ConfigErr;
use vault_keys::VaultKeys;
use vault_layout::DEFAULT_THRESHOLD;

/// What the secret's first line is.
#[derive(Clone, Copy, Debug, PartialEq, Eq)]
pub enum SecretKind {
    /// The password of the masterkey file.
    Password,
    /// The two keys, as 128 hexadecimal digits.
    RawKeys,
}

/// Unlocks the vault in a folder by the first line of a secret. Of a password's secret the line is taken, or at most one byte more than
/// `PASSWORD_LIMIT`; of the keys' the line, or at most 129 bytes. If the secret is the keys the folder isn't looked at. The causes are found in the order of
/// `UnlockErr`; a file of more than `KEY_FILE_LIMIT` bytes isn't read. `Refusal` gives each error's cause.
pub fn unlock<D: Folder, S: Source>(
    alloc: Global,
    kind: SecretKind,
    folder: &mut D,
    secret: &mut S,
) -> Result<Unlocked, Refusal>
    ensures unlocked { IfOk result (λ u. IsUnlocking kind (S.left secret.old) (disk_in (D.log folder.old)) (λ found. found ≡ Ok (unlocked_data u))) }
    ensures range { IfOk result (λ u. (1 ≤ u.threshold) × (u.threshold ≤ max_threshold)) }
    ensures refused { IfErr result (IsRefusedBy kind (S.left secret.old) (disk_in (D.log folder.old))) }
    ensures line { OnOk result (Changes (S.left secret.old) (S.left secret.new) IsAfterLine) }
    ensures begun { OnErr result (Changes (S.left secret.old) (S.left secret.new) (TakesAtMost (taken_limit kind))) }
    ensures secret { HasCause (S.faults secret.old) (S.faults secret.new) (IsErrOf result Refusal.SecretFault) }
    ensures folder { HasCause (D.faults folder.old) (D.faults folder.new) (IsErrOf result Refusal.FolderFault) }
    ensures log { D.log folder.new ≡ D.log folder.old }
    ensures changes { D.changes folder.new ≡ D.changes folder.old }
    ensures unseen { kind ≡ SecretKind.RawKeys → folder.new ≡ folder.old }
{
    match kind {
        SecretKind::RawKeys => {
            let keys = read_keys(secret)?;
            Ok(Unlocked {
                keys,
                threshold: DEFAULT_THRESHOLD,
            })
        }
        SecretKind::Password => {
            let password = read_password(alloc, secret)?;
            unlock_files(alloc, folder, password.as_bytes())
        }
    }
}

// Unlocks the vault in a folder by a password.
fn unlock_files<D: Folder>(
    alloc: Global,
    folder: &mut D,
    password: &[u8],
) -> Result<Unlocked, Refusal>
    ensures unlocked { IfOk result (λ u. SeesFiles (disk_in (D.log folder.old)) (λ files. unlocked_by password.now files ≡ Ok (unlocked_data u))) }
    ensures range { IfOk result (λ u. (1 ≤ u.threshold) × (u.threshold ≤ max_threshold)) }
    ensures refused { IfErr result (λ r. SeesFiles (disk_in (D.log folder.old)) (λ files. IsRefusal r (unlocked_by password.now files))) }
    ensures folder { HasCause (D.faults folder.old) (D.faults folder.new) (IsErrOf result Refusal.FolderFault) }
    ensures log { D.log folder.new ≡ D.log folder.old }
    ensures changes { D.changes folder.new ≡ D.changes folder.old }
{
    let masterkey = find(alloc, folder, &masterkey_path())?;
    let keys = masterkey_keys(alloc, password, &masterkey)?;
    let config = find(alloc, folder, &config_path())?;
    Ok(vault_unlocked(alloc, keys, &config)?)
}

// The keys that a password opens in the masterkey file that was found.
fn masterkey_keys(alloc: Global, password: &[u8], found: &Found) -> Result<VaultKeys, UnlockErr>
    ensures keys { IfOk result (λ keys. (seen : key_unlock.FoundFile) → IsFound found.now seen → masterkey_opened password.now seen ≡ Ok keys) }
    ensures cause { IfErr result (λ e. (seen : key_unlock.FoundFile) → IsFound found.now seen → IsCause e (masterkey_opened password.now seen)) }
{
    match found {
        Found::Absent => open_masterkey_file(alloc, password, FoundFile::Absent),
        Found::Folder => open_masterkey_file(alloc, password, FoundFile::Folder),
        Found::File(bytes) => open_masterkey_file(alloc, password, FoundFile::File(bytes)),
        Found::TooLong(length) => Err(UnlockErr::MasterkeyFile(KeyFileErr::TooLong(
            *length as usize,
        ))),
    }
}

// The keys with the threshold of the vault file that was found.
fn vault_unlocked(alloc: Global, keys: VaultKeys, found: &Found) -> Result<Unlocked, UnlockErr>
    ensures unlocked { IfOk result (λ u. (seen : key_unlock.FoundFile) → IsFound found.now seen → vault_opened keys seen ≡ Ok (unlocked_data u)) }
    ensures range { IfOk result (λ u. (1 ≤ u.threshold) × (u.threshold ≤ max_threshold)) }
    ensures cause { IfErr result (λ e. (seen : key_unlock.FoundFile) → IsFound found.now seen → IsCause e (vault_opened keys seen)) }
{
    match found {
        Found::Absent => open_vault_file(alloc, keys, FoundFile::Absent),
        Found::Folder => open_vault_file(alloc, keys, FoundFile::Folder),
        Found::File(bytes) => open_vault_file(alloc, keys, FoundFile::File(bytes)),
        Found::TooLong(length) => Err(UnlockErr::VaultFile(ConfigErr::TooLong(*length as usize))),
    }
}
