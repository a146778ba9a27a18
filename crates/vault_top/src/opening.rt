//! What comes before serving: the secret, the key files and the vault's tree.

ghost use Rattle.std.specs.Prelude.{◌≡◌, IfOk, IfErr};
ghost use Rattle.outside.specs.Calls.{next_of};
ghost use Rattle.outside.specs.Views.{folder_in};
ghost use Rattle.vault_top.specs.Span.{course, source_in, given_of};
ghost use Rattle.vault_top.specs.Opening.{IsUnlockedStore, IsUnlockedToRead, IsUnopened, IsUnread, of_opening, of_reading};

use crate::cause::Cause;
use outside::{Clock, Folder, Refused, Source};
use std::alloc::Global;
use unlocking::{SecretKind, unlock};
use vault_store::{OpenErr, ReadOnlyErr, ReadOnlyStore, Store};

/// Unlocks the vault in a folder by the secret, and opens it at the clock's next second.
pub(crate) fn open_vault<D: Folder, S: Source, K: Clock>(
    alloc: Global,
    kind: SecretKind,
    mut folder: D,
    secret: &mut S,
    clock: &mut K,
) -> Result<Store<D>, Refused<D, Cause>>
    ensures opened { IfOk result (λ store. IsUnlockedStore (folder_in D.Reads)
        (given_of (folder_in D.Reads) (course (source_in S.Source) secret.old secret.new) (next_of (K.to_give clock.old)) folder folder)
        kind folder store) }
    ensures unopened { IfErr result (λ refused. IsUnopened
        (given_of (folder_in D.Reads) (course (source_in S.Source) secret.old secret.new) (next_of (K.to_give clock.old)) folder refused.folder)
        kind refused.cause) }
{
    let unlocked = match unlock(alloc, kind, &mut folder, secret) {
        Ok(unlocked) => unlocked,
        Err(refusal) => {
            return Err(Refused {
                folder,
                cause: Cause::from(refusal),
            });
        }
    };
    match Store::open(
        alloc,
        folder,
        &unlocked.keys,
        unlocked.threshold,
        clock.now(),
    ) {
        Ok(store) => Ok(store),
        Err(Refused { folder, cause }) => Err(Refused {
            folder,
            cause: cause_of(cause),
        }),
    }
}

/// Unlocks the vault in a folder by the secret, and opens it to be read alone at the clock's next second. Nothing of the folder is changed.
pub(crate) fn open_to_read<D: Folder, S: Source, K: Clock>(
    alloc: Global,
    kind: SecretKind,
    mut folder: D,
    secret: &mut S,
    clock: &mut K,
) -> Result<ReadOnlyStore<D>, Refused<D, Cause>>
    ensures opened { IfOk result (λ vault. IsUnlockedToRead (folder_in D.Reads)
        (given_of (folder_in D.Reads) (course (source_in S.Source) secret.old secret.new) (next_of (K.to_give clock.old)) folder vault.folder)
        kind folder vault) }
    ensures unread { IfErr result (λ refused. IsUnread
        (given_of (folder_in D.Reads) (course (source_in S.Source) secret.old secret.new) (next_of (K.to_give clock.old)) folder refused.folder)
        kind refused.cause) }
{
    let unlocked = match unlock(alloc, kind, &mut folder, secret) {
        Ok(unlocked) => unlocked,
        Err(refusal) => {
            return Err(Refused {
                folder,
                cause: Cause::from(refusal),
            });
        }
    };
    match ReadOnlyStore::open(
        alloc,
        folder,
        &unlocked.keys,
        unlocked.threshold,
        clock.now(),
    ) {
        Ok(vault) => Ok(vault),
        Err(Refused { folder, cause }) => Err(Refused {
            folder,
            cause: reading_cause(cause),
        }),
    }
}

fn reading_cause(error: ReadOnlyErr) -> Cause
    ensures { result ≡ of_reading error }
{
    match error {
        ReadOnlyErr::JournalOpen => Cause::JournalOpen,
        ReadOnlyErr::NotOpened(error) => cause_of(error),
    }
}

fn cause_of(error: OpenErr) -> Cause
    ensures { result ≡ of_opening error }
{
    match error {
        OpenErr::Device => Cause::FolderFault,
        OpenErr::JournalDamaged(at) => Cause::JournalDamaged(at),
        OpenErr::TooMany(_) => Cause::TooManyNodes,
        OpenErr::NoRoot => Cause::NoRoot,
        OpenErr::Memory => Cause::Memory,
    }
}
