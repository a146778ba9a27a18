//! An open vault as a tree that many callers ask.

use outside::{Entropy, Folder};
use shared_tree::SharedTree;
use std::marker::{Brand, PhantomData};
use std::sync::atomic::{AtomicBool, Ordering};
use tree_model::{Reply, Request};
use vault_store::Store;

/// How the folder was as the run began, the keys that the secret unlocks, and the rows from which the history begins. `Brand` is one
/// that each call of a function picks in its proof.
pub(crate) trait Since {
    ghost use Rattle.outside.specs.Views.{FolderView};
    ghost use Rattle.vault_keys.specs.Keys.{KeyPair};
    ghost use Rattle.tree_model.specs.Rows.{Rows};

    ghost since: { FolderView → KeyPair → Rows → Type 0 };
}

impl Since for Brand {
    ghost since = { λ _ _ _. Unit {0} };
}

/// An open vault, with how the run began, and what is set as soon as a commit has failed.
#[derive(Drop)]
pub(crate) struct SharedVault<'s, D: Folder, B> {
    store: Store<D>,
    stopped: &'s AtomicBool,
    since: PhantomData<B>,
}

impl<'s, D: Folder, B> SharedVault<'s, D, B> {
    ghost use Rattle.std.specs.Prelude.{◌≡◌};

    pub(crate) fn new(store: Store<D>, stopped: &'s AtomicBool) -> SharedVault<'s, D, B>
        ensures { result.store ≡ store }
    {
        SharedVault {
            store,
            stopped,
            since: PhantomData,
        }
    }

    pub(crate) fn into_store(self) -> Store<D>
        ensures { result ≡ self.entry.store }
    {
        let SharedVault {
            store,
            stopped: _,
            since: _,
        } = self;
        store
    }
}

impl<'s, D: Folder, B: Since> SharedTree for SharedVault<'s, D, B> {
    ghost use Rattle.outside.specs.Views.{folder_in};
    ghost use Rattle.store_laws.specs.Turns.{draws_for};
    ghost use Rattle.vault_top.specs.Sharing.{IsSharedStore};

    ghost stands = { λ vault rows origin history. IsSharedStore (folder_in D.Reads) B.since vault.store rows origin history };

    ghost draws = { draws_for };

    fn serve<E: Entropy>(
        &mut self,
        request: &Request<'_>,
        now: u32,
        entropy: &mut E,
        buffer: &mut [u8],
    ) -> Reply {
        let reply = self.store.serve(request, now, entropy, buffer);
        if self.store.is_stopped() {
            self.stopped.store(true, Ordering::SeqCst);
        }
        reply
    }
}
