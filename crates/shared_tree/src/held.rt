//! A tree as it lies behind the lock.
use crate::made::Made;
use crate::tree::SharedTree;
use std::marker::{Brand, PhantomData};
use turn_lock::History;

/// From which rows and counts the history begins. `Brand` is one that each call of a function picks in its proof.
pub trait Start {
    ghost use Rattle.tree_model.specs.Rows.{Rows};
    ghost use Rattle.tree_model.specs.History.{Origin};

    ghost is: { Rows → Origin → Type 0 };
}

impl Start for Brand {
    ghost is = { λ _ _. Unit {0} };
}

/// The tree as it lies behind the lock, with what its history begins from.
pub struct Held<T, B> {
    pub(crate) tree: T,
    start: PhantomData<B>,
}

impl<T: SharedTree, B: Start> History for Held<T, B> {
    type Entry = Made;

    ghost use Rattle.shared_tree.specs.Turns.{StandsFor};

    ghost stands = { λ held turns. StandsFor B.is T.stands held.tree turns };
}

impl<T, B> Held<T, B> {
    ghost use Rattle.std.specs.Prelude.{◌≡◌};

    pub(crate) fn new(tree: T) -> Held<T, B>
        ensures { result.tree ≡ tree }
    {
        Held {
            tree,
            start: PhantomData,
        }
    }

    pub(crate) fn into_tree(self) -> T
        ensures { result ≡ self.tree }
    {
        let Held { tree, start: _ } = self;
        tree
    }
}
