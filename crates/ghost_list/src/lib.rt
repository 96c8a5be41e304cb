//! A list that only clauses read. It has no bytes, and what is noted in it takes no memory.
//!
//! Proved: a new list is empty, and a list with one item more has the items of the one before, in order, and that item
//! behind them. Nothing else makes a list: who has one knows by the clauses of the calls that it came from what it has.
#![tactic(auto)]

ghost use Rattle.std.specs.Prelude.{◌≡◌, List, [], ◌∷◌, ◌++◌};
ghost use Rattle.std.specs.Borrow.{ftrue};

use std::marker::{Model, PhantomData};

/// A list of what values of `T` show to clauses, the oldest first.
#[derive(Drop)]
pub struct GhostList<T> {
    marker: PhantomData<T>,
    pub ghost items: { List T },
}

impl<T> Model for GhostList<T> {
    ghost also_owns = { λ _. ftrue };
}

impl<T> GhostList<T> {
    /// The list of nothing.
    pub fn new() -> GhostList<T>
        ensures { result.items ≡ [] }
    {
        GhostList {
            marker: PhantomData,
        }
    }

    /// The list with one item more, behind the others.
    pub fn and(&self, item: &T) -> GhostList<T>
        ensures { result.items ≡ self.now.items ++ item.now ∷ [] }
    {
        let _ = item;
        GhostList {
            marker: PhantomData,
        }
    }
}

unsafe impl<T> Send for GhostList<T> {}

unsafe impl<T> Sync for GhostList<T> {}
