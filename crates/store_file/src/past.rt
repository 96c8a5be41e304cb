//! The writes and syncs of a device, which only clauses read. It has no bytes.
ghost use Rattle.std.specs.Prelude.{◌≡◌, List, [], ◌∷◌, ◌++◌};
ghost use Rattle.std.specs.Borrow.{ftrue};
ghost use Rattle.store_file.specs.Done.{Done, done_of};

use std::marker::{Model, PhantomData};

/// What was done, oldest first.
#[derive(Drop)]
pub struct Past {
    marker: PhantomData<u8>,
    pub ghost done: { List Done },
}

impl Model for Past {
    ghost also_owns = { λ _. ftrue };
}

impl Past {
    pub(crate) fn new() -> Past
        ensures { result.done ≡ [] }
    {
        Past {
            marker: PhantomData,
        }
    }

    // Notes a write of the sector whose number is given, or where none is, a sync.
    pub(crate) fn note(&mut self, _numbers: &[u64], _bytes: &[u8])
        ensures { self.new.done ≡ self.old.done ++ done_of _numbers.now _bytes.now ∷ [] }
    {}
}

unsafe impl Send for Past {}
