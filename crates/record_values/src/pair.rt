//! Entries of the index.
ghost use Rattle.std.specs.Prelude.{◌≡◌};
ghost use Rattle.record_values.specs.Orders.{pair_cmp};

use crate::key::Key;
use crate::rid::Rid;
use std::cmp::Ordering;

/// A key, and the row that has it: what the index is about.
#[derive(Clone, Copy, Debug, PartialEq, Eq, PartialOrd, Ord)]
pub struct Pair {
    pub key: Key,
    pub rid: Rid,
}

/// The state of a pair that the index has.
#[derive(Clone, Copy, Debug, PartialEq, Eq)]
pub enum Mark {
    Live,
    Marked,
}

/// The order of pairs: by key, then by place.
pub fn compare_pairs(a: &Pair, b: &Pair) -> Ordering
    ensures { result ≡ pair_cmp a.now b.now }
{
    a.cmp(b)
}
