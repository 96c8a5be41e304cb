//! What a store holds.
use model::Life;
use nsf_core::Core;
use records::{Mark, Pair, Rid, Row};
use std::alloc::Allocator;

/// An entry, or none.
pub type Entry = Option<(Pair, Mark)>;

/// What a store holds: the number of its last record, the rows of the first two places, how far the index is, its first
/// two entries, and how many there are, marked ones too; 1,000 where there are more.
#[derive(Clone, Copy, PartialEq)]
pub struct Contents {
    pub last: u64,
    pub rows: (Option<Row>, Option<Row>),
    pub life: Life,
    pub entries: (Entry, Entry),
    pub count: usize,
}

fn row<A: Allocator + Copy>(core: &Core<A>, rid: Rid) -> Option<Row> {
    core.get(rid)
}

// The least entry above this one, if there is one; or of all.
fn next<A: Allocator + Copy>(core: &Core<A>, entry: Entry) -> Entry {
    match entry {
        Some((pair, _)) => core.above(Some(&pair)),
        None => core.above(None),
    }
}

// How many entries there are, up to 1,000, where this is the first.
fn count_of<A: Allocator + Copy>(core: &Core<A>, first: Entry) -> usize {
    let mut entry = first;
    for count in 0..1_000 {
        if entry.is_none() {
            return count;
        }
        entry = next(core, entry);
    }
    1_000
}

// The first two entries; none behind the first where there is no first.
fn first_two<A: Allocator + Copy>(core: &Core<A>) -> (Entry, Entry) {
    let first = next(core, None);
    let second = if first.is_some() {
        next(core, first)
    } else {
        None
    };
    (first, second)
}

/// What a core holds.
pub(crate) fn contents_of<A: Allocator + Copy>(core: &Core<A>) -> Contents {
    let entries = first_two(core);
    Contents {
        last: core.last(),
        rows: (
            row(core, Rid { page: 0, slot: 0 }),
            row(core, Rid { page: 0, slot: 1 }),
        ),
        life: core.life(),
        entries,
        count: count_of(core, entries.0),
    }
}
