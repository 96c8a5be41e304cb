//! Pages of a range, and its count.
ghost use Rattle.std.specs.Prelude.{◌≡◌, ◌-◌, ◌^◌, IfOk, IfErr, length, min, take};
ghost use Rattle.std.specs.Option.{option_copied};
ghost use Rattle.entry_scan.specs.Visible.{left_of, next_after, visible};

use crate::ordered::OrderedEntries;
use crate::range::KeyRange;
use crate::walk::{next_visible, start_of};
use btree_node::Entry;
use record_values::{Error, Pair};
use std::alloc::Allocator;

/// Some visible pairs of a range, one after another.
#[derive(Drop)]
pub struct Page<A: Allocator> {
    /// The pairs, in the order in which the range is read.
    pub pairs: Vec<Pair, A>,
    /// The pair from which to go on; none where nothing is left of the range.
    pub next: Option<Pair>,
}

/// A page of the range: the first of its visible pairs after this one, in their order. There are `limit` at most, and
/// fewer only where no more are left. Without a pair the page begins with the range.
///
/// `next` is the last pair of the page, as long as the page leaves any of the range: the next page is the one after
/// it. It is none where nothing is left. A limit of 0 gives no pair; `next` is then the one of the call, and none where
/// nothing is left. So who goes on until `next` is none asks for one pair at least.
///
/// A visible pair is that of a live entry.
///
/// Let the index have live entries of the keys a, ab and c, and a marked one of b. A page of all keys with a limit of 2
/// has a and ab, and goes on after ab. The page there has c, and nothing is left.
pub fn page_of<E: OrderedEntries, B: Allocator>(
    alloc: B,
    index: &E,
    range: &KeyRange,
    after: Option<&Pair>,
    limit: usize,
) -> Result<Page<B>, Error>
    ensures pairs { IfOk result (λ page. page.pairs.items
        ≡ take limit (left_of (E.entries index.now) range.now (option_copied after.entry))) }
    ensures next { IfOk result (λ page. page.next ≡ next_after (option_copied after.entry) limit
        (left_of (E.entries index.now) range.now (option_copied after.entry))) }
    ensures no_memory { IfErr result (λ e. e ≡ Error.NoMemory) }
{
    let mut pairs = Vec::new(alloc);
    let mut next = after.copied();
    let mut last = start_of(range, after);
    let mut run: &[Entry] = &[];
    while let Some((entry, rest)) = next_visible(index, range, run, last) {
        if pairs.len() == limit {
            return Ok(Page { pairs, next });
        }
        pairs.push(entry.pair)?;
        next = Some(entry.pair);
        last = Some(entry.pair);
        run = rest;
    }
    Ok(Page { pairs, next: None })
}

/// How many visible pairs there are in the range. It stays at 2^64 - 1, which is more than an index has places.
///
/// It takes no memory, and looks at every entry of the range (no clause says so).
pub fn count<E: OrderedEntries>(index: &E, range: &KeyRange) -> u64
    ensures { result ≡ min (length (visible (E.entries index.now) range.now)) (2 ^ 64 - 1) }
{
    let mut count: u64 = 0;
    let mut last = start_of(range, None);
    let mut run: &[Entry] = &[];
    while let Some((entry, rest)) = next_visible(index, range, run, last) {
        count = count.saturating_add(1);
        last = Some(entry.pair);
        run = rest;
    }
    count
}
