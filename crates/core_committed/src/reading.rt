//! Committed pairs: a page of a range, and the places of a key.
ghost use Rattle.std.specs.Prelude.{◌≡◌, ◌↔◌, Err, IfErr, IfOk, map, take};
ghost use Rattle.std.specs.Option.{option_copied};
ghost use Rattle.model.specs.Following.{IsBuilding};
ghost use Rattle.nsf_core.specs.Value.{value_of};
ghost use Rattle.core_scan.specs.Answered.{IsPageOf};
ghost use Rattle.core_scan.specs.Visible.{left_of, next_after, visible};
ghost use Rattle.core_committed.specs.Committed.{committed_index, only};

use crate::walk::next_committed;
use btree_node::Entry;
use core_scan::{KeyRange, Page, start_of};
use model::Life;
use nsf_core::Core;
use records::{Error, Key, Pair, Rid};
use std::alloc::Allocator;
use std::ops::Bound;

// The first committed pairs, so many at most, of what is left of the range behind the pair.
fn page_of<A: Allocator + Copy, B: Allocator>(
    alloc: B,
    core: &Core<A>,
    range: &KeyRange,
    after: Option<&Pair>,
    limit: usize,
) -> Result<Page<B>, Error>
    ensures pairs { IfOk result (λ page. page.pairs.items
        ≡ take limit (left_of (committed_index (value_of core.now)) range.now (option_copied after.entry))) }
    ensures next { IfOk result (λ page. page.next ≡ next_after (option_copied after.entry) limit
        (left_of (committed_index (value_of core.now)) range.now (option_copied after.entry))) }
    ensures no_memory { IfErr result (λ e. e ≡ Error.NoMemory) }
{
    let mut pairs = Vec::new(alloc);
    let mut next = after.copied();
    let mut last = start_of(range, after);
    let mut run: &[Entry] = &[];
    while let Some((entry, rest)) = next_committed(core, range, run, last) {
        if pairs.len() == limit {
            return Ok(Page { pairs, next });
        }
        pairs.push(entry.pair)?;
        next = Some(entry.pair);
        last = Some(entry.pair);
        run = rest;
    }
    Ok(Page { pairs, next: None })
}

/// A page of the range: the first of its committed pairs behind this one, in their order, as many as `limit` at most.
/// It is a page of `committed_index` as `scan` of `core_scan` makes one of the index, with the same `next`.
///
/// A committed pair is that of a committed row. An uncommitted row is left out, and a row that an active transaction
/// has changed or deleted is there as it was.
///
/// The refusals are those of `scan`.
pub fn scan_committed<A: Allocator + Copy, B: Allocator>(
    alloc: B,
    core: &Core<A>,
    range: &KeyRange,
    after: Option<&Pair>,
    limit: usize,
) -> Result<Page<B>, Error>
    ensures page { IsPageOf (committed_index (value_of core.now)) (value_of core.now).life range.now
        (option_copied after.entry) limit result }
{
    match core.life() {
        Life::Absent => Err(Error::NoIndex),
        Life::Building { .. } => Err(Error::NotBuilt),
        Life::Complete => page_of(alloc, core, range, after, limit),
    }
}

// The places of the committed rows with a key of the range, in the order of their pairs.
fn places_of<A: Allocator + Copy, B: Allocator>(
    alloc: B,
    core: &Core<A>,
    range: &KeyRange,
) -> Result<Vec<Rid, B>, Error>
    ensures found { IfOk result (λ rids. rids.items
        ≡ map (λ p. p.rid) (visible (committed_index (value_of core.now)) range.now)) }
    ensures no_memory { IfErr result (λ e. e ≡ Error.NoMemory) }
{
    let mut rids = Vec::new(alloc);
    let mut last = start_of(range, None);
    let mut run: &[Entry] = &[];
    while let Some((entry, rest)) = next_committed(core, range, run, last) {
        rids.push(entry.pair.rid)?;
        last = Some(entry.pair);
        run = rest;
    }
    Ok(rids)
}

/// The places of the committed rows with this key, ascending, each once.
///
/// `NoIndex`, then `NotBuilt` while the index is built, and `NoMemory`.
pub fn find_committed<A: Allocator + Copy, B: Allocator>(
    alloc: B,
    core: &Core<A>,
    key: Key,
) -> Result<Vec<Rid, B>, Error>
    ensures found { IfOk result (λ rids. rids.items
        ≡ map (λ p. p.rid) (visible (committed_index (value_of core.now)) (only key))) }
    ensures no_index { (result ≡ Err Error.NoIndex) ↔ ((value_of core.now).life ≡ Life.Absent) }
    ensures not_built { (result ≡ Err Error.NotBuilt) ↔ IsBuilding (value_of core.now).life }
    ensures no_memory { (value_of core.now).life ≡ Life.Complete → IfErr result (λ e. e ≡ Error.NoMemory) }
{
    let range = KeyRange {
        from: Bound::Included(key),
        to: Bound::Included(key),
    };
    match core.life() {
        Life::Absent => Err(Error::NoIndex),
        Life::Building { .. } => Err(Error::NotBuilt),
        Life::Complete => places_of(alloc, core, &range),
    }
}
