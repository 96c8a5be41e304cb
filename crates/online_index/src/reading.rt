//! Reading what is visible: each once, in order.
ghost use Rattle.std.specs.Prelude.{◌≡◌, ◌↔◌, ◌-◌, ◌^◌, Err, IfErr, IfOk, IsOk, length, min, take};
ghost use Rattle.std.specs.Option.{option_copied};
ghost use Rattle.btree_node.specs.Above.{IsLeastAbove};
ghost use Rattle.btree_node.specs.Below.{IsGreatestBelow};
ghost use Rattle.entry_scan.specs.Backward.{left_before};
ghost use Rattle.entry_scan.specs.Ranges.{only};
ghost use Rattle.entry_scan.specs.Visible.{left_of, next_after, visible};
ghost use Rattle.online_model.specs.World.{IsBuilding};

use crate::entries::Entries;
use crate::index::OnlineIndex;
use crate::walk::Walk;
use entry_scan::{KeyRange, Page, page_back_of, page_of};
use online_model::Life;
use record_values::{Error, Key, Mark, Pair};
use std::alloc::Allocator;

impl<E: Entries, W: Walk> OnlineIndex<E, W> {
    /// The least entry whose pair comes after the given one, or the least of all. The pair is visible where it is
    /// `Live`.
    pub fn above(&self, pair: Option<&Pair>) -> Option<(Pair, Mark)>
        ensures { IsLeastAbove self.now.entries (option_copied pair.entry) result }
    {
        self.entries.above(pair)
    }

    /// The greatest entry whose pair comes before the given one, or the greatest of all. The pair is visible where it
    /// is `Live`.
    pub fn below(&self, pair: Option<&Pair>) -> Option<(Pair, Mark)>
        ensures { IsGreatestBelow self.now.entries (option_copied pair.entry) result }
    {
        self.entries.below(pair)
    }

    /// A page of the range: the first of its visible pairs after this one, in their order, as many as `limit` at most.
    /// Without a pair the page begins with the range. The next page is the one after `next`, and nothing is left where
    /// that is none.
    ///
    /// `NotBuilt` while the index is built, and `NoMemory`.
    pub fn range<B: Allocator>(
        &self,
        alloc: B,
        range: &KeyRange,
        after: Option<&Pair>,
        limit: usize,
    ) -> Result<Page<B>, Error>
        ensures pairs { IfOk result (λ page. page.pairs.items
            ≡ take limit (left_of self.now.entries range.now (option_copied after.entry))) }
        ensures next { IfOk result (λ page. page.next ≡ next_after (option_copied after.entry) limit
            (left_of self.now.entries range.now (option_copied after.entry))) }
        ensures not_built { (result ≡ Err Error.NotBuilt) ↔ IsBuilding self.now.life }
        ensures no_memory { self.now.life ≡ Life.Complete → IfErr result (λ e. e ≡ Error.NoMemory) }
    {
        match self.life {
            Life::Building { .. } => Err(Error::NotBuilt),
            Life::Complete => page_of(alloc, &self.entries, range, after, limit),
        }
    }

    /// A page of the range backward: the last of its visible pairs before this one, the last one first, as many as
    /// `limit` at most. Without a pair the page begins at the range's end. The next page is the one before `next`, and
    /// nothing is left where that is none.
    ///
    /// `NotBuilt` while the index is built, and `NoMemory`.
    pub fn range_back<B: Allocator>(
        &self,
        alloc: B,
        range: &KeyRange,
        before: Option<&Pair>,
        limit: usize,
    ) -> Result<Page<B>, Error>
        ensures pairs { IfOk result (λ page. page.pairs.items
            ≡ take limit (left_before self.now.entries range.now (option_copied before.entry))) }
        ensures next { IfOk result (λ page. page.next ≡ next_after (option_copied before.entry) limit
            (left_before self.now.entries range.now (option_copied before.entry))) }
        ensures not_built { (result ≡ Err Error.NotBuilt) ↔ IsBuilding self.now.life }
        ensures no_memory { self.now.life ≡ Life.Complete → IfErr result (λ e. e ≡ Error.NoMemory) }
    {
        match self.life {
            Life::Building { .. } => Err(Error::NotBuilt),
            Life::Complete => page_back_of(alloc, &self.entries, range, before, limit),
        }
    }

    /// A page of the visible pairs of a key, as `range` gives one of the range that has this key alone.
    pub fn find<B: Allocator>(
        &self,
        alloc: B,
        key: Key,
        after: Option<&Pair>,
        limit: usize,
    ) -> Result<Page<B>, Error>
        ensures pairs { IfOk result (λ page. page.pairs.items
            ≡ take limit (left_of self.now.entries (only key) (option_copied after.entry))) }
        ensures next { IfOk result (λ page. page.next ≡ next_after (option_copied after.entry) limit
            (left_of self.now.entries (only key) (option_copied after.entry))) }
        ensures not_built { (result ≡ Err Error.NotBuilt) ↔ IsBuilding self.now.life }
        ensures no_memory { self.now.life ≡ Life.Complete → IfErr result (λ e. e ≡ Error.NoMemory) }
    {
        self.range(alloc, &KeyRange::only(key), after, limit)
    }

    /// How many visible pairs there are in the range. It stays at 2^64 - 1, which is more than an index has places. It
    /// takes no memory, and looks at every entry of the range (no clause says so).
    ///
    /// `NotBuilt` while the index is built.
    pub fn count(&self, range: &KeyRange) -> Result<u64, Error>
        ensures count { IfOk result (λ n. n ≡ min (length (visible self.now.entries range.now)) (2 ^ 64 - 1)) }
        ensures not_built { (result ≡ Err Error.NotBuilt) ↔ IsBuilding self.now.life }
        ensures complete { self.now.life ≡ Life.Complete → IsOk result }
    {
        match self.life {
            Life::Building { .. } => Err(Error::NotBuilt),
            Life::Complete => Ok(entry_scan::count(&self.entries, range)),
        }
    }
}
