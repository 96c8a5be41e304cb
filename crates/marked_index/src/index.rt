//! The index.
ghost use Rattle.std.specs.Prelude.{◌≡◌, ◌⊎◌, [], ◌+◌, ◌-◌, ◌<◌, ◌≤◌, ◌↔◌, None, Some, Contains, IfOk, IfErr, IsErr};
ghost use Rattle.std.specs.Prelude.{IsOk, IsSome, IsTrue, OnErr, OnOk, false};
ghost use Rattle.std.specs.FinMap as map;
ghost use Rattle.std.specs.List.{AllPairs};
ghost use Rattle.std.specs.Option.{option_copied};
ghost use Rattle.std.specs.declared.cmp.Ordering.{Ordering};
ghost use Rattle.record_values.specs.Maps.{set_at};
ghost use Rattle.record_values.specs.Orders.{rid_cmp};
ghost use Rattle.record_values.specs.Values.{Place};
ghost use Rattle.record_values.specs.declared.key_action.KeyAction.{KeyAction};
ghost use Rattle.btree_node.specs.Above.{IsLeastAbove};
ghost use Rattle.btree_node.specs.Below.{IsGreatestBelow};
ghost use Rattle.btree_node.specs.Contents.{contents};
ghost use Rattle.btree_node.specs.Runs.{IsRunAbove};
ghost use Rattle.marked_index.specs.Counts.{live_in, marked_in};
ghost use Rattle.marked_index.specs.Index.{IsWithinCapacity, IsFull, IsAbsent, entries_after, pledges_used};
ghost use Rattle.marked_index.specs.Index.{after_txn_action};
ghost use Rattle.marked_index.specs.Shown.{IsNextOf, mark_at};

use crate::entries::Entries;
use btree_node::{Cleared, ENTRIES_MAX, Entry};
use record_values::{Error, Geometry, Key, Mark, PLACES_PER_CHANGE, Pair, Rid};
use std::alloc::Allocator;
use std::marker::Model;

/// The place before all others.
const FIRST: Rid = Rid { page: 0, slot: 0 };

/// What a step of a transaction met.
#[derive(Clone, Copy, Debug, PartialEq, Eq)]
pub enum Stepped {
    /// There was no entry. One was added, in a pledged place.
    Added,
    /// There was an entry.
    Found,
}

/// What became of the builder's pair.
#[derive(Clone, Copy, Debug, PartialEq, Eq)]
pub enum Built {
    /// It has a live entry now.
    Placed,
    /// It had an entry already, live or marked, which stays as it was.
    Rejected,
}

/// The entries of the index, and the places that are pledged to changes under way.
///
/// Entries and pledged places together are never more than the index has room for: a change that
/// has pledged its places is never refused for want of room, and neither is its undoing.
#[derive(Drop)]
pub struct MarkedIndex<A: Allocator> {
    entries: Entries<A>,
    // how many places are pledged and not used yet
    pledged: usize,
    // how many entries there is room for
    capacity: usize,
}

impl<A: Allocator> Model for MarkedIndex<A> {
    ghost use Rattle.marked_index.specs.Index.{IndexValue, coded_index, IsWithinCapacity};

    ghost Value = { IndexValue };

    ghost coded = { coded_index };

    ghost view = { λ i. record { entries = i.entries; pledged = i.pledged; capacity = i.capacity } };

    ghost invariant = { λ i. IsWithinCapacity (record {
      entries = i.entries;
      pledged = i.pledged;
      capacity = i.capacity;
    }) };
}

impl<A: Allocator + Clone> MarkedIndex<A> {
    /// An index without entries, with room for as many as the geometry says.
    ///
    /// It takes no memory.
    pub fn new(alloc: A, geometry: Geometry) -> Self
        ensures { result ≡ record { entries = map.empty; pledged = 0; capacity = geometry.entries } }
    {
        MarkedIndex {
            entries: Entries::new(alloc),
            pledged: 0,
            capacity: geometry.entries as usize,
        }
    }

    /// An index without entries, with room for so many: as many as a tree can have, at most.
    ///
    /// It takes no memory.
    pub fn with_room(alloc: A, capacity: usize) -> Self
        requires { capacity ≤ ENTRIES_MAX }
        ensures { result ≡ record { entries = map.empty; pledged = 0; capacity = capacity } }
    {
        MarkedIndex {
            entries: Entries::new(alloc),
            pledged: 0,
            capacity,
        }
    }

    /// A law: what the type keeps. Entries and pledged places are within the capacity.
    pub fn stands(&self)
        ensures { IsWithinCapacity self.now }
    {
        // a look at a field, so that what the type keeps is at hand
        let _ = &self.pledged;
    }

    /// How many entries there are.
    pub fn len(&self) -> usize
        ensures len { result ≡ map.len self.now.entries }
        ensures room { IsWithinCapacity self.now }
    {
        self.entries.len()
    }

    /// Whether there is no entry.
    pub fn is_empty(&self) -> bool
        ensures { IsTrue result ↔ (self.now.entries ≡ map.empty) }
    {
        self.entries.is_empty()
    }

    /// How many entries are marked. The others are live.
    pub fn marked(&self) -> usize
        ensures number { result ≡ marked_in self.now.entries }
        ensures live { map.len self.now.entries - result ≡ live_in self.now.entries }
    {
        self.entries.marked()
    }

    /// How many entries and pledged places there is room for.
    pub fn capacity(&self) -> usize
        ensures { result ≡ self.now.capacity }
    {
        self.capacity
    }

    /// How many places are pledged and not used yet.
    pub fn pledged(&self) -> usize
        ensures pledged { result ≡ self.now.pledged }
        ensures room { IsWithinCapacity self.now }
    {
        self.pledged
    }

    /// The mark of a pair, if it has an entry.
    pub fn get(&self, pair: &Pair) -> Option<Mark>
        ensures { result ≡ map.get self.now.entries pair.now }
    {
        self.entries.get(pair)
    }

    /// The least entry whose pair comes after the given one, or the least of all.
    pub fn above(&self, pair: Option<&Pair>) -> Option<(Pair, Mark)>
        ensures { IsLeastAbove self.now.entries (option_copied pair.entry) result }
    {
        self.entries.above(pair)
    }

    /// The greatest entry whose pair comes before the given one, or the greatest of all.
    pub fn below(&self, pair: Option<&Pair>) -> Option<(Pair, Mark)>
        ensures { IsGreatestBelow self.now.entries (option_copied pair.entry) result }
    {
        self.entries.below(pair)
    }

    /// The next entries above the pair, or the first of all: some that stand together, in order. There is none only
    /// where none is above.
    pub fn run_above(&self, pair: Option<&Pair>) -> &[Entry]
        ensures run { IsRunAbove self.now.entries (option_copied pair.entry) result.now }
        ensures none { result.now ≡ [] → IsLeastAbove self.now.entries (option_copied pair.entry) None }
    {
        self.entries.run_above(pair)
    }

    /// Sets the entry of a pair, or takes it out, as a restart does with what it reads.
    ///
    /// `IndexFull` where it would add an entry and every place is taken or pledged, else
    /// `NoMemory`, which too comes only where an entry is to be added.
    pub fn load(&mut self, pair: &Pair, mark: Option<Mark>) -> Result<(), Error>
        ensures ok { OnOk result (self.new ≡
            record self.old { entries = set_at self.old.entries pair.now mark }) }
        ensures full { (result ≡ Err Error.IndexFull) ↔
            (IsSome mark × IsAbsent self.old.entries pair.now × IsFull self.old) }
        ensures refused { IfErr result (λ e. IsSome mark × IsAbsent self.old.entries pair.now
            × ((e ≡ Error.IndexFull) ⊎ (e ≡ Error.NoMemory))) }
        ensures unchanged { OnErr result (self.new ≡ self.old) }
    {
        let Some(mark) = mark else {
            self.take_out(pair);
            return Ok(());
        };
        if self.lacks_place(pair) {
            return Err(Error::IndexFull);
        }
        self.entries.set(pair, mark)?;
        Ok(())
    }

    // Takes the entry of a pair out, if it has one.
    fn take_out(&mut self, pair: &Pair)
        ensures { self.new ≡ record self.old { entries = map.remove self.old.entries pair.now } }
    {
        if let Some(mark) = self.get(pair) {
            self.entries.remove(pair, mark);
        }
    }

    // Whether a pair has no entry, and every place for one is taken or pledged.
    fn lacks_place(&self, pair: &Pair) -> bool
        ensures { IsTrue result ↔ (IsAbsent self.now.entries pair.now × IsFull self.now) }
    {
        self.is_full() && self.get(pair).is_none()
    }

    /// Makes the entry of a pair live, as a transaction does; a pair that has none gets one, in a
    /// pledged place, which `get` and `pledged` can tell of before.
    ///
    /// The one error is `NoMemory`, and it comes only where an entry is to be added.
    pub fn txn_put(&mut self, pair: &Pair) -> Result<Stepped, Error>
        requires place { IsAbsent self.old.entries pair.now → 0 < self.old.pledged }
        ensures ok { OnOk result (self.new ≡ after_txn_action self.old KeyAction.TxnPut pair.now) }
        ensures added { IfOk result (λ s. (s ≡ Stepped.Added) ↔ IsAbsent self.old.entries pair.now) }
        ensures no_memory { IfErr result (λ e. (e ≡ Error.NoMemory) × IsAbsent self.old.entries pair.now) }
        ensures unchanged { OnErr result (self.new ≡ self.old) }
    {
        self.step(pair, Mark::Live)
    }

    /// Marks the entry of a pair, as a transaction does; a pair that has none gets a marked one, in a
    /// pledged place, which `get` and `pledged` can tell of before.
    ///
    /// The one error is `NoMemory`, and it comes only where an entry is to be added.
    pub fn txn_mark(&mut self, pair: &Pair) -> Result<Stepped, Error>
        requires place { IsAbsent self.old.entries pair.now → 0 < self.old.pledged }
        ensures ok { OnOk result (self.new ≡ after_txn_action self.old KeyAction.TxnMark pair.now) }
        ensures added { IfOk result (λ s. (s ≡ Stepped.Added) ↔ IsAbsent self.old.entries pair.now) }
        ensures no_memory { IfErr result (λ e. (e ≡ Error.NoMemory) × IsAbsent self.old.entries pair.now) }
        ensures unchanged { OnErr result (self.new ≡ self.old) }
    {
        self.step(pair, Mark::Marked)
    }

    // Gives the entry of a pair this mark; one that is absent is added in a pledged place.
    fn step(&mut self, pair: &Pair, mark: Mark) -> Result<Stepped, Error>
        requires place { IsAbsent self.old.entries pair.now → 0 < self.old.pledged }
        ensures ok { OnOk result (self.new ≡ record self.old {
          entries = map.insert self.old.entries pair.now mark;
          pledged = self.old.pledged - pledges_used (map.get self.old.entries pair.now);
        }) }
        ensures added { IfOk result (λ s. (s ≡ Stepped.Added) ↔ IsAbsent self.old.entries pair.now) }
        ensures no_memory { IfErr result (λ e. (e ≡ Error.NoMemory) × IsAbsent self.old.entries pair.now) }
        ensures unchanged { OnErr result (self.new ≡ self.old) }
    {
        let is_added = self.entries.set(pair, mark)?;
        if !is_added {
            return Ok(Stepped::Found);
        }
        self.pledged -= 1;
        Ok(Stepped::Added)
    }

    /// Puts a pair in, live, as the builder does: one that has an entry is rejected.
    ///
    /// `IndexFull` where the pair has no entry and every place is taken or pledged, else
    /// `NoMemory`, which too comes only where an entry is to be added.
    pub fn build_put(&mut self, pair: &Pair) -> Result<Built, Error>
        ensures ok { OnOk result (self.new ≡
            record self.old { entries = entries_after self.old.entries KeyAction.BuildPut pair.now }) }
        ensures placed { IfOk result (λ b. (b ≡ Built.Placed) ↔ IsAbsent self.old.entries pair.now) }
        ensures full { (result ≡ Err Error.IndexFull) ↔
            (IsAbsent self.old.entries pair.now × IsFull self.old) }
        ensures refused { IfErr result (λ e. IsAbsent self.old.entries pair.now
            × ((e ≡ Error.IndexFull) ⊎ (e ≡ Error.NoMemory))) }
        ensures unchanged { OnErr result (self.new ≡ self.old) }
    {
        if self.lacks_place(pair) {
            return Err(Error::IndexFull);
        }
        let is_added = self.entries.put_absent(pair)?;
        if is_added {
            return Ok(Built::Placed);
        }
        Ok(Built::Rejected)
    }

    // How many places are taken or pledged.
    fn taken(&self) -> usize
        ensures taken { result ≡ map.len self.now.entries + self.now.pledged }
        ensures room { IsWithinCapacity self.now }
    {
        self.len() + self.pledged
    }

    /// Takes the entry of a pair out where it is marked and that is allowed, as the cleaner does,
    /// and says whether it did.
    ///
    /// It takes no memory.
    pub fn clean(&mut self, pair: &Pair, allowed: bool) -> bool
        ensures entries { self.new ≡
            record self.old { entries = entries_after self.old.entries (KeyAction.Clean allowed) pair.now } }
        ensures taken_out { IsTrue result ↔
            (IsTrue allowed × (map.get self.old.entries pair.now ≡ Some Mark.Marked)) }
    {
        let is_marked = self.get(pair) == Some(Mark::Marked);
        let takes_out = is_marked && allowed;
        if takes_out {
            self.entries.remove(pair, Mark::Marked);
        }
        takes_out
    }

    /// Takes every entry out; the places that are pledged stay so. The entries are answered, in the memory that they
    /// have: it is freed where the caller lets them go.
    ///
    /// It takes no memory.
    pub fn clear(&mut self) -> Cleared<A>
        ensures cleared { self.new ≡ record self.old { entries = map.empty } }
        ensures taken { contents result ≡ self.old.entries }
    {
        self.entries.take()
    }

    /// Whether there is room for the places of one more change, so that `pledge` won't refuse.
    pub fn can_pledge(&self) -> bool
        ensures { IsTrue result ↔
            (map.len self.now.entries + self.now.pledged + PLACES_PER_CHANGE ≤ self.now.capacity) }
    {
        self.taken() + PLACES_PER_CHANGE as usize <= self.capacity
    }

    /// Whether every place is taken or pledged.
    pub fn is_full(&self) -> bool
        ensures { IsTrue result ↔ IsFull self.now }
    {
        self.taken() >= self.capacity
    }

    /// Pledges the places of one more change.
    ///
    /// `IndexFull` where there are not so many beside the entries and the places pledged before.
    pub fn pledge(&mut self) -> Result<(), Error>
        ensures ok { OnOk result (self.new ≡
            record self.old { pledged = self.old.pledged + PLACES_PER_CHANGE }) }
        ensures full { IsErr result ↔
            (self.old.capacity < map.len self.old.entries + self.old.pledged + PLACES_PER_CHANGE) }
        ensures index_full { IfErr result (λ e. e ≡ Error.IndexFull) }
        ensures unchanged { OnErr result (self.new ≡ self.old) }
    {
        let places = PLACES_PER_CHANGE as usize;
        if self.taken() + places > self.capacity {
            return Err(Error::IndexFull);
        }
        self.pledged += places;
        Ok(())
    }

    /// Gives so many pledged places back, which were not used.
    pub fn release(&mut self, places: usize)
        requires { places ≤ self.old.pledged }
        ensures { self.new ≡ record self.old { pledged = self.old.pledged - places } }
    {
        self.pledged -= places;
    }

    /// The places of the live entries of a key, ascending.
    ///
    /// The one error is `NoMemory`.
    pub fn shown_of<B: Allocator>(&self, alloc: B, key: Key) -> Result<Vec<Rid, B>, Error>
        ensures ascending { IfOk result (λ rids.
            AllPairs (λ r s. rid_cmp r s ≡ Ordering.Less) rids.items) }
        ensures each { IfOk result (λ rids. (r : Place) →
            Contains rids.items r ↔ (mark_at self.now.entries key r ≡ Some Mark.Live)) }
        ensures no_memory { IfErr result (λ e. e ≡ Error.NoMemory) }
    {
        let mut shown = Vec::new(alloc);
        let mut next = self.first_of(key);
        while let Some(entry) = next {
            let (rid, mark) = entry;
            if mark == Mark::Live {
                shown.push(rid)?;
            }
            next = self.next_of(key, rid);
        }
        Ok(shown)
    }

    // The first entry of a key, and its mark.
    fn first_of(&self, key: Key) -> Option<(Rid, Mark)>
        ensures { IsNextOf self.now.entries key None result }
    {
        let first = Pair { key, rid: FIRST };
        match self.get(&first) {
            Some(mark) => Some((FIRST, mark)),
            None => self.next_of(key, FIRST),
        }
    }

    // The first entry of a key after a place, and its mark.
    fn next_of(&self, key: Key, rid: Rid) -> Option<(Rid, Mark)>
        ensures { IsNextOf self.now.entries key (Some rid) result }
    {
        let (pair, mark) = self.above(Some(&Pair { key, rid }))?;
        (pair.key == key).then_some((pair.rid, mark))
    }
}
