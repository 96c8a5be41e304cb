//! The scan.
ghost use Rattle.std.specs.Prelude.{◌≡◌, ℕ, ◌+◌, ◌<◌, ◌≤◌, ◌∷◌, ◌++◌, Some, None, length, map, filter, All, OnOk, IfOk};
ghost use Rattle.std.specs.Prelude.{OnErr, IfErr, IfSome, IfNone, IsTrue, false, ◌⊎◌, []};
ghost use Rattle.std.specs.List.Sorted.{IsStrictlyIncreasing};
ghost use Rattle.record_values.specs.declared.pair.Pair.{Pair};
ghost use Rattle.sorted_scan.specs.FullRuns.{full_run, AreFull, AreFullButOne};
ghost use Rattle.sorted_scan.specs.Pairs.{AreSame};
ghost use Rattle.record_values.specs.Orders.{is_above};
ghost use Rattle.sorted_scan.specs.Runs.{ScanRun, Took, HandedOut, with_step, MayHandOut, IsAtEnd};
ghost use Rattle.sorted_scan.specs.Scans.{begun, begun_run, page_from, next_of, HasRun};

use crate::merge::Merge;
use record_values::{Error, Pair, SLOTS_PER_PAGE, compare_pairs};
use std::alloc::{AllocError, Allocator};
use std::marker::Model;

/// How many pairs a run has; the last one may have fewer.
const RUN_PAIRS: usize = 4096;

/// Whether the pair comes after this one: every pair does where there is none.
fn is_above(low: &Option<Pair>, pair: &Pair) -> bool
    ensures { result ≡ is_above low.now pair.now }
{
    match low {
        None => true,
        Some(low) => compare_pairs(low, pair).is_lt(),
    }
}

/// Those of the pairs that come after this one.
fn those_above<A: Allocator>(
    alloc: A,
    low: &Option<Pair>,
    pairs: &[Pair],
) -> Result<Vec<Pair, A>, AllocError>
    ensures items { IfOk result (λ above. above.items ≡ filter (is_above low.now) pairs.now) }
    ensures few { IfOk result (λ above. length above.items ≤ length pairs.now) }
{
    let mut above = Vec::with_capacity(alloc, pairs.len())?;
    for pair in pairs {
        if is_above(low, pair) {
            above.push(*pair)?;
        }
    }
    Ok(above)
}

/// Takes those of the pairs that are past the first so many out.
fn cut<A: Allocator + Copy>(
    alloc: A,
    pairs: &mut Vec<Pair, A>,
    room: usize,
) -> Result<Vec<Pair, A>, AllocError>
    ensures all { IfOk result (λ behind. pairs.old.items ≡ pairs.new.items ++ behind.items) }
    ensures few { OnOk result (length pairs.new.items ≤ room) }
    ensures full { IfOk result (λ behind. length behind.items ≡ 0 ⊎ length pairs.new.items ≡ room) }
{
    if room < pairs.len() {
        pairs.split_off(room)
    } else {
        Ok(Vec::new(alloc))
    }
}

/// Gathers the pairs as well, while pages follow in room for a whole run. One that is full goes to the merge as it lies
/// there, and with the last pairs also one that is not: till then each run is full, and at the end each but that one.
fn gather<A: Allocator + Copy>(
    alloc: A,
    gathered: &mut Vec<Pair, A>,
    merge: &mut Merge<A>,
    mut pairs: Vec<Pair, A>,
    is_last: bool,
) -> Result<(), AllocError>
    requires open_run { length gathered.old.items < full_run }
    requires few { length pairs.items < full_run }
    requires full { AreFull merge.old }
    ensures added { OnOk result (AreSame (pairs.items ++ (gathered.old.items ++ merge.old.pairs))
        (gathered.new.items ++ merge.new.pairs)) }
    ensures open_run { OnOk result (length gathered.new.items < full_run) }
    ensures full { OnOk result (is_last ≡ false → AreFull merge.new) }
    ensures one_short { OnOk result (AreFullButOne merge.new) }
    ensures merged_all { OnOk result (IsTrue is_last → gathered.new.items ≡ []) }
    ensures same_gathered { OnErr result (gathered.new.items ≡ gathered.old.items) }
    ensures same_merge { OnErr result (merge.new ≡ merge.old) }
{
    let room = RUN_PAIRS - gathered.len();
    if !is_last && pairs.len() < room {
        gathered.reserve(room)?;
        return gathered.extend_from_slice(&pairs);
    }
    let behind = cut(alloc, &mut pairs, room)?;
    if is_last {
        merge.add(gathered, &pairs, behind, Vec::new(alloc))
    } else {
        merge.add(gathered, &pairs, Vec::new(alloc), behind)
    }
}

/// The pairs of the table's rows above a start, in their order, as the pages give them.
///
/// A scan asks for pages, from page 0 on, until it has a pair to hand out or is at its end. A pair
/// that each taking of its page gave comes in its turn; one that some taking did not give may come
/// or not.
#[derive(Drop)]
pub struct Scan<A: Allocator> {
    alloc: A,
    pages: u32,
    // the page to be taken next: as many as there are where none is
    next_page: u32,
    // the pair handed out last, else the start
    last: Option<Pair>,
    // how many pairs wait
    remaining: usize,
    // the pairs of the run that is not yet full: none once the last page was taken
    gathered: Vec<Pair, A>,
    // the pairs of the full runs
    merge: Merge<A>,
}

impl<A: Allocator> Model for Scan<A> {
    ghost use Rattle.std.specs.Prelude.{◌++◌};
    ghost use Rattle.sorted_scan.specs.Scans.{ScanValue, page_from, IsSoundScan};

    ghost Value = { ScanValue };

    ghost view = { λ s. record {
      pages = s.pages;
      last = s.last;
      wanted = page_from s.pages s.next_page;
      waiting = s.gathered.items ++ s.merge.pairs;
    } };

    ghost invariant = { λ s. IsSoundScan s.pages s.next_page s.last s.remaining s.gathered.items s.merge };
}

impl<A: Allocator + Copy> Scan<A> {
    /// A scan of so many pages, for the pairs above the given one, or for all. It takes no memory.
    pub fn new(alloc: A, above: Option<Pair>, pages: u32) -> Self
        ensures made { result ≡ begun above pages }
        ensures run { HasRun result (begun_run above pages) }
    {
        Scan {
            alloc,
            pages,
            next_page: 0,
            last: above,
            remaining: 0,
            gathered: Vec::new(alloc),
            merge: Merge::new(alloc),
        }
    }

    /// The page that is to be taken next; none where a pair is to be handed out, or at the end.
    pub fn wants_page(&self) -> Option<u32>
        ensures page { result ≡ self.now.wanted }
        ensures inside { IfSome result (λ n. n < self.now.pages) }
    {
        if self.next_page < self.pages {
            Some(self.next_page)
        } else {
            None
        }
    }

    /// Takes the page that is wanted, with the pairs of its rows as they are now, in the order of
    /// their slots.
    ///
    /// All memory is taken here: to hand pairs out takes none. The one error is `NoMemory`, and the
    /// scan is then as before.
    pub fn take_page(&mut self, page: u32, pairs: &[Pair]) -> Result<(), Error>
        requires wanted { self.old.wanted ≡ Some page }
        requires few { length pairs.now ≤ SLOTS_PER_PAGE }
        requires own { All (λ p. p.rid.page ≡ page) pairs.now }
        requires in_slot_order { IsStrictlyIncreasing (map (λ p. p.rid.slot) pairs.now) }
        ensures run { OnOk result ((r : ScanRun) → HasRun self.old r
            → HasRun self.new (with_step r (Took page pairs.now))) }
        ensures wanted { OnOk result (self.new.wanted ≡ page_from self.old.pages (page + 1)) }
        ensures place { OnOk result (self.new ≡ record self.old {
          wanted = self.new.wanted;
          waiting = self.new.waiting;
        }) }
        ensures waiting { OnOk result (AreSame
            (filter (is_above self.old.last) pairs.now ++ self.old.waiting) self.new.waiting) }
        ensures no_memory { IfErr result (λ e. e ≡ Error.NoMemory) }
        ensures unchanged { OnErr result (self.new ≡ self.old) }
    {
        let above = those_above(self.alloc, &self.last, pairs)?;
        let added = above.len();
        let is_last = page + 1 == self.pages;
        gather(
            self.alloc,
            &mut self.gathered,
            &mut self.merge,
            above,
            is_last,
        )?;
        self.remaining += added;
        self.next_page = page + 1;
        Ok(())
    }

    /// The pair that is to be handed out next; none while a page is wanted, and at the end.
    ///
    /// The scan stays as it is, so that the pair is not lost where what is done with it is refused.
    pub fn next(&self) -> Option<Pair>
        ensures pair { result ≡ next_of self.now }
        ensures next { IfSome result (λ p. (r : ScanRun) → HasRun self.now r → MayHandOut r p) }
        ensures end { IfNone result (self.now.wanted ≡ None
            → (r : ScanRun) → HasRun self.now r → IsAtEnd r) }
    {
        if self.next_page < self.pages {
            return None;
        }
        self.merge.first()
    }

    /// Hands the next pair out, if there is one, and goes on behind it. It takes no memory.
    pub fn hand_out(&mut self) -> Option<Pair>
        ensures pair { result ≡ next_of self.old }
        ensures run { IfSome result (λ p. (r : ScanRun) → HasRun self.old r
            → HasRun self.new (with_step r (HandedOut p))) }
        ensures place { IfSome result (λ p. self.new ≡ record self.old {
          last = Some p;
          waiting = self.new.waiting;
        }) }
        ensures waiting { IfSome result (λ p. AreSame self.old.waiting (p ∷ self.new.waiting)) }
        ensures unchanged { IfNone result (self.new ≡ self.old) }
    {
        if self.next_page < self.pages {
            return None;
        }
        let pair = self.merge.take_first()?;
        self.remaining -= 1;
        self.last = Some(pair);
        self.last
    }

    /// The pair handed out last; before the first one, that which the scan began above, if any.
    pub fn last(&self) -> Option<Pair>
        ensures { result ≡ self.now.last }
    {
        self.last
    }

    /// How many pairs wait to be handed out.
    pub fn remaining(&self) -> usize
        ensures { result ≡ length self.now.waiting }
    {
        self.remaining
    }
}
