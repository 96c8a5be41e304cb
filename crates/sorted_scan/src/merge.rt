//! Sorted runs of pairs, merged as they are handed out.
ghost use Rattle.std.specs.Prelude.{◌≡◌, ◌+◌, ◌<◌, ◌≤◌, [], ◌∷◌, ◌++◌, Some, None, OnOk, OnErr, IfSome, IfNone};
ghost use Rattle.std.specs.Prelude.{MatchOption, length};
ghost use Rattle.std.specs.List.Sorted.{IsPermutation, IsSorted};
ghost use Rattle.std.specs.Ordering.{is_eq, eq_by_cmp};
ghost use Rattle.std.specs.Cmp.{partial_order_from_total, partial_equiv_from_equiv, eq_by_cmp_equiv};
ghost use Rattle.std.specs.Cmp.Rules.{comparing};
ghost use Rattle.std.specs.BinaryHeap.{heap_items, heap_len, heap_capacity, KeepsHeap};
ghost use Rattle.std.proofs.Common.{rules, refl};
ghost use Rattle.record_values.specs.Orders.{pair_cmp};
ghost use Rattle.sorted_scan.specs.FullRuns.{full_run, runs_of};
ghost use Rattle.sorted_scan.specs.Pairs.{least, AreSame};
ghost use Rattle.sorted_scan.specs.Merges.{run_cmp, run_cmp_total, run_pairs, pairs_in, AreSortedRuns};

use crate::abbreviated::arrange;
use record_values::{Pair, compare_pairs};
use std::alloc::{AllocError, Allocator};
use std::cmp::Ordering;
use std::collections::BinaryHeap;
use std::marker::Model;
use std::vec::IntoIter;

/// Pairs in their order: one, and those behind it.
#[derive(Drop)]
pub(crate) struct SortedRun<A: Allocator> {
    first: Pair,
    rest: IntoIter<Pair, A>,
}

impl<A: Allocator> PartialEq for SortedRun<A> {
    ghost eq = { eq_by_cmp run_cmp };

    ghost laws = { partial_equiv_from_equiv (eq_by_cmp_equiv run_cmp_total) };

    fn eq(&self, other: &SortedRun<A>) -> bool {
        compare_pairs(&other.first, &self.first).is_eq()
    }
}

impl<A: Allocator> Eq for SortedRun<A> {
    ghost laws = { eq_by_cmp_equiv run_cmp_total };
}

impl<A: Allocator> PartialOrd for SortedRun<A> {
    ghost partial_cmp = { λ a b. Some (run_cmp a b) };

    ghost laws = { partial_order_from_total run_cmp_total };

    fn partial_cmp(&self, other: &SortedRun<A>) -> Option<Ordering> {
        Some(self.cmp(other))
    }
}

/// The run whose first pair comes first is the greatest: a heap of runs has it on top.
impl<A: Allocator> Ord for SortedRun<A> {
    ghost cmp = { run_cmp };

    ghost total = { run_cmp_total };

    ghost matches_partial_cmp = { Prim.search (comparing, rules) };

    ghost matches_eq = { Prim.search (comparing, rules) };

    fn cmp(&self, other: &SortedRun<A>) -> Ordering {
        compare_pairs(&other.first, &self.first)
    }
}

impl<A: Allocator> SortedRun<A> {
    /// The run of these pairs; none of no pair.
    fn new(mut pairs: Vec<Pair, A>) -> Option<SortedRun<A>>
        ensures pairs { MatchOption result (pairs.items ≡ []) (λ run. IsPermutation pairs.items (run_pairs run)) }
        ensures sorted { IfSome result (λ run. IsSorted pair_cmp (run_pairs run)) }
    {
        pairs.sort_unstable();
        let mut rest = pairs.into_iter();
        let first = rest.next()?;
        Some(SortedRun { first, rest })
    }

    /// The run behind its first pair, if there is more of it.
    fn behind(mut self) -> Option<SortedRun<A>>
        ensures { MatchOption result (run_pairs self ≡ self.first ∷ []) (λ run.
            run_pairs self ≡ self.first ∷ run_pairs run) }
    {
        let first = self.rest.next()?;
        Some(SortedRun {
            first,
            rest: self.rest,
        })
    }
}

/// Adds the run to a heap that has room for it.
fn push_run<A: Allocator>(runs: &mut BinaryHeap<SortedRun<A>, A>, run: SortedRun<A>)
    requires room { heap_len runs.old < heap_capacity runs.old }
    ensures permutation { IsPermutation (run ∷ heap_items runs.old) (heap_items runs.new) }
    ensures heap_order { KeepsHeap run_cmp (heap_items runs.old) (heap_items runs.new) }
    ensures len { heap_len runs.new ≡ heap_len runs.old + 1 }
    ensures capacity { heap_capacity runs.old ≤ heap_capacity runs.new }
{
    match runs.push(run) {
        Ok(()) => {}
        Err(_) => unreachable!(),
    }
}

/// Adds the run of these pairs, if there are any, to a heap that has room for it.
fn push_pairs<A: Allocator>(runs: &mut BinaryHeap<SortedRun<A>, A>, pairs: Vec<Pair, A>)
    requires room { heap_len runs.old < heap_capacity runs.old }
    requires sound { AreSortedRuns (heap_items runs.old) }
    requires short { length pairs.items ≤ full_run }
    ensures added { AreSame (pairs.items ++ pairs_in (heap_items runs.old)) (pairs_in (heap_items runs.new)) }
    ensures sound { AreSortedRuns (heap_items runs.new) }
    ensures len { heap_len runs.new ≡ runs_of pairs.items + heap_len runs.old }
    ensures capacity { heap_capacity runs.old ≤ heap_capacity runs.new }
{
    match SortedRun::new(pairs) {
        Some(run) => push_run(runs, run),
        None => {}
    }
}

/// Puts what lies behind the run's first pair, if there is more of it, back into a heap that has
/// room for it.
fn push_behind<A: Allocator>(runs: &mut BinaryHeap<SortedRun<A>, A>, run: SortedRun<A>)
    requires room { heap_len runs.old < heap_capacity runs.old }
    requires sound { AreSortedRuns (heap_items runs.old) }
    requires sorted { IsSorted pair_cmp (run_pairs run) }
    requires short { length (run_pairs run) ≤ full_run }
    ensures left { AreSame (run_pairs run ++ pairs_in (heap_items runs.old))
        (run.first ∷ pairs_in (heap_items runs.new)) }
    ensures sound { AreSortedRuns (heap_items runs.new) }
    ensures len { heap_len runs.new ≤ heap_len runs.old + 1 }
{
    match run.behind() {
        Some(rest) => push_run(runs, rest),
        None => {}
    }
}

/// Pairs in sorted runs, which are handed out in their order.
#[derive(Drop)]
pub(crate) struct Merge<A: Allocator> {
    runs: BinaryHeap<SortedRun<A>, A>,
}

impl<A: Allocator> Model for Merge<A> {
    ghost use Rattle.std.specs.BinaryHeap.{heap_items, heap_len};
    ghost use Rattle.sorted_scan.specs.FullRuns.{MergeValue};
    ghost use Rattle.sorted_scan.specs.Merges.{pairs_in, AreSortedRuns};

    ghost Value = { MergeValue };

    ghost view = { λ m. record {
      pairs = pairs_in (heap_items m.runs);
      runs = heap_len m.runs;
    } };

    ghost invariant = { λ m. AreSortedRuns (heap_items m.runs) };
}

impl<A: Allocator> Merge<A> {
    pub(crate) fn new(alloc: A) -> Self
        ensures { result ≡ record { pairs = []; runs = 0 } }
    {
        Merge {
            runs: BinaryHeap::new(alloc),
        }
    }

    /// The least of the pairs.
    pub(crate) fn first(&self) -> Option<Pair>
        ensures { result ≡ least self.now.pairs }
    {
        match self.runs.peek() {
            Some(run) => Some(run.first),
            None => None,
        }
    }

    /// Hands the least of the pairs out. It takes no memory.
    pub(crate) fn take_first(&mut self) -> Option<Pair>
        ensures first { result ≡ least self.old.pairs }
        ensures others { IfSome result (λ p. AreSame self.old.pairs (p ∷ self.new.pairs)) }
        ensures runs { self.new.runs ≤ self.old.runs }
        ensures unchanged { IfNone result (self.new ≡ self.old) }
    {
        let run = self.runs.pop()?;
        let first = run.first;
        push_behind(&mut self.runs, run);
        Some(first)
    }
}

impl<A: Allocator + Copy> Merge<A> {
    /// Adds two runs, each where it has pairs: what was gathered with the last pairs of its run behind it, and those
    /// others. What is gathered next then stands in `gathered`. Where memory is refused, nothing changes.
    pub(crate) fn add(
        &mut self,
        gathered: &mut Vec<Pair, A>,
        last: &[Pair],
        others: Vec<Pair, A>,
        next: Vec<Pair, A>,
    ) -> Result<(), AllocError>
        requires short { length gathered.old.items + length last.now ≤ full_run }
        requires short_others { length others.items ≤ full_run }
        ensures added { OnOk result (AreSame (((gathered.old.items ++ last.now) ++ others.items) ++ self.old.pairs)
            self.new.pairs) }
        ensures runs { OnOk result (self.new.runs
            ≡ runs_of (gathered.old.items ++ last.now) + (runs_of others.items + self.old.runs)) }
        ensures next { OnOk result (gathered.new.items ≡ next.items) }
        ensures unchanged { OnErr result (self.new ≡ self.old) }
        ensures same_gathered { OnErr result (gathered.new.items ≡ gathered.old.items) }
    {
        self.runs.reserve(2)?;
        let len = gathered.len();
        gathered.extend_from_slice(last)?;
        if let Err(error) = arrange(gathered) {
            gathered.truncate(len);
            return Err(error);
        }
        push_pairs(&mut self.runs, std::mem::replace(gathered, next));
        push_pairs(&mut self.runs, others);
        Ok(())
    }
}
