//! A walk over the pairs of committed rows.
ghost use Rattle.std.specs.Prelude.{◌≡◌, ◌↔◌, [], ◌∷◌, None, Some, IfSome, IsTrue};
ghost use Rattle.btree_node.specs.Runs.{IsRunAbove};
ghost use Rattle.model.specs.Table.{IsPairOf};
ghost use Rattle.nsf_core.specs.Value.{value_of};
ghost use Rattle.core_laws.specs.Holds.{committed_rows};
ghost use Rattle.core_scan.specs.Visible.{is_shown, left_of};
ghost use Rattle.core_committed.specs.Committed.{committed_index, mark_in};

use crate::rows::get_committed;
use btree_node::Entry;
use core_scan::KeyRange;
use nsf_core::Core;
use records::Pair;
use std::alloc::Allocator;

// Whether there is a committed row at the pair's place, with its key.
fn is_committed<A: Allocator + Copy>(core: &Core<A>, pair: &Pair) -> bool
    ensures { IsTrue result ↔ IsPairOf (committed_rows (value_of core.now)) pair.now }
{
    match get_committed(core, pair.rid) {
        Some(row) => row.key == pair.key,
        None => false,
    }
}

// Whether the pair is that of a committed row, and its key in the range.
fn shows<A: Allocator + Copy>(core: &Core<A>, range: &KeyRange, pair: &Pair) -> bool
    ensures { result ≡ is_shown range.now (pair.now, mark_in (committed_rows (value_of core.now)) pair.now) }
{
    range.contains(&pair.key) && is_committed(core, pair)
}

/// The entry of the next pair of a committed row behind this one, with a key of the range, and the entries above it
/// that were read with it.
pub(crate) fn next_committed<'a, A: Allocator + Copy>(
    core: &'a Core<A>,
    range: &KeyRange,
    run: &'a [Entry],
    after: Option<Pair>,
) -> Option<(&'a Entry, &'a [Entry])>
    requires run { IsRunAbove (value_of core.now).index.entries after run.now }
    ensures next { IfSome result (λ found. left_of (committed_index (value_of core.now)) range.now after
        ≡ found.0.now.pair ∷ left_of (committed_index (value_of core.now)) range.now (Some found.0.now.pair)) }
    ensures run { IfSome result (λ found. IsRunAbove (value_of core.now).index.entries (Some found.0.now.pair)
        found.1.now) }
    ensures none { result ≡ None → left_of (committed_index (value_of core.now)) range.now after ≡ [] }
{
    let mut last = after;
    let mut unseen = run;
    while let Some((entry, rest)) = core.left_or_next(unseen, last).split_first() {
        if shows(core, range, &entry.pair) {
            return Some((entry, rest));
        }
        if range.is_past(&entry.pair.key) {
            return None;
        }
        last = Some(entry.pair);
        unseen = rest;
    }
    None
}
