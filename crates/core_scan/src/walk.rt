//! A walk over the visible pairs of a range.
ghost use Rattle.std.specs.Prelude.{◌≡◌, ◌&&◌, [], ◌∷◌, None, Some, IfSome};
ghost use Rattle.std.specs.Option.{option_copied};
ghost use Rattle.btree_node.specs.Runs.{IsRunAbove};
ghost use Rattle.record_values.specs.declared.pair.Pair.{Pair};
ghost use Rattle.record_values.specs.Entries.{Index};
ghost use Rattle.record_values.specs.Orders.{is_above};
ghost use Rattle.nsf_core.specs.Value.{value_of};
ghost use Rattle.core_scan.specs.Visible.{left_of};

use crate::range::KeyRange;
use btree_node::Entry;
use nsf_core::Core;
use records::{Pair, compare_pairs};
use std::alloc::Allocator;

/// The entry of the next visible pair of the range behind this one, with the entries above it that were read with it.
pub(crate) fn next_visible<'a, A: Allocator + Copy>(
    core: &'a Core<A>,
    range: &KeyRange,
    run: &'a [Entry],
    after: Option<Pair>,
) -> Option<(&'a Entry, &'a [Entry])>
    requires run { IsRunAbove (value_of core.now).index.entries after run.now }
    ensures next { IfSome result (λ found. left_of (value_of core.now).index.entries range.now after
        ≡ found.0.now.pair ∷ left_of (value_of core.now).index.entries range.now (Some found.0.now.pair)) }
    ensures run { IfSome result (λ found. IsRunAbove (value_of core.now).index.entries (Some found.0.now.pair)
        found.1.now) }
    ensures none { result ≡ None → left_of (value_of core.now).index.entries range.now after ≡ [] }
{
    let mut last = after;
    let mut unseen = run;
    while let Some((entry, rest)) = core.left_or_next(unseen, last).split_first() {
        if range.shows(entry) {
            return Some((entry, rest));
        }
        if range.is_past(&entry.pair.key) {
            return None;
        }
        last = Some(entry.pair);
        unseen = rest;
    }
    None
}

// The later of two pairs; none is before all.
fn later(one: Option<Pair>, other: Option<Pair>) -> Option<Pair>
    ensures { (p : Pair) → is_above result p ≡ (is_above one p && is_above other p) }
{
    let Some(first) = one else {
        return other;
    };
    let Some(second) = other else {
        return Some(first);
    };
    if compare_pairs(&first, &second).is_lt() {
        Some(second)
    } else {
        Some(first)
    }
}

/// The pair above which a walk over what is left of the range behind a pair begins.
pub fn start_of(range: &KeyRange, after: Option<&Pair>) -> Option<Pair>
    ensures { (entries : Index) → left_of entries range.now result
        ≡ left_of entries range.now (option_copied after.entry) }
{
    later(after.copied(), range.pair_before())
}
