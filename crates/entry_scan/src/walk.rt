//! A walk over the visible pairs of a range.
ghost use Rattle.std.specs.Prelude.{◌≡◌, ◌&&◌, [], ◌∷◌, None, Some, IfSome};
ghost use Rattle.std.specs.Option.{option_copied};
ghost use Rattle.btree_node.specs.Runs.{IsRunAbove};
ghost use Rattle.record_values.specs.declared.pair.Pair.{Pair};
ghost use Rattle.record_values.specs.Entries.{Index};
ghost use Rattle.record_values.specs.Orders.{is_above};
ghost use Rattle.entry_scan.specs.Visible.{left_of};

use crate::ordered::{OrderedEntries, next_entry};
use crate::range::KeyRange;
use btree_node::Entry;
use record_values::{Pair, compare_pairs};

/// The entry of the next visible pair of the range after this one, with the entries above it that were read with it.
pub(crate) fn next_visible<'a, E: OrderedEntries>(
    index: &'a E,
    range: &KeyRange,
    run: &'a [Entry],
    after: Option<Pair>,
) -> Option<(Entry, &'a [Entry])>
    requires run { IsRunAbove (E.entries index.now) after run.now }
    ensures next { IfSome result (λ found. left_of (E.entries index.now) range.now after
        ≡ found.0.pair ∷ left_of (E.entries index.now) range.now (Some found.0.pair)) }
    ensures run { IfSome result (λ found. IsRunAbove (E.entries index.now) (Some found.0.pair) found.1.now) }
    ensures none { result ≡ None → left_of (E.entries index.now) range.now after ≡ [] }
{
    let mut last = after;
    let mut unseen = run;
    while let Some((entry, rest)) = next_entry(index, unseen, last) {
        if range.shows(&entry) {
            return Some((entry, rest));
        }
        if range.is_past(&entry.pair.key) {
            return None;
        }
        last = Some(entry.pair);
        unseen = rest;
    }
    None
}

// The later of two pairs; none is before all.
fn later(one: Option<Pair>, other: Option<Pair>) -> Option<Pair>
    ensures { (p : Pair) → is_above result p ≡ (is_above one p && is_above other p) }
{
    let Some(first) = one else {
        return other;
    };
    let Some(second) = other else {
        return Some(first);
    };
    if compare_pairs(&first, &second).is_lt() {
        Some(second)
    } else {
        Some(first)
    }
}

/// The pair above which a walk over what is left of the range after a pair begins.
pub fn start_of(range: &KeyRange, after: Option<&Pair>) -> Option<Pair>
    ensures { (entries : Index) → left_of entries range.now result
        ≡ left_of entries range.now (option_copied after.entry) }
{
    later(after.copied(), range.pair_before())
}
