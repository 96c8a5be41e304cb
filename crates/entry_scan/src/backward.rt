//! A range backward, a page at a time.
ghost use Rattle.std.specs.Prelude.{◌≡◌, ◌&&◌, [], ◌∷◌, None, Some, IfErr, IfOk, IfSome, take};
ghost use Rattle.std.specs.Option.{option_copied};
ghost use Rattle.btree_node.specs.Below.{IsGreatestBelow};
ghost use Rattle.record_values.specs.declared.pair.Pair.{Pair};
ghost use Rattle.record_values.specs.Entries.{Index};
ghost use Rattle.entry_scan.specs.Backward.{is_before, left_before};
ghost use Rattle.entry_scan.specs.Visible.{next_after};

use crate::ordered::OrderedEntries;
use crate::range::KeyRange;
use crate::reading::Page;
use btree_node::Entry;
use record_values::{Error, Pair, compare_pairs};
use std::alloc::Allocator;

// The last entry before the pair, or the last of all.
fn entry_before<E: OrderedEntries>(index: &E, before: Option<Pair>) -> Option<Entry>
    ensures entry { IfSome result (λ e. IsGreatestBelow (E.entries index.now) before
        (Some (e.pair, e.mark))) }
    ensures none { result ≡ None → IsGreatestBelow (E.entries index.now) before None }
{
    let (pair, mark) = index.below(before.as_ref())?;
    Some(Entry { pair, mark })
}

// The entry of the next visible pair of the range before this one.
fn visible_before<E: OrderedEntries>(
    index: &E,
    range: &KeyRange,
    before: Option<Pair>,
) -> Option<Entry>
    ensures next { IfSome result (λ e. left_before (E.entries index.now) range.now before
        ≡ e.pair ∷ left_before (E.entries index.now) range.now (Some e.pair)) }
    ensures none { result ≡ None → left_before (E.entries index.now) range.now before ≡ [] }
{
    let mut last = before;
    while let Some(entry) = entry_before(index, last) {
        if range.shows(&entry) {
            return Some(entry);
        }
        if !range.has_begun(&entry.pair.key) {
            return None;
        }
        last = Some(entry.pair);
    }
    None
}

// The earlier of two pairs; none is after all.
fn earlier(one: Option<Pair>, other: Option<Pair>) -> Option<Pair>
    ensures { (p : Pair) → is_before result p ≡ (is_before one p && is_before other p) }
{
    let Some(first) = one else {
        return other;
    };
    let Some(second) = other else {
        return Some(first);
    };
    if compare_pairs(&second, &first).is_lt() {
        Some(second)
    } else {
        Some(first)
    }
}

// The pair below which a walk backward over what is left of the range before a pair begins.
fn end_of(range: &KeyRange, before: Option<&Pair>) -> Option<Pair>
    ensures { (entries : Index) → left_before entries range.now result
        ≡ left_before entries range.now (option_copied before.entry) }
{
    earlier(before.copied(), range.pair_behind())
}

/// A page of the range backward: the last of its visible pairs before this one, the last one first. There are `limit`
/// at most, and fewer only where no more are left. Without a pair the page begins at the range's end.
///
/// `next` is the last pair of the page, which is the least, as long as the page leaves any of the range: the next page
/// is the one before it. It is none where nothing is left. A limit of 0 gives no pair, and `next` is then `before`.
///
/// Let the index have live entries of the keys a, ab and c, and a marked one of b. A page backward of all keys with a
/// limit of 2 has c and ab, and goes on before ab. The page there has a, and nothing is left.
pub fn page_back_of<E: OrderedEntries, B: Allocator>(
    alloc: B,
    index: &E,
    range: &KeyRange,
    before: Option<&Pair>,
    limit: usize,
) -> Result<Page<B>, Error>
    ensures pairs { IfOk result (λ page. page.pairs.items
        ≡ take limit (left_before (E.entries index.now) range.now (option_copied before.entry))) }
    ensures next { IfOk result (λ page. page.next ≡ next_after (option_copied before.entry) limit
        (left_before (E.entries index.now) range.now (option_copied before.entry))) }
    ensures no_memory { IfErr result (λ e. e ≡ Error.NoMemory) }
{
    let mut pairs = Vec::new(alloc);
    let mut next = before.copied();
    let mut last = end_of(range, before);
    while let Some(entry) = visible_before(index, range, last) {
        if pairs.len() == limit {
            return Ok(Page { pairs, next });
        }
        pairs.push(entry.pair)?;
        next = Some(entry.pair);
        last = Some(entry.pair);
    }
    Ok(Page { pairs, next: None })
}
