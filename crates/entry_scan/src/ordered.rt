//! What keeps the entries of an index in order.
ghost use Rattle.std.specs.Prelude.{◌≡◌, None, Some, IfSome};
ghost use Rattle.std.specs.Option.{option_copied};
ghost use Rattle.btree_node.specs.Above.{IsLeastAbove};
ghost use Rattle.btree_node.specs.Below.{IsGreatestBelow};
ghost use Rattle.btree_node.specs.Runs.{IsRunAbove};

use btree_node::Entry;
use marked_index::MarkedIndex;
use record_values::{Mark, Pair};
use std::alloc::Allocator;

/// Entries that can be read in the order of their pairs, wherever they are kept.
pub trait OrderedEntries {
    ghost use Rattle.record_values.specs.Entries.{Index};

    ghost entries: { Self → Index };

    /// The least entry whose pair comes after the given one, or the least of all.
    fn above(&self, pair: Option<&Pair>) -> Option<(Pair, Mark)>
        ensures { IsLeastAbove (entries self.now) (option_copied pair.entry) result };

    /// The greatest entry whose pair comes before the given one, or the greatest of all.
    fn below(&self, pair: Option<&Pair>) -> Option<(Pair, Mark)>
        ensures { IsGreatestBelow (entries self.now) (option_copied pair.entry) result };

    /// Entries that come next above the pair, or are the first of all, as many as stand together where they are kept.
    /// There may be none, and then `above` is asked.
    fn run_above(&self, pair: Option<&Pair>) -> &[Entry]
        ensures { IsRunAbove (entries self.now) (option_copied pair.entry) result.now };
}

impl<A: Allocator + Clone> OrderedEntries for MarkedIndex<A> {
    ghost entries = { λ index. index.entries };

    fn above(&self, pair: Option<&Pair>) -> Option<(Pair, Mark)> {
        self.above(pair)
    }

    fn below(&self, pair: Option<&Pair>) -> Option<(Pair, Mark)> {
        self.below(pair)
    }

    fn run_above(&self, pair: Option<&Pair>) -> &[Entry] {
        self.run_above(pair)
    }
}

/// The next entry above the pair, or the first of all, with the entries above it that were read with it. They are read
/// where none of this run is left.
pub(crate) fn next_entry<'a, E: OrderedEntries>(
    index: &'a E,
    run: &'a [Entry],
    last: Option<Pair>,
) -> Option<(Entry, &'a [Entry])>
    requires run { IsRunAbove (E.entries index.now) last run.now }
    ensures next { IfSome result (λ next. IsLeastAbove (E.entries index.now) last (Some (next.0.pair, next.0.mark))) }
    ensures run { IfSome result (λ next. IsRunAbove (E.entries index.now) (Some next.0.pair) next.1.now) }
    ensures none { result ≡ None → IsLeastAbove (E.entries index.now) last None }
{
    let unseen = left_or_next(index, run, last);
    if let Some((entry, rest)) = unseen.split_first() {
        return Some((*entry, rest));
    }
    let (pair, mark) = index.above(last.as_ref())?;
    Some((Entry { pair, mark }, &[]))
}

// What is left of a run of entries above the pair, or the next run where nothing is left.
fn left_or_next<'a, E: OrderedEntries>(
    index: &'a E,
    run: &'a [Entry],
    last: Option<Pair>,
) -> &'a [Entry]
    requires { IsRunAbove (E.entries index.now) last run.now }
    ensures { IsRunAbove (E.entries index.now) last result.now }
{
    if run.is_empty() {
        index.run_above(last.as_ref())
    } else {
        run
    }
}
