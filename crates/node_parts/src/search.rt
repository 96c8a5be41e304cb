//! Places of pairs among entries and children, found by halving.
ghost use Rattle.std.specs.Prelude.{◌≡◌, ℕ, ◌≤◌, length};
ghost use Rattle.std.specs.List.{position_or_len, prefix_len};
ghost use Rattle.node_parts.specs.Order.{is_below, IsAscending};
ghost use Rattle.node_parts.specs.Seen.{AreLabelled};
ghost use Rattle.node_parts.specs.Rows.{row_entries};

use crate::{Child, Entry};
use record_values::{Pair, compare_pairs};
use std::alloc::Allocator;

/// Whether a pair comes before another.
#[tactic(auto, unfolding(crate::specs::Order::order))]
pub fn precedes(pair: &Pair, other: &Pair) -> bool
    ensures { result ≡ is_below pair.now other.now }
{
    compare_pairs(pair, other).is_lt()
}

/// How many ascending entries come before a pair. The last is looked at first, since pairs that come rising belong
/// behind it.
pub fn entry_place(row: &[Entry], pair: &Pair) -> usize
    requires ascending { IsAscending row.now }
    ensures place { result ≡ prefix_len (λ e. is_below e.pair pair.now) row.now }
    ensures in_range { result ≤ length row.now }
{
    match row.last() {
        Some(last) if precedes(&last.pair, pair) => row.len(),
        _ => row.partition_point(|entry| precedes(&entry.pair, pair)),
    }
}

/// How many children, whose entries ascend, begin at or below a pair. The last is looked at first.
pub fn child_place<A: Allocator>(row: &[Child<A>], pair: &Pair) -> usize
    requires labelled { AreLabelled row.now }
    requires ascending { IsAscending (row_entries row.now) }
    ensures place { result ≡ position_or_len (λ c. is_below pair.now c.least) row.now }
    ensures in_range { result ≤ length row.now }
{
    match row.last() {
        Some(last) if !precedes(pair, &last.least) => row.len(),
        _ => row.partition_point(|child| !precedes(pair, &child.least)),
    }
}
