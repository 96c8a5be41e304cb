//! The least entries above a pair, and the greatest below one.
ghost use Rattle.std.specs.Prelude.{◌≡◌, ◌<◌, length, None, Some};
ghost use Rattle.std.specs.List.{last_or};
ghost use Rattle.btree_node.specs.Above.{first_of, first_above};
ghost use Rattle.btree_node.specs.Below.{last_below};
ghost use Rattle.node_parts.specs.Tree.{entries, depth};
ghost use Rattle.node_parts.specs.Balance.{IsTree};
ghost use Rattle.node_parts.specs.Order.{IsAscending};

use node_parts::search::{entry_place, precedes};
use node_parts::{Entry, Node, NodeParts};
use record_values::Pair;
use std::alloc::Allocator;

/// The first entry of a subtree.
pub fn first_in<A: Allocator>(node: &Node<A>) -> Entry
    requires some { 0 < length (entries node.now) }
    ensures { first_of (entries node.now) ≡ Some result }
{
    match &node.parts {
        NodeParts::Leaf(row) => row[0],
        NodeParts::Inner(row) => first_in(&row[0].node),
    }
}

/// The first of ascending entries after a pair, found by halving.
fn first_after(row: &[Entry], pair: &Pair) -> Option<Entry>
    requires ascending { IsAscending row.now }
    ensures { result ≡ first_above row.now pair.now }
{
    let at = row.partition_point(|entry| !precedes(pair, &entry.pair));
    row.get(at).copied()
}

/// The first entry of a subtree after a pair.
pub fn above_in<A: Allocator>(node: &Node<A>, pair: &Pair) -> Option<Entry>
    requires ascending { IsAscending (entries node.now) }
    requires tree { IsTree (depth node.now) node.now }
    requires some { 0 < length (entries node.now) }
    ensures { result ≡ first_above (entries node.now) pair.now }
{
    let at = node.place(pair);
    match &node.parts {
        NodeParts::Leaf(row) => first_after(row, pair),
        NodeParts::Inner(row) => {
            let found = above_in(&row[at].node, pair);
            if found.is_some() || at + 1 == row.len() {
                return found;
            }
            Some(first_in(&row[at + 1].node))
        }
    }
}

/// The last entry of a subtree.
pub fn last_in<A: Allocator>(node: &Node<A>) -> Entry
    requires some { 0 < length (entries node.now) }
    ensures { last_or None (entries node.now) ≡ Some result }
{
    match &node.parts {
        NodeParts::Leaf(row) => row[row.len() - 1],
        NodeParts::Inner(row) => last_in(&row[row.len() - 1].node),
    }
}

/// The last of ascending entries before a pair, found by halving.
fn last_before(row: &[Entry], pair: &Pair) -> Option<Entry>
    requires ascending { IsAscending row.now }
    ensures { result ≡ last_below row.now pair.now }
{
    let at = entry_place(row, pair);
    if at == 0 {
        return None;
    }
    Some(row[at - 1])
}

/// The last entry of a subtree before a pair.
pub fn below_in<A: Allocator>(node: &Node<A>, pair: &Pair) -> Option<Entry>
    requires ascending { IsAscending (entries node.now) }
    requires tree { IsTree (depth node.now) node.now }
    requires some { 0 < length (entries node.now) }
    ensures { result ≡ last_below (entries node.now) pair.now }
{
    let at = node.place(pair);
    match &node.parts {
        NodeParts::Leaf(row) => last_before(row, pair),
        NodeParts::Inner(row) => {
            let found = below_in(&row[at].node, pair);
            if found.is_some() || at == 0 {
                return found;
            }
            Some(last_in(&row[at - 1].node))
        }
    }
}
