//! Ways down a tree.
ghost use Rattle.std.specs.Prelude.{◌≡◌, ℕ, ◌+◌, ◌<◌, ◌≤◌, ◌++◌, ◌==◌, length};
ghost use Rattle.smallvec.specs.SmallVec.{small_vec_len};
ghost use Rattle.btree_node.specs.Splits.{splits};
ghost use Rattle.btree_node.specs.Path.{path_of};
ghost use Rattle.node_parts.specs.Tree.{entries, depth};
ghost use Rattle.node_parts.specs.Balance.{IsTree};
ghost use Rattle.node_parts.specs.Order.{mark_in, is_below, IsAscending};
ghost use Rattle.std.specs.List.{prefix_len};

use crate::LEVELS_MAX;
use crate::inline::Inline;
use node_parts::descent::Descent;
use node_parts::{Entry, Node, NodeParts};
use record_values::{Mark, Pair, compare_pairs};
use smallvec::SmallVec;
use std::alloc::Allocator;

/// The mark of a pair in a leaf, where the pair belongs at a place.
#[tactic(auto, unfolding(node_parts::specs::Order::order))]
pub fn mark_at(row: &[Entry], at: usize, pair: &Pair) -> Option<Mark>
    requires ascending { IsAscending row.now }
    requires place { at ≡ prefix_len (λ e. is_below e.pair pair.now) row.now }
    ensures { result ≡ mark_in row.now pair.now }
{
    let entry = row.get(at)?;
    compare_pairs(&entry.pair, pair)
        .is_eq()
        .then_some(entry.mark)
}

/// The mark of a pair in the subtree that a way has reached. The way goes on to the leaf where the pair belongs.
pub fn mark_below<A: Allocator>(way: &mut Descent<'_, A>, pair: &Pair) -> Option<Mark>
    requires ascending { IsAscending (entries way.old.node) }
    requires tree { IsTree (depth way.old.node) way.old.node }
    requires some { 0 < length (entries way.old.node) }
    requires low { way.old.visits + depth way.old.node ≤ LEVELS_MAX + 1 }
    ensures found { result ≡ mark_in (entries way.old.node) pair.now }
    ensures visits { way.new.visits + 1 ≡ way.old.visits + depth way.old.node }
{
    let at = way.place(pair);
    if way.descend_to(at) {
        return mark_below(way, pair);
    }
    mark_at(way.row(), at, pair)
}

/// How many levels a subtree has.
pub fn levels<A: Allocator>(node: &Node<A>) -> u32
    requires tree { IsTree (depth node.now) node.now }
    requires some { 0 < length (entries node.now) }
    requires low { depth node.now ≤ LEVELS_MAX }
    ensures { result ≡ depth node.now }
{
    match &node.parts {
        NodeParts::Leaf(_) => 1,
        NodeParts::Inner(row) => levels(&row[0].node) + 1,
    }
}

/// Notes the places on the way to where a pair belongs, and counts the nodes that its insertion splits.
/// Beside the count, whether the top node is among them, and the mark of the pair.
pub fn way_to<A: Allocator>(
    way: &mut Descent<'_, A>,
    pair: &Pair,
    path: &mut SmallVec<usize, LEVELS_MAX, Inline>,
) -> (usize, bool, Option<Mark>)
    requires ascending { IsAscending (entries way.old.node) }
    requires tree { IsTree (depth way.old.node) way.old.node }
    requires some { 0 < length (entries way.old.node) }
    requires low { way.old.visits + depth way.old.node ≤ LEVELS_MAX + 1 }
    requires room { small_vec_len path.old + depth way.old.node ≤ path.old.capacity }
    ensures path { path.new.items ≡ path.old.items ++ path_of way.old.node pair.now }
    ensures inline { path.new.capacity ≡ path.old.capacity }
    ensures splits { result.0 ≡ splits way.old.node pair.now }
    ensures few { result.0 ≤ depth way.old.node }
    ensures all { result.1 ≡ (splits way.old.node pair.now == depth way.old.node) }
    ensures found { result.2 ≡ mark_in (entries way.old.node) pair.now }
    ensures visits { way.new.visits + 1 ≡ way.old.visits + depth way.old.node }
{
    let is_full = way.is_full();
    let at = way.place(pair);
    path.push_reserved(at);
    if way.descend_to(at) {
        let (below, all, found) = way_to(way, pair, path);
        let full = all && is_full;
        return (below + usize::from(full), full, found);
    }
    (usize::from(is_full), is_full, mark_at(way.row(), at, pair))
}
