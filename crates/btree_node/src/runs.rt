//! Entries in order, a run of them at a time: those that stand together in a leaf.
ghost use Rattle.std.specs.Prelude.{◌≡◌, ◌<◌, [], length, None};
ghost use Rattle.std.specs.Option.{option_copied};
ghost use Rattle.btree_node.specs.Above.{IsLeastAbove};
ghost use Rattle.btree_node.specs.Contents.{contents};
ghost use Rattle.btree_node.specs.Runs.{IsFront, IsRunAbove, all_above};
ghost use Rattle.node_parts.specs.Tree.{entries, depth};
ghost use Rattle.node_parts.specs.Balance.{IsTree};
ghost use Rattle.node_parts.specs.Order.{IsAscending};

use crate::BTree;
use node_parts::search::precedes;
use node_parts::{Entry, Node, NodeParts};
use record_values::Pair;
use std::alloc::Allocator;

/// The entries of a subtree's first leaf.
fn first_run<A: Allocator>(node: &Node<A>) -> &[Entry]
    requires some { 0 < length (entries node.now) }
    ensures { IsFront (entries node.now) result.now }
{
    match &node.parts {
        NodeParts::Leaf(row) => row.as_slice(),
        NodeParts::Inner(row) => first_run(&row[0].node),
    }
}

/// Those of ascending entries that come after a pair, found by halving.
fn rest_above<'a>(row: &'a [Entry], pair: &Pair) -> &'a [Entry]
    requires ascending { IsAscending row.now }
    ensures { result.now ≡ all_above row.now pair.now }
{
    let at = row.partition_point(|entry| !precedes(pair, &entry.pair));
    &row[at..]
}

/// What comes after a pair in the first leaf of a subtree that has such an entry.
fn run_in<'a, A: Allocator>(node: &'a Node<A>, pair: &Pair) -> &'a [Entry]
    requires ascending { IsAscending (entries node.now) }
    requires tree { IsTree (depth node.now) node.now }
    requires some { 0 < length (entries node.now) }
    ensures { IsFront (all_above (entries node.now) pair.now) result.now }
{
    let at = node.place(pair);
    match &node.parts {
        NodeParts::Leaf(row) => rest_above(row, pair),
        NodeParts::Inner(row) => {
            let found = run_in(&row[at].node, pair);
            if !found.is_empty() || at + 1 == row.len() {
                return found;
            }
            first_run(&row[at + 1].node)
        }
    }
}

impl<A: Allocator + Clone> BTree<A> {
    /// The next entries above the pair, or the first of all: those that stand in one leaf, in order. There is none only
    /// where none is above.
    pub fn run_above(&self, pair: Option<&Pair>) -> &[Entry]
        ensures run { IsRunAbove (contents self.now) (option_copied pair.entry) result.now }
        ensures none { result.now ≡ [] → IsLeastAbove (contents self.now) (option_copied pair.entry) None }
    {
        let Some(root) = &self.root else {
            return &[];
        };
        match pair {
            None => first_run(root),
            Some(pair) => run_in(root, pair),
        }
    }
}
