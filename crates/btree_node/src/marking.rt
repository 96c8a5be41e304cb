//! Other marks.
ghost use Rattle.std.specs.Prelude.{◌≡◌, ◌<◌, length, IsSome};
ghost use Rattle.node_parts.specs.Tree.{entries, depth, count};
ghost use Rattle.node_parts.specs.Balance.{IsTree};
ghost use Rattle.node_parts.specs.Order.{mark_in, with_mark, IsAscending};

use node_parts::{Node, NodeParts};
use record_values::{Mark, Pair};
use std::alloc::Allocator;

/// Gives the entry of a pair in a subtree another mark.
pub fn set_mark_in<A: Allocator>(node: &mut Node<A>, pair: &Pair, mark: Mark)
    requires ascending { IsAscending (entries node.old) }
    requires tree { IsTree (depth node.old) node.old }
    requires some { 0 < length (entries node.old) }
    requires present { IsSome (mark_in (entries node.old) pair.now) }
    ensures entries { entries node.new ≡ with_mark (entries node.old) pair.now mark }
    ensures tree { IsTree (depth node.old) node.new }
    ensures count { count node.new ≡ count node.old }
{
    let at = node.place(pair);
    match &mut node.parts {
        NodeParts::Leaf(row) => row[at].mark = mark,
        NodeParts::Inner(row) => set_mark_in(&mut row[at].node, pair, mark),
    }
}
