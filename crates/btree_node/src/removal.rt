//! Removals, which borrow from a neighbour or merge with one.
ghost use Rattle.std.specs.Prelude.{◌≡◌, ℕ, ◌+◌, ◌<◌, ◌≤◌, ◌++◌, length, vec_len, vec_capacity, Some, IsSome};
ghost use Rattle.btree_node.specs.Grown.{upper_entries, IsUpperHalf};
ghost use Rattle.btree_node.specs.Top.{tree_at, IsWholeTree};
ghost use Rattle.btree_node.specs.Without.{without};
ghost use Rattle.btree_node.specs.Mended.{AreNeighbours, AreTreesBut, IsTaken};
ghost use Rattle.node_parts.specs.Tree.{entries, depth, count, forest_of};
ghost use Rattle.node_parts.specs.Rows.{trees, row_entries};
ghost use Rattle.node_parts.specs.Seen.{least_of, AreLabelled};
ghost use Rattle.node_parts.specs.Balance.{IsTree, IsRoot, AreTrees, fewest};
ghost use Rattle.node_parts.specs.Order.{mark_in, IsAscending};

use node_parts::rows::{FULL, LEAST, insert_at};
use node_parts::{Child, Node, NodeParts};
use record_values::Pair;
use std::alloc::Allocator;

/// Moves all of two neighbours to the left one, or an entry or child from the fuller to the other.
fn level<A: Allocator>(left: &mut Node<A>, right: &mut Node<A>)
    requires tree { IsTree (depth left.old) left.old }
    requires right_tree { IsTree (depth left.old) right.old }
    requires low { 15 ≤ count left.old }
    requires right_low { 15 ≤ count right.old }
    requires both { 31 ≤ count left.old + count right.old }
    requires most { count left.old + count right.old ≤ 47 }
    ensures joined { entries left.new ++ entries right.new ≡ entries left.old ++ entries right.old }
    ensures tree { IsTree (depth left.old) left.new }
    ensures right_tree { 0 < count right.new → IsTree (depth left.old) right.new }
    ensures low { 16 ≤ count left.new }
    ensures right_low { 0 < count right.new → 16 ≤ count right.new }
{
    if left.count() + right.count() <= FULL {
        left.merge(right);
    } else {
        left.borrow(right);
    }
}

/// Levels two neighbours. The right one comes back, unless all of it went to the left one.
fn level_pair<A: Allocator>(left: &mut Child<A>, mut right: Child<A>) -> Option<Child<A>>
    requires tree { IsTree (depth left.old.node.value) left.old.node.value }
    requires right_tree { IsTree (depth left.old.node.value) right.node.value }
    requires low { 15 ≤ count left.old.node.value }
    requires right_low { 15 ≤ count right.node.value }
    requires both { 31 ≤ count left.old.node.value + count right.node.value }
    requires most { count left.old.node.value + count right.node.value ≤ 47 }
    requires label { least_of (entries left.old.node.value) ≡ Some left.old.least }
    ensures joined { entries left.new.node.value ++ upper_entries result ≡ entries left.old.node.value
        ++ entries right.node.value }
    ensures label { least_of (entries left.new.node.value) ≡ Some left.new.least }
    ensures tree { IsTree (depth left.old.node.value) left.new.node.value }
    ensures low { 16 ≤ count left.new.node.value }
    ensures upper { IsUpperHalf (depth left.old.node.value) result }
{
    level(&mut left.node, &mut right.node);
    if right.node.count() == 0 {
        return None;
    }
    right.least = right.node.least();
    Some(right)
}

/// Levels two neighbours of a row.
fn mend<A: Allocator>(row: &mut Vec<Child<A>, A>, left: usize)
    requires in_range { left + 1 < vec_len row.old }
    requires few { vec_len row.old ≤ 32 }
    requires room { 32 ≤ vec_capacity row.old }
    requires labelled { AreLabelled row.old.items }
    requires neighbours { AreNeighbours left row.old.items }
    ensures entries { row_entries row.new.items ≡ row_entries row.old.items }
    ensures labelled { AreLabelled row.new.items }
    ensures trees { (h : ℕ) → AreTreesBut h left row.old.items → AreTrees h (forest_of (trees row.new.items)) }
    ensures few { vec_len row.new ≤ 32 }
    ensures count { vec_len row.old ≤ vec_len row.new + 1 }
    ensures room { 32 ≤ vec_capacity row.new }
{
    let right = row.remove(left + 1);
    let Some(right) = level_pair(&mut row[left], right) else {
        return;
    };
    insert_at(row, left + 1, right);
}

/// Takes a pair out of a subtree, whose top node may then have one entry or child too few.
pub fn remove_below<A: Allocator>(node: &mut Node<A>, pair: &Pair)
    requires ascending { IsAscending (entries node.old) }
    requires root { IsRoot (depth node.old) node.old }
    requires present { IsSome (mark_in (entries node.old) pair.now) }
    ensures entries { entries node.new ≡ without (entries node.old) pair.now }
    ensures tree { IsTree (depth node.old) node.new }
    ensures count { count node.old ≤ count node.new + 1 }
{
    let at = node.place(pair);
    let NodeParts::Inner(row) = &mut node.parts else {
        node.remove_at(at);
        return;
    };
    let child = &mut row[at];
    remove_below(&mut child.node, pair);
    child.least = child.node.least();
    if child.node.count() < LEAST {
        mend(row, at.saturating_sub(1));
    }
}

/// Takes the child of an inner node that has no other.
fn take_only<A: Allocator>(node: &mut Node<A>) -> Option<Box<Node<A>, A>>
    ensures { IsTaken node.old node.new result }
{
    let NodeParts::Inner(row) = &mut node.parts else {
        return None;
    };
    if row.len() != 1 {
        return None;
    }
    Some(row.remove(0).node)
}

/// The root after a removal, which may have become empty or have one child.
pub fn shrink<A: Allocator>(mut root: Box<Node<A>, A>) -> Option<Box<Node<A>, A>>
    requires tree { IsTree (depth root.value) root.value }
    requires few { fewest root.value ≤ count root.value + 1 }
    ensures entries { entries (tree_at result) ≡ entries root.value }
    ensures whole { IsWholeTree result }
{
    let child = take_only(&mut root);
    if child.is_some() {
        return child;
    }
    if root.count() == 0 {
        return None;
    }
    Some(root)
}
