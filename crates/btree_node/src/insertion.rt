//! Insertions, which take their nodes from spares.
ghost use Rattle.std.specs.Prelude.{◌≡◌, ℕ, ◌+◌, ◌<◌, ◌≤◌, ◌++◌, [], ◌∷◌, length, vec_len, vec_capacity, if◌then◌else◌};
ghost use Rattle.std.specs.Prelude.{Some, false};
ghost use Rattle.std.specs.List.{insert};
ghost use Rattle.btree_node.specs.Grown.{upper_entries, IsUpperHalf, AreEnough, KeepsCount, IsSplitAlong};
ghost use Rattle.btree_node.specs.Splits.{splits};
ghost use Rattle.btree_node.specs.Path.{path_of, top_path};
ghost use Rattle.btree_node.specs.Top.{tree_at, IsWholeTree, nodes_for};
ghost use Rattle.node_parts.specs.Tree.{entries, depth, count, IsLeaf, IsInner, an_empty_inner, an_empty_leaf, branch};
ghost use Rattle.node_parts.specs.Tree.{more, none};
ghost use Rattle.node_parts.specs.Rows.{trees, branches};
ghost use Rattle.node_parts.specs.Seen.{least_of, AreLabelled};
ghost use Rattle.node_parts.specs.Balance.{IsTree, IsRoot};
ghost use Rattle.node_parts.specs.Order.{insert_entry, is_below, IsAscending};
ghost use Rattle.node_parts.specs.Place.{place_in};

use crate::spares::Spares;
use node_parts::rows::{FULL, insert_at, split_into};
use node_parts::search::precedes;
use node_parts::{Child, Entry, Node, NodeParts};
use record_values::Pair;
use std::alloc::Allocator;

/// Puts a child into a full row, whose upper half goes to an empty inner node.
fn split_children<A: Allocator>(
    row: &mut Vec<Child<A>, A>,
    place: usize,
    child: Child<A>,
    upper: &mut Node<A>,
)
    requires in_range { place ≤ 32 }
    requires full { vec_len row.old ≡ 32 }
    requires room { 32 ≤ vec_capacity row.old }
    requires labelled { AreLabelled row.old.items }
    requires label { least_of (entries child.node.value) ≡ Some child.least }
    requires empty { upper.old ≡ an_empty_inner }
    ensures joined { trees row.new.items ++ branches upper.new ≡ insert (trees row.old.items) place child.node.value }
    ensures inner { IsInner upper.new }
    ensures labelled { AreLabelled row.new.items }
    ensures low { 16 ≤ vec_len row.new }
    ensures upper_low { 16 ≤ count upper.new }
    ensures all { vec_len row.new + count upper.new ≡ 33 }
    ensures capacity { vec_capacity row.new ≡ vec_capacity row.old }
{
    let NodeParts::Inner(upper_row) = &mut upper.parts else {
        unreachable!()
    };
    split_into(row, place, child, upper_row);
}

/// Lowers the label of the child at a place to a pair that belongs there, unless it comes before the pair. Of the
/// children behind the first, none where a pair belongs begins after it.
pub fn lower(least: &mut Pair, at: usize, pair: Pair)
    requires belongs { 0 < at → is_below pair least.old ≡ false }
    ensures { least.new ≡ (if is_below least.old pair then least.old else pair) }
{
    if at > 0 {
        return;
    }
    if !precedes(least, &pair) {
        *least = pair;
    }
}

/// Puts an entry into a leaf, where it belongs at a place. If the leaf is split, the upper half comes back.
fn insert_in_leaf<A: Allocator>(
    leaf: &mut Node<A>,
    at: usize,
    entry: Entry,
    spares: &mut Spares<A>,
) -> Option<Child<A>>
    requires leaf { IsLeaf leaf.old }
    requires tree { IsTree (depth leaf.old) leaf.old }
    requires place { at ≡ place_in leaf.old entry.pair }
    requires spares { AreEnough (splits leaf.old entry.pair) spares.old }
    ensures entries { entries leaf.new ++ upper_entries result ≡ insert_entry (entries leaf.old) entry }
    ensures tree { IsTree (depth leaf.old) leaf.new }
    ensures upper { IsUpperHalf (depth leaf.old) result }
    ensures count { KeepsCount (count leaf.old) (count leaf.new) result }
    ensures split { IsSplitAlong (splits leaf.old entry.pair) (depth leaf.old) spares.old spares.new result }
{
    if leaf.count() < FULL {
        leaf.insert_at(at, entry);
        return None;
    }
    let mut upper = spares.take_leaf();
    leaf.split_into(at, entry, &mut upper);
    let least = upper.least();
    Some(Child { least, node: upper })
}

/// Puts an entry into a node and what is below it, by its path. If the node itself is split, its upper half comes back.
fn insert_in_subtree<A: Allocator>(
    node: &mut Node<A>,
    path: &[usize],
    entry: Entry,
    spares: &mut Spares<A>,
) -> Option<Child<A>>
    requires ascending { IsAscending (entries node.old) }
    requires tree { IsTree (depth node.old) node.old }
    requires some { 0 < length (entries node.old) }
    requires path { path.now ≡ path_of node.old entry.pair }
    requires spares { AreEnough (splits node.old entry.pair) spares.old }
    ensures entries { entries node.new ++ upper_entries result ≡ insert_entry (entries node.old) entry }
    ensures tree { IsTree (depth node.old) node.new }
    ensures upper { IsUpperHalf (depth node.old) result }
    ensures count { KeepsCount (count node.old) (count node.new) result }
    ensures split { IsSplitAlong (splits node.old entry.pair) (depth node.old) spares.old spares.new result }
{
    let [at, below @ ..] = path else {
        unreachable!()
    };
    let NodeParts::Inner(row) = &mut node.parts else {
        return insert_in_leaf(node, *at, entry, spares);
    };
    let child = &mut row[*at];
    // the label is that of the child as it will be: it gets the entry next
    lower(&mut child.least, *at, entry.pair);
    let upper = insert_in_subtree(&mut child.node, below, entry, spares)?;
    if row.len() < FULL {
        insert_at(row, *at + 1, upper);
        return None;
    }
    let mut other = spares.take_inner();
    split_children(row, *at + 1, upper, &mut other);
    let least = other.least();
    Some(Child { least, node: other })
}

/// A first root.
fn first<A: Allocator>(mut leaf: Box<Node<A>, A>, entry: Entry) -> Box<Node<A>, A>
    requires empty { leaf.value ≡ an_empty_leaf }
    ensures entries { entries result.value ≡ entry ∷ [] }
    ensures root { IsRoot 1 result.value }
{
    leaf.insert_at(0, entry);
    leaf
}

/// A new root above a root that was split.
fn join<A: Allocator>(
    mut top: Box<Node<A>, A>,
    lower: Box<Node<A>, A>,
    upper: Child<A>,
) -> Box<Node<A>, A>
    requires empty { top.value ≡ an_empty_inner }
    requires tree { IsTree (depth lower.value) lower.value }
    requires low { 16 ≤ count lower.value }
    requires upper { IsUpperHalf (depth lower.value) (Some upper) }
    ensures entries { entries result.value ≡ entries lower.value ++ entries upper.node.value }
    ensures root { IsRoot (depth lower.value + 1) result.value }
{
    let least = lower.least();
    push_two(&mut top, Child { least, node: lower }, upper);
    top
}

/// Puts two children into an empty inner node.
fn push_two<A: Allocator>(top: &mut Node<A>, lower: Child<A>, upper: Child<A>)
    requires empty { top.old ≡ an_empty_inner }
    requires label { least_of (entries lower.node.value) ≡ Some lower.least }
    requires upper_label { least_of (entries upper.node.value) ≡ Some upper.least }
    ensures { top.new ≡ branch (more lower.node.value (more upper.node.value none)) }
{
    let NodeParts::Inner(row) = &mut top.parts else {
        unreachable!()
    };
    row.push_reserved(lower);
    row.push_reserved(upper);
}

/// Puts an entry into a whole tree by its path.
pub fn insert_top<A: Allocator>(
    root: Option<Box<Node<A>, A>>,
    path: &[usize],
    entry: Entry,
    spares: &mut Spares<A>,
) -> Box<Node<A>, A>
    requires ascending { IsAscending (entries (tree_at root)) }
    requires whole { IsWholeTree root }
    requires path { path.now ≡ top_path (tree_at root) entry.pair }
    requires spares { AreEnough (nodes_for (tree_at root) entry.pair) spares.old }
    ensures entries { entries result.value ≡ insert_entry (entries (tree_at root)) entry }
    ensures root { IsRoot (depth result.value) result.value }
{
    match root {
        None => first(spares.take_leaf(), entry),
        Some(mut node) => match insert_in_subtree(&mut node, path, entry, spares) {
            None => node,
            Some(upper) => join(spares.take_inner(), node, upper),
        },
    }
}
