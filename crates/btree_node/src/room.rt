//! Room for a pair in a full leaf, whose left neighbour takes entries.
ghost use Rattle.std.specs.Prelude.{◌≡◌, ◌+◌, ◌<◌, ◌≤◌, ◌++◌, ◌↔◌, length, vec_len, vec_capacity, Some, IsTrue, false};
ghost use Rattle.btree_node.specs.Handed.{CanHand, HasRoomAt, can_hand_at, can_make_room, parent};
ghost use Rattle.btree_node.specs.Splits.{splits};
ghost use Rattle.node_parts.specs.Balance.{IsTree};
ghost use Rattle.node_parts.specs.Order.{IsAscending};
ghost use Rattle.node_parts.specs.Rows.{row_entries};
ghost use Rattle.node_parts.specs.Seen.{least_of, AreLabelled};
ghost use Rattle.node_parts.specs.Tree.{entries, depth, count, IsLeaf};

use node_parts::rows::{FULL, LEAST, insert_at};
use node_parts::{Child, Node, NodeParts};
use record_values::Pair;
use std::alloc::Allocator;

/// How many entries a full leaf hands to a half full one. Three quarters of both are full then.
const HANDED: usize = 8;

/// Whether a child is a full leaf, and its left neighbour no more than half full.
fn can_hand<A: Allocator>(left: &Child<A>, full: &Child<A>) -> bool
    ensures { IsTrue result ↔ CanHand left.now full.now }
{
    full.node.is_leaf() && full.node.count() == FULL && left.node.count() <= LEAST
}

/// Hands the first entries of a full leaf to its left neighbour.
fn hand_pair<A: Allocator>(left: &mut Child<A>, full: &mut Child<A>)
    requires ready { CanHand left.old full.old }
    requires leaf { IsLeaf left.old.node.value }
    requires label { least_of (entries left.old.node.value) ≡ Some left.old.least }
    ensures joined { entries left.new.node.value ++ entries full.new.node.value ≡ entries left.old.node.value
        ++ entries full.old.node.value }
    ensures leaf { IsLeaf left.new.node.value }
    ensures right_leaf { IsLeaf full.new.node.value }
    ensures count { count left.new.node.value ≡ count left.old.node.value + 8 }
    ensures right_count { count full.new.node.value ≡ 24 }
    ensures least { left.new.least ≡ left.old.least }
    ensures label { least_of (entries left.new.node.value) ≡ Some left.new.least }
    ensures right_label { least_of (entries full.new.node.value) ≡ Some full.new.least }
{
    full.node.hand_left(&mut left.node, HANDED);
    full.least = full.node.least();
}

/// Hands entries of the full leaf at a place of a row to its left neighbour, if that is half full. Says whether it did.
fn hand_at<A: Allocator>(row: &mut Vec<Child<A>, A>, at: usize) -> bool
    requires in_range { at < vec_len row.old }
    requires room { 32 ≤ vec_capacity row.old }
    requires labelled { AreLabelled row.old.items }
    requires tree { IsTree (depth (parent row.old.items)) (parent row.old.items) }
    ensures entries { row_entries row.new.items ≡ row_entries row.old.items }
    ensures labelled { AreLabelled row.new.items }
    ensures tree { IsTree (depth (parent row.old.items)) (parent row.new.items) }
    ensures len { vec_len row.new ≡ vec_len row.old }
    ensures capacity { vec_capacity row.new ≡ vec_capacity row.old }
    ensures made { result ≡ can_hand_at at row.old.items }
    ensures handed { IsTrue result → HasRoomAt at row.old.items row.new.items }
    ensures unchanged { result ≡ false → row.new ≡ row.old }
{
    if at == 0 {
        return false;
    }
    let left = &row[at - 1];
    let full = &row[at];
    if !can_hand(left, full) {
        return false;
    }
    let mut right = row.remove(at);
    hand_pair(&mut row[at - 1], &mut right);
    insert_at(row, at, right);
    true
}

/// Makes room in the full leaf of a subtree where a pair belongs, by its left neighbour. Says whether it did.
pub fn make_room_below<A: Allocator>(node: &mut Node<A>, pair: &Pair) -> bool
    requires ascending { IsAscending (entries node.old) }
    requires tree { IsTree (depth node.old) node.old }
    requires some { 0 < length (entries node.old) }
    ensures entries { entries node.new ≡ entries node.old }
    ensures tree { IsTree (depth node.old) node.new }
    ensures count { count node.new ≡ count node.old }
    ensures made { result ≡ can_make_room node.old pair.now }
    ensures room { IsTrue result → splits node.new pair.now ≡ 0 }
    ensures unchanged { result ≡ false → node.new ≡ node.old }
{
    let at = node.place(pair);
    let NodeParts::Inner(row) = &mut node.parts else {
        return false;
    };
    if hand_at(row, at) {
        return true;
    }
    make_room_below(&mut row[at].node, pair)
}
