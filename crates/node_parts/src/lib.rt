//! Nodes of a B-tree whose room is taken as they are made, so that no later change takes memory.
//!
//! Proved: what each change of a node leaves of its entries, and that a node has at most 32 items and room for 32. A
//! way down (`Descent`) says where a pair belongs, visits the child at a place, and counts each node that it visits.
//! Neither: that no change of a node takes memory; speed. A way has one private reference, and no way back, so its
//! callers can look no other way. That its own calls look at one node each is for their reader to see.
//!
//! Lemmas about its public words that crates above may cite, in `proofs`: `Balance`, `Children`, `Local`, `Neighbours`,
//! `Order`, `Places` and `RowLemmas`.
#![tactic(auto)]

ghost use Rattle.std.specs.Prelude.{◌≡◌, ℕ, ◌+◌, ◌<◌, ◌≤◌, ◌++◌, ◌↔◌, length, Some, IfOk, IfErr, IsTrue};
ghost use Rattle.std.specs.List.{insert, remove};
ghost use Rattle.node_parts.specs.Tree.{Tree, leaf, entries, depth, IsLeaf, count, an_empty_leaf, an_empty_inner};
ghost use Rattle.node_parts.specs.Balance.{IsTree};
ghost use Rattle.node_parts.specs.Order.{IsAscending};
ghost use Rattle.node_parts.specs.Seen.{least_of};
ghost use Rattle.node_parts.specs.Place.{place_in};

pub mod descent;
pub mod rows;
pub mod search;

use record_values::{Error, Mark, Pair};
use rows::FULL;
use std::alloc::Allocator;
use std::marker::Model;

/// A pair and its mark, as a leaf holds them.
#[derive(Clone, Copy, Debug, PartialEq, Eq)]
pub struct Entry {
    pub pair: Pair,
    pub mark: Mark,
}

/// A node with all that hangs below it. Contracts see it as a tree of plain data.
#[cycle(node)]
#[derive(Drop)]
pub struct Node<A: Allocator> {
    pub parts: NodeParts<A>,
}

/// What a node holds: entries if it is a leaf, and else children. There are at most `FULL` of either, and
/// the room for all of them was taken as the node was made.
#[cycle(node)]
#[derive(Drop)]
pub enum NodeParts<A: Allocator> {
    Leaf(Vec<Entry, A>),
    Inner(Vec<Child<A>, A>),
}

/// A node below another one, and the least pair in it.
#[cycle(node)]
#[derive(Drop)]
pub struct Child<A: Allocator> {
    pub least: Pair,
    pub node: Box<Node<A>, A>,
}

impl<A: Allocator> Model for Node<A> {
    ghost use Rattle.std.specs.Prelude.{◌≤◌};
    ghost use Rattle.node_parts.specs.Tree.{Tree, tree_code, depth};

    ghost Value = { Tree };

    ghost coded = { tree_code };

    ghost use Rattle.node_parts.specs.Seen.{tree_of, IsSoundNode};

    ghost view = { λ n. tree_of n.parts };

    ghost invariant = { λ n. IsSoundNode n.parts };

    ghost size = { depth };

    ghost use Rattle.node_parts.specs.Falls.{depth_falls};

    ghost size_decreases = { λ n h. depth_falls A.Allocator n.parts };
}

impl<A: Allocator> Node<A> {
    /// An empty leaf with room for a full one. Refused with `NoMemory` alone.
    pub fn leaf(alloc: A) -> Result<Self, Error>
        ensures ok { IfOk result (λ node. node ≡ an_empty_leaf) }
        ensures no_memory { IfErr result (λ e. e ≡ Error.NoMemory) }
    {
        Ok(Node {
            parts: NodeParts::Leaf(rows::empty_row(alloc)?),
        })
    }

    /// An empty inner node with room for a full one. Refused with `NoMemory` alone.
    pub fn inner(alloc: A) -> Result<Self, Error>
        ensures ok { IfOk result (λ node. node ≡ an_empty_inner) }
        ensures no_memory { IfErr result (λ e. e ≡ Error.NoMemory) }
    {
        Ok(Node {
            parts: NodeParts::Inner(rows::empty_row(alloc)?),
        })
    }

    /// How many entries or children the node has.
    pub fn count(&self) -> usize
        ensures count { result ≡ count self.now }
        ensures most { result ≤ 32 }
    {
        match &self.parts {
            NodeParts::Leaf(row) => row.len(),
            NodeParts::Inner(row) => row.len(),
        }
    }

    /// Whether the node holds entries, and no children.
    pub fn is_leaf(&self) -> bool
        ensures { IsTrue result ↔ IsLeaf self.now }
    {
        matches!(&self.parts, NodeParts::Leaf(_))
    }

    /// The least pair in the node.
    pub fn least(&self) -> Pair
        requires some { 0 < length (entries self.now) }
        ensures least { least_of (entries self.now) ≡ Some result }
    {
        match &self.parts {
            NodeParts::Leaf(row) => row[0].pair,
            NodeParts::Inner(row) => row[0].least,
        }
    }

    /// Where a pair belongs: in a leaf the place of the first entry that does not come before it, in an inner node the
    /// last child that does not begin after it, or the first child. Found by a look at the last, and then by halving.
    pub fn place(&self, pair: &Pair) -> usize
        requires ascending { IsAscending (entries self.now) }
        ensures { result ≡ place_in self.now pair.now }
    {
        match &self.parts {
            NodeParts::Leaf(row) => search::entry_place(row, pair),
            NodeParts::Inner(row) => search::child_place(row, pair).saturating_sub(1),
        }
    }

    /// Puts an entry at a place of a leaf that is not full.
    pub fn insert_at(&mut self, place: usize, entry: Entry)
        requires leaf { IsLeaf self.old }
        requires room { count self.old < 32 }
        requires in_range { place ≤ count self.old }
        ensures { self.new ≡ leaf (insert (entries self.old) place entry) }
    {
        let NodeParts::Leaf(row) = &mut self.parts else {
            unreachable!()
        };
        rows::insert_at(row, place, entry);
    }

    /// Takes the entry at a place out of a leaf.
    pub fn remove_at(&mut self, place: usize)
        requires leaf { IsLeaf self.old }
        requires in_range { place < count self.old }
        ensures { self.new ≡ leaf (remove (entries self.old) place) }
    {
        let NodeParts::Leaf(row) = &mut self.parts else {
            unreachable!()
        };
        row.remove(place);
    }

    /// Puts an entry at a place of a full leaf, whose upper half goes to an empty one.
    pub fn split_into(&mut self, place: usize, entry: Entry, upper: &mut Node<A>)
        requires leaf { IsLeaf self.old }
        requires full { count self.old ≡ 32 }
        requires in_range { place ≤ 32 }
        requires empty { upper.old ≡ an_empty_leaf }
        ensures leaf { IsLeaf self.new }
        ensures upper_leaf { IsLeaf upper.new }
        ensures joined { entries self.new ++ entries upper.new ≡ insert (entries self.old) place entry }
        ensures low { 16 ≤ count self.new }
        ensures upper_low { 16 ≤ count upper.new }
        ensures all { count self.new + count upper.new ≡ 33 }
    {
        let NodeParts::Leaf(row) = &mut self.parts else {
            unreachable!()
        };
        let NodeParts::Leaf(upper_row) = &mut upper.parts else {
            unreachable!()
        };
        rows::split_into(row, place, entry, upper_row);
    }

    /// Moves so many entries from the front of a leaf to the end of its left neighbour, a leaf too.
    pub fn hand_left(&mut self, left: &mut Node<A>, moved: usize)
        requires leaf { IsLeaf self.old }
        requires left_leaf { IsLeaf left.old }
        requires enough { moved ≤ count self.old }
        requires room { count left.old + moved ≤ 32 }
        ensures leaf { IsLeaf self.new }
        ensures left_leaf { IsLeaf left.new }
        ensures joined { entries left.new ++ entries self.new ≡ entries left.old ++ entries self.old }
        ensures count { count self.new + moved ≡ count self.old }
        ensures left_count { count left.new ≡ count left.old + moved }
    {
        let NodeParts::Leaf(row) = &mut self.parts else {
            unreachable!()
        };
        let NodeParts::Leaf(left_row) = &mut left.parts else {
            unreachable!()
        };
        rows::move_front(left_row, row, moved);
    }

    /// Moves an entry or child from the fuller of two neighbours of one level to the other, which is not full.
    pub fn borrow(&mut self, right: &mut Node<A>)
        requires tree { IsTree (depth self.old) self.old }
        requires right_tree { IsTree (depth self.old) right.old }
        requires some { 0 < count self.old + count right.old }
        requires room { count self.old + count right.old < 64 }
        ensures joined { entries self.new ++ entries right.new ≡ entries self.old ++ entries right.old }
        ensures tree { IsTree (depth self.old) self.new }
        ensures right_tree { IsTree (depth self.old) right.new }
        ensures from_right { count self.old < count right.old → (count self.new ≡ count self.old + 1)
            × (count right.new + 1 ≡ count right.old) }
        ensures from_left { count right.old ≤ count self.old → (count self.new + 1 ≡ count self.old)
            × (count right.new ≡ count right.old + 1) }
    {
        match &mut self.parts {
            NodeParts::Leaf(row) => {
                let NodeParts::Leaf(other) = &mut right.parts else {
                    unreachable!()
                };
                rows::borrow(row, other);
            }
            NodeParts::Inner(row) => {
                let NodeParts::Inner(other) = &mut right.parts else {
                    unreachable!()
                };
                rows::borrow(row, other);
            }
        }
    }

    /// Moves all of the right neighbour, which is of the same level, to the end of this node.
    pub fn merge(&mut self, right: &mut Node<A>)
        requires tree { IsTree (depth self.old) self.old }
        requires right_tree { IsTree (depth self.old) right.old }
        requires room { count self.old + count right.old ≤ 32 }
        ensures joined { entries self.new ≡ entries self.old ++ entries right.old }
        ensures tree { IsTree (depth self.old) self.new }
        ensures count { count self.new ≡ count self.old + count right.old }
        ensures rest { count right.new ≡ 0 }
    {
        match &mut self.parts {
            NodeParts::Leaf(row) => {
                let NodeParts::Leaf(other) = &mut right.parts else {
                    unreachable!()
                };
                rows::merge(row, other);
            }
            NodeParts::Inner(row) => {
                let NodeParts::Inner(other) = &mut right.parts else {
                    unreachable!()
                };
                rows::merge(row, other);
            }
        }
    }
}
