//! Ways down from a node, on which each node counts as it is visited.
ghost use Rattle.std.specs.Prelude.{◌≡◌, ◌+◌, ◌-◌, ◌^◌, ◌<◌, ◌==◌, Some, None, false, slice_get, IsTrue};
ghost use Rattle.std.specs.Prelude.{if◌then◌else◌};
ghost use Rattle.node_parts.specs.Descents.{Reached};
ghost use Rattle.node_parts.specs.Order.{IsAscending};
ghost use Rattle.node_parts.specs.Place.{place_in};
ghost use Rattle.node_parts.specs.Rows.{branches};
ghost use Rattle.node_parts.specs.Tree.{count, entries, IsLeaf};

use crate::rows::FULL;
use crate::{Entry, Node, NodeParts};
use record_values::Pair;
use std::alloc::Allocator;
use std::marker::Model;

/// A way down from a node. It shows its callers no node but by a visit, and counts those: each is to a child of the
/// node that it visited last, and there is no way back.
#[derive(Drop)]
pub struct Descent<'a, A: Allocator> {
    node: &'a Node<A>,
    visits: u32,
}

impl<'a, A: Allocator> Model for Descent<'a, A> {
    ghost use Rattle.node_parts.specs.Descents.{Reached, coded_reached};

    ghost Value = { Reached };

    ghost coded = { coded_reached };

    ghost view = { λ d. record { node = d.node.now; visits = d.visits } };
}

impl<'a, A: Allocator> Descent<'a, A> {
    /// Visits a first node.
    pub fn new(node: &'a Node<A>) -> Self
        ensures { result ≡ record { node = node.now; visits = 1 } }
    {
        Descent { node, visits: 1 }
    }

    /// How many nodes were visited.
    pub fn visits(&self) -> u32
        ensures { result ≡ self.now.visits }
    {
        self.visits
    }

    /// Whether the node that was visited last is full.
    pub fn is_full(&self) -> bool
        ensures { result ≡ (count self.now.node == 32) }
    {
        self.node.count() == FULL
    }

    /// Where a pair belongs in the node that was visited last, as `Node::place` says it. This visits nothing.
    pub fn place(&self, pair: &Pair) -> usize
        requires ascending { IsAscending (entries self.now.node) }
        ensures { result ≡ place_in self.now.node pair.now }
    {
        self.node.place(pair)
    }

    /// Visits the child at a place of the node that was visited last, and counts it. Answers whether there is one: a
    /// leaf has none, and the way then stays where it is.
    pub fn descend_to(&mut self, at: usize) -> bool
        requires few { self.old.visits < 2 ^ 32 - 1 }
        ensures child { IsTrue result → slice_get (branches self.old.node) at ≡ Some self.new.node }
        ensures no_child { result ≡ false → slice_get (branches self.old.node) at ≡ None }
        ensures visits { self.new.visits ≡ self.old.visits + (if result then 1 else 0) }
        ensures unchanged { result ≡ false → self.new ≡ self.old }
    {
        let node = self.node;
        let NodeParts::Inner(row) = &node.parts else {
            return false;
        };
        let Some(child) = row.get(at) else {
            return false;
        };
        self.node = &child.node;
        self.visits += 1;
        true
    }

    /// The entries of the leaf where the way ends.
    pub fn row(&self) -> &[Entry]
        requires leaf { IsLeaf self.now.node }
        ensures { result.now ≡ entries self.now.node }
    {
        let node = self.node;
        let NodeParts::Leaf(row) = &node.parts else {
            unreachable!()
        };
        row.as_slice()
    }
}
