//! A pair is put into the leaf where it belongs by one walk down, where that leaf has room.
ghost use Rattle.std.specs.Prelude.{◌≡◌, ◌≢◌, ◌<◌, ◌≤◌, length, vec_len, vec_capacity, if◌then◌else◌, false};
ghost use Rattle.std.specs.List.{prefix_len};
ghost use Rattle.btree_node.specs.Placed.{outcome};
ghost use Rattle.btree_node.specs.Splits.{splits};
ghost use Rattle.node_parts.specs.Tree.{entries, depth, count, leaf};
ghost use Rattle.node_parts.specs.Balance.{IsTree};
ghost use Rattle.node_parts.specs.Order.{insert_entry, is_below, mark_in, IsAscending};

use crate::insertion::lower;
use crate::lookup::mark_at;
use node_parts::rows::{FULL, insert_at};
use node_parts::{Entry, Node, NodeParts};
use record_values::{Mark, Pair};
use std::alloc::Allocator;

/// What became of a pair that was to be put into its leaf.
#[derive(Clone, Copy, Debug, PartialEq, Eq)]
pub enum InLeaf {
    /// It had no entry, and has one now.
    Added,
    /// It had an entry already, with this mark, which stays as it was.
    Found(Mark),
    /// It has no entry, and its leaf is full, or there is no leaf yet.
    NoRoom,
}

/// Puts a pair into the row of a leaf, where it belongs at a place.
fn put_at<A: Allocator>(row: &mut Vec<Entry, A>, at: usize, pair: &Pair, mark: Mark) -> InLeaf
    requires ascending { IsAscending row.old.items }
    requires place { at ≡ prefix_len (λ e. is_below e.pair pair.now) row.old.items }
    requires few { vec_len row.old ≤ 32 }
    requires room { 32 ≤ vec_capacity row.old }
    ensures outcome { result ≡ outcome (mark_in row.old.items pair.now) (splits (leaf row.old.items) pair.now) }
    ensures added { result ≡ InLeaf.Added →
        row.new.items ≡ insert_entry row.old.items (record { pair = pair.now; mark = mark }) }
    ensures unchanged { result ≢ InLeaf.Added → row.new ≡ row.old }
    ensures few { vec_len row.new ≤ 32 }
    ensures count { vec_len row.old ≤ vec_len row.new }
    ensures capacity { vec_capacity row.new ≡ vec_capacity row.old }
{
    if let Some(found) = mark_at(row, at, pair) {
        return InLeaf::Found(found);
    }
    if row.len() >= FULL {
        return InLeaf::NoRoom;
    }
    insert_at(row, at, Entry { pair: *pair, mark });
    InLeaf::Added
}

/// Lowers the label of the child at a place to a pair that was added there, unless it comes before the pair.
fn lower_after(put: InLeaf, least: &mut Pair, at: usize, pair: Pair)
    requires belongs { 0 < at → is_below pair least.old ≡ false }
    ensures added { put ≡ InLeaf.Added → least.new ≡ (if is_below least.old pair then least.old else pair) }
    ensures unchanged { put ≢ InLeaf.Added → least.new ≡ least.old }
{
    if let InLeaf::Added = put {
        lower(least, at, pair);
    }
}

/// Puts a pair into the leaf of a subtree where it belongs.
pub fn put_below<A: Allocator>(node: &mut Node<A>, pair: &Pair, mark: Mark) -> InLeaf
    requires ascending { IsAscending (entries node.old) }
    requires tree { IsTree (depth node.old) node.old }
    requires some { 0 < length (entries node.old) }
    ensures outcome { result ≡ outcome (mark_in (entries node.old) pair.now) (splits node.old pair.now) }
    ensures added { result ≡ InLeaf.Added →
        entries node.new ≡ insert_entry (entries node.old) (record { pair = pair.now; mark = mark }) }
    ensures unchanged { result ≢ InLeaf.Added → node.new ≡ node.old }
    ensures tree { IsTree (depth node.old) node.new }
    ensures count { count node.old ≤ count node.new }
{
    let at = node.place(pair);
    match &mut node.parts {
        NodeParts::Leaf(row) => put_at(row, at, pair, mark),
        NodeParts::Inner(row) => {
            let child = &mut row[at];
            let put = put_below(&mut child.node, pair, mark);
            lower_after(put, &mut child.least, at, *pair);
            put
        }
    }
}
