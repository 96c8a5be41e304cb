//! An ordered map from pair to mark, in a B-tree that takes memory before it changes and never half way.
//!
//! Proved, for every allocator: the tree is the finite map of its entries (`contents`). `find_way` and `plan` only
//! read: a way tells the mark of a pair (`mark`) and serves its insertion (`way`), and `plan` answers `NoMemory` alone
//! (`no_memory`). `insert`, `set_mark`, `remove` and `take` can't fail; the first three change the named pair alone,
//! and `take` answers what the tree held (`taken`). `put_in_leaf` puts a pair that isn't there into its leaf, where
//! that has room, and else changes nothing and says why (`outcome`, `added`, `unchanged`). `make_room` keeps the map
//! (`contents`), says just where a leaf can hand entries over (`made`), and the pair has room then (`room`).
//! `above` and `below` answer the next entry either way. A look-up goes down by a `Descent`, which counts each node
//! that it visits. `get` and `find_way` visit as many as the tree is high (`visited`), at most seven (`few_visited`),
//! and at most six where a large store has room for the entries (`large`).
//! `run_above` answers entries that follow one another (`run`), and none only where none is above (`none`). Only
//! tested (`test_tables`): plans with each allocation refused in turn; heights of full trees, and how many runs a walk
//! over one takes. Neither: how many nodes `put_in_leaf`, `make_room`, `above`, `below` and `run_above` look at; that
//! the first two take no memory; when memory is freed; speed; stack. By hand: the `unsafe impl` of an allocator that
//! always refuses.
#![tactic(auto)]

ghost use Rattle.std.specs.Prelude.{◌≡◌, ◌≢◌, ◌<◌, ◌≤◌, ◌↔◌, None, IfOk, IfErr, IsSome, IsTrue, false};
ghost use Rattle.std.specs.Option.{option_copied};
ghost use Rattle.std.specs.FinMap as map;
ghost use Rattle.btree_node.specs.Contents.{contents};
ghost use Rattle.btree_node.specs.Top.{height_of, nodes_for};
ghost use Rattle.btree_node.specs.Plans.{IsPlanFor, IsWayIn};
ghost use Rattle.btree_node.specs.Grown.{AreExactly};
ghost use Rattle.btree_node.specs.Above.{IsLeastAbove};
ghost use Rattle.btree_node.specs.Below.{IsGreatestBelow};
ghost use Rattle.btree_node.specs.Handed.{can_make_room};
ghost use Rattle.btree_node.specs.Placed.{outcome};

mod inline;
mod insertion;
mod limits;
mod lookup;
mod marking;
mod placing;
mod removal;
mod room;
mod runs;
mod spares;
mod walk;

use inline::Inline;
use insertion::insert_top;
pub use limits::{
    ENTRIES_MAX, LARGE_ENTRIES_MAX, LARGE_LEVELS_MAX, LEVELS_MAX, SMALL_ENTRIES_MAX,
    SMALL_LEVELS_MAX,
};
use lookup::{levels, mark_below, way_to};
use marking::set_mark_in;
pub use node_parts::Entry;
use node_parts::Node;
use node_parts::descent::Descent;
pub use placing::InLeaf;
use placing::put_below;
use record_values::{Error, Mark, Pair};
use removal::{remove_below, shrink};
use room::make_room_below;
use smallvec::SmallVec;
use spares::Spares;
use std::alloc::Allocator;
use std::marker::Model;
use walk::{above_in, below_in, first_in, last_in};

/// A pair with its way down a tree, found in one walk: how many nodes the pair's insertion takes, its mark if it has an
/// entry, and how many nodes were visited.
#[derive(Drop)]
pub struct Way {
    pair: Pair,
    path: SmallVec<usize, LEVELS_MAX, Inline>,
    nodes: usize,
    mark: Option<Mark>,
    visits: u32,
}

impl Model for Way {
    ghost use Rattle.std.specs.Prelude.{◌≡◌};
    ghost use Rattle.btree_node.specs.Plans.{Walked};

    ghost Value = { Walked };

    ghost view = { λ w. record {
      pair = w.pair;
      path = w.path.items;
      nodes = w.nodes;
      mark = w.mark;
      visits = w.visits;
    } };

    ghost invariant = { λ w. w.path.capacity ≡ 7 };
}

impl Way {
    /// The mark of the pair, if it has an entry.
    pub fn mark(&self) -> Option<Mark>
        ensures { result ≡ self.now.mark }
    {
        self.mark
    }

    /// How many nodes were visited.
    pub fn visits(&self) -> u32
        ensures { result ≡ self.now.visits }
    {
        self.visits
    }
}

/// A pair to be put into a tree, with its way down from the root and every node that it takes.
#[derive(Drop)]
pub struct Plan<A: Allocator> {
    pair: Pair,
    path: SmallVec<usize, LEVELS_MAX, Inline>,
    spares: Spares<A>,
}

impl<A: Allocator> Model for Plan<A> {
    ghost use Rattle.std.specs.Prelude.{◌≡◌};
    ghost use Rattle.btree_node.specs.Plans.{Planned};

    ghost Value = { Planned };

    ghost view = { λ p. record { pair = p.pair; path = p.path.items; spares = p.spares } };

    ghost invariant = { λ p. p.path.capacity ≡ 7 };
}

/// A map from pair to mark, in the order of pairs. Contracts see the nodes as plain data, of which `contents` is the
/// map.
#[derive(Drop)]
pub struct BTree<A: Allocator> {
    alloc: A,
    root: Option<Box<Node<A>, A>>,
    len: usize,
}

impl<A: Allocator> Model for BTree<A> {
    ghost use Rattle.node_parts.specs.Tree.{Tree, tree_code};

    ghost Value = { Tree };

    ghost coded = { tree_code };

    ghost use Rattle.btree_node.specs.Top.{tree_at, IsSoundTop};

    ghost view = { λ b. tree_at b.root };

    ghost invariant = { λ b. IsSoundTop b.root b.len };
}

/// The nodes of entries that were taken out of a tree. To let them go frees each of them, in a time that grows with
/// their number.
#[derive(Drop)]
pub struct Cleared<A: Allocator> {
    root: Option<Box<Node<A>, A>>,
}

impl<A: Allocator> Model for Cleared<A> {
    ghost use Rattle.node_parts.specs.Tree.{Tree, tree_code};

    ghost Value = { Tree };

    ghost coded = { tree_code };

    ghost use Rattle.btree_node.specs.Top.{tree_at};

    ghost view = { λ c. tree_at c.root };
}

impl<A: Allocator + Clone> BTree<A> {
    /// An empty tree, which has no node and takes no memory.
    pub fn new(alloc: A) -> Self
        ensures empty { contents result ≡ map.empty }
        ensures height { height_of result ≡ 0 }
    {
        BTree {
            alloc,
            root: None,
            len: 0,
        }
    }

    /// How many entries there are.
    pub fn len(&self) -> usize
        ensures len { result ≡ map.len (contents self.now) }
        ensures most { result ≤ ENTRIES_MAX }
    {
        self.len
    }

    /// Whether there is no entry.
    pub fn is_empty(&self) -> bool
        ensures { IsTrue result ↔ (contents self.now ≡ map.empty) }
    {
        self.len == 0
    }

    /// How many levels of nodes there are: none in an empty tree, and never more than seven. Up to 8,388,608 entries
    /// take six at the most, and up to 65,536 four.
    pub fn height(&self) -> u32
        ensures height { result ≡ height_of self.now }
        ensures low { result ≤ LEVELS_MAX }
        ensures large { map.len (contents self.now) ≤ LARGE_ENTRIES_MAX → result ≤ LARGE_LEVELS_MAX }
        ensures small { map.len (contents self.now) ≤ SMALL_ENTRIES_MAX → result ≤ SMALL_LEVELS_MAX }
        ensures empty { (result ≡ 0) ↔ (contents self.now ≡ map.empty) }
    {
        match &self.root {
            None => 0,
            Some(root) => levels(root),
        }
    }

    /// The mark of a pair, if it has an entry, and how many nodes were visited.
    pub fn get(&self, pair: &Pair) -> (Option<Mark>, u32)
        ensures found { result.0 ≡ map.get (contents self.now) pair.now }
        ensures visited { result.1 ≡ height_of self.now }
        ensures few_visited { result.1 ≤ LEVELS_MAX }
        ensures large { map.len (contents self.now) ≤ LARGE_ENTRIES_MAX → result.1 ≤ LARGE_LEVELS_MAX }
        ensures small { map.len (contents self.now) ≤ SMALL_ENTRIES_MAX → result.1 ≤ SMALL_LEVELS_MAX }
    {
        match &self.root {
            None => (None, 0),
            Some(root) => {
                let mut way = Descent::new(root);
                let mark = mark_below(&mut way, pair);
                (mark, way.visits())
            }
        }
    }

    /// The least entry whose pair comes after the given one, or the least of all.
    pub fn above(&self, pair: Option<&Pair>) -> Option<(Pair, Mark)>
        ensures { IsLeastAbove (contents self.now) (option_copied pair.entry) result }
    {
        let Some(root) = &self.root else {
            return None;
        };
        let entry = match pair {
            None => first_in(root),
            Some(pair) => above_in(root, pair)?,
        };
        Some((entry.pair, entry.mark))
    }

    /// The greatest entry whose pair comes before the given one, or the greatest of all.
    pub fn below(&self, pair: Option<&Pair>) -> Option<(Pair, Mark)>
        ensures { IsGreatestBelow (contents self.now) (option_copied pair.entry) result }
    {
        let Some(root) = &self.root else {
            return None;
        };
        let entry = match pair {
            None => last_in(root),
            Some(pair) => below_in(root, pair)?,
        };
        Some((entry.pair, entry.mark))
    }

    /// The way of a pair down the tree. It takes no memory.
    pub fn find_way(&self, pair: &Pair) -> Way
        ensures pair { result.pair ≡ pair.now }
        ensures mark { result.mark ≡ map.get (contents self.now) pair.now }
        ensures way { IsWayIn self.now result }
        ensures visited { result.visits ≡ height_of self.now }
    {
        let mut path = SmallVec::new(Inline);
        let (nodes, mark, visits) = match &self.root {
            None => (1, None, 0),
            Some(root) => {
                let mut way = Descent::new(root);
                let (splits, all, found) = way_to(&mut way, pair, &mut path);
                (splits + usize::from(all), found, way.visits())
            }
        };
        Way {
            pair: *pair,
            path,
            nodes,
            mark,
            visits,
        }
    }

    /// Makes every node that the insertion of a pair takes, whose way was found, and changes nothing.
    /// It is refused with `NoMemory` alone.
    pub fn plan(&self, way: Way) -> Result<Plan<A>, Error>
        requires room { map.len (contents self.now) < ENTRIES_MAX }
        requires way { IsWayIn self.now way }
        ensures pair { IfOk result (λ plan. plan.pair ≡ way.pair) }
        ensures plan { IfOk result (IsPlanFor self.now) }
        ensures nodes { IfOk result (λ plan. AreExactly (nodes_for self.now way.pair) plan.spares) }
        ensures no_memory { IfErr result (λ e. e ≡ Error.NoMemory) }
    {
        let spares = Spares::new(&self.alloc, way.nodes)?;
        Ok(Plan {
            pair: way.pair,
            path: way.path,
            spares,
        })
    }

    /// Makes every node that the insertion of a pair takes, a new root included, and changes nothing.
    /// It is refused with `NoMemory` alone.
    pub fn plan_insert(&self, pair: &Pair) -> Result<Plan<A>, Error>
        requires room { map.len (contents self.now) < ENTRIES_MAX }
        ensures pair { IfOk result (λ plan. plan.pair ≡ pair.now) }
        ensures plan { IfOk result (IsPlanFor self.now) }
        ensures nodes { IfOk result (λ plan. AreExactly (nodes_for self.now pair.now) plan.spares) }
        ensures no_memory { IfErr result (λ e. e ≡ Error.NoMemory) }
    {
        self.plan(self.find_way(pair))
    }

    /// Puts a planned pair in with a mark. It takes no memory and succeeds.
    pub fn insert(&mut self, plan: Plan<A>, mark: Mark)
        requires plan { IsPlanFor self.old plan }
        requires absent { map.get (contents self.old) plan.pair ≡ None }
        ensures { contents self.new ≡ map.insert (contents self.old) plan.pair mark }
    {
        let Plan {
            pair,
            path,
            mut spares,
        } = plan;
        let root = insert_top(
            self.root.take(),
            path.as_slice(),
            Entry { pair, mark },
            &mut spares,
        );
        self.root = Some(root);
        self.len += 1;
    }

    /// Puts a pair in with a mark, if it has no entry and its insertion takes no node. It takes no memory.
    pub fn put_in_leaf(&mut self, pair: &Pair, mark: Mark) -> InLeaf
        requires room { map.get (contents self.old) pair.now ≡ None → map.len (contents self.old) < ENTRIES_MAX }
        ensures outcome { result ≡ outcome (map.get (contents self.old) pair.now) (nodes_for self.old pair.now) }
        ensures added { result ≡ InLeaf.Added →
            contents self.new ≡ map.insert (contents self.old) pair.now mark }
        ensures unchanged { result ≢ InLeaf.Added → self.new ≡ self.old }
    {
        let Some(root) = &mut self.root else {
            return InLeaf::NoRoom;
        };
        let put = put_below(root, pair, mark);
        let InLeaf::Added = put else {
            return put;
        };
        self.len += 1;
        put
    }

    /// Makes room in the full leaf where a pair belongs, whose first entries go to the leaf before it. Says whether it
    /// did: both have to hang from one node, and that leaf has to be half full at most. It takes no memory.
    pub fn make_room(&mut self, pair: &Pair) -> bool
        ensures contents { contents self.new ≡ contents self.old }
        ensures made { result ≡ can_make_room self.old pair.now }
        ensures room { IsTrue result → nodes_for self.new pair.now ≡ 0 }
        ensures unchanged { result ≡ false → self.new ≡ self.old }
    {
        let Some(root) = &mut self.root else {
            return false;
        };
        make_room_below(root, pair)
    }

    /// Gives the entry of a pair another mark. It takes no memory and succeeds.
    pub fn set_mark(&mut self, pair: &Pair, mark: Mark)
        requires present { IsSome (map.get (contents self.old) pair.now) }
        ensures { contents self.new ≡ map.insert (contents self.old) pair.now mark }
    {
        if let Some(root) = &mut self.root {
            set_mark_in(root, pair, mark);
        }
    }

    /// Takes every entry out at once, in nodes that are not freed yet. It takes no memory and succeeds.
    pub fn take(&mut self) -> Cleared<A>
        ensures empty { contents self.new ≡ map.empty }
        ensures height { height_of self.new ≡ 0 }
        ensures taken { result ≡ self.old }
    {
        self.len = 0;
        Cleared {
            root: self.root.take(),
        }
    }

    /// Takes the entry of a pair out. It takes no memory and succeeds.
    pub fn remove(&mut self, pair: &Pair)
        requires present { IsSome (map.get (contents self.old) pair.now) }
        ensures { contents self.new ≡ map.remove (contents self.old) pair.now }
    {
        let Some(mut root) = self.root.take() else {
            return;
        };
        remove_below(&mut root, pair);
        self.root = shrink(root);
        self.len -= 1;
    }
}
