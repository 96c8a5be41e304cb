//! The entries, counted by their marks.
ghost use Rattle.std.specs.Prelude.{◌≡◌, ◌<◌, ◌≤◌, ◌+◌, ◌↔◌, [], None, Some, false, IfErr, IfOk, IsTrue, OnErr, OnOk};
ghost use Rattle.std.specs.FinMap as map;
ghost use Rattle.std.specs.Option.{option_copied};
ghost use Rattle.record_values.specs.declared.key_action.KeyAction.{KeyAction};
ghost use Rattle.btree_node.specs.Above.{IsLeastAbove};
ghost use Rattle.btree_node.specs.Below.{IsGreatestBelow};
ghost use Rattle.btree_node.specs.Contents.{contents};
ghost use Rattle.btree_node.specs.Runs.{IsRunAbove};
ghost use Rattle.marked_index.specs.Counts.{marked_in, marked_of};
ghost use Rattle.marked_index.specs.Index.{IsAbsent, entries_after};

use btree_node::{BTree, Cleared, ENTRIES_MAX, Entry, InLeaf};
use record_values::{Error, Mark, Pair};
use std::alloc::Allocator;
use std::marker::Model;

/// The entries of an index, and how many of them are marked. To a contract it is the map of the entries.
#[derive(Drop)]
pub(crate) struct Entries<A: Allocator> {
    tree: BTree<A>,
    marked: usize,
}

impl<A: Allocator> Model for Entries<A> {
    ghost use Rattle.std.specs.FinMap as map;
    ghost use Rattle.record_values.specs.Codes.{coded_pair, coded_mark};
    ghost use Rattle.record_values.specs.Entries.{Index};
    ghost use Rattle.btree_node.specs.Contents.{contents};
    ghost use Rattle.marked_index.specs.Counts.{IsCounted};

    ghost Value = { Index };

    ghost coded = { map.code coded_pair coded_mark };

    ghost view = { λ e. contents e.tree };

    ghost invariant = { λ e. IsCounted (contents e.tree) e.marked };
}

// How many marked entries a pair with this mark has; none stands for no entry.
fn count_of(mark: Option<Mark>) -> usize
    ensures number { result ≡ marked_of mark }
    ensures few { result ≤ 1 }
{
    match mark {
        Some(Mark::Marked) => 1,
        Some(Mark::Live) | None => 0,
    }
}

// How many entries are marked, once one of them has become another; none stands for no entry.
fn recount(marked: usize, before: Option<Mark>, after: Option<Mark>) -> usize
    requires among { marked_of before ≤ marked }
    requires few { marked ≤ ENTRIES_MAX }
    ensures { result + marked_of before ≡ marked + marked_of after }
{
    marked - count_of(before) + count_of(after)
}

impl<A: Allocator + Clone> Entries<A> {
    /// No entries. It takes no memory.
    pub(crate) fn new(alloc: A) -> Self
        ensures { result ≡ map.empty }
    {
        Entries {
            tree: BTree::new(alloc),
            marked: 0,
        }
    }

    /// How many there are.
    pub(crate) fn len(&self) -> usize
        ensures { result ≡ map.len self.now }
    {
        self.tree.len()
    }

    /// Whether there is none.
    pub(crate) fn is_empty(&self) -> bool
        ensures { IsTrue result ↔ (self.now ≡ map.empty) }
    {
        self.tree.is_empty()
    }

    /// How many are marked.
    pub(crate) fn marked(&self) -> usize
        ensures { result ≡ marked_in self.now }
    {
        self.marked
    }

    /// The mark of a pair, if it has an entry.
    pub(crate) fn get(&self, pair: &Pair) -> Option<Mark>
        ensures { result ≡ map.get self.now pair.now }
    {
        self.tree.get(pair).0
    }

    /// The least entry whose pair comes after the given one, or the least of all.
    pub(crate) fn above(&self, pair: Option<&Pair>) -> Option<(Pair, Mark)>
        ensures { IsLeastAbove self.now (option_copied pair.entry) result }
    {
        self.tree.above(pair)
    }

    /// The greatest entry whose pair comes before the given one, or the greatest of all.
    pub(crate) fn below(&self, pair: Option<&Pair>) -> Option<(Pair, Mark)>
        ensures { IsGreatestBelow self.now (option_copied pair.entry) result }
    {
        self.tree.below(pair)
    }

    /// The next entries above the pair, or the first of all: some that stand together, in order. There is none only
    /// where none is above.
    pub(crate) fn run_above(&self, pair: Option<&Pair>) -> &[Entry]
        ensures run { IsRunAbove self.now (option_copied pair.entry) result.now }
        ensures none { result.now ≡ [] → IsLeastAbove self.now (option_copied pair.entry) None }
    {
        self.tree.run_above(pair)
    }

    // Puts an absent pair in with a mark. The one error is `NoMemory`.
    fn plant(&mut self, pair: &Pair, mark: Mark) -> Result<(), Error>
        requires room { map.len self.old < ENTRIES_MAX }
        requires absent { IsAbsent self.old pair.now }
        ensures planted { OnOk result (self.new ≡ map.insert self.old pair.now mark) }
        ensures no_memory { IfErr result (λ e. e ≡ Error.NoMemory) }
        ensures unchanged { OnErr result (self.new ≡ self.old) }
    {
        let plan = self.tree.plan_insert(pair)?;
        self.tree.insert(plan, mark);
        self.marked = recount(self.marked, None, Some(mark));
        Ok(())
    }

    // Puts a pair in, live, if its full leaf can hand entries to the leaf before it. Says whether it did. It takes no
    // memory.
    fn put_beside(&mut self, pair: &Pair) -> bool
        requires room { map.len self.old < ENTRIES_MAX }
        ensures put { IsTrue result → self.new ≡ map.insert self.old pair.now Mark.Live }
        ensures unchanged { result ≡ false → self.new ≡ self.old }
    {
        if !self.tree.make_room(pair) {
            return false;
        }
        let InLeaf::Added = self.tree.put_in_leaf(pair, Mark::Live) else {
            return false;
        };
        true
    }

    /// Puts a pair in, live, unless it has an entry, and says whether it did. The one error is `NoMemory`.
    pub(crate) fn put_absent(&mut self, pair: &Pair) -> Result<bool, Error>
        requires room { IsAbsent self.old pair.now → map.len self.old < ENTRIES_MAX }
        ensures put { OnOk result (self.new ≡ entries_after self.old KeyAction.BuildPut pair.now) }
        ensures added { IfOk result (λ added. IsTrue added ↔ IsAbsent self.old pair.now) }
        ensures no_memory { IfErr result (λ e. (e ≡ Error.NoMemory) × IsAbsent self.old pair.now) }
        ensures unchanged { OnErr result (self.new ≡ self.old) }
    {
        match self.tree.put_in_leaf(pair, Mark::Live) {
            InLeaf::Added => return Ok(true),
            InLeaf::Found(_) => return Ok(false),
            InLeaf::NoRoom => {}
        }
        if self.put_beside(pair) {
            return Ok(true);
        }
        self.plant(pair, Mark::Live)?;
        Ok(true)
    }

    /// Gives the entry of a pair a mark, or puts the pair in with it, and says whether it was put in. The one error is
    /// `NoMemory`.
    pub(crate) fn set(&mut self, pair: &Pair, mark: Mark) -> Result<bool, Error>
        requires room { IsAbsent self.old pair.now → map.len self.old < ENTRIES_MAX }
        ensures set { OnOk result (self.new ≡ map.insert self.old pair.now mark) }
        ensures added { IfOk result (λ added. IsTrue added ↔ IsAbsent self.old pair.now) }
        ensures no_memory { IfErr result (λ e. (e ≡ Error.NoMemory) × IsAbsent self.old pair.now) }
        ensures unchanged { OnErr result (self.new ≡ self.old) }
    {
        match self.tree.put_in_leaf(pair, mark) {
            InLeaf::Added => {
                self.marked = recount(self.marked, None, Some(mark));
                return Ok(true);
            }
            InLeaf::Found(before) => {
                self.tree.set_mark(pair, mark);
                self.marked = recount(self.marked, Some(before), Some(mark));
                return Ok(false);
            }
            InLeaf::NoRoom => {}
        }
        self.plant(pair, mark)?;
        Ok(true)
    }

    /// Takes the entry of a pair out, which has this mark. It takes no memory and succeeds.
    pub(crate) fn remove(&mut self, pair: &Pair, mark: Mark)
        requires { map.get self.old pair.now ≡ Some mark }
        ensures { self.new ≡ map.remove self.old pair.now }
    {
        self.tree.remove(pair);
        self.marked = recount(self.marked, Some(mark), None);
    }

    /// Takes every entry out at once, in the memory that they have. It takes no memory and succeeds.
    pub(crate) fn take(&mut self) -> Cleared<A>
        ensures empty { self.new ≡ map.empty }
        ensures taken { contents result ≡ self.old }
    {
        self.marked = 0;
        self.tree.take()
    }
}
