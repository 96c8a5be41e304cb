//! The index, and the calls of the host that changes rows.
ghost use Rattle.std.specs.Prelude.{◌≡◌, ◌⊎◌, ◌↔◌, ◌≤◌, None, Some, IfErr, IfOk, IfNone, IfSome};
ghost use Rattle.std.specs.Prelude.{IsTrue, OnErr, OnOk, false};
ghost use Rattle.std.specs.FinMap as map;
ghost use Rattle.std.specs.Option.{option_copied};
ghost use Rattle.record_values.specs.Maps.{set_at};
ghost use Rattle.marked_index.specs.Counts.{marked_in};
ghost use Rattle.online_model.specs.Keeping.{IsCreated};
ghost use Rattle.online_model.specs.Logs.{cells_of, set_by};
ghost use Rattle.online_model.specs.World as step;
ghost use Rattle.online_model.specs.World.{CanClean, IsPassed, World, after};
ghost use Rattle.online_index.specs.Standing.{IsAdding, IsMissing, StandsFor, after_all, marked_if, marks_of};
ghost use Rattle.online_index.specs.Value.{IsRefusal, created, held_by, reopened};

use crate::entries::Entries;
use crate::walk::Walk;
use online_model::{Life, Note};
use record_values::{Error, Mark, Pair, compare_pairs};
use std::marker::Model;

/// How many entries there are.
#[derive(Clone, Copy, Debug, PartialEq, Eq)]
pub struct Counts {
    /// Live and marked ones.
    pub entries: usize,
    pub marked: usize,
}

/// Whether no builder comes to the pair, also not after a stop.
fn is_passed(life: &Life, pair: &Pair) -> bool
    ensures { IsTrue result ↔ IsPassed life.now pair.now }
{
    match life {
        Life::Building { highest: None } => false,
        Life::Building {
            highest: Some(highest),
        } => !compare_pairs(highest, pair).is_lt(),
        Life::Complete => true,
    }
}

// The pair of the last checkpoint, while the index is built.
fn highest_of(life: &Life) -> Option<Pair>
    ensures { result ≡ step.highest_of life.now }
{
    match life {
        Life::Building { highest } => *highest,
        Life::Complete => None,
    }
}

/// One index of a table that a host keeps.
#[derive(Drop)]
pub struct OnlineIndex<E: Entries, W: Walk> {
    pub(crate) entries: E,
    pub(crate) life: Life,
    pub(crate) walk: W,
    // the attempts since the last checkpoint
    pub(crate) attempts: u32,
}

impl<E: Entries, W: Walk> Model for OnlineIndex<E, W> {
    ghost use Rattle.online_index.specs.Value.{IndexValue, coded_index};

    ghost Value = { IndexValue };

    ghost coded = { coded_index };

    ghost view = { λ x. record {
      entries = E.entries x.entries;
      capacity = E.capacity x.entries;
      life = x.life;
      scan = W.scan x.walk;
      attempts = x.attempts;
    } };
}

impl<E: Entries, W: Walk> OnlineIndex<E, W> {
    /// An index of a table whose rows lie in these pages, 0 to `pages` - 1, none of them with an unfinished change. It
    /// is to be built.
    pub fn create(entries: E, mut walk: W, pages: u32) -> Self
        requires { E.entries entries ≡ map.empty }
        ensures stands { (w : World) → IsCreated w → w.pages ≡ pages → StandsFor result w }
        ensures new { result ≡ created (E.capacity entries) pages }
    {
        walk.begin(None, pages);
        OnlineIndex {
            entries,
            life: Life::Building { highest: None },
            walk,
            attempts: 0,
        }
    }

    /// Marks the pair: the host is about to change the row that has it, or takes it from a row again, or is to give it
    /// to a row. To be logged as `EntryIs(pair, Some(Mark::Marked))`. A pair that has an entry is never refused.
    pub fn mark(&mut self, pair: &Pair) -> Result<(), Error>
        ensures stands { OnOk result ((w : World) → StandsFor self.old w
            → StandsFor self.new (after w (step.Mark pair.now))) }
        ensures ok { OnOk result (self.new ≡ record self.old {
          entries = set_at self.old.entries pair.now (Some Mark.Marked);
        }) }
        ensures refused { IfErr result (λ e. (map.get self.old.entries pair.now ≡ None) × IsRefusal self.old e) }
        ensures unchanged { OnErr result (self.new ≡ self.old) }
    {
        self.entries.set(pair, Some(Mark::Marked))
    }

    /// Makes the pair visible: its row has it now. To be logged as `EntryIs(pair, Some(Mark::Live))`. A pair that has
    /// an entry is never refused.
    pub fn put(&mut self, pair: &Pair) -> Result<(), Error>
        ensures stands { OnOk result ((w : World) → StandsFor self.old w
            → StandsFor self.new (after w (step.Put pair.now))) }
        ensures ok { OnOk result (self.new ≡ record self.old {
          entries = set_at self.old.entries pair.now (Some Mark.Live);
        }) }
        ensures refused { IfErr result (λ e. (map.get self.old.entries pair.now ≡ None) × IsRefusal self.old e) }
        ensures unchanged { OnErr result (self.new ≡ self.old) }
    {
        self.entries.set(pair, Some(Mark::Live))
    }

    // Marks the pair, if there is one.
    fn mark_if(&mut self, pair: Option<&Pair>) -> Result<(), Error>
        ensures ok { OnOk result (self.new ≡ record self.old {
          entries = marked_if self.old.entries (option_copied pair.entry);
        }) }
        ensures refused { IfErr result (λ e. IsMissing self.old.entries (option_copied pair.entry)
            × IsRefusal self.old e) }
        ensures unchanged { OnErr result (self.new ≡ self.old) }
    {
        match pair {
            Some(pair) => self.mark(pair),
            None => Ok(()),
        }
    }

    // Gives the pair, which has an entry, the mark back that it had, or takes it out.
    fn set_back(&mut self, pair: &Pair, mark: Option<Mark>)
        requires { map.get self.old.entries pair.now ≡ Some Mark.Marked }
        ensures { self.new ≡ record self.old { entries = set_at self.old.entries pair.now mark } }
    {
        match self.entries.set(pair, mark) {
            Ok(()) => {}
            Err(_) => unreachable!(),
        }
    }

    /// Prepares a change: marks the pair that the row has, if there is a row, and the pair that it is to have, if there
    /// is one. Where it is refused, neither is marked. Once it is not refused, `mark` and `put` of these pairs are not
    /// refused as long as `clean` takes neither out; so the change, and taking it back, need no memory. To be logged as
    /// for `mark`, the old pair first.
    pub fn prepare(&mut self, old: Option<&Pair>, new: Option<&Pair>) -> Result<(), Error>
        ensures stands { OnOk result ((w : World) → StandsFor self.old w
            → StandsFor self.new (after_all w (marks_of (option_copied old.entry) (option_copied new.entry)))) }
        ensures ok { OnOk result (self.new ≡ record self.old {
          entries = marked_if (marked_if self.old.entries (option_copied old.entry)) (option_copied new.entry);
        }) }
        ensures refused { IfErr result (λ e. (IsMissing self.old.entries (option_copied old.entry)
            ⊎ IsMissing self.old.entries (option_copied new.entry))
            × (IsRefusal self.old e ⊎ IsRefusal (record self.old {
              entries = marked_if self.old.entries (option_copied old.entry);
            }) e)) }
        ensures unchanged { OnErr result (self.new ≡ self.old) }
    {
        let Some(pair) = old else {
            return self.mark_if(new);
        };
        let before = self.get(pair);
        self.mark(pair)?;
        if let Err(error) = self.mark_if(new) {
            self.set_back(pair, before);
            return Err(error);
        }
        Ok(())
    }

    /// Takes the entry of a pair out where it is marked and the build has passed it for good, and returns whether it
    /// did. To be logged as `EntryIs(pair, None)` where it did. It takes no memory.
    pub fn clean(&mut self, pair: &Pair) -> bool
        ensures cleaned { IsTrue result → (w : World) → StandsFor self.old w
            → CanClean w pair.now × StandsFor self.new (after w (step.Clean pair.now)) }
        ensures ok { IsTrue result → self.new ≡ record self.old { entries = set_at self.old.entries pair.now None } }
        ensures exactly { IsTrue result ↔ ((map.get self.old.entries pair.now ≡ Some Mark.Marked)
            × IsPassed self.old.life pair.now) }
        ensures unchanged { result ≡ false → self.new ≡ self.old }
    {
        if self.entries.get(pair) != Some(Mark::Marked) || !is_passed(&self.life, pair) {
            return false;
        }
        match self.entries.set(pair, None) {
            Ok(()) => true,
            Err(_) => unreachable!(),
        }
    }

    /// Sets what a note of the host's log says. The notes are redone in the order of the log. To redo a note again
    /// changes nothing. It is refused only where an entry is to be added.
    pub fn redo(&mut self, note: &Note) -> Result<(), Error>
        ensures ok { OnOk result (held_by self.new ≡ set_by (held_by self.old) note.now) }
        ensures same_capacity { self.new.capacity ≡ self.old.capacity }
        ensures same_scan { self.new.scan ≡ self.old.scan }
        ensures same_attempts { self.new.attempts ≡ self.old.attempts }
        ensures refused { IfErr result (λ e. IsAdding self.old.entries note.now × IsRefusal self.old e) }
        ensures unchanged { OnErr result (self.new ≡ self.old) }
    {
        match note {
            Note::EntryIs(pair, mark) => self.entries.set(pair, *mark),
            Note::LifeIs(life) => {
                self.life = *life;
                Ok(())
            }
        }
    }

    /// After a stop, once all notes are redone: the builder goes on above the checkpoint, and reads as many pages as it
    /// was to read when the index was created. It takes no memory.
    pub fn reopen(&mut self, pages: u32)
        ensures stands { (w : World) → cells_of w ≡ held_by self.old → w.pages ≡ pages
            → StandsFor self.new (after w step.Reopen) }
        ensures new { self.new ≡ reopened self.old pages }
    {
        let highest = highest_of(&self.life);
        self.walk.begin(highest, pages);
        self.attempts = 0;
    }

    /// How far the index is built.
    pub fn life(&self) -> Life
        ensures { result ≡ self.now.life }
    {
        self.life
    }

    /// How many entries there are, and how many of them are marked.
    pub fn counts(&self) -> Counts
        ensures entries { result.entries ≡ map.len self.now.entries }
        ensures marked { result.marked ≡ marked_in self.now.entries }
    {
        Counts {
            entries: self.entries.len(),
            marked: self.entries.marked(),
        }
    }

    /// How many entries there may be.
    pub fn capacity(&self) -> usize
        ensures { result ≡ self.now.capacity }
    {
        self.entries.capacity()
    }

    /// The mark of a pair, if it has an entry. The pair is visible where it is `Live`.
    pub fn get(&self, pair: &Pair) -> Option<Mark>
        ensures { result ≡ map.get self.now.entries pair.now }
    {
        self.entries.get(pair)
    }
}
