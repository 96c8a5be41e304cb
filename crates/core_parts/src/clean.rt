//! The steps of the cleaner.
ghost use Rattle.std.specs.Prelude.{◌≡◌, ◌↔◌, true, None, Some, IsTrue, IfErr, OnOk, OnErr};
ghost use Rattle.std.specs.FinMap as map;
ghost use Rattle.records.specs.declared.record.IndexAction.TheVariants as action;
ghost use Rattle.model.specs.Pairs as pairs;
ghost use Rattle.txn_table.specs.Table.{holder_of};
ghost use Rattle.marked_index.specs.Above.{IsLeastAbove};
ghost use Rattle.core_model.specs.Steps.{IsPassed};
ghost use Rattle.core_model.specs.Events.{Event};
ghost use Rattle.core_parts.specs.View.{IsSafe, Serves};
ghost use Rattle.core_parts.specs.Replies.{reply_by};
ghost use Rattle.core_parts.specs.Parts.{parts_of};
ghost use Rattle.core_parts.specs.Cleaning.{cleaner};
ghost use Rattle.core_parts.specs.Private.{HasNextNumber, IsUnrecorded, MayClean, taken_out};

use crate::parts::CoreParts;
use crate::reply::CleanReply;
use model::Life;
use records::{Error, IndexAction, Mark, Pair, Rid, compare_pairs};
use std::alloc::Allocator;

/// Whether no builder comes to the pair any more.
pub(crate) fn is_passed(life: &Life, pair: &Pair) -> bool
    ensures { IsTrue result ↔ IsPassed life.now pair.now }
{
    match life {
        Life::Absent | Life::Building { highest: None } => false,
        Life::Building {
            highest: Some(highest),
        } => !compare_pairs(highest, pair).is_lt(),
        Life::Complete => true,
    }
}

impl<A: Allocator + Copy> CoreParts<A> {
    /// The least entry above the cleaner's place.
    pub fn next_entry(&self) -> Option<(Pair, Mark)>
        ensures { IsLeastAbove (parts_of self.now).index.entries (parts_of self.now).cleaned result }
    {
        self.index.above(self.cleaned.as_ref())
    }

    // Whether no transaction holds the row at the place.
    fn is_unheld(&self, rid: Rid) -> bool
        ensures { IsTrue result ↔ (holder_of rid (parts_of self.now).txns.active ≡ None) }
    {
        self.txns.holder(rid).is_none()
    }

    // Whether the entry of this pair, which has this mark, may be taken out.
    fn may_clean(&self, pair: &Pair, mark: Mark) -> bool
        requires { map.get (parts_of self.now).index.entries pair.now ≡ Some mark }
        ensures { IsTrue result ↔ MayClean (parts_of self.now) pair.now }
    {
        mark == Mark::Marked && self.is_unheld(pair.rid) && is_passed(&self.life, pair)
    }

    // Takes the marked entry of this pair out. `NoMemory` leaves all as before.
    fn take_out(&mut self, pair: &Pair) -> Result<(), Error>
        ensures ok { OnOk result (parts_of self.new ≡ taken_out (parts_of self.old) pair.now) }
        ensures left { OnOk result (HasNextNumber (parts_of self.old)) }
        ensures refused { IfErr result (IsUnrecorded (parts_of self.old)) }
        ensures unchanged { OnErr result (parts_of self.new ≡ parts_of self.old) }
    {
        let number = self.next_number()?;
        let action = IndexAction::Clean { pair: *pair };
        self.record_index(number, action)?;
        self.index.clean(pair, true);
        self.cleaned = Some(*pair);
        Ok(())
    }

    /// The cleaner's step at this entry.
    pub fn clean_at(&mut self, entry: (Pair, Mark)) -> Result<CleanReply, Error>
        requires safe { ∥ IsSafe (parts_of self.old) ∥₁ }
        requires entry { IsLeastAbove (parts_of self.old).index.entries (parts_of self.old).cleaned (Some entry) }
        requires indexed { pairs.is_indexed (parts_of self.old).life ≡ true }
        ensures { Serves (parts_of self.old) Event.Clean (reply_by cleaner result) (parts_of self.new) }
    {
        let (pair, mark) = entry;
        if self.may_clean(&pair, mark) {
            self.take_out(&pair)?;
            return Ok(CleanReply::Cleaned(pair));
        }
        self.cleaned = Some(pair);
        Ok(CleanReply::Kept(pair))
    }
}
