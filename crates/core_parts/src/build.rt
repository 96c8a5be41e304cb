//! The steps of the builder.
ghost use Rattle.std.specs.Prelude.{◌≡◌, ◌≤◌, ◌<◌, ◌+◌, None, Some, IfOk, IfErr, IfSome};
ghost use Rattle.std.specs.Prelude.{OnOk, OnErr};
ghost use Rattle.record_values.specs.Maps.{set_at};
ghost use Rattle.record_values.specs.declared.number.TheConstants.{LAST_NUMBER};
ghost use Rattle.record_values.specs.declared.pair.Pair.{Pair};
ghost use Rattle.records.specs.declared.record.IndexAction.TheVariants as action;
ghost use Rattle.model.specs.Following.{IsBuilding};
ghost use Rattle.model.specs.declared.life.Life.TheVariants as life;
ghost use Rattle.sorted_scan.specs.Scans.{next_of};
ghost use Rattle.core_model.specs.Events.{Event};
ghost use Rattle.core_parts.specs.View.{IsSafe, Serves};
ghost use Rattle.core_parts.specs.Replies.{reply_by};
ghost use Rattle.core_parts.specs.Parts.{parts_of};
ghost use Rattle.core_parts.specs.Builds.{built};
ghost use Rattle.core_parts.specs.Private.{with_record, HasAttempted, HasPassed, HasPut, HasTaken, HasNextNumber};
ghost use Rattle.core_parts.specs.Private.{IsUnplaced, IsUnrecorded, checkpointed, without_entry};

use crate::parts::{CoreParts, Ticket};
use crate::reply::BuildReply;
use marked_index::{Built, MarkedIndex};
use model::Life;
use records::{ATTEMPTS_PER_CHECKPOINT, Action, Error, IndexAction, Pair, Record, RecordNumber};
use std::alloc::Allocator;

fn checkpoint_at(pair: &Pair) -> IndexAction
    ensures { result ≡ action.BuildCheckpoint pair.now }
{
    IndexAction::BuildCheckpoint { pair: *pair }
}

// The life of an index that is being built and whose last checkpoint is this pair.
fn building_from(pair: &Pair) -> Life
    ensures { result ≡ life.Building (Some pair.now) }
{
    Life::Building {
        highest: Some(*pair),
    }
}

fn ticket_of(number: RecordNumber) -> Ticket
    ensures record { result.record ≡ number }
    ensures no_commit { result.commit ≡ None }
{
    Ticket {
        record: number,
        commit: None,
    }
}

// Takes the entry of a pair out again.
fn take_out<A: Allocator + Clone>(index: &mut MarkedIndex<A>, pair: &Pair)
    ensures { index.new ≡ record index.old { entries = set_at index.old.entries pair.now None } }
{
    let Ok(()) = index.load(pair, None) else {
        unreachable!()
    };
}

impl<A: Allocator + Copy> CoreParts<A> {
    /// Puts a record of the index into the outbox. `NoMemory` leaves all as before.
    pub(crate) fn record_index(
        &mut self,
        number: RecordNumber,
        action: IndexAction,
    ) -> Result<(), Error>
        requires number { number ≡ (parts_of self.old).last + 1 }
        requires left { HasNextNumber (parts_of self.old) }
        ensures ok { OnOk result (parts_of self.new ≡ with_record (parts_of self.old) (Action.OfIndex action)) }
        ensures unchanged { OnErr result (parts_of self.new ≡ parts_of self.old) }
        ensures no_memory { IfErr result (λ e. e ≡ Error.NoMemory) }
    {
        let action = Action::OfIndex { action };
        self.outbox.push_back(Record { number, action })?;
        self.last += 1;
        Ok(())
    }

    // The page that the scan wants.
    fn wanted_page(&self) -> Option<u32>
        requires { ∥ IsSafe (parts_of self.now) ∥₁ }
        ensures page { result ≡ (parts_of self.now).scan.wanted }
        ensures inside { IfSome result (λ n. n < (parts_of self.now).heap.pages) }
    {
        self.scan.wants_page()
    }

    fn take_page(&mut self, page: u32) -> Result<(), Error>
        requires wanted { (parts_of self.old).scan.wanted ≡ Some page }
        requires inside { page < (parts_of self.old).heap.pages }
        ensures taken { OnOk result (HasTaken (parts_of self.old) page (parts_of self.new)) }
        ensures unchanged { OnErr result (parts_of self.new ≡ parts_of self.old) }
        ensures no_memory { IfErr result (λ e. e ≡ Error.NoMemory) }
    {
        let pairs = self.heap.page_pairs(page)?;
        self.scan.take_page(page, &pairs)
    }

    // Goes on behind the pair that was attempted.
    fn pass(&mut self, pair: Pair)
        requires next { next_of (parts_of self.old).scan ≡ Some pair }
        requires few { (parts_of self.old).tried < ATTEMPTS_PER_CHECKPOINT }
        ensures { HasPassed (parts_of self.old) pair (parts_of self.new) }
    {
        self.scan.hand_out();
        self.tried += 1;
        self.attempts = self.attempts.saturating_add(1);
    }

    // Attempts a pair where there is no number for its record: one that has an entry is rejected, and
    // another is refused.
    fn reject(&self, pair: &Pair) -> Result<Built, Error>
        requires exhausted { LAST_NUMBER ≤ (parts_of self.now).last }
        ensures rejected { IfOk result (λ built. HasPut (parts_of self.now) pair.now built (parts_of self.now)) }
        ensures refused { IfErr result (IsUnplaced (parts_of self.now) pair.now) }
    {
        if self.index.get(pair).is_some() {
            return Ok(Built::Rejected);
        }
        if self.index.is_full() {
            return Err(Error::IndexFull);
        }
        Err(Error::Exhausted)
    }

    // Makes the record of the pair's new entry, or takes the entry out again.
    fn record_placed(&mut self, number: RecordNumber, pair: Pair) -> Result<(), Error>
        requires number { number ≡ (parts_of self.old).last + 1 }
        requires left { HasNextNumber (parts_of self.old) }
        ensures ok { OnOk result (parts_of self.new ≡ with_record (parts_of self.old)
            (Action.OfIndex (action.BuildPlace pair))) }
        ensures taken_out { OnErr result (parts_of self.new ≡ without_entry (parts_of self.old) pair) }
        ensures no_memory { IfErr result (λ e. e ≡ Error.NoMemory) }
    {
        let action = IndexAction::BuildPlace { pair };
        if let Err(error) = self.record_index(number, action) {
            take_out(&mut self.index, &pair);
            return Err(error);
        }
        Ok(())
    }

    // Gives the pair an entry, with its record, unless it has one.
    fn place(&mut self, number: RecordNumber, pair: Pair) -> Result<Built, Error>
        requires number { number ≡ (parts_of self.old).last + 1 }
        requires left { HasNextNumber (parts_of self.old) }
        ensures put { IfOk result (λ built. HasPut (parts_of self.old) pair built (parts_of self.new)) }
        ensures refused { IfErr result (IsUnplaced (parts_of self.old) pair) }
        ensures unchanged { OnErr result (parts_of self.new ≡ parts_of self.old) }
    {
        match self.index.build_put(&pair)? {
            Built::Rejected => Ok(Built::Rejected),
            Built::Placed => {
                self.record_placed(number, pair)?;
                Ok(Built::Placed)
            }
        }
    }

    // Gives the pair an entry, with its record, unless it has one, as far as there is a number.
    fn put(&mut self, pair: Pair) -> Result<Built, Error>
        ensures put { IfOk result (λ built. HasPut (parts_of self.old) pair built (parts_of self.new)) }
        ensures refused { IfErr result (IsUnplaced (parts_of self.old) pair) }
        ensures unchanged { OnErr result (parts_of self.new ≡ parts_of self.old) }
    {
        match self.next_number() {
            Ok(number) => self.place(number, pair),
            Err(_) => self.reject(&pair),
        }
    }

    // Attempts the pair that the scan has next.
    fn attempt(&mut self, pair: Pair) -> Result<BuildReply, Error>
        requires next { next_of (parts_of self.old).scan ≡ Some pair }
        requires few { (parts_of self.old).tried < ATTEMPTS_PER_CHECKPOINT }
        ensures attempted { IfOk result (λ answer. HasAttempted (parts_of self.old) pair answer (parts_of self.new)) }
        ensures refused { IfErr result (IsUnplaced (parts_of self.old) pair) }
        ensures unchanged { OnErr result (parts_of self.new ≡ parts_of self.old) }
    {
        let built = self.put(pair)?;
        self.pass(pair);
        Ok(match built {
            Built::Placed => BuildReply::Placed(pair),
            Built::Rejected => BuildReply::Rejected(pair),
        })
    }

    // The index's life is this now, as the record says.
    pub(crate) fn turn(&mut self, action: IndexAction, life: Life) -> Result<Ticket, Error>
        ensures ok { OnOk result (parts_of self.new ≡ with_record (record (parts_of self.old) { life = life })
            (Action.OfIndex action)) }
        ensures left { OnOk result (HasNextNumber (parts_of self.old)) }
        ensures ticket { IfOk result (λ t. t.record ≡ (parts_of self.old).last + 1) }
        ensures no_commit { IfOk result (λ t. t.commit ≡ None) }
        ensures refused { IfErr result (IsUnrecorded (parts_of self.old)) }
        ensures unchanged { OnErr result (parts_of self.new ≡ parts_of self.old) }
    {
        let number = self.next_number()?;
        self.record_index(number, action)?;
        self.life = life;
        Ok(ticket_of(number))
    }

    // Makes a checkpoint of the pair attempted last.
    fn checkpoint(&mut self, pair: &Pair) -> Result<Ticket, Error>
        ensures ok { OnOk result (parts_of self.new ≡ checkpointed (parts_of self.old) pair.now) }
        ensures left { OnOk result (HasNextNumber (parts_of self.old)) }
        ensures ticket { IfOk result (λ t. t.record ≡ (parts_of self.old).last + 1) }
        ensures no_commit { IfOk result (λ t. t.commit ≡ None) }
        ensures refused { IfErr result (IsUnrecorded (parts_of self.old)) }
        ensures unchanged { OnErr result (parts_of self.new ≡ parts_of self.old) }
    {
        let ticket = self.turn(checkpoint_at(pair), building_from(pair))?;
        self.tried = 0;
        Ok(ticket)
    }

    // The pair attempted last.
    fn last_attempted(&self) -> Pair
        requires safe { ∥ IsSafe (parts_of self.now) ∥₁ }
        requires building { IsBuilding (parts_of self.now).life }
        requires tried { 1 ≤ (parts_of self.now).tried }
        ensures { (parts_of self.now).scan.last ≡ Some result }
    {
        match self.scan.last() {
            Some(pair) => pair,
            None => unreachable!(),
        }
    }

    /// A step of the builder of an index that is being built.
    pub fn build_on(&mut self) -> Result<BuildReply, Error>
        requires safe { ∥ IsSafe (parts_of self.old) ∥₁ }
        requires building { IsBuilding (parts_of self.old).life }
        ensures { Serves (parts_of self.old) Event.Build (reply_by built result) (parts_of self.new) }
    {
        if self.tried >= u64::from(ATTEMPTS_PER_CHECKPOINT) {
            let pair = self.last_attempted();
            let ticket = self.checkpoint(&pair)?;
            return Ok(BuildReply::Marked(pair, ticket));
        }
        if let Some(page) = self.wanted_page() {
            self.take_page(page)?;
            return Ok(BuildReply::Scanned(page));
        }
        if let Some(pair) = self.scan.next() {
            return self.attempt(pair);
        }
        let ticket = self.turn(IndexAction::BuildDone, Life::Complete)?;
        Ok(BuildReply::Done(ticket))
    }
}
