//! The creation and the dropping of the index.
ghost use Rattle.std.specs.Prelude.{◌≡◌, ◌≢◌, ◌+◌, false, None, [], IfOk, IfErr, OnOk, OnErr};
ghost use Rattle.model.specs.Pairs as pairs;
ghost use Rattle.model.specs.declared.life.Life.TheVariants.{Absent};
ghost use Rattle.sorted_scan.specs.Scans.{HasRun, begun, begun_run};
ghost use Rattle.core_parts.specs.Detached.{entries_of};
ghost use Rattle.core_parts.specs.Parts.{parts_of};
ghost use Rattle.core_parts.specs.Private.{HasNextNumber, IsUncreatable, IsUndroppable, IsUnrecorded};
ghost use Rattle.core_parts.specs.Private.{index_created, index_dropped};

use crate::parts::{CoreParts, Detached, Ticket};
use model::Life;
use records::{Error, IndexAction};
use sorted_scan::Scan;
use std::alloc::Allocator;

impl<A: Allocator + Copy> CoreParts<A> {
    /// Why no index can be created, but for want of a number or of memory.
    pub fn may_create(&self) -> Result<(), Error>
        ensures absent { OnOk result (pairs.is_indexed (parts_of self.now).life ≡ false) }
        ensures quiet { OnOk result ((parts_of self.now).txns.active ≡ []) }
        ensures refused { IfErr result (IsUncreatable (parts_of self.now)) }
    {
        if self.indexed() {
            return Err(Error::IndexExists);
        }
        if !self.txns.is_empty() {
            return Err(Error::TxnsActive);
        }
        Ok(())
    }

    /// Leaves an index that is being built, of which nothing is there yet.
    pub fn create(&mut self) -> Result<Ticket, Error>
        ensures ok { OnOk result (parts_of self.new ≡ index_created (parts_of self.old)) }
        ensures run { OnOk result (HasRun (begun None (parts_of self.old).heap.pages)
            (begun_run None (parts_of self.old).heap.pages)) }
        ensures left { OnOk result (HasNextNumber (parts_of self.old)) }
        ensures ticket { IfOk result (λ t. t.record ≡ (parts_of self.old).last + 1) }
        ensures no_commit { IfOk result (λ t. t.commit ≡ None) }
        ensures refused { IfErr result (IsUnrecorded (parts_of self.old)) }
        ensures unchanged { OnErr result (parts_of self.new ≡ parts_of self.old) }
    {
        let life = Life::Building { highest: None };
        let ticket = self.turn(IndexAction::Create, life)?;
        self.scan = Scan::new(self.alloc, None, self.heap.pages());
        self.tried = 0;
        Ok(ticket)
    }

    /// Why the index can't be dropped, but for want of a number or of memory.
    pub fn may_drop(&self) -> Result<(), Error>
        ensures there { OnOk result ((parts_of self.now).life ≢ Absent) }
        ensures quiet { OnOk result ((parts_of self.now).txns.active ≡ []) }
        ensures refused { IfErr result (IsUndroppable (parts_of self.now)) }
    {
        if self.life == Life::Absent {
            return Err(Error::NoIndex);
        }
        if !self.txns.is_empty() {
            return Err(Error::TxnsActive);
        }
        Ok(())
    }

    /// Leaves no index, and nothing of the builder and the cleaner.
    pub fn take_away(&mut self) -> Result<Detached<A>, Error>
        ensures ok { OnOk result (parts_of self.new ≡ index_dropped (parts_of self.old)) }
        ensures run { OnOk result (HasRun (begun None (parts_of self.old).heap.pages)
            (begun_run None (parts_of self.old).heap.pages)) }
        ensures left { OnOk result (HasNextNumber (parts_of self.old)) }
        ensures ticket { IfOk result (λ d. d.ticket.record ≡ (parts_of self.old).last + 1) }
        ensures no_commit { IfOk result (λ d. d.ticket.commit ≡ None) }
        ensures taken { IfOk result (λ d. entries_of d ≡ (parts_of self.old).index.entries) }
        ensures refused { IfErr result (IsUnrecorded (parts_of self.old)) }
        ensures unchanged { OnErr result (parts_of self.new ≡ parts_of self.old) }
    {
        let ticket = self.turn(IndexAction::Drop, Life::Absent)?;
        let entries = self.index.clear();
        self.scan = Scan::new(self.alloc, None, self.heap.pages());
        self.cleaned = None;
        self.tried = 0;
        Ok(Detached { ticket, entries })
    }
}
