//! What the core is asked.
ghost use Rattle.std.specs.Prelude.{◌≡◌, IfSome, IfNone, None};
ghost use Rattle.core_model.specs.Events as events;
ghost use Rattle.core_parts.specs.Moves.{IsReadyOrNone, IsUnready, OwesNone, OwesOrNone, txn_shown};

use crate::parts::EngineParts;
use crate::{Event, Reply};
use nsf_core::Undone;
use records::{Body, Error, Key, Rid, Txn};
use sector_device::Device;
use std::alloc::Allocator;

impl<D: Device, A: Allocator + Copy> EngineParts<D, A> {
    ghost use Rattle.std.specs.Prelude.{IsTrue, false};
    ghost use Rattle.restart.specs.Parts.{core_of};
    ghost use Rattle.restart.specs.History.{asked};
    ghost use Rattle.restart.specs.Lawful.{IsInCore, ServesInCore};

    /// What the core answers; none to a flush or a copy, which ask nothing of it.
    pub(crate) fn ask_core(&mut self, event: Event) -> Option<Reply<A>>
        ensures some { IfSome result (λ reply. IsInCore event reply self.old self.new) }
        ensures none { IfNone result ((asked event ≡ None) × (self.new ≡ self.old)) }
    {
        match event {
            Event::Begin => Some(self.begin()),
            Event::Insert { txn, key, body } => Some(self.insert(txn, key, body)),
            Event::Delete { txn, rid } => Some(self.delete(txn, rid)),
            Event::Update {
                txn,
                rid,
                key,
                body,
            } => Some(self.update(txn, rid, key, body)),
            Event::Step { txn } => Some(self.owed_step(txn)),
            Event::Undo { txn } => Some(self.undo(txn)),
            Event::End { txn } => Some(self.end(txn)),
            Event::Commit { txn } => Some(self.commit(txn)),
            Event::Create => Some(self.create()),
            Event::Drop => Some(self.drop_index()),
            Event::Build => Some(self.build()),
            Event::Clean => Some(self.clean()),
            Event::Flush => None,
            Event::Copy => None,
            Event::Get { rid } => Some(self.get(rid)),
            Event::Find { key } => Some(self.find(key)),
            Event::Life => Some(self.life()),
        }
    }

    // Whether the transaction is active, and owes a step or is rolling back.
    fn is_unready(&self, txn: Txn) -> bool
        ensures yes { IsTrue result → IsUnready (txn_shown (core_of self.now) txn) }
        ensures no { result ≡ false → IsReadyOrNone (txn_shown (core_of self.now) txn) }
    {
        self.core.is_active(txn) && !self.core.ready(txn)
    }

    fn begin(&mut self) -> Reply<A>
        ensures { ServesInCore events.Begin result self.old self.new }
    {
        match self.core.begin() {
            Ok(txn) => Reply::Txn(txn),
            Err(error) => Reply::Refused(error),
        }
    }

    fn insert(&mut self, txn: Txn, key: Key, body: Body) -> Reply<A>
        ensures { ServesInCore (events.Insert txn (record { key = key; body = body })) result self.old self.new }
    {
        if self.is_unready(txn) {
            return Reply::Skipped;
        }
        match self.core.start_insert(txn, key, body) {
            Ok(rid) => Reply::Rid(rid),
            Err(error) => Reply::Refused(error),
        }
    }

    fn delete(&mut self, txn: Txn, rid: Rid) -> Reply<A>
        ensures { ServesInCore (events.Delete txn rid) result self.old self.new }
    {
        if self.is_unready(txn) {
            return Reply::Skipped;
        }
        match self.core.start_delete(txn, rid) {
            Ok(()) => Reply::Stepped,
            Err(error) => Reply::Refused(error),
        }
    }

    fn update(&mut self, txn: Txn, rid: Rid, key: Key, body: Body) -> Reply<A>
        ensures { ServesInCore (events.Update txn rid (record { key = key; body = body })) result self.old self.new }
    {
        if self.is_unready(txn) {
            return Reply::Skipped;
        }
        match self.core.start_update(txn, rid, key, body) {
            Ok(()) => Reply::Stepped,
            Err(error) => Reply::Refused(error),
        }
    }

    // Whether the transaction is active, and owes no step of a change.
    fn owes_none(&self, txn: Txn) -> bool
        ensures yes { IsTrue result → OwesNone (txn_shown (core_of self.now) txn) }
        ensures no { result ≡ false → OwesOrNone (txn_shown (core_of self.now) txn) }
    {
        self.core.is_active(txn) && self.core.owes(txn).is_none()
    }

    fn owed_step(&mut self, txn: Txn) -> Reply<A>
        ensures { ServesInCore (events.Step txn) result self.old self.new }
    {
        if self.owes_none(txn) {
            return Reply::Skipped;
        }
        match self.core.next_step(txn) {
            Ok(()) => Reply::Stepped,
            Err(error) => Reply::Refused(error),
        }
    }

    fn undo(&mut self, txn: Txn) -> Reply<A>
        ensures { ServesInCore (events.Undo txn) result self.old self.new }
    {
        match self.core.undo_step(txn) {
            Ok(Undone::Step) => Reply::Undone,
            Ok(Undone::Empty) => Reply::Empty,
            Err(error) => Reply::Refused(error),
        }
    }

    fn end(&mut self, txn: Txn) -> Reply<A>
        ensures { ServesInCore (events.End txn) result self.old self.new }
    {
        if !self.core.may_end(txn) {
            return Reply::Skipped;
        }
        match self.core.end(txn) {
            Ok(()) => Reply::Ended,
            Err(error) => Reply::Refused(error),
        }
    }

    fn commit(&mut self, txn: Txn) -> Reply<A>
        ensures { ServesInCore (events.Commit txn) result self.old self.new }
    {
        if self.is_unready(txn) {
            return Reply::Skipped;
        }
        match self.core.commit(txn) {
            Ok(ticket) => Reply::Ticket(ticket),
            Err(error) => Reply::Refused(error),
        }
    }

    fn create(&mut self) -> Reply<A>
        ensures { ServesInCore events.Create result self.old self.new }
    {
        match self.core.create_index() {
            Ok(created) => Reply::Ticket(created),
            Err(error) => Reply::Refused(error),
        }
    }

    fn drop_index(&mut self) -> Reply<A>
        ensures { ServesInCore events.Drop result self.old self.new }
    {
        match self.core.drop_index() {
            Ok(dropped) => Reply::Ticket(dropped),
            Err(error) => Reply::Refused(error),
        }
    }

    fn build(&mut self) -> Reply<A>
        ensures { ServesInCore events.Build result self.old self.new }
    {
        match self.core.build_step() {
            Ok(done) => Reply::Built(done),
            Err(error) => Reply::Refused(error),
        }
    }

    fn clean(&mut self) -> Reply<A>
        ensures { ServesInCore events.Clean result self.old self.new }
    {
        match self.core.clean_step() {
            Ok(done) => Reply::Cleaned(done),
            Err(error) => Reply::Refused(error),
        }
    }

    fn get(&self, rid: Rid) -> Reply<A>
        ensures { ServesInCore (events.Get rid) result self.now self.now }
    {
        Reply::Row(self.core.get(rid))
    }

    fn find(&self, key: Key) -> Reply<A>
        ensures { ServesInCore (events.Find key) result self.now self.now }
    {
        match self.core.find(key) {
            Ok(rids) => Reply::Found(rids),
            Err(error) => Reply::Refused(error),
        }
    }

    fn life(&self) -> Reply<A>
        ensures { ServesInCore events.Life result self.now self.now }
    {
        Reply::Life(self.core.life())
    }
}
